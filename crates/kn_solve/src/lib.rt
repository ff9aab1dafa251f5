//! Solving, whole: the opening of a proof for an extraction, the search behind it, and the values that a model gives to
//! auxiliary variables. The layer above uses `solve`; what an outcome says is in `specs/Solutions`.
#![tactic(auto)]

mod laws;
mod loading;
mod solving;

pub use laws::solver_proofs_learn_few;
pub use solving::solve;

#[cfg(test)]
mod tests;
