//! The opening of a solver's proof: each klause of an extraction is justified, and the clauses of its group are
//! deleted. The layer above uses `open`; what an opening leaves is in `specs/Openings`.
#![tactic(auto)]

mod justifying;
mod opening;

pub use opening::open;

#[cfg(test)]
mod tests;
