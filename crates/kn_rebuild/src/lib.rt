//! Values for the auxiliary variables of groups that were taken out of a formula: a model of what remains becomes one
//! of the formula. The layer above uses `rebuild`; the rule that gives each value is in `specs/Rebuilding`.
#![tactic(auto)]

mod groups; // `rebuild`
mod variables;

pub use groups::rebuild;

#[cfg(test)]
mod tests;
