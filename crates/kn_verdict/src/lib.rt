//! The verdict on a group of clauses that may hide a count: whether what its clauses say of its border is
//! "at least so many of these literals", for which bound, or else where it differs. What a count is stands in
//! `specs/Cardinals.antt`, and what each answer says in `specs/Verdicts.antt`. A group of at most 12 variables
//! is decided by its truth table (`specs/Numbered.antt`), and eliminated only where it is a klause. The clauses
//! of a larger one are eliminated by decision diagrams; of each node of the result two numbers are kept, by
//! which a count is told (`specs/Numbers.antt`).
#![tactic(auto)]

mod answer; // `Verdict`
mod decide; // `verdict`
mod few;
mod fewest;
mod laws;
mod measure;
mod measures;
mod walk;
mod witness;

pub use answer::Verdict;
pub use decide::verdict;
pub use laws::{a_group_has_one_bound, a_verdict_is_exact};

#[cfg(test)]
mod tests;
