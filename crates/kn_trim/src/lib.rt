//! Trimming: a proof is cut down to the lines that its refutation needs. `trim` checks the text of a proof,
//! goes over its lines from the last one back to find those that are needed, and writes these with their used
//! hints alone, numbered anew. The definitions stand in `specs/`: which hints of a line are used (`Used`), which
//! lines are needed and what text they make (`Needed`, over the new numbers of `Numbers`). `Trimming` has the
//! words of the contract; `Noting`, `Marking` and `Reading` say what the three walks find.
#![tactic(auto)]

mod given;
mod hints;
mod laws;
mod lean;
mod marking;
mod needs;
mod numbers;
mod reader;
mod reading;
mod renumbering;
mod text;
mod trimming;
mod writing;

pub use laws::{one_trimmed, trimmed_is_proof, used_hints_suffice};
pub use text::TrimText;
pub use trimming::{Trimmed, trim};

#[cfg(test)]
mod tests;
