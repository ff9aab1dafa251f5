//! Literals, constraints, formulas and assignments, and what it means that an assignment satisfies a
//! formula. Every other crate stands on these types and on the definitions in `specs/`: a constraint
//! holds (`Constraints`), an assignment is a model (`Formulas`), a list of literals is closed under
//! propagation, a run of hints ends in conflict (`Propagation`).
#![tactic(auto)]

mod assignment;
mod constraint;
mod formula;
mod group;
mod lit;
mod meaning; // `holds` and `satisfies`

pub use assignment::Assignment;
pub use constraint::Constraint;
pub use formula::Formula;
pub use group::Group;
pub use lit::Lit;
pub use meaning::{holds, satisfies};
use std::alloc::AllocError;

/// Want of memory.
pub type NoMemory = AllocError;

#[cfg(test)]
mod tests;
