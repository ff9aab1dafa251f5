//! The elimination of a group's auxiliary variables, by "for some value of a variable" of the functions of
//! nodes, with traces of which a proof can be made. `exists` quantifies one variable; what it means and
//! what its traces hold is in `specs/Quantified.antt`. `eliminate` takes the auxiliary variables of a group
//! in turn; the run that it makes is defined on functions alone in `specs/Runs.antt`, and what its
//! `Elimination` hands out of it is in `specs/Eliminations.antt`.
#![tactic(auto)]

mod elimination;
mod error;
mod laws;
mod piece;
mod quantify; // `exists`
mod run; // `eliminate`
mod stage;
#[cfg(test)]
mod tests;
mod work;

pub use elimination::Elimination;
pub use error::QuantError;
pub use laws::{a_group_has_one_run, rebuilt_values_hold, small_groups_are_narrow};
pub use quantify::exists;
pub use run::eliminate;
pub use stage::{Bucket, Stage};
