//! Conflict analysis: what a search learns where propagation ends in conflict. The layer above uses `learn`, or
//! `learn_with` and an `Analysis` that it keeps from conflict to conflict, `root_hints` where nothing was assumed,
//! and `is_locked` before it removes a constraint. The definitions that their contracts cite stand in
//! `specs/Lessons`.
#![tactic(auto)]

mod analysis;
mod learned;
mod learning;
mod locking; // `is_locked`
mod marks;
mod noting;
mod reading;
mod removing;
mod rooting; // `root_hints`
mod seeing;
mod sweeping;
mod walking;

pub use analysis::Analysis;
pub use learned::Learned;
pub use learning::{learn, learn_with};
pub use locking::is_locked;
pub use rooting::root_hints;
use std::alloc::AllocError;

/// Want of memory.
pub type NoMemory = AllocError;

#[cfg(test)]
mod tests;
