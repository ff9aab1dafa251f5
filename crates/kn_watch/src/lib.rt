//! The trail of a search, and what it is to watch a constraint. A search makes literals true one after
//! another and takes them back (`Trail`). A constraint that watches some of its places need be looked at
//! only when a watched literal becomes false: `Watched` is the trait of such constraints, with the laws that
//! an engine rests on, whatever the kind of constraint. The definitions stand in `specs/`: what a trail is
//! (`Trails`), and what it makes of a constraint (`Watches`: conflicting, forced, satisfied, settled).
#![tactic(auto)]

mod laws;
mod looking; // `look`, `forced` and `is_conflicting`
mod trail;
mod watched;

pub use laws::settled_is_quiet;
pub use looking::{forced, is_conflicting, look};
use std::alloc::AllocError;
pub use trail::{Made, Trail};
pub use watched::{Look, Visit, Watched};

/// Want of memory.
pub type NoMemory = AllocError;

#[cfg(test)]
mod tests;
