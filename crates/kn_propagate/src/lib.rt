//! Propagation over constraints of any two kinds that watch their literals. The layer above uses `Engine` and
//! the definitions of `specs/Engines`: what an engine is seen as, and what its type keeps.
#![tactic(auto)]

mod attaching;
mod chains;
mod detaching;
mod engine;
mod inserting;
mod settling;
mod slot;
mod step;
#[cfg(test)]
mod tests;
mod visiting;
mod walking;

pub use engine::Engine;
use std::alloc::AllocError;
pub use step::Step;

/// Want of memory.
pub type NoMemory = AllocError;
