//! The lines of a proof: their type, their reader and their writer. A reader of proofs uses `read_line`
//! on each line of a text, a maker of proofs `write_line`; `specs/Lines.antt` says how each kind of line
//! is spelled.
#![tactic(auto)]

mod error;
mod ids;
mod laws;
mod line;
mod reading;
mod writing;

pub use error::LineError;
pub use ids::Ids;
pub use laws::{one_spelling, written_line_is_read};
pub use line::{Arm, Line};
pub use reading::read_line;
use std::alloc::AllocError;
pub use writing::write_line;

/// Want of memory.
pub type NoMemory = AllocError;

#[cfg(test)]
mod tests;
