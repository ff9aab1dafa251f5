//! A log of a proof, whose lines are written to a sink as they are made. What makes proofs keeps a `Log`:
//! it adds only lines that are known to step, reads off which ids are live, and has at each time the text
//! of a proof as far as it goes. `specs/Logs.antt` says what a call does to the log and its sink,
//! `specs/Written.antt` has the lines of several calls together, for the layers above: a list of lines that were
//! added, and one whose last line was not written whole. The laws say that
//! the text is read as the lines that were logged, and so is a proof once the log is refuted.
#![tactic(auto)]

mod error;
mod laws;
mod log;

pub use error::LogError;
pub use laws::{adding_joins, breaking_joins, learned_lines_are_counted, written_proof_is_read};
pub use log::Log;

#[cfg(test)]
mod tests;
