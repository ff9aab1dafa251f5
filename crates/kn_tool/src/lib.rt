//! The program as a function: `run` reads the words of a command line, does what they ask for over
//! sources and sinks of bytes, and answers. Its contract is put together in `specs/Outcomes.antt` from what each
//! command says: `Checks`, `Solves`, `Extracts`, `Conversions`, `Trims` and `Works` have a table of rows each, which
//! answer comes when and with which text, what it promises, and what is answered where nothing is in the way. The
//! command lines stand in `Words`, the texts and statuses in `Answers`, what a call does to sources and sinks in
//! `Changes`, what is read of a formula's file in
//! `Files`. `Replies` has what the private functions hand to one another, which no reader must believe.
#![tactic(auto)]

mod answer;
mod checking;
mod command; // `parse`
mod converting;
mod extracting;
mod files;
mod laws;
mod naming;
mod reply;
mod solving;
mod top; // `run`
mod trimming;
mod working;

pub use answer::{Answer, Which};
pub use command::{Command, Names, parse};
pub use files::MAX_BYTES;
pub use laws::words_ask_for_one_command;
pub use naming::names;
pub use top::run;

#[cfg(test)]
mod tests;
#[cfg(test)]
mod work_tests;
