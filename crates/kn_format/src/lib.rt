//! Texts of formulas and models: DIMACS CNF, and KNF, which has klauses too. The layer above reads a
//! formula whole with `read_formula`, which spells out the first fault of a text that is none, and writes
//! formulas and models with `write_knf`, `write_cnf` and `write_model`. How a text spells a formula stands
//! in `specs/Grammar`, its first fault in `specs/Faults` and by the grammar alone in `specs/FirstFaults`, and
//! the texts that are written in `specs/Texts`.
#![tactic(auto)]

pub mod cause;
mod error;
mod format;
mod header;
mod laws;
mod place;
mod read;
mod reader;
mod write;

pub use error::{ReadError, Refusal};
pub use format::Format;
pub use laws::{
    a_first_fault_leaves_no_formula, a_text_has_one_reading,
    what_leaves_no_formula_is_the_first_fault,
};
pub use read::read_formula;
pub use write::{write_cnf, write_knf, write_model};

#[cfg(test)]
mod tests;
