//! The checker of proofs, which is exact, and the law that an accepted proof leaves its formula without a
//! model. `check` answers for a whole text; what makes proofs line by line keeps a `Checker` beside it, and
//! reads off which ids are live. `Assumed` is a list of literals that are taken to be true, as a run of hints
//! keeps it, of use to a search too. The definitions stand in `specs/`: what ids stand for (`States`), which variables
//! stand for the nodes of a count's grid (`Grids`), what a line asks of a state and makes of it (`Steps`), or why
//! it does not step (`Causes`), lines one after another (`Stepping`), whole proofs and their first fault
//! (`Proofs`), and the lines that a search may add (`Searching`), of which there are few by law. `Feeding` and
//! `Checking` have the words of the contracts, `Marks`, `Demands`, `Entries`, `Packing`, `Lives`, `Lent` and
//! `Restoring` what the code keeps.
//! `check` steps by a `Machine`, which makes the four constraints of a definition where a hint asks for one of them;
//! a `Checker` has them in memory too, since it lends the constraint of any id.
#![tactic(auto)]

mod assumed;
pub mod cause;
mod checker;
mod clauses;
mod definition;
mod definitions;
mod deletion;
mod demands;
mod entries;
mod four;
mod given;
mod grid;
mod hints;
mod ids;
mod known;
mod laws;
mod live;
mod machine;
mod made;
mod packed;
mod slot;
mod whole; // `check`

pub use assumed::Assumed;
pub use checker::{Checker, FeedError};
pub use definition::Definition;
pub use given::{Given, Origin};
pub use laws::{
    a_variable_has_one_count, definitions_are_kept, never_both, proof_refutes, searches_go_on,
    searches_learn_few,
};
pub use whole::{Checked, check};

#[cfg(test)]
mod tests;
