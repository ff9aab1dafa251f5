//! The kinds of watched constraints: a clause that watches two places (`ClauseWatch`), a klause (`KlauseWatch`)
//! and a klause with a guard (`GuardWatch`) that mark the places they watch, and either of the last two
//! (`CardWatch`). That they keep the laws of a watched constraint is their implementation of
//! `kn_watch::Watched`. The definitions in `specs/` say which places count as the latest to watch
//! (`Latest`), and what the code keeps (`Kinds`).
#![tactic(auto)]

mod card_watch;
mod clause_watch;
mod guard_watch;
mod klause_watch;
mod marks;
mod rank;
mod survey;

pub use card_watch::CardWatch;
pub use clause_watch::ClauseWatch;
pub use guard_watch::GuardWatch;
pub use klause_watch::KlauseWatch;

#[cfg(test)]
mod tests;
