//! The search for a model of the constraints of an engine, or for their refutation: it propagates, learns a clause of
//! each conflict, goes back, and assumes a literal where nothing is forced, until each variable has a value, or a
//! conflict needs no assumption, or its budget of learned clauses is spent. Each learned clause is logged with its
//! hints before it is used, so that whatever the search answers its proof steps; and each is new, so that a large
//! enough budget is never spent.
//! The definitions stand in `specs/`: how the engine stands to the log (`Mirrors`), and what an outcome says
//! (`Outcomes`); `Deciding` and `Searches` have the words of private contracts.
#![tactic(auto)]

mod concluding;
mod decider;
mod diving;
mod forgetting;
mod guide;
mod heap;
mod laws;
mod loading;
mod outcome;
mod restarts;
mod searching;

pub use laws::large_budgets_are_not_spent;
pub use loading::{engine_of, load};
pub use outcome::{Options, Outcome, SearchError};
pub use searching::search;

#[cfg(test)]
mod tests;
