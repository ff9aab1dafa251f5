//! The constraints of a formula under ids, from which some are taken out and to which others are added, with
//! the ids of the constraints that name each variable at hand. What a store is seen as, and what its type
//! keeps, is in `specs/Stores.antt`.
#![tactic(auto)]

mod ids;
mod lists;
mod slots;
mod store;

pub use store::Store;

#[cfg(test)]
mod tests;
