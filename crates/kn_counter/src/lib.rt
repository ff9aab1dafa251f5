//! Counters: the grid of a count, by which a proof names a constraint's decision diagram, and sequential
//! counters, which turn constraints into clauses. The definitions stand in `specs/`: what a node of the grid
//! says (`Grids`), and what the clauses of a formula are (`Counters`).
#![tactic(auto)]

mod clauses;
mod counting;
mod error;
mod grid;
mod laws;
mod row;
mod rows;
mod sizes;

pub use counting::{MAX_COUNTED, counted};
pub use error::CountError;
pub use grid::{Cell, grid_cell, grid_says};
pub use laws::counted_keeps_models;

#[cfg(test)]
mod tests;
