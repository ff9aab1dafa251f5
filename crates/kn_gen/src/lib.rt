//! A family of formulas without a model whose counts are hidden in clauses: blocks of eight variables, of
//! which at most so many and at least so many are true, written as sequential counters. The definition
//! stands in `specs/Blocks`. `make_formula` gives the formula of so many blocks.
#![tactic(auto)]

mod blocks;
mod generate; // `make_formula`
mod laws;

pub use generate::{MAX_BLOCKS, make_formula};
pub use laws::{blocks_are_counted, blocks_have_no_model};

#[cfg(test)]
mod tests;
