//! Truth tables over at most 12 variables, in 64 bits a word. A table is its function at every index:
//! index i gives variable j the bit j of i, both from 0. The definitions stand in `specs/`: indices
//! (`Indices`), tables and what a call makes of them (`Tables`). Words are joined, compared and quantified
//! in lanes, and one at a time where fewer are left. No call takes memory or refuses.
#![tactic(auto)]

mod join;
mod lanes;
mod laws;
mod literal;
mod quantify;
mod table;
mod words;

pub use laws::an_index_with_a_value;
pub use literal::TableLit;
pub use table::Table;

#[cfg(test)]
mod tests;
