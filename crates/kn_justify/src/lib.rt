//! Proofs that a group of clauses makes its klause: the lines that end with the klause in place of the clauses.
#![tactic(auto)]

mod clauses; // `clause_unit`
mod closing;
mod counts;
mod defining;
mod eliminations; // `justify_elimination`
mod joins;
mod lemmas;
mod name;
mod named;
mod naming;
mod noted;
mod pair_groups; // `justify_pairs`
mod pair_ids;
mod pairs;
mod quantified;
mod settling;
mod side;
mod stages;
mod units; // `and_unit` and `exists_unit`

pub use clauses::clause_unit;
pub use eliminations::justify_elimination;
pub use named::Named;
pub use naming::name_nodes;
pub use pair_groups::justify_pairs;
pub use units::{and_unit, exists_unit};

#[cfg(test)]
mod tests;
