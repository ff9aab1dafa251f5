//! Groups of clauses that may hide a count are guessed: from a variable, by its neighbours (`aux_guess`), or
//! from a binary clause, by the binary clauses that join it (`pair_guess`). What is guessed is defined in
//! `specs/Guesses.antt`, and why a variable has no guess in `specs/Refusals.antt`.
#![tactic(auto)]

mod binary;
mod border;
mod covering;
mod deep;
mod error; // `NoGuess`
mod flag_set;
mod flags;
mod gathering;
mod growing;
mod guess;
mod joining;
mod laws;
mod marks;
mod meeting;
mod numbers;
mod pairs; // `pair_guess`
mod partner;
mod rows;
mod seeds; // `aux_guess`
mod tables;
mod taking;
mod var_set;
mod walking;

pub use error::NoGuess;
pub use guess::Guess;
pub use laws::{
    pair_guesses_are_pair_groups, pairs_stay, refusals_exclude_each_other,
    refused_seeds_have_no_guess, refused_starts_have_no_guess,
};
pub use pairs::{Pairs, pair_guess};
pub use seeds::{Seeds, aux_guess};

#[cfg(test)]
mod tests;
