//! Lines, words, numbers and literals of a text, for whatever reads or writes formulas and proofs. The
//! functions of `lines` cut a text from its front, so a reader is one loop over `first_line` with one over
//! `first_word` in it; those of `numbers` read a word whole, and write one. What a text means stands in
//! `specs/`: its lines and their words in `Lines`, numbers and literals in `Numbers`.
#![tactic(auto)]

mod laws;
mod lines;
mod numbers;

pub use laws::{
    read_lines_are_plain, what_a_word_spells, written_content_is_read, written_lines_are_read,
    written_literals_are_read, written_numbers_are_read,
};
pub use lines::{first_line, first_word, is_skipped};
pub use numbers::{is_end, literal, number, push_literal, push_number};

#[cfg(test)]
mod tests;
