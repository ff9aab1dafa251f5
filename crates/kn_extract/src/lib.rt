//! The extraction of hidden counts: groups of clauses are guessed, each is verified, and those that count are
//! replaced by a klause. What an extraction is stands in `specs/Extractions.antt`, apart from stores and diagrams;
//! that a formula has one, and that it keeps models both ways, are laws of `laws.rt`. How its groups lie is in
//! `specs/Structure.antt`.
#![tactic(auto)]

mod counting;
mod extracting;
mod extraction;
mod laws;
mod seeds;
mod starts;
mod storing;
mod taken;
mod taking;
mod text;

pub use extracting::extract;
pub use extraction::Extraction;
pub use laws::{
    an_extraction_is_one, an_extraction_keeps_models, groups_stand_apart, what_remains_is_known,
};
pub use taken::Taken;
pub use text::extraction_text;

#[cfg(test)]
mod tests;
