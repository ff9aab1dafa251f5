//! What is asked of a search, and what comes of it. A spent budget is an outcome; want of memory is an error.
ghost use Rattle.std.specs.Prelude.{◌≡◌};
ghost use Rattle.kn_search.specs.Outcomes.{error_of};
ghost use Rattle.kn_search.specs.declared.outcome.SearchError.TheVariants.{Memory};

use kn_log::LogError;
use kn_logic::Assignment;
use std::alloc::AllocError;
use std::error::Error;
use std::fmt;

/// How far a search goes.
#[derive(Clone, Copy, Debug)]
pub struct Options {
    /// The most clauses that are learned.
    pub conflicts: u64,
    /// How many learned clauses are kept at least before one may be forgotten; 0 where none is forgotten.
    pub forget: u64,
}

/// What a search found.
#[derive(Debug, Drop)]
pub enum Outcome {
    /// An assignment that satisfies the formula.
    Model(Assignment),
    /// The clause without literals was logged: there is no model.
    Refuted,
    /// As many clauses were learned as the options allow.
    Spent { learned: u64 },
}

/// Why a search has no outcome.
#[derive(Clone, Copy, Debug, PartialEq, Eq)]
pub enum SearchError {
    /// Want of memory.
    Memory,
    /// The sink of the proof failed.
    WriteFault,
}

impl fmt::Display for SearchError {
    fn fmt<W: fmt::Write>(&self, f: &mut fmt::Formatter<W>) -> fmt::Result {
        f.write_str(match self {
            SearchError::Memory => "memory is short",
            SearchError::WriteFault => "the proof could not be written",
        })
    }
}

impl Error for SearchError {}

impl From<AllocError> for SearchError {
    ghost from_gives = { λ _ e. e ≡ Memory };

    fn from(_: AllocError) -> SearchError {
        SearchError::Memory
    }
}

impl From<LogError> for SearchError {
    ghost from_gives = { λ e s. s ≡ error_of e };

    fn from(e: LogError) -> SearchError {
        match e {
            LogError::Fault => SearchError::WriteFault,
            LogError::Memory => SearchError::Memory,
        }
    }
}
