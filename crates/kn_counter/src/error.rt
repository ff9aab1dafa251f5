//! Why a formula has no clauses. Too many variables are no want of memory: they are counted before a clause is made.
ghost use Rattle.std.specs.Prelude.{◌≡◌};
ghost use Rattle.kn_counter.specs.declared.error.CountError.TheVariants.{Memory};

use std::alloc::{AllocError, AllocFailed};
use std::error::Error;
use std::fmt;

/// Why a formula was not turned into clauses.
#[derive(Clone, Copy, Debug, PartialEq, Eq)]
pub enum CountError {
    /// The clauses would need so many variables, more than `MAX_COUNTED`; 2^64 - 1 stands for all
    /// numbers from there on.
    TooLarge { vars: u64 },
    /// Memory is short.
    Memory,
}

impl fmt::Display for CountError {
    fn fmt<W: fmt::Write>(&self, f: &mut fmt::Formatter<W>) -> fmt::Result {
        match self {
            CountError::TooLarge { vars } => {
                write!(f, "the clauses would need too many variables: {vars}")
            }
            CountError::Memory => write!(f, "memory is short"),
        }
    }
}

impl Error for CountError {}

impl From<AllocError> for CountError {
    ghost from_gives = { λ _ e. e ≡ Memory };

    fn from(_: AllocError) -> CountError {
        CountError::Memory
    }
}

impl<T: Drop> From<AllocFailed<T>> for CountError {
    ghost from_gives = { λ _ e. e ≡ Memory };

    fn from(_: AllocFailed<T>) -> CountError {
        CountError::Memory
    }
}
