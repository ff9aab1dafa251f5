//! Why an elimination stopped. Which stage is the first wide one is a matter of the group, not of how it is computed.
ghost use Rattle.kn_quant.specs.declared.error.QuantError.TheVariants.{Memory};

use kn_logic::NoMemory;
use std::alloc::AllocFailed;
use std::error::Error;
use std::fmt;

/// Why an elimination was not done.
#[derive(Clone, Copy, Debug, PartialEq, Eq)]
pub enum QuantError {
    /// The function of a stage is wide at this variable, as none before it is. Stages count from 1; the
    /// entries of clauses are not counted.
    Wide { stage: u64, level: u64 },

    /// Memory is short.
    Memory,
}

impl fmt::Display for QuantError {
    fn fmt<W: fmt::Write>(&self, f: &mut fmt::Formatter<W>) -> fmt::Result {
        match self {
            QuantError::Wide { stage, level } => {
                write!(
                    f,
                    "the function of stage {stage} is wide at variable {level}"
                )
            }
            QuantError::Memory => write!(f, "memory is short"),
        }
    }
}

impl Error for QuantError {}

impl From<NoMemory> for QuantError {
    ghost use Rattle.std.specs.Prelude.{◌≡◌};

    ghost from_gives = { λ _ e. e ≡ Memory };

    fn from(_e: NoMemory) -> QuantError {
        QuantError::Memory
    }
}

impl<T: Drop> From<AllocFailed<T>> for QuantError {
    ghost use Rattle.std.specs.Prelude.{◌≡◌};

    ghost from_gives = { λ _ e. e ≡ Memory };

    fn from(_e: AllocFailed<T>) -> QuantError {
        QuantError::Memory
    }
}
