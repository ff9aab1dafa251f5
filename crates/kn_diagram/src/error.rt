//! Why an operation gives no node. `Wide` tells of functions alone: no choice of the code brings it or spares it.
ghost use Rattle.kn_diagram.specs.declared.error.DiagramError.TheVariants.{Memory};

use kn_logic::NoMemory;
use std::error::Error;
use std::fmt;

/// Why an operation on diagrams gave no node.
#[derive(Clone, Copy, Debug, PartialEq, Eq)]
pub enum DiagramError {
    /// The result's function is wide at the variable of this number.
    Wide { level: u64 },

    /// Memory is short.
    Memory,
}

impl fmt::Display for DiagramError {
    fn fmt<W: fmt::Write>(&self, f: &mut fmt::Formatter<W>) -> fmt::Result {
        match self {
            DiagramError::Wide { level } => write!(f, "the function is wide at variable {level}"),
            DiagramError::Memory => write!(f, "memory is short"),
        }
    }
}

impl Error for DiagramError {}

impl From<NoMemory> for DiagramError {
    ghost use Rattle.std.specs.Prelude.{◌≡◌};

    ghost from_gives = { λ _ e. e ≡ Memory };

    fn from(_e: NoMemory) -> DiagramError {
        DiagramError::Memory
    }
}
