//! Why a seed has no guess. The tests have an order, so that a seed has one answer, however it is found.
use kn_logic::NoMemory;
use std::error::Error;
use std::fmt;

/// Why a variable has no guess: the first test that fails, in this order, or want of memory.
#[derive(Clone, Copy, Debug, PartialEq, Eq)]
pub enum NoGuess {
    /// It does not stand in both polarities, stands in no binary clause, or stands in a klause.
    NotSeed,
    /// Its least set has more than 256 variables.
    TooMany,
    /// Fewer than 3 variables stand at the border.
    SmallBorder,
    /// More than 128 variables stand at the border.
    TooWideBorder,
    /// A variable stands at the border in both polarities; `var` is the least such.
    TwoSided { var: u64 },
    /// Memory is short.
    Memory,
}

impl fmt::Display for NoGuess {
    fn fmt<W: fmt::Write>(&self, f: &mut fmt::Formatter<W>) -> fmt::Result {
        match self {
            NoGuess::NotSeed => write!(f, "the variable is no seed"),
            NoGuess::TooMany => write!(f, "the least set has more than 256 variables"),
            NoGuess::SmallBorder => write!(f, "fewer than 3 variables stand at the border"),
            NoGuess::TooWideBorder => write!(f, "more than 128 variables stand at the border"),
            NoGuess::TwoSided { var } => write!(
                f,
                "variable {var} stands at the border in both polarities"
            ),
            NoGuess::Memory => write!(f, "memory is short"),
        }
    }
}

impl Error for NoGuess {}

impl From<NoMemory> for NoGuess {
    ghost use Rattle.std.specs.Prelude.{◌≡◌};
    ghost use Rattle.kn_guess.specs.declared.error.NoGuess.TheVariants.{Memory};

    ghost from_gives = { λ _ e. e ≡ Memory };

    fn from(_error: NoMemory) -> NoGuess {
        NoGuess::Memory
    }
}
