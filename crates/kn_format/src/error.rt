//! Why a text is refused: a line and a cause, both numbers, so that programs can compare what they are told.
ghost use Rattle.std.specs.Prelude.{◌≡◌};
ghost use Rattle.kn_format.specs.declared.error.ReadError.TheVariants.{Memory};

use crate::cause;
use std::alloc::{AllocError, AllocFailed};
use std::error::Error;
use std::fmt;

/// The first fault of a text that spells no formula: its line, counted from 1, and its cause.
///
/// | cause | what is wrong | line |
/// |---|---|---|
/// | 1 | the first line that is neither blank nor a comment does not begin with the word `p`, or there is none | that line, or the number of lines |
/// | 2 | it begins with `p` and is no problem line | that line |
/// | 3 | the problem line has more than 1,000,000 variables | that line |
/// | 4 | it has more than 10,000,000 constraints | that line |
/// | 5 | a word that may not stand where it stands | the word's |
/// | 6 | a literal of a variable above those of the problem line | the word's |
/// | 7 | a bound above 1,000,000 | the word's |
/// | 8 | a literal of a variable that stands before it in the same klause, its guard counted | the word's |
/// | 9 | a word that begins one constraint more than the problem line says | the word's |
/// | 10 | the text ends within a constraint | the number of lines |
/// | 11 | the text ends before there are as many constraints as the problem line says | the number of lines |
#[derive(Clone, Copy, Debug, PartialEq, Eq)]
pub struct Refusal {
    pub line: u64,
    pub why: u8,
}

impl fmt::Display for Refusal {
    fn fmt<W: fmt::Write>(&self, f: &mut fmt::Formatter<W>) -> fmt::Result {
        write!(f, "line {}: {}", self.line, cause::sentence(self.why))
    }
}

impl Error for Refusal {}

/// Why a formula could not be read.
#[derive(Clone, Copy, Debug, PartialEq, Eq)]
pub enum ReadError {
    /// The text spells no formula.
    Refused(Refusal),
    /// Memory is short.
    Memory,
}

impl fmt::Display for ReadError {
    fn fmt<W: fmt::Write>(&self, f: &mut fmt::Formatter<W>) -> fmt::Result {
        match self {
            ReadError::Refused(refusal) => write!(f, "{refusal}"),
            ReadError::Memory => write!(f, "memory is short"),
        }
    }
}

impl Error for ReadError {}

impl From<AllocError> for ReadError {
    ghost from_gives = { λ _ e. e ≡ Memory };

    fn from(_e: AllocError) -> ReadError {
        ReadError::Memory
    }
}

impl<T: Drop> From<AllocFailed<T>> for ReadError {
    ghost from_gives = { λ _ e. e ≡ Memory };

    fn from(_e: AllocFailed<T>) -> ReadError {
        ReadError::Memory
    }
}
