//! Why a line was not logged. Only `Fault` is final: the log is then ahead of its sink, and takes no more lines.
ghost use Rattle.std.specs.Prelude.{◌≡◌};
ghost use Rattle.kn_log.specs.declared.error.LogError.TheVariants.{Memory};

use std::alloc::AllocError;
use std::error::Error;
use std::fmt;

/// Why a line was not logged.
#[derive(Clone, Copy, Debug, PartialEq, Eq)]
pub enum LogError {
    /// The sink failed before it had the whole line.
    Fault,
    /// Want of memory.
    Memory,
}

impl fmt::Display for LogError {
    fn fmt<W: fmt::Write>(&self, f: &mut fmt::Formatter<W>) -> fmt::Result {
        f.write_str(match self {
            LogError::Fault => "the proof could not be written",
            LogError::Memory => "memory is short",
        })
    }
}

impl Error for LogError {}

impl From<AllocError> for LogError {
    ghost from_gives = { λ _ e. e ≡ Memory };

    fn from(_: AllocError) -> LogError {
        LogError::Memory
    }
}
