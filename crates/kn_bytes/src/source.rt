// Where bytes come from.
ghost use Rattle.std.specs.Prelude.{◌≡◌, ℕ, ◌<◌, ◌≤◌, List, length, take, Option, IfOk, OnErr};
ghost use Rattle.kn_bytes.specs.Outside.{RoseBy, HasCause, Gave, HasEnded};

use std::error::Error;
use std::fmt;

/// The device failed in this call, and counted it.
#[derive(Clone, Copy, Debug, PartialEq, Eq)]
pub struct Failed;

impl fmt::Display for Failed {
    fn fmt<W: fmt::Write>(&self, f: &mut fmt::Formatter<W>) -> fmt::Result {
        f.write_str("the device failed")
    }
}

impl Error for Failed {}

/// Gives bytes, a piece at a time.
pub trait Source {
    /// The bytes that it has left, where it tells them.
    ghost left: { Self → Option (List ℕ) };

    /// How many bytes it has given.
    ghost given: { Self → ℕ };

    /// How often it has failed.
    ghost faults: { Self → ℕ };

    /// Writes the next bytes to the front of `into`, and answers how many. For an `into` that isn't
    /// empty, 0 is the end.
    fn take(&mut self, into: &mut [u8]) -> Result<usize, Failed>
        ensures bound { IfOk result (λ n. n ≤ length into.old) }
        ensures bytes { IfOk result (λ n. Gave (left self.old) (left self.new) (take n into.new)) }
        ensures end { IfOk result (λ n. n ≡ 0 → 0 < length into.old → HasEnded (left self.old)) }
        ensures count { IfOk result (λ n. RoseBy (given self.old) (given self.new) n) }
        ensures err_left { OnErr result (left self.new ≡ left self.old) }
        ensures err_count { OnErr result (given self.new ≡ given self.old) }
        ensures cause { HasCause (faults self.old) (faults self.new) result };
}
