// Where bytes go to.
ghost use Rattle.std.specs.Prelude.{◌≡◌, ℕ, ◌<◌, ◌≤◌, List, length, take, Option, IfOk, OnErr};
ghost use Rattle.kn_bytes.specs.Outside.{HasCause, Got};

use crate::Failed;

/// Takes bytes, a piece at a time.
pub trait Sink {
    /// The bytes that it has got, where it tells them.
    ghost written: { Self → Option (List ℕ) };

    /// How often it has failed.
    ghost faults: { Self → ℕ };

    /// Appends the first of `bytes`, and answers how many: at least one, unless there are none.
    fn give(&mut self, bytes: &[u8]) -> Result<usize, Failed>
        ensures bound { IfOk result (λ n. n ≤ length bytes.now) }
        ensures some { IfOk result (λ n. 0 < length bytes.now → 1 ≤ n) }
        ensures bytes { IfOk result (λ n. Got (written self.old) (written self.new) (take n bytes.now)) }
        ensures err { OnErr result (written self.new ≡ written self.old) }
        ensures cause { HasCause (faults self.old) (faults self.new) result };
}
