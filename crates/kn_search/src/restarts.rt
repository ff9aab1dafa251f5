//! When a search begins anew at level 0, with all that it has learned.

/// How many conflicts one term of the sequence stands for.
const CONFLICTS: u64 = 64;

/// Restarts after 64 conflicts for each term of the sequence of Luby, Sinclair and Zuckerman: 1, 1, 2, 1, 1, 2, 4, 1,
/// 1, 2, ..
#[derive(Clone, Copy, Debug)]
pub struct Restarts {
    // the two numbers by which Knuth goes through the sequence; the second is the present term
    step: u64,
    term: u64,
    conflicts: u64,
}

impl Restarts {
    /// None was made yet.
    pub fn new() -> Restarts {
        Restarts {
            step: 1,
            term: 1,
            conflicts: 0,
        }
    }

    /// Counts a conflict; whether it is time to restart behind it.
    pub fn is_due(&mut self) -> bool {
        self.conflicts = self.conflicts.saturating_add(1);
        if self.conflicts < self.term.saturating_mul(CONFLICTS) {
            return false;
        }
        self.conflicts = 0;
        self.advance();
        true
    }

    fn advance(&mut self) {
        if self.step & self.step.wrapping_neg() == self.term {
            self.step = self.step.saturating_add(1);
            self.term = 1;
        } else {
            self.term = self.term.saturating_mul(2);
        }
    }
}
