//! The variables of a counter lie row behind row, so that each is found by its place and no table of them is kept.
ghost use Rattle.std.specs.Prelude.{◌≡◌, ◌≤◌, ◌<◌, ◌+◌, ◌^◌};
ghost use Rattle.kn_counter.specs.Rows.{row_literal};

use kn_logic::Lit;

/// The variables s(i, 1) to s(i, k) of a counter for at most k, for one i: the k ones behind `start`.
#[derive(Clone, Copy, Debug)]
pub struct Row {
    pub start: u64,
    pub k: u64,
}

impl Row {
    /// s(i, j), where j is from 1 to k.
    pub fn lit(self, j: u64) -> Lit
        requires place { (1 ≤ j) × (j ≤ self.k) }
        requires room { self.start + self.k < 2 ^ 64 }
        ensures { result ≡ row_literal self.start j }
    {
        Lit::new(self.start + j, true)
    }

    /// The row behind this one.
    pub fn next(self) -> Row
        requires { self.start + self.k < 2 ^ 64 }
        ensures start { result.start ≡ self.start + self.k }
        ensures k { result.k ≡ self.k }
    {
        Row {
            start: self.start + self.k,
            k: self.k,
        }
    }
}
