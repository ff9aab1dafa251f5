//! Two numbers of a function by which a count is told: with n literals it is one exactly where their sum is above n.
ghost use Rattle.std.specs.Prelude.{◌≡◌, ◌≤◌, ◌<◌, ◌+◌, ◌^◌};
ghost use Rattle.kn_verdict.specs.Numbers.{joined_by, constant_of};

use kn_logic::Lit;

/// Of a function: the fewest of some literals that are true where the function is true, and the fewest that
/// are false where it is false. One more than all of them stands for "nowhere".
#[derive(Clone, Copy, Debug, PartialEq, Eq)]
pub struct Fewest {
    pub holding: u64,
    pub failing: u64,
}

impl Fewest {
    /// Those of "always" or "never", where there are n literals.
    pub fn of_constant(n: u64, value: bool) -> Fewest
        requires { n < 2 ^ 63 }
        ensures { result ≡ constant_of n value }
    {
        if value {
            Fewest {
                holding: 0,
                failing: n + 1,
            }
        } else {
            Fewest {
                holding: n + 1,
                failing: 0,
            }
        }
    }

    /// Those of "if the variable of this literal then the one function, else the other".
    pub fn joined(lit: Lit, high: Fewest, low: Fewest) -> Fewest
        requires high { (high.holding < 2 ^ 63) × (high.failing < 2 ^ 63) }
        requires low { (low.holding < 2 ^ 63) × (low.failing < 2 ^ 63) }
        ensures { result ≡ joined_by lit high low }
    {
        if lit.is_positive() {
            Fewest {
                holding: (1 + high.holding).min(low.holding),
                failing: high.failing.min(1 + low.failing),
            }
        } else {
            Fewest {
                holding: high.holding.min(1 + low.holding),
                failing: (1 + high.failing).min(low.failing),
            }
        }
    }
}
