//! The constraints of a definition, made where they are asked for: of three literals at most, so without memory.
ghost use Rattle.std.specs.Prelude.{◌≡◌, ◌∷◌, [], IfOk};
ghost use Rattle.kn_rules.specs.Steps.{with_arm, opposite};
ghost use Rattle.kn_rules.specs.Entries.{bounded_of, clause_at};

use crate::Definition;
use crate::clauses::constraint_of;
use kn_lines::Arm;
use kn_logic::{Constraint, Lit, NoMemory};
use std::alloc::Global;

/// Which of the four constraints that a definition gives, in their order.
#[derive(Clone, Copy, Debug, PartialEq, Eq)]
pub enum Place {
    /// Where variable and test are true, so is the high arm.
    High,
    /// Where the variable is true and the test is not, the low arm is true.
    Low,
    /// Where the test is true and the variable is not, neither is the high arm.
    NotHigh,
    /// Where variable and test are false, so is the low arm.
    NotLow,
}

/// One of the four constraints, made where it is asked for and kept nowhere.
#[derive(Clone, Copy, Debug)]
pub enum Made {
    /// At least none of no literals.
    Always,
    /// A clause of two literals.
    Two([Lit; 2]),
    /// A clause of three literals.
    Three([Lit; 3]),
}

impl Made {
    /// The constraint at this place of those that the definition gives for the variable `v`.
    pub fn new(v: Lit, d: &Definition, place: Place) -> Made
        ensures { bounded_of result ≡ clause_at v d.now place }
    {
        match place {
            Place::High => with_arm(v.negated(), d.test.negated(), &d.high),
            Place::Low => with_arm(v.negated(), d.test, &d.low),
            Place::NotHigh => with_arm(v, d.test.negated(), &opposite(&d.high)),
            Place::NotLow => with_arm(v, d.test, &opposite(&d.low)),
        }
    }

    /// How many of its literals are to be true.
    pub fn bound(&self) -> u64
        ensures { result ≡ (bounded_of self.now).bound }
    {
        match self {
            Made::Always => 0,
            _ => 1,
        }
    }

    /// Its literals.
    pub fn lits(&self) -> &[Lit]
        ensures { result.now ≡ (bounded_of self.now).lits }
    {
        match self {
            Made::Always => &[],
            Made::Two(lits) => lits,
            Made::Three(lits) => lits,
        }
    }

    /// The same constraint in memory of its own.
    pub fn kept(&self, alloc: Global) -> Result<Constraint, NoMemory>
        ensures { IfOk result (λ c. c ≡ bounded_of self.now) }
    {
        constraint_of(alloc, self.bound(), self.lits())
    }
}

/// Two literals or the arm: the arm is left out where it is false, and nothing is asked where it is true.
fn with_arm(a: Lit, b: Lit, arm: &Arm) -> Made
    ensures { bounded_of result ≡ with_arm (a ∷ b ∷ []) arm.now }
{
    match arm {
        Arm::True => Made::Always,
        Arm::False => Made::Two([a, b]),
        Arm::Lit(lit) => Made::Three([a, b, *lit]),
    }
}

fn opposite(arm: &Arm) -> Arm
    ensures { result ≡ opposite arm.now }
{
    match arm {
        Arm::True => Arm::False,
        Arm::False => Arm::True,
        Arm::Lit(lit) => Arm::Lit(lit.negated()),
    }
}
