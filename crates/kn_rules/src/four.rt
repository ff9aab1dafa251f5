//! The constraints of a definition as values, for a `Checker` alone: what is made on demand cannot be lent.
ghost use Rattle.std.specs.Prelude.{◌≡◌, IfOk};
ghost use Rattle.kn_rules.specs.Lent.{four_of, kept_at};

use crate::Definition;
use crate::made::{Made, Place};
use kn_logic::{Constraint, Lit, NoMemory};
use std::alloc::Global;

/// The four constraints of a definition in memory, so that each can be lent.
#[derive(Debug, Drop)]
pub struct Four {
    high: Constraint,
    low: Constraint,
    not_high: Constraint,
    not_low: Constraint,
}

impl Four {
    /// Those that the definition gives for the variable `v`.
    pub fn new(alloc: Global, v: Lit, d: &Definition) -> Result<Four, NoMemory>
        ensures { IfOk result (λ four. four ≡ four_of v d.now) }
    {
        Ok(Four {
            high: Made::new(v, d, Place::High).kept(alloc)?,
            low: Made::new(v, d, Place::Low).kept(alloc)?,
            not_high: Made::new(v, d, Place::NotHigh).kept(alloc)?,
            not_low: Made::new(v, d, Place::NotLow).kept(alloc)?,
        })
    }

    /// The constraint at a place.
    pub fn at(&self, place: Place) -> &Constraint
        ensures { result.now ≡ kept_at self.now place }
    {
        match place {
            Place::High => &self.high,
            Place::Low => &self.low,
            Place::NotHigh => &self.not_high,
            Place::NotLow => &self.not_low,
        }
    }
}
