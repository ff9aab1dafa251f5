//! A learned clause.
ghost use Rattle.std.specs.Prelude.{◌≡◌};

use kn_logic::Lit;
use std::marker::Model;

/// A clause that is learned of a conflict, with the hints that refute its negation.
#[derive(Debug, Drop)]
pub struct Learned {
    lits: Vec<Lit>,
    level: u64,
    hints: Vec<u64>,
}

impl Model for Learned {
    ghost use Rattle.kn_learn.specs.Lessons.{Lesson};

    ghost Value = { Lesson };

    ghost view = { λ l. record { lits = l.lits.items; level = l.level; hints = l.hints.items } };
}

impl Learned {
    /// The literals; the first is the one of the conflict's level.
    pub fn lits(&self) -> &[Lit]
        ensures { result.now ≡ self.now.lits }
    {
        &self.lits
    }

    /// The level to go back to: the highest level of the other literals, 0 where there are none.
    pub fn level(&self) -> u64
        ensures { result ≡ self.now.level }
    {
        self.level
    }

    /// The ids of the constraints whose run from the negated literals ends in conflict, in the order of the run.
    pub fn hints(&self) -> &[u64]
        ensures { result.now ≡ self.now.hints }
    {
        &self.hints
    }

    /// The literals and the hints, without a copy.
    pub fn into_parts(self) -> (Vec<Lit>, Vec<u64>)
        ensures lits { result.0.items ≡ self.lits }
        ensures hints { result.1.items ≡ self.hints }
    {
        (self.lits, self.hints)
    }

    pub(crate) fn new(lits: Vec<Lit>, level: u64, hints: Vec<u64>) -> Learned
        ensures { result ≡ record { lits = lits.items; level = level; hints = hints.items } }
    {
        Learned { lits, level, hints }
    }
}
