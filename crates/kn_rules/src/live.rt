//! A constraint as it is looked at, whether it is kept or was just made of a definition: hints are run over either.
ghost use Rattle.std.specs.Prelude.{◌≡◌};
ghost use Rattle.kn_logic.specs.Constraints.{is_clause};
ghost use Rattle.kn_rules.specs.Entries.{bounded_of};

use crate::made::Made;
use kn_logic::{Constraint, Lit};
use std::marker::Model;

/// Where a constraint stands.
#[derive(Drop)]
pub enum Source<'a> {
    /// It is kept.
    Kept(&'a Constraint),
    /// It was made from a definition.
    Made(Made),
}

/// The constraint of a live id.
#[derive(Drop)]
pub struct Live<'a> {
    source: Source<'a>,
}

impl<'a> Model for Live<'a> {
    ghost use Rattle.kn_logic.specs.Constraints.{Bounded};
    ghost use Rattle.kn_rules.specs.Lives.{standing};

    ghost Value = { Bounded };

    ghost view = { λ l. standing l.source };
}

impl<'a> Live<'a> {
    /// One that is kept.
    pub fn kept(c: &'a Constraint) -> Live<'a>
        ensures { result ≡ c.now }
    {
        Live {
            source: Source::Kept(c),
        }
    }

    /// One that was made from a definition.
    pub fn made(made: Made) -> Live<'a>
        ensures { result ≡ bounded_of made }
    {
        Live {
            source: Source::Made(made),
        }
    }

    /// The guard; `None` exactly where the constraint has none.
    pub fn guard(&self) -> Option<Lit>
        ensures { result ≡ self.now.guard }
    {
        match &self.source {
            Source::Kept(c) => c.guard(),
            Source::Made(_) => None,
        }
    }

    /// The number of places that are to be true, from 0.
    pub fn bound(&self) -> u64
        ensures { result ≡ self.now.bound }
    {
        match &self.source {
            Source::Kept(c) => c.bound(),
            Source::Made(made) => made.bound(),
        }
    }

    /// The literals in their order, without the guard.
    pub fn lits(&self) -> &[Lit]
        ensures { result.now ≡ self.now.lits }
    {
        match &self.source {
            Source::Kept(c) => c.lits(),
            Source::Made(made) => made.lits(),
        }
    }

    /// Whether this is a clause: bound 1, and no guard.
    pub fn is_clause(&self) -> bool
        ensures { result ≡ is_clause self.now }
    {
        self.bound() == 1 && self.guard().is_none()
    }
}
