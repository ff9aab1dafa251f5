//! Clauses and klauses as one type, so that what holds, and what a hint forces, is said once for both.
ghost use Rattle.std.specs.Prelude.{◌≡◌, IfOk};
ghost use Rattle.kn_logic.specs.Constraints.{is_clause, klause, guarded_klause};

use crate::{Lit, NoMemory};
use std::marker::Model;

/// A constraint: at least `bound` places of a list of literals are true, or the guard, where there is
/// one, is false. A clause has bound 1 and no guard; every other constraint is a klause.
#[derive(Debug, Drop)]
pub struct Constraint {
    guard: Option<Lit>,
    bound: u64,
    lits: Vec<Lit>,
}

impl Model for Constraint {
    ghost use Rattle.kn_logic.specs.Constraints.{Bounded};

    ghost Value = { Bounded };

    ghost view = { λ c. record { guard = c.guard; bound = c.bound; lits = c.lits.items } };
}

impl Constraint {
    /// At least `bound` places of the list are true. The bound is any number: at 0 this always holds,
    /// above the number of places never.
    pub fn new(bound: u64, lits: Vec<Lit>) -> Constraint
        ensures { result ≡ klause bound lits.items }
    {
        Constraint {
            guard: None,
            bound,
            lits,
        }
    }

    /// If `guard` is true, then at least `bound` places of the list, where the bound is any number.
    pub fn guarded(guard: Lit, bound: u64, lits: Vec<Lit>) -> Constraint
        ensures { result ≡ guarded_klause guard bound lits.items }
    {
        Constraint {
            guard: Some(guard),
            bound,
            lits,
        }
    }

    /// The guard; `None` exactly where the constraint has none.
    pub fn guard(&self) -> Option<Lit>
        ensures { result ≡ self.now.guard }
    {
        self.guard
    }

    /// The number of places that are to be true, from 0.
    pub fn bound(&self) -> u64
        ensures { result ≡ self.now.bound }
    {
        self.bound
    }

    /// The literals in their order, without the guard.
    pub fn lits(&self) -> &[Lit]
        ensures { result.now ≡ self.now.lits }
    {
        &self.lits
    }

    /// Whether this is a clause: bound 1, and no guard.
    pub fn is_clause(&self) -> bool
        ensures { result ≡ is_clause self.now }
    {
        self.bound == 1 && self.guard.is_none()
    }

    /// The same constraint once more. An error where memory is short.
    pub fn copy(&self) -> Result<Constraint, NoMemory>
        ensures { IfOk result (λ c. c ≡ self.now) }
    {
        Ok(Constraint {
            guard: self.guard,
            bound: self.bound,
            lits: Vec::from_slice(*self.lits.allocator(), &self.lits)?,
        })
    }
}
