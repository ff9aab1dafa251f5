//! Groups: what is guessed, eliminated, judged, replaced and justified, each in a crate above, over this one type.
ghost use Rattle.std.specs.Prelude.{◌≡◌};
ghost use Rattle.kn_logic.specs.Groups.{Gathered, IsGroup};

use crate::{Constraint, Lit};
use std::marker::Model;

/// Clauses that may hide a count, with their auxiliary variables and the border literals through which
/// they meet the rest of a formula.
#[derive(Debug, Drop)]
pub struct Group {
    aux: Vec<u64>,
    taken: Vec<Constraint>,
    border: Vec<Lit>,
}

impl Model for Group {
    ghost use Rattle.kn_logic.specs.Groups.{Gathered, IsGroup};

    ghost Value = { Gathered };

    ghost view = { λ g. record { aux = g.aux.items; taken = g.taken.items; border = g.border.items } };

    ghost invariant = { λ g. IsGroup (record { aux = g.aux.items; taken = g.taken.items; border = g.border.items }) };
}

impl Group {
    /// A group of these parts, each of which may be empty. The auxiliary variables, counted from 1,
    /// and the border ascend by variable and have none in common, each taken
    /// constraint is a clause, and each of its literals is one of an auxiliary variable or stands in
    /// the border.
    pub fn new(aux: Vec<u64>, taken: Vec<Constraint>, border: Vec<Lit>) -> Group
        requires { IsGroup (record { aux = aux.items; taken = taken.items; border = border.items }) }
        ensures { result ≡ record { aux = aux.items; taken = taken.items; border = border.items } }
    {
        Group { aux, taken, border }
    }

    /// The auxiliary variables, ascending.
    pub fn aux(&self) -> &[u64]
        ensures value { result.now ≡ self.now.aux }
        ensures group { IsGroup self.now }
    {
        &self.aux
    }

    /// The clauses, in the order in which they were taken.
    pub fn taken(&self) -> &[Constraint]
        ensures value { result.now ≡ self.now.taken }
        ensures group { IsGroup self.now }
    {
        &self.taken
    }

    /// The border literals, ascending by variable.
    pub fn border(&self) -> &[Lit]
        ensures value { result.now ≡ self.now.border }
        ensures group { IsGroup self.now }
    {
        &self.border
    }
}
