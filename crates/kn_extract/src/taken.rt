//! One group of an extraction, with what is asked of it later: its places and its elimination for a proof, the
//! buckets of the latter for the values of a model.
ghost use Rattle.std.specs.Prelude.{◌≡◌, ◌↔◌, IsNone, IfSome, option_copied};
ghost use Rattle.kn_logic.specs.Groups.{IsPairGroup};
ghost use Rattle.kn_extract.specs.Kept.{Took, IsTaken, IsCountOf};

use kn_logic::{Constraint, Group};
use kn_quant::Elimination;
use std::marker::Model;

/// A group of clauses that was taken out of a formula, with the klause that came for it.
#[derive(Drop)]
pub struct Taken {
    group: Group,
    places: Vec<usize>,
    klause: Constraint,
    elimination: Option<Elimination>,
}

impl Model for Taken {
    ghost use Rattle.kn_extract.specs.Kept.{Took, IsTaken};

    ghost Value = { Took };

    ghost view = { λ t. record { group = t.group; places = t.places.items; klause = t.klause; elimination = t.elimination } };

    ghost invariant = { λ t. IsTaken (record { group = t.group; places = t.places.items; klause = t.klause; elimination = t.elimination }) };
}

impl Taken {
    pub(crate) fn new(
        group: Group,
        places: Vec<usize>,
        klause: Constraint,
        elimination: Option<Elimination>,
    ) -> Taken
        requires { IsTaken (record { group = group; places = places.items; klause = klause; elimination = elimination }) }
        ensures { result ≡ record { group = group; places = places.items; klause = klause; elimination = elimination } }
    {
        Taken {
            group,
            places,
            klause,
            elimination,
        }
    }

    /// The group.
    pub fn group(&self) -> &Group
        ensures value { result.now ≡ self.now.group }
        ensures taken { IsTaken self.now }
    {
        &self.group
    }

    /// The places of its clauses in the formula, counted from 0 and ascending: one for each clause, in order.
    pub fn places(&self) -> &[usize]
        ensures value { result.now ≡ self.now.places }
        ensures taken { IsTaken self.now }
    {
        &self.places
    }

    /// Its klause: at least so many of the border literals, a number from 2 to one less than theirs.
    pub fn klause(&self) -> &Constraint
        ensures value { result.now ≡ self.now.klause }
        ensures taken { IsTaken self.now }
    {
        &self.klause
    }

    /// The elimination of its auxiliary variables, whose result says what the klause says; `None` exactly for
    /// a pair group.
    pub fn elimination(&self) -> Option<&Elimination>
        ensures value { option_copied result ≡ self.now.elimination }
        ensures counts { IfSome result (λ e. IsCountOf e.now self.now.klause.bound self.now.group.border) }
        ensures none { IsNone result ↔ IsPairGroup self.now.group }
        ensures taken { IsTaken self.now }
    {
        self.elimination.as_ref()
    }
}
