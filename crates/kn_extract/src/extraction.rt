//! The outcome of `extract`. It has the formula from before too, since proofs and models are those of that one.
ghost use Rattle.std.specs.Prelude.{◌≡◌};
ghost use Rattle.kn_extract.specs.Kept.{Extracted, IsExtracted};

use crate::Taken;
use kn_logic::Formula;
use std::marker::Model;

/// A formula, the groups that were taken out of it, and the formula that remains.
#[derive(Drop)]
pub struct Extraction {
    original: Formula,
    formula: Formula,
    taken: Vec<Taken>,
}

impl Model for Extraction {
    ghost use Rattle.kn_extract.specs.Kept.{Extracted, IsExtracted};

    ghost Value = { Extracted };

    ghost view = { λ e. record { original = e.original; formula = e.formula; taken = e.taken.items } };

    ghost invariant = { λ e. IsExtracted (record { original = e.original; formula = e.formula; taken = e.taken.items }) };
}

impl Extraction {
    pub(crate) fn new(original: Formula, formula: Formula, taken: Vec<Taken>) -> Extraction
        requires { IsExtracted (record { original = original; formula = formula; taken = taken.items }) }
        ensures { result ≡ record { original = original; formula = formula; taken = taken.items } }
    {
        Extraction {
            original,
            formula,
            taken,
        }
    }

    /// The formula before anything was taken.
    pub fn original(&self) -> &Formula
        ensures value { result.now ≡ self.now.original }
        ensures extracted { IsExtracted self.now }
    {
        &self.original
    }

    /// The formula that remains: the constraints that no group took, and the klauses of the groups.
    pub fn formula(&self) -> &Formula
        ensures value { result.now ≡ self.now.formula }
        ensures extracted { IsExtracted self.now }
    {
        &self.formula
    }

    /// The groups in the order in which they were taken.
    pub fn taken(&self) -> &[Taken]
        ensures value { result.now ≡ self.now.taken }
        ensures extracted { IsExtracted self.now }
    {
        &self.taken
    }
}
