//! Lists of ids, a type of their own so that contracts speak of the list alone and not of the vector that has it.
ghost use Rattle.std.specs.Prelude.{◌≡◌};

use std::marker::Model;

/// A list of ids. Those of a proof count from 1.
#[derive(Debug, Drop)]
pub struct Ids {
    ids: Vec<u64>,
}

impl Model for Ids {
    ghost use Rattle.std.specs.Prelude.{ℕ, List};

    ghost Value = { List ℕ };

    ghost view = { λ i. i.ids.items };
}

impl Ids {
    /// The ids of a list, in its order.
    pub fn new(ids: Vec<u64>) -> Ids
        ensures { result ≡ ids.items }
    {
        Ids { ids }
    }

    /// The ids in their order.
    pub fn ids(&self) -> &[u64]
        ensures { result.now ≡ self.now }
    {
        &self.ids
    }
}
