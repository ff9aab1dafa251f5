//! What a guess hands to the verdict, the group, and to the store, the ids by which its clauses are taken out.
ghost use Rattle.std.specs.Prelude.{◌≡◌, length};
ghost use Rattle.std.specs.List.Sorted.{IsStrictlyIncreasing};
ghost use Rattle.kn_logic.specs.Groups.{IsGroup};

use kn_logic::Group;
use std::marker::Model;

/// A group that was guessed, and the store's ids of its clauses: ascending, one for each clause in order.
#[derive(Debug, Drop)]
pub struct Guess {
    group: Group,
    ids: Vec<u64>,
}

impl Model for Guess {
    ghost use Rattle.std.specs.Prelude.{◌≡◌, length};
    ghost use Rattle.std.specs.List.Sorted.{IsStrictlyIncreasing};
    ghost use Rattle.kn_guess.specs.Guesses.{Guessed};

    ghost Value = { Guessed };

    ghost view = { λ g. record { group = g.group; ids = g.ids.items } };

    ghost invariant = { λ g. IsStrictlyIncreasing g.ids.items × (length g.ids.items ≡ length g.group.taken) };
}

impl Guess {
    pub(crate) fn new(group: Group, ids: Vec<u64>) -> Guess
        requires ascending { IsStrictlyIncreasing ids.items }
        requires each { length ids.items ≡ length group.taken }
        ensures { result ≡ record { group = group; ids = ids.items } }
    {
        Guess { group, ids }
    }

    /// The group.
    pub fn group(&self) -> &Group
        ensures { result.now ≡ self.now.group }
    {
        &self.group
    }

    /// The ids of the clauses that it takes, ascending.
    pub fn ids(&self) -> &[u64]
        ensures value { result.now ≡ self.now.ids }
        ensures ascending { IsStrictlyIncreasing result.now }
        ensures each { length result.now ≡ length self.now.group.taken }
    {
        &self.ids
    }

    /// The group and the ids.
    pub fn into_parts(self) -> (Group, Vec<u64>)
        ensures group { result.0 ≡ self.group }
        ensures ids { result.1.items ≡ self.ids }
    {
        (self.group, self.ids)
    }
}
