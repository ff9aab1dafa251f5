//! The entry of one id. There is one for each id that was ever given, deleted ones too, so it is kept small.
ghost use Rattle.std.specs.Prelude.{◌≡◌};
ghost use Rattle.kn_rules.specs.Entries.{origin_of};

use crate::Origin;
use crate::made::Place;
use kn_logic::Constraint;

/// How it is kept what an id stands for, in 16 bytes beside the constraint of its own.
#[derive(Debug, Drop)]
pub enum Slot {
    /// A constraint, and what gave it.
    Kept(Origin, Box<Constraint>),
    /// One of the four constraints of a definition, which is found by its number, counted from 0.
    Derived(Place, u64),
    /// Nothing any more; and what gave the id.
    Deleted(Origin),
}

impl Slot {
    /// What gave the id.
    pub fn origin(&self) -> Origin
        ensures { result ≡ origin_of self.now }
    {
        match self {
            Slot::Kept(origin, _) => *origin,
            Slot::Derived(_, _) => Origin::Definition,
            Slot::Deleted(origin) => *origin,
        }
    }
}
