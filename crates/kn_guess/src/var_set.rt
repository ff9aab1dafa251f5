// Variables, each there once, in the order in which they came.
ghost use Rattle.std.specs.Prelude.{◌≡◌, [], nat_eq, length, slice_get, OnOk};
ghost use Rattle.std.specs.List.{list_any};
ghost use Rattle.indexmap.specs.IndexSet.{insert_key};

use indexmap::IndexSet;
use kn_logic::NoMemory;
use std::alloc::Global;
use std::marker::Model;

#[derive(Drop)]
pub(crate) struct VarSet {
    set: IndexSet<u64>,
}

impl Model for VarSet {
    ghost use Rattle.std.specs.Prelude.{ℕ, List};

    ghost Value = { List ℕ };

    ghost view = { λ s. s.set.keys };
}

impl VarSet {
    pub(crate) fn new(alloc: Global) -> VarSet
        ensures { result ≡ [] }
    {
        VarSet {
            set: IndexSet::new(alloc),
        }
    }

    pub(crate) fn insert(&mut self, var: u64) -> Result<(), NoMemory>
        ensures { OnOk result (self.new ≡ insert_key nat_eq self.old var) }
    {
        self.set.insert(var)?;
        Ok(())
    }

    pub(crate) fn contains(&self, var: u64) -> bool
        ensures { result ≡ list_any (nat_eq var) self.now }
    {
        self.set.contains(&var)
    }

    // In the order in which they came.
    pub(crate) fn vars(&self) -> &[u64]
        ensures { result.now ≡ self.now }
    {
        self.set.as_slice()
    }

    pub(crate) fn len(&self) -> usize
        ensures { result ≡ length self.now }
    {
        self.set.len()
    }

    pub(crate) fn get(&self, place: usize) -> Option<u64>
        ensures { result ≡ slice_get self.now place }
    {
        self.set.get_index(place).copied()
    }
}
