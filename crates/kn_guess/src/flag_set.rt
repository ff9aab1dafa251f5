// Variables, each there once, in the order in which they came, with a flag for each that is there. It is kept
// from one search to the next, so that its room is taken once.
ghost use Rattle.std.specs.Prelude.{ℕ, ◌≡◌, ◌<◌, [], false, nat_eq, length, slice_get, slice_index_or, OnOk};
ghost use Rattle.indexmap.specs.IndexSet.{insert_key};
ghost use Rattle.kn_logic.specs.Groups.{is_among};
ghost use Rattle.kn_guess.specs.Flags.{cleared};

use kn_logic::NoMemory;
use std::alloc::Global;
use std::marker::Model;

#[derive(Debug, Drop)]
pub(crate) struct FlagSet {
    vars: Vec<u64>,
    flags: Vec<bool>,
}

impl Model for FlagSet {
    ghost use Rattle.std.specs.Prelude.{ℕ, ◌≡◌, List, false, slice_index_or};
    ghost use Rattle.kn_logic.specs.Groups.{is_among};

    ghost Value = { List ℕ };

    ghost view = { λ s. s.vars.items };

    ghost invariant = { λ s. (v : ℕ) → slice_index_or s.flags.items v false ≡ is_among s.vars.items v };
}

impl FlagSet {
    pub(crate) fn new(alloc: Global) -> FlagSet
        ensures { result ≡ [] }
    {
        FlagSet {
            vars: Vec::new(alloc),
            flags: Vec::new(alloc),
        }
    }

    pub(crate) fn clear(&mut self)
        ensures { self.new ≡ [] }
    {
        clear(&mut self.flags, &self.vars);
        self.vars.clear();
    }

    pub(crate) fn insert(&mut self, var: u64) -> Result<(), NoMemory>
        ensures { OnOk result (self.new ≡ insert_key nat_eq self.old var) }
    {
        if self.contains(var) {
            return Ok(());
        }
        lengthen(&mut self.flags, var as usize)?;
        self.vars.push(var)?;
        self.flags[var as usize] = true;
        Ok(())
    }

    pub(crate) fn contains(&self, var: u64) -> bool
        ensures { result ≡ is_among self.now var }
    {
        self.flags.get(var as usize).copied().unwrap_or(false)
    }

    // In the order in which they came.
    pub(crate) fn vars(&self) -> &[u64]
        ensures { result.now ≡ self.now }
    {
        &self.vars
    }

    pub(crate) fn len(&self) -> usize
        ensures { result ≡ length self.now }
    {
        self.vars.len()
    }

    pub(crate) fn get(&self, place: usize) -> Option<u64>
        ensures { result ≡ slice_get self.now place }
    {
        self.vars.get(place).copied()
    }
}

fn clear(flags: &mut Vec<bool>, vars: &[u64])
    ensures { flags.new.items ≡ cleared flags.old.items vars.now }
{
    for var in vars {
        if let Some(flag) = flags.get_mut(*var as usize) {
            *flag = false;
        }
    }
}

// Flags that are down come at the end until there is one at the place.
fn lengthen(flags: &mut Vec<bool>, place: usize) -> Result<(), NoMemory>
    ensures same { (k : ℕ) → slice_index_or flags.new.items k false ≡ slice_index_or flags.old.items k false }
    ensures placed { OnOk result (place < length flags.new.items) }
{
    while flags.len() <= place {
        flags.push(false)?;
    }
    Ok(())
}
