// Ids that ascend: new ones come at the end, and any may leave. They stand behind an offset, so that an id
// that leaves moves the shorter side alone.
ghost use Rattle.std.specs.Prelude.{◌≡◌, ◌≤◌, [], OnOk, OnErr};
ghost use Rattle.std.specs.List.{AllByRecursion};
ghost use Rattle.std.specs.List.Sorted.{IsStrictlyIncreasing};
ghost use Rattle.kn_store.specs.Kept.{with_id, without_id};

use kn_logic::NoMemory;
use std::alloc::Global;
use std::marker::Model;

#[derive(Debug, Drop)]
pub(crate) struct Ids {
    from: usize,
    ids: Vec<u64>,
}

impl Model for Ids {
    ghost use Rattle.std.specs.Prelude.{ℕ, ◌≤◌, List, length, drop};
    ghost use Rattle.std.specs.List.Sorted.{IsStrictlyIncreasing};

    ghost Value = { List ℕ };

    ghost view = { λ i. drop i.from i.ids.items };

    ghost invariant = { λ i. (i.from ≤ length i.ids.items) × IsStrictlyIncreasing (drop i.from i.ids.items) };
}

impl Ids {
    pub(crate) fn new(alloc: Global) -> Ids
        ensures { result ≡ [] }
    {
        Ids {
            from: 0,
            ids: Vec::new(alloc),
        }
    }

    pub(crate) fn ids(&self) -> &[u64]
        ensures value { result.now ≡ self.now }
        ensures ascending { IsStrictlyIncreasing result.now }
    {
        &self.ids[self.from..]
    }

    // The id comes at the end, unless it is there.
    pub(crate) fn enter(&mut self, id: u64) -> Result<(), NoMemory>
        requires { AllByRecursion (λ i. i ≤ id) self.old }
        ensures ok { OnOk result (self.new ≡ with_id id self.old) }
        ensures err { OnErr result (self.new ≡ self.old) }
    {
        if self.ids().last().copied() == Some(id) {
            return Ok(());
        }
        self.ids.push(id)?;
        Ok(())
    }

    // The id leaves, where it is there.
    pub(crate) fn leave(&mut self, id: u64)
        ensures { self.new ≡ without_id id self.old }
    {
        let Ok(place) = self.ids().binary_search(&id) else {
            return;
        };
        let start = self.from;
        if place < (self.ids.len() - start) / 2 {
            self.ids.copy_within(start..start + place, start + 1);
            self.from = start + 1;
        } else {
            self.ids.remove(start + place);
        }
    }
}
