//! What is asked of one level of a grid, each variable once: a node that is reached by many paths is looked at once.
ghost use Rattle.std.specs.Prelude.{◌≡◌, [], length, slice_get, IfOk};
ghost use Rattle.kn_rules.specs.Demands.{count_of, agrees, with_demand};

use kn_logic::NoMemory;
use std::alloc::Global;
use std::collections::BTreeMap;
use std::marker::Model;

/// What has to stand for nodes of one level of a grid: variables, each with the count of its node.
#[derive(Drop)]
pub struct Demands {
    list: Vec<(u64, u64)>,
    // the count of each variable of the list
    counts: BTreeMap<u64, u64>,
}

impl Model for Demands {
    ghost use Rattle.std.specs.Prelude.{ℕ, List};
    ghost use Rattle.kn_rules.specs.Demands.{IsIndexed};

    ghost Value = { List (ℕ × ℕ) };

    ghost view = { λ d. d.list.items };

    ghost invariant = { λ d. IsIndexed d.list.items d.counts };
}

impl Demands {
    /// No demand.
    pub fn new(alloc: Global) -> Demands
        ensures { result ≡ [] }
    {
        Demands {
            list: Vec::new(alloc),
            counts: BTreeMap::new(alloc),
        }
    }

    /// Adds a demand behind the others, unless its variable has one; `false` exactly where that has another
    /// count.
    pub fn add(&mut self, variable: u64, count: u64) -> Result<bool, NoMemory>
        ensures agrees { IfOk result (λ yes. yes ≡ agrees (count_of self.old variable) count) }
        ensures added { IfOk result (λ _. self.new ≡ with_demand self.old variable count) }
    {
        if let Some(before) = self.counts.get(&variable) {
            return Ok(*before == count);
        }
        self.list.reserve(1)?;
        self.counts.insert(variable, count)?;
        let Ok(()) = self.list.push((variable, count)) else {
            unreachable!()
        };
        Ok(true)
    }

    /// The number of demands.
    pub fn len(&self) -> usize
        ensures { result ≡ length self.now }
    {
        self.list.len()
    }

    /// The demand at this place, counted from 0; `None` exactly where there are not so many.
    pub fn get(&self, place: usize) -> Option<(u64, u64)>
        ensures { result ≡ slice_get self.now place }
    {
        self.list.get(place).copied()
    }
}
