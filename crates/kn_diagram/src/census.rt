//! Early stops: once too many results of one depth differ, the whole result must be wide and need not be finished.
ghost use Rattle.std.specs.Prelude.{ℕ, ◌≡◌, ◌<◌, ◌≤◌, [], length, slice_index, nat_eq, OnOk, IfOk};
ghost use Rattle.std.specs.List.{IsDistinct};
ghost use Rattle.indexmap.specs.IndexSet.{insert_key};
ghost use Rattle.kn_diagram.specs.Censuses.{nodes_at, same_pair};

use crate::Node;
use indexmap::IndexSet;
use kn_logic::NoMemory;
use std::alloc::Global;
use std::marker::Model;

/// The different nodes among the results of an operation, counted by depth.
#[derive(Drop)]
pub struct Census {
    nodes: IndexSet<(usize, usize)>,
    counts: Vec<u64>,
}

impl Model for Census {
    ghost use Rattle.std.specs.Prelude.{ℕ, List};
    ghost use Rattle.kn_diagram.specs.Censuses.{IsCensus};

    ghost Value = { List (ℕ × ℕ) };

    ghost view = { λ c. c.nodes.keys };

    ghost invariant = { λ c. IsCensus c.nodes.keys c.counts.items };
}

impl Census {
    /// No nodes.
    pub fn new(alloc: Global) -> Census
        ensures { result ≡ [] }
    {
        Census {
            nodes: IndexSet::new(alloc),
            counts: Vec::new(alloc),
        }
    }

    /// Adds a node of a depth, unless it is there, and gives the number of that depth's nodes.
    pub(crate) fn add(&mut self, depth: usize, node: Node) -> Result<u64, NoMemory>
        ensures entries { OnOk result (self.new ≡ insert_key same_pair self.old (depth, node)) }
        ensures count { IfOk result (λ n. n ≡ length (nodes_at depth self.new)) }
        ensures distinct { OnOk result (IsDistinct nat_eq (nodes_at depth self.new)) }
    {
        make_room(&mut self.counts, depth)?;
        let before = self.nodes.len();
        prove!(self.counts[depth] <= before as u64);
        if self.nodes.insert((depth, node.number()))? {
            self.counts[depth] += 1;
        }
        Ok(self.counts[depth])
    }
}

// Adds counts of 0 until there is one at a place.
fn make_room(counts: &mut Vec<u64>, place: usize) -> Result<(), NoMemory>
    ensures room { OnOk result (place < length counts.new.items) }
    ensures same { (k : ℕ) → slice_index counts.new.items k ≡ slice_index counts.old.items k }
{
    while counts.len() <= place {
        counts.push(0)?;
    }
    Ok(())
}
