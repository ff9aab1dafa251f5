//! What an operation met on its way, so that a proof of its result can go the same way afterwards.
ghost use Rattle.std.specs.Prelude.{◌≡◌, ◌++◌, [], take, OnOk, OnErr};

use crate::Node;
use kn_logic::NoMemory;
use std::alloc::Global;
use std::marker::Model;

/// A pair of nodes that was met, and the result for it.
#[derive(Clone, Copy, Debug)]
pub struct Met {
    pub u: Node,
    pub v: Node,
    pub w: Node,
}

/// The pairs that were met, in order.
#[derive(Debug, Drop)]
pub struct Trace {
    entries: Vec<Met>,
}

impl Model for Trace {
    ghost use Rattle.std.specs.Prelude.{List};
    ghost use Rattle.kn_diagram.specs.declared.trace.Met.{Met};

    ghost Value = { List Met };

    ghost view = { λ t. t.entries.items };
}

impl Trace {
    /// A trace without entries.
    pub fn new(alloc: Global) -> Trace
        ensures { result ≡ [] }
    {
        Trace {
            entries: Vec::new(alloc),
        }
    }

    /// The entries, the earliest first.
    pub fn met(&self) -> &[Met]
        ensures { result.now ≡ self.now }
    {
        &self.entries
    }

    pub(crate) fn append(&mut self, entries: &mut Vec<Met>) -> Result<(), NoMemory>
        ensures ok { OnOk result (self.new ≡ self.old ++ entries.old.items) }
        ensures err { OnErr result (self.new ≡ self.old) }
    {
        self.entries.append(entries)
    }

    /// Drops all entries but so many, which is at most how many there are.
    pub fn truncate(&mut self, len: usize)
        ensures { self.new ≡ take len self.old }
    {
        self.entries.truncate(len);
    }
}
