//! The results of one operation by pair. Their order is kept, since they become the trace of the operation.
ghost use Rattle.std.specs.Prelude.{◌≡◌, ◌+◌, ◌<◌, ◌++◌, [], ◌∷◌, None, OnOk, OnErr};
ghost use Rattle.kn_diagram.specs.Traces.{found};

use crate::{Met, Node, Trace};
use indexmap::IndexMap;
use kn_logic::NoMemory;
use std::alloc::Global;
use std::marker::Model;

/// The results for the pairs that an operation has met.
#[derive(Drop)]
pub struct Memo {
    results: IndexMap<(usize, usize), usize>,
}

impl Model for Memo {
    ghost use Rattle.std.specs.Prelude.{List, map};
    ghost use Rattle.kn_diagram.specs.declared.trace.Met.{Met};
    ghost use Rattle.kn_diagram.specs.Traces.{met_of};

    ghost Value = { List Met };

    ghost view = { λ m. map met_of m.results.entries };
}

impl Memo {
    /// No results.
    pub fn new(alloc: Global) -> Memo
        ensures { result ≡ [] }
    {
        Memo {
            results: IndexMap::new(alloc),
        }
    }

    /// The result that was noted for a pair.
    pub fn get(&self, u: Node, v: Node) -> Option<Node>
        ensures { result ≡ found self.now u v }
    {
        let key = (u.number(), v.number());
        match self.results.get(&key) {
            Some(w) => Some(Node::new(*w)),
            None => None,
        }
    }

    /// Notes the result for a pair that is not there. After an error nothing has changed.
    pub fn insert(&mut self, u: Node, v: Node, w: Node) -> Result<(), NoMemory>
        requires { found self.old u v ≡ None }
        ensures ok { OnOk result (self.new ≡ self.old ++ record { u = u; v = v; w = w } ∷ []) }
        ensures err { OnErr result (self.new ≡ self.old) }
    {
        self.results.insert((u.number(), v.number()), w.number())?;
        Ok(())
    }

    /// Puts the pairs behind the entries of a trace, in the order in which they came.
    pub fn write(&self, trace: &mut Trace) -> Result<(), NoMemory>
        ensures ok { OnOk result (trace.new ≡ trace.old ++ self.now) }
        ensures err { OnErr result (trace.new ≡ trace.old) }
    {
        let mut entries = Vec::new(*self.results.allocator());
        for place in 0..self.results.len() {
            let Some((pair, w)) = self.results.get_index(place) else {
                unreachable!()
            };
            entries.push(Met {
                u: Node::new(pair.0),
                v: Node::new(pair.1),
                w: Node::new(*w),
            })?;
        }
        trace.append(&mut entries)
    }
}
