//! The units that were made so far, by node: a later stage starts from those of the nodes that it is made of.
ghost use Rattle.std.specs.Prelude.{◌≡◌, ◌++◌, ◌∷◌, [], None, OnOk, OnErr};
ghost use Rattle.kn_justify.specs.Taken.{unit_of};

use indexmap::IndexMap;
use kn_diagram::Node;
use kn_logic::NoMemory;
use std::alloc::Global;
use std::marker::Model;

/// The units of nodes: for each the id of the clause of its arm alone, or `None` for "true".
#[derive(Drop)]
pub(crate) struct Units {
    ids: IndexMap<Node, Option<u64>>,
}

impl Model for Units {
    ghost use Rattle.std.specs.Prelude.{ℕ, List, Option};

    ghost Value = { List (ℕ × Option ℕ) };

    ghost view = { λ u. u.ids.entries };
}

impl Units {
    /// None yet.
    pub(crate) fn new(alloc: Global) -> Units
        ensures { result ≡ [] }
    {
        Units {
            ids: IndexMap::new(alloc),
        }
    }

    /// What was noted for a node.
    pub(crate) fn get(&self, node: Node) -> Option<Option<u64>>
        ensures { result ≡ unit_of self.now node }
    {
        self.ids.get(&node).copied()
    }

    /// Notes the unit of a node that has none. After an error nothing has changed.
    pub(crate) fn insert(&mut self, node: Node, id: Option<u64>) -> Result<(), NoMemory>
        requires { unit_of self.old node ≡ None }
        ensures ok { OnOk result (self.new ≡ self.old ++ (node, id) ∷ []) }
        ensures err { OnErr result (self.new ≡ self.old) }
    {
        self.ids.insert(node, id)?;
        Ok(())
    }
}
