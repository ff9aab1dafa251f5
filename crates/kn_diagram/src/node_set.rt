//! A set of nodes in the order in which they came, so that one loop can go over it while it grows.
ghost use Rattle.std.specs.Prelude.{◌≡◌, [], nat_eq, slice_get, OnOk};
ghost use Rattle.indexmap.specs.IndexSet.{insert_key};

use crate::Node;
use indexmap::IndexSet;
use kn_logic::NoMemory;
use std::alloc::Global;
use std::marker::Model;

/// Nodes by their numbers, each there once, in the order in which they came.
#[derive(Drop)]
pub(crate) struct NodeSet {
    numbers: IndexSet<usize>,
}

impl Model for NodeSet {
    ghost use Rattle.std.specs.Prelude.{ℕ, List};

    ghost Value = { List ℕ };

    ghost view = { λ s. s.numbers.keys };
}

impl NodeSet {
    pub(crate) fn new(alloc: Global) -> NodeSet
        ensures { result ≡ [] }
    {
        NodeSet {
            numbers: IndexSet::new(alloc),
        }
    }

    /// Puts a node behind the others, unless it is there.
    pub(crate) fn insert(&mut self, node: Node) -> Result<(), NoMemory>
        ensures { OnOk result (self.new ≡ insert_key nat_eq self.old node) }
    {
        self.numbers.insert(node.number())?;
        Ok(())
    }

    /// The node at a place.
    pub(crate) fn get(&self, place: usize) -> Option<Node>
        ensures { result ≡ slice_get self.now place }
    {
        match self.numbers.get_index(place) {
            Some(number) => Some(Node::new(*number)),
            None => None,
        }
    }

    /// The numbers of the nodes, in order.
    pub(crate) fn numbers(&self) -> &[usize]
        ensures { result.now ≡ self.now }
    {
        self.numbers.as_slice()
    }
}
