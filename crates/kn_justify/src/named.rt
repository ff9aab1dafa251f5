//! The names of nodes, kept over all stages of an elimination: a node that is met again is not defined again.
ghost use Rattle.std.specs.Prelude.{◌≡◌, ◌+◌, ◌<◌, ◌≤◌, ◌^◌, ◌++◌, ◌∷◌, [], None, OnErr, OnOk, IfSome};
ghost use Rattle.kn_diagram.specs.Diagrams.{IsNode};
ghost use Rattle.kn_justify.specs.Names.{name_of, arm_of, arm_at, hint_at};

use crate::name::Name;
use indexmap::IndexMap;
use kn_diagram::{Diagrams, Node};
use kn_lines::Arm;
use kn_logic::NoMemory;
use std::alloc::Global;
use std::marker::Model;

/// Names of nodes: for a node the variable of a proof that is defined as it, with the first of the four ids of
/// its definition.
#[derive(Drop)]
pub struct Named {
    names: IndexMap<Node, Name>,
}

impl Model for Named {
    ghost use Rattle.std.specs.Prelude.{ℕ, List, ◌+◌, ◌<◌, ◌^◌};
    ghost use Rattle.std.specs.List.{AllByRecursion};
    ghost use Rattle.kn_justify.specs.declared.name.Name.{Name};

    ghost Value = { List (ℕ × Name) };

    ghost view = { λ n. n.names.entries };

    ghost invariant = { λ n. AllByRecursion (λ e. e.1.id + 3 < 2 ^ 64) n.names.entries };
}

impl Named {
    /// No names.
    pub fn new(alloc: Global) -> Named
        ensures { result ≡ [] }
    {
        Named {
            names: IndexMap::new(alloc),
        }
    }

    /// What stands for a node in lines: the constants for the constants, and the literal of the node's variable
    /// where it is named; `None` exactly where it is neither.
    pub fn arm(&self, node: Node) -> Option<Arm>
        ensures { result ≡ arm_of self.now node }
    {
        if node == Node::FALSE {
            return Some(Arm::False);
        }
        if node == Node::TRUE {
            return Some(Arm::True);
        }
        match self.get(node) {
            Some(name) => Some(Arm::Lit(name.lit)),
            None => None,
        }
    }

    /// The same of a node that is a constant or named; `Arm::False` of any other.
    pub(crate) fn known_arm(&self, node: Node) -> Arm
        ensures { result ≡ arm_at self.now node }
    {
        match self.arm(node) {
            Some(arm) => arm,
            None => Arm::False,
        }
    }

    /// The name of a node; `None` exactly where it has none.
    pub(crate) fn get(&self, node: Node) -> Option<Name>
        ensures value { result ≡ name_of self.now node }
        ensures fits { IfSome result (λ n. n.id + 3 < 2 ^ 64) }
    {
        self.names.get(&node).copied()
    }

    /// Names a node that has no name. After an error nothing has changed.
    pub(crate) fn insert(&mut self, node: Node, name: Name) -> Result<(), NoMemory>
        requires absent { name_of self.old node ≡ None }
        requires fits { name.id + 3 < 2 ^ 64 }
        ensures ok { OnOk result (self.new ≡ self.old ++ (node, name) ∷ []) }
        ensures err { OnErr result (self.new ≡ self.old) }
    {
        self.names.insert(node, name)?;
        Ok(())
    }

    /// Adds the id of a clause of the node's definition, where the node is one of the variable at this depth;
    /// the clauses count from 0.
    pub(crate) fn push_hint(
        &self,
        hints: &mut Vec<u64>,
        d: &Diagrams,
        depth: usize,
        place: u64,
        node: Node,
    ) -> Result<(), NoMemory>
        requires there { IsNode d.now node }
        requires place { place ≤ 3 }
        ensures { OnOk result (hints.new.items ≡ hints.old.items ++ hint_at d.now self.now depth place node) }
    {
        if d.depth(node) != depth {
            return Ok(());
        }
        match self.get(node) {
            Some(name) => {
                hints.push(name.id + place)?;
                Ok(())
            },
            None => Ok(()),
        }
    }
}
