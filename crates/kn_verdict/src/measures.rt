//! The numbers of nodes that were measured, so that a node is measured once, by however many paths it is reached.
ghost use Rattle.std.specs.Prelude.{◌≡◌, ◌++◌, [], ◌∷◌, None, OnOk, OnErr};
ghost use Rattle.kn_verdict.specs.Numbers.{found};

use crate::fewest::Fewest;
use indexmap::IndexMap;
use kn_diagram::Node;
use kn_logic::NoMemory;
use std::alloc::Global;
use std::marker::Model;

/// The numbers of the nodes that were measured.
#[derive(Drop)]
pub struct Measures {
    numbers: IndexMap<Node, Fewest>,
}

impl Model for Measures {
    ghost use Rattle.std.specs.Prelude.{ℕ, List};
    ghost use Rattle.kn_verdict.specs.declared.fewest.Fewest.{Fewest};

    ghost Value = { List (ℕ × Fewest) };

    ghost view = { λ m. m.numbers.entries };
}

impl Measures {
    /// None.
    pub fn new(alloc: Global) -> Measures
        ensures { result ≡ [] }
    {
        Measures {
            numbers: IndexMap::new(alloc),
        }
    }

    /// The numbers of a node that was measured.
    pub fn get(&self, node: Node) -> Option<Fewest>
        ensures { result ≡ found self.now node }
    {
        self.numbers.get(&node).copied()
    }

    /// Notes the numbers of a node that has none. After an error nothing has changed.
    pub fn insert(&mut self, node: Node, numbers: Fewest) -> Result<(), NoMemory>
        requires { found self.old node ≡ None }
        ensures ok { OnOk result (self.new ≡ self.old ++ (node, numbers) ∷ []) }
        ensures err { OnErr result (self.new ≡ self.old) }
    {
        self.numbers.insert(node, numbers)?;
        Ok(())
    }
}
