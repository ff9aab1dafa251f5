//! The lemmas of one trace by pair of nodes, so that an entry finds those of its children, and none is logged twice.
ghost use Rattle.std.specs.Prelude.{◌≡◌, ◌++◌, ◌∷◌, [], None, OnOk, OnErr};
ghost use Rattle.kn_justify.specs.Lemmas.{lemma_of};

use indexmap::IndexMap;
use kn_diagram::Node;
use kn_logic::NoMemory;
use std::alloc::Global;
use std::marker::Model;

/// The lemmas of the pairs that were met: for each pair the id, or `None` where it needs no lemma.
#[derive(Drop)]
pub(crate) struct Lemmas {
    ids: IndexMap<(Node, Node), Option<u64>>,
}

impl Model for Lemmas {
    ghost use Rattle.std.specs.Prelude.{ℕ, List, Option};

    ghost Value = { List ((ℕ × ℕ) × Option ℕ) };

    ghost view = { λ l. l.ids.entries };
}

impl Lemmas {
    /// None yet.
    pub(crate) fn new(alloc: Global) -> Lemmas
        ensures { result ≡ [] }
    {
        Lemmas {
            ids: IndexMap::new(alloc),
        }
    }

    /// What was noted for a pair.
    pub(crate) fn get(&self, u: Node, v: Node) -> Option<Option<u64>>
        ensures { result ≡ lemma_of self.now u v }
    {
        self.ids.get(&(u, v)).copied()
    }

    /// Notes the lemma of a pair that has none. After an error nothing has changed.
    pub(crate) fn insert(&mut self, u: Node, v: Node, id: Option<u64>) -> Result<(), NoMemory>
        requires { lemma_of self.old u v ≡ None }
        ensures ok { OnOk result (self.new ≡ self.old ++ ((u, v), id) ∷ []) }
        ensures err { OnErr result (self.new ≡ self.old) }
    {
        self.ids.insert((u, v), id)?;
        Ok(())
    }
}
