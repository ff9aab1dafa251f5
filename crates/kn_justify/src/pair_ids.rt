//! Clauses of two literals, found by their variables.
ghost use Rattle.std.specs.Prelude.{◌≡◌, ◌++◌, ◌∷◌, ◌⊎◌, ℕ, [], Some, IsSome, IfOk, OnOk};
ghost use Rattle.kn_justify.specs.PairIds.{id_of, IsOver, IsNoted, AreNoted};

use indexmap::IndexMap;
use kn_log::Log;
use kn_logic::{Constraint, NoMemory};
use std::alloc::Global;
use std::marker::Model;

/// Ids of clauses of two literals, found by the two variables.
#[derive(Drop)]
pub(crate) struct PairIds {
    // the smaller variable comes first
    ids: IndexMap<(u64, u64), u64>,
}

impl Model for PairIds {
    ghost use Rattle.std.specs.Prelude.{ℕ, List};

    ghost Value = { List ((ℕ × ℕ) × ℕ) };

    ghost view = { λ p. p.ids.entries };
}

impl PairIds {
    /// No ids.
    pub(crate) fn new(alloc: Global) -> PairIds
        ensures { result ≡ [] }
    {
        PairIds {
            ids: IndexMap::new(alloc),
        }
    }

    /// The id that was noted for two variables, the first of which is the smaller one; `None` exactly where there
    /// is none.
    pub(crate) fn get(&self, u: u64, v: u64) -> Option<u64>
        ensures { result ≡ id_of self.now u v }
    {
        self.ids.get(&(u, v)).copied()
    }

    /// Notes the id of a constraint, where it has two literals and no id is noted for their variables.
    pub(crate) fn note(&mut self, c: &Constraint, id: u64) -> Result<(), NoMemory>
        ensures right { OnOk result ((u v other : ℕ) → id_of self.new u v ≡ Some other → (id_of self.old u v ≡ Some other) ⊎ (IsOver c.now.lits u v × (other ≡ id))) }
        ensures kept { OnOk result ((u v other : ℕ) → id_of self.old u v ≡ Some other → id_of self.new u v ≡ Some other) }
        ensures noted { OnOk result (IsNoted self.new c.now.lits) }
    {
        let [a, b] = c.lits() else {
            return Ok(());
        };
        if a.var() < b.var() {
            self.insert(a.var(), b.var(), id)
        } else {
            self.insert(b.var(), a.var(), id)
        }
    }

    // Notes an id for two variables, where none is noted for them.
    fn insert(&mut self, u: u64, v: u64, id: u64) -> Result<(), NoMemory>
        ensures right { OnOk result ((x y other : ℕ) → id_of self.new x y ≡ Some other → (id_of self.old x y ≡ Some other) ⊎ ((x ≡ u) × (y ≡ v) × (other ≡ id))) }
        ensures kept { OnOk result ((x y other : ℕ) → id_of self.old x y ≡ Some other → id_of self.new x y ≡ Some other) }
        ensures noted { OnOk result (IsSome (id_of self.new u v)) }
    {
        if self.get(u, v).is_some() {
            return Ok(());
        }
        self.ids.insert((u, v), id)?;
        Ok(())
    }
}

/// Notes these ids of a log: each of a live constraint of two literals, or another of the same variables.
pub(crate) fn pair_ids(alloc: Global, ids: &[u64], log: &Log) -> Result<PairIds, NoMemory>
    ensures { IfOk result (AreNoted log.now.state ids.now) }
{
    let mut pairs = PairIds::new(alloc);
    for id in ids {
        if let Some(c) = log.live(*id) {
            pairs.note(c, *id)?;
        }
    }
    Ok(pairs)
}
