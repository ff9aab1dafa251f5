//! The engine: live constraints of two kinds over one trail.
ghost use Rattle.std.specs.Prelude.{◌≡◌, ◌≤◌, ◌<◌, ◌+◌, ◌-◌, ◌*◌, ◌^◌, ◌++◌, ◌∷◌, Some, None, [], false, length, IfOk, OnOk, OnErr, IfSome, IfNone, IsTrue, option_map, ℕ};
ghost use Rattle.std.specs.Option.{is_some};
ghost use Rattle.kn_logic.specs.Literals.{IsKnown, names};
ghost use Rattle.kn_logic.specs.Constraints.{Bounded, IsWithin};
ghost use Rattle.kn_logic.specs.Propagation.{IsClosed, IsShort};
ghost use Rattle.kn_watch.specs.Trails.{literals, below};
ghost use Rattle.kn_watch.specs.Watches.{listed, IsConflicting};
ghost use Rattle.kn_propagate.specs.declared.step.Step.TheVariants.{Closed, Conflict};
ghost use Rattle.kn_propagate.specs.Engines.{constraints, live_in, IsAdded, removed, IsNoReason, HasReasonAt, IsConflict, closed_only, IsEngine};
ghost use Rattle.kn_propagate.specs.Chains.{seen_as, at_slot, held_bounded, AreSame, IsGrown, AreReasoned};
ghost use Rattle.kn_propagate.specs.Wholes.{IsQuiet, IsTabled};

use crate::chains::Chains;
use crate::detaching::detach;
use crate::inserting::insert;
use crate::settling::settle;
use crate::slot::{Held, Slot, after, vacant};
use crate::walking::propagate;
use crate::{NoMemory, Step};
use indexmap::IndexMap;
use kn_logic::Lit;
use kn_watch::{Trail, Watched};
use std::alloc::Global;
use std::marker::Model;

/// Constraints of two kinds that watch their literals, over one trail. Each live constraint has an id of its
/// own; ids are any numbers that the caller gives, and variables count from 1.
#[derive(Debug, Drop)]
pub struct Engine<C: Watched, K: Watched> {
    trail: Trail,
    slots: Vec<Slot<Held<C, K>>>,
    chains: Chains,
    visited: usize,
    last: Option<Step>,
    pending: Vec<usize>,
    index: IndexMap<u64, usize>,
    free: usize,
}

impl<C: Watched, K: Watched> Model for Engine<C, K> {
    ghost use Rattle.std.specs.Prelude.{nat_eq};
    ghost use Rattle.indexmap.specs.IndexMap.{get};
    ghost use Rattle.kn_propagate.specs.Engines.{Engined};
    ghost use Rattle.kn_propagate.specs.Wholes.{live_of, IsWhole};
    ghost use Rattle.kn_propagate.specs.Chains.{seen_as, held_bounded, held_watches};

    ghost Value = { Engined };

    ghost view = { λ e. record { trail = e.trail; live = live_of (seen_as (held_bounded C.bounded K.bounded) (held_watches C.watches K.watches) e.slots.items); last = e.last } };

    ghost invariant = { λ e. IsWhole e.trail (seen_as (held_bounded C.bounded K.bounded) (held_watches C.watches K.watches) e.slots.items) e.chains e.visited e.last e.pending.items (get nat_eq e.index) };
}

impl<C: Watched, K: Watched> Engine<C, K> {
    /// An engine over so many variables, without a constraint and without a literal, at level 0. An error where
    /// memory is short.
    pub fn new(alloc: Global, vars: u64) -> Result<Engine<C, K>, NoMemory>
        ensures { IfOk result (λ e. e ≡ record { trail = record { vars = vars; level = 0; made = [] }; live = []; last = None }) }
    {
        Ok(Engine {
            trail: Trail::new(alloc, vars)?,
            slots: Vec::new(alloc),
            chains: Chains::new(alloc, vars)?,
            visited: 0,
            last: None,
            pending: Vec::new(alloc),
            index: IndexMap::new(alloc),
            free: 0,
        })
    }

    /// The literals that were made true, each with its level and its reason.
    pub fn trail(&self) -> &Trail
        ensures value { result.now ≡ self.now.trail }
        ensures kept { IsEngine self.now }
    {
        &self.trail
    }

    /// The number of variables.
    pub fn vars(&self) -> u64
        ensures value { result ≡ self.now.trail.vars }
        ensures kept { IsEngine self.now }
    {
        self.trail.vars()
    }

    /// The literals of the live constraint of an id, as its `lits` gives them; `None` exactly where no live
    /// constraint has this id.
    pub fn lits_of(&self, id: u64) -> Option<&[Lit]>
        ensures value { option_map (λ lits. lits.now) result ≡ option_map listed (live_in self.now.live id) }
        ensures kept { IsEngine self.now }
    {
        match self.index.get(&id) {
            Some(slot) => Some(self.slots[*slot].watch.lits()),
            None => None,
        }
    }

    /// Adds a clause under a new id. The trail stays as it is; the next propagation looks at the clause, where
    /// it forces a literal or is in conflict. An error where memory is short: the engine is as before then,
    /// and the clause is given up.
    pub fn add_clause(&mut self, c: C, id: u64) -> Result<(), NoMemory>
        requires fresh { live_in self.old.live id ≡ None }
        requires within { IsWithin self.old.trail.vars (C.bounded c) }
        requires waits { (k : ℕ) → k < self.old.trail.level → IsShort (literals (below (k + 1) self.old.trail.made)) (C.bounded c) → ⊥ }
        ensures trail { OnOk result (self.new.trail ≡ self.old.trail) }
        ensures live { OnOk result (IsAdded self.old.live id (C.bounded c) self.new.live) }
        ensures last { OnOk result (self.new.last ≡ None) }
        ensures err { OnErr result (self.new ≡ self.old) }
        ensures kept { IsEngine self.new }
    {
        self.add(Held::Clause(c), id)
    }

    /// Adds a constraint of the other kind under a new id, as `add_clause` does.
    pub fn add_klause(&mut self, k: K, id: u64) -> Result<(), NoMemory>
        requires fresh { live_in self.old.live id ≡ None }
        requires within { IsWithin self.old.trail.vars (K.bounded k) }
        requires waits { (n : ℕ) → n < self.old.trail.level → IsShort (literals (below (n + 1) self.old.trail.made)) (K.bounded k) → ⊥ }
        ensures trail { OnOk result (self.new.trail ≡ self.old.trail) }
        ensures live { OnOk result (IsAdded self.old.live id (K.bounded k) self.new.live) }
        ensures last { OnOk result (self.new.last ≡ None) }
        ensures err { OnErr result (self.new ≡ self.old) }
        ensures kept { IsEngine self.new }
    {
        self.add(Held::Klause(k), id)
    }

    /// Removes the live constraint of an id, which is no reason on the trail. False exactly where no live
    /// constraint has this id, and then nothing changes. A closed trail stays closed, and a conflict is no more the
    /// last step. Takes no memory.
    pub fn remove(&mut self, id: u64) -> bool
        requires free { IsNoReason self.old.trail.made id }
        ensures found { result ≡ is_some (live_in self.old.live id) }
        ensures trail { self.new.trail ≡ self.old.trail }
        ensures live { self.new.live ≡ removed id self.old.live }
        ensures last { IsTrue result → self.new.last ≡ closed_only self.old.last }
        ensures absent { result ≡ false → self.new ≡ self.old }
        ensures kept { IsEngine self.new }
    {
        let Some(owner) = self.index.swap_remove(&id) else {
            return false;
        };
        detach(&self.slots, &mut self.chains, owner, self.trail.vars());
        let watch = Held::Free { next: self.free };
        self.slots[owner] = Slot { id: None, watch };
        self.free = owner + 1;
        self.last = closed_only(self.last);
        true
    }

    /// Makes a literal without a value true, at a new level. The last step is `Closed`.
    pub fn assume(&mut self, lit: Lit)
        requires known { IsKnown self.old.trail.vars lit }
        requires unset { names (literals self.old.trail.made) lit.variable ≡ false }
        requires closed { self.old.last ≡ Some Closed }
        ensures live { self.new.live ≡ self.old.live }
        ensures trail { self.new.trail ≡ record self.old.trail { level = self.old.trail.level + 1; made = self.old.trail.made ++ (record { lit = lit; level = self.old.trail.level + 1; reason = None }) ∷ [] } }
        ensures last { self.new.last ≡ None }
        ensures kept { IsEngine self.new }
    {
        self.trail.raise();
        self.trail.push(lit, None);
        self.last = None;
    }

    /// Goes back to a level: exactly the literals of higher levels lose their values. A closed trail stays
    /// closed, and a conflict is no more the last step. Takes no memory.
    pub fn back_to(&mut self, level: u64)
        requires { level ≤ self.old.trail.level }
        ensures trail { self.new.trail ≡ record self.old.trail { level = level; made = below (level + 1) self.old.trail.made } }
        ensures live { self.new.live ≡ self.old.live }
        ensures last { self.new.last ≡ closed_only self.old.last }
        ensures kept { IsEngine self.new }
    {
        self.trail.back_to(level);
        self.visited = self.visited.min(self.trail.len());
        self.last = closed_only(self.last);
    }

    /// Makes true all that is forced, until nothing is (`Closed`) or some live constraint has too few literals
    /// left (`Conflict`). Each literal that is added was forced by its reason, at its place. Takes no memory.
    pub fn propagate(&mut self) -> Step
        ensures live { self.new.live ≡ self.old.live }
        ensures grown { IsGrown self.old.trail self.new.trail }
        ensures forced { (p : ℕ) → length self.old.trail.made ≤ p → p < length self.new.trail.made → HasReasonAt self.new.live self.new.trail.made p }
        ensures last { self.new.last ≡ Some result }
        ensures closed { result ≡ Closed → IsClosed (literals self.new.trail.made) (constraints self.new.live) }
        ensures conflict { (id : ℕ) → result ≡ Conflict id → IsConflict self.new id }
        ensures kept { IsEngine self.new }
    {
        let stopped = advance(
            &mut self.slots,
            &mut self.chains,
            &mut self.trail,
            &mut self.visited,
            &mut self.pending,
        );
        match stopped {
            Some(owner) => {
                let Some(id) = self.slots[owner].id else {
                    unreachable!()
                };
                self.last = Some(Step::Conflict { id });
                Step::Conflict { id }
            }
            None => {
                self.last = Some(Step::Closed);
                Step::Closed
            }
        }
    }

    // how many slots and entries there are, those that are not used counted
    #[cfg(test)]
    pub(crate) fn room(&self) -> (usize, usize) {
        (self.slots.len(), self.chains.entry_count())
    }

    // adds a constraint of one of the kinds
    fn add(&mut self, watch: Held<C, K>, id: u64) -> Result<(), NoMemory>
        requires fresh { live_in self.old.live id ≡ None }
        requires within { IsWithin self.old.trail.vars (held_bounded C.bounded K.bounded watch) }
        requires waits { (k : ℕ) → k < self.old.trail.level → IsShort (literals (below (k + 1) self.old.trail.made)) (held_bounded C.bounded K.bounded watch) → ⊥ }
        ensures trail { OnOk result (self.new.trail ≡ self.old.trail) }
        ensures live { OnOk result (IsAdded self.old.live id (held_bounded C.bounded K.bounded watch) self.new.live) }
        ensures last { OnOk result (self.new.last ≡ None) }
        ensures err { OnErr result (self.new ≡ self.old) }
        ensures kept { IsEngine self.new }
    {
        self.chains.reserve(watch.lits().len())?;
        self.pending.reserve(1)?;
        let owner = vacant(&mut self.slots, &mut self.free)?;
        self.index.insert(id, owner)?;
        self.free = after(&self.slots[owner].watch);
        insert(
            &mut self.slots,
            &mut self.chains,
            &mut self.pending,
            &self.trail,
            self.visited,
            owner,
            id,
            watch,
        );
        self.last = None;
        Ok(())
    }
}

// the last step, if the trail is closed
fn closed_only(last: Option<Step>) -> Option<Step>
    ensures { result ≡ closed_only last }
{
    match last {
        Some(Step::Closed) => last,
        Some(Step::Conflict { .. }) => None,
        None => None,
    }
}

// looks at what was added, then visits what was not visited; the slot of a constraint in conflict, at which it
// stopped
fn advance<W: Watched>(
    slots: &mut Vec<Slot<W>>,
    chains: &mut Chains,
    trail: &mut Trail,
    visited: &mut usize,
    pending: &mut Vec<usize>,
) -> Option<usize>
    requires { IsTabled trail.old (seen_as W.bounded W.watches slots.old.items) chains.old visited.old pending.old.items }
    ensures tabled { IsTabled trail.new (seen_as W.bounded W.watches slots.new.items) chains.new visited.new pending.new.items }
    ensures same { AreSame (seen_as W.bounded W.watches slots.old.items) (seen_as W.bounded W.watches slots.new.items) }
    ensures present { IsGrown trail.old trail.new }
    ensures reasons { AreReasoned (seen_as W.bounded W.watches slots.old.items) trail.old.made trail.new.made }
    ensures all { IfNone result (length trail.new.made ≤ visited.new) }
    ensures quiet { IfNone result (IsQuiet (literals trail.new.made) (seen_as W.bounded W.watches slots.new.items)) }
    ensures conflict { IfSome result (λ owner. (owner < length slots.new.items) × IsConflicting (literals trail.new.made) (at_slot (seen_as W.bounded W.watches slots.new.items) owner).c) }
{
    if let Some(owner) = settle(slots, pending, trail) {
        return Some(owner);
    }
    pending.clear();
    propagate(slots, chains, trail, visited)
}
