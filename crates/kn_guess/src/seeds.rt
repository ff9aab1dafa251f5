//! Guesses from a variable, by tables made once for all seeds: while a variable is free, what names it stays.
ghost use Rattle.std.specs.Prelude.{ℕ, ◌≡◌, ◌≤◌, true, false, List, filter, IfOk, IfErr};
ghost use Rattle.std.specs.List.{AllByRecursion};
ghost use Rattle.std.specs.List.Sorted.{IsStrictlyIncreasing};
ghost use Rattle.kn_logic.specs.Constraints.{klause};
ghost use Rattle.kn_store.specs.Stores.{Stored, IsStored, constraints_of, ids_of, chosen};
ghost use Rattle.kn_guess.specs.Guesses.{in_klause, is_seed, touches, IsBorder, IsSeedGuess};
ghost use Rattle.kn_guess.specs.Refusals.{IsRefused};
ghost use Rattle.kn_guess.specs.Seen.{IsSeen};
ghost use Rattle.kn_guess.specs.Tables.{SeedTable, IsLeastSet, IsSeedTable, replaced};

use crate::border::border;
use crate::deep::{deep, renew};
use crate::flag_set::FlagSet;
use crate::flags::Flags;
use crate::growing::least;
use crate::marks::{free, seeds};
use crate::numbers::Numbers;
use crate::tables::{entries, members};
use crate::taking::{ascending, found, ids_with};
use crate::walking::Later;
use crate::{Guess, NoGuess};
use kn_logic::{Group, Lit, NoMemory};
use kn_store::Store;
use std::alloc::Global;
use std::marker::Model;

/// The guess of a seed, which is a variable of the store: the least set of variables that has it, and with
/// each variable the later ones than the seed that stand in no klause and in a clause with it; all
/// clauses that name one of the set; and the other literals of these clauses as the border. Each error
/// but want of memory comes exactly where its test is the first that fails.
pub fn aux_guess(alloc: Global, store: &Store, seed: u64) -> Result<Guess, NoGuess>
    requires first { 1 ≤ seed }
    requires last { seed ≤ store.now.vars }
    ensures guess { IfOk result (λ g. IsSeedGuess store.now seed g.group g.ids) }
    ensures refused { IfErr result (IsRefused (constraints_of store.now.live) seed) }
{
    let mut seeds = Seeds::new(alloc, store)?;
    seeds.guess(alloc, store, seed)
}

/// What is kept of a store to guess from all its seeds, ascending. It stays right where a group that was
/// guessed is taken out of the store, and its klause has come, if it is told of it.
#[derive(Debug, Drop)]
pub struct Seeds {
    from: u64,
    free: Flags,
    seeds: Flags,
    deep: Flags,
    entries: Vec<Numbers>,
    members: Vec<Numbers>,
    set: FlagSet,
    met: FlagSet,
    wasted: u64,
}

impl Model for Seeds {
    ghost use Rattle.kn_guess.specs.Tables.{SeedTable};

    ghost Value = { SeedTable };

    ghost view = { λ s. record { from = s.from; free = s.free; seeds = s.seeds; deep = s.deep; entries = s.entries.items; members = s.members.items } };
}

impl Seeds {
    /// The seeds of a store. An error where memory is short.
    pub fn new(alloc: Global, store: &Store) -> Result<Seeds, NoMemory>
        ensures table { IfOk result (IsSeedTable store.now) }
        ensures from { IfOk result (λ x. x.from ≡ 1) }
    {
        let members = members(alloc, store)?;
        let free = free(alloc, store, members.len())?;
        Ok(Seeds {
            from: 1,
            seeds: seeds(alloc, store, &free, members.len())?,
            deep: deep(alloc, store, &free, members.len())?,
            free,
            entries: entries(alloc, store)?,
            members,
            set: FlagSet::new(alloc),
            met: FlagSet::new(alloc),
            wasted: 0,
        })
    }

    /// The guess of a seed, as `aux_guess` gives it. Seeds are asked in ascending order.
    pub fn guess(&mut self, alloc: Global, store: &Store, seed: u64) -> Result<Guess, NoGuess>
        requires first { 1 ≤ seed }
        requires last { seed ≤ store.now.vars }
        requires table { IsSeedTable store.now self.old }
        requires later { self.old.from ≤ seed }
        ensures guess { IfOk result (λ g. IsSeedGuess store.now seed g.group g.ids) }
        ensures refused { IfErr result (IsRefused (constraints_of store.now.live) seed) }
        ensures table { IsSeedTable store.now self.new }
        ensures from { self.new.from ≤ seed }
    {
        let _vars = store.vars();
        self.from = seed;
        if !self.seeds.is_up(seed) {
            return Err(NoGuess::NotSeed);
        }
        let end = self.members.len();
        renew(
            alloc,
            store,
            &self.free,
            end,
            &mut self.deep,
            &mut self.wasted,
        )?;
        if self.deep.is_up(seed) {
            return Err(NoGuess::TooMany);
        }
        let later = Later {
            seed,
            free: self.free.all(),
        };
        if !least(
            store,
            &mut self.entries,
            &mut self.members,
            &mut self.set,
            &mut self.met,
            &later,
        )? {
            self.wasted = self.wasted.saturating_add(1);
            return Err(NoGuess::TooMany);
        }
        bordered(alloc, store, &self.set, seed)
    }

    /// The group was taken out of the store, and its klause has come.
    pub fn took(&mut self, group: &Group)
        ensures table { (s : Stored) (seed : ℕ) (ids : List ℕ) (bound : ℕ) → IsStored s → IsSeedTable s self.old → IsSeedGuess s seed group.now ids → 2 ≤ bound → IsSeedTable (replaced s (touches group.now.aux) (klause bound group.now.border)) self.new }
        ensures from { self.new.from ≡ self.old.from }
    {
        self.free.lower_lits(group.border());
        self.seeds.lower_lits(group.border());
        self.seeds.lower_all(group.aux());
        self.deep.clear();
    }
}

// The guess of a seed with this least set.
fn bordered(alloc: Global, store: &Store, set: &FlagSet, seed: u64) -> Result<Guess, NoGuess>
    requires seed { is_seed (constraints_of store.now.live) seed ≡ true }
    requires stored { IsStored store.now }
    requires set { IsLeastSet store.now seed set.now }
    ensures guess { IfOk result (λ g. IsSeedGuess store.now seed g.group g.ids) }
    ensures refused { IfErr result (IsRefused (constraints_of store.now.live) seed) }
{
    let aux = ascending(Vec::from_slice(alloc, set.vars())?);
    match border(alloc, store, set, &aux) {
        Ok(border) => Ok(taken(alloc, store, aux, border)?),
        Err(why) => Err(why),
    }
}

// The guess of these auxiliary variables and this border of theirs.
fn taken(alloc: Global, store: &Store, aux: Vec<u64>, border: Vec<Lit>) -> Result<Guess, NoMemory>
    requires stored { IsStored store.now }
    requires known { AllByRecursion (λ x. (1 ≤ x) × (x ≤ store.now.vars)) aux.items }
    requires alone { AllByRecursion (λ x. in_klause (constraints_of store.now.live) x ≡ false) aux.items }
    requires ascending { IsStrictlyIncreasing aux.items }
    requires border { IsBorder (filter (touches aux.items) (constraints_of store.now.live)) aux.items border.items }
    ensures aux { IfOk result (λ g. g.group.aux ≡ aux.items) }
    ensures border { IfOk result (λ g. g.group.border ≡ border.items) }
    ensures taken { IfOk result (λ g. g.group.taken ≡ constraints_of (chosen (touches aux.items) store.now.live)) }
    ensures ids { IfOk result (λ g. g.ids ≡ ids_of (chosen (touches aux.items) store.now.live)) }
{
    let ids = ascending(ids_with(alloc, store, &aux)?);
    let clauses = found(alloc, store, &ids)?;
    Ok(Guess::new(Group::new(aux, clauses, border), ids))
}
