// The phase of seeds: groups with auxiliary variables.
ghost use Rattle.std.specs.Prelude.{ℕ, ◌≡◌, ◌≤◌, ◌+◌, length, List, OnOk, IfOk, IfSome, IfNone};
ghost use Rattle.std.specs.List.{range_with_len};
ghost use Rattle.kn_logic.specs.Groups.{Gathered};
ghost use Rattle.kn_format.specs.Grammar.{most_constraints};
ghost use Rattle.kn_guess.specs.Guesses.{IsSeedGuess};
ghost use Rattle.kn_guess.specs.Tables.{IsSeedTable};
ghost use Rattle.kn_extract.specs.Extractions.{IsSeedTaken};
ghost use Rattle.kn_extract.specs.Taking.{HasTried, HaveTried};

use crate::Taken;
use crate::counting::count_of;
use crate::taking::{added, take};
use kn_guess::{Guess, NoGuess, Seeds, refused_seeds_have_no_guess};
use kn_logic::NoMemory;
use kn_store::Store;
use std::alloc::{AllocError, Global};

// Tries each variable as a seed, ascending. The formula has so many constraints.
pub(crate) fn try_seeds(
    alloc: Global,
    store: &mut Store,
    taken: &mut Vec<Taken>,
    constraints: usize,
) -> Result<(), NoMemory>
    requires few { constraints ≤ most_constraints }
    requires added { store.old.added ≡ constraints + length taken.old.items }
    ensures tried { OnOk result (HaveTried IsSeedTaken (range_with_len 1 store.old.vars) store.old store.new taken.old.items taken.new.items) }
    ensures added { OnOk result (store.new.added ≡ constraints + length taken.new.items) }
{
    let mut seeds = Seeds::new(alloc, store)?;
    try_each(alloc, store, &mut seeds, taken, constraints)
}

fn try_each(
    alloc: Global,
    store: &mut Store,
    seeds: &mut Seeds,
    taken: &mut Vec<Taken>,
    constraints: usize,
) -> Result<(), NoMemory>
    requires few { constraints ≤ most_constraints }
    requires added { store.old.added ≡ constraints + length taken.old.items }
    requires table { IsSeedTable store.old seeds.old }
    requires from { seeds.old.from ≤ 1 }
    ensures tried { OnOk result (HaveTried IsSeedTaken (range_with_len 1 store.old.vars) store.old store.new taken.old.items taken.new.items) }
    ensures added { OnOk result (store.new.added ≡ constraints + length taken.new.items) }
{
    for place in 0..store.vars() {
        try_seed(alloc, store, seeds, taken, constraints, place + 1)?;
    }
    Ok(())
}

fn try_seed(
    alloc: Global,
    store: &mut Store,
    seeds: &mut Seeds,
    taken: &mut Vec<Taken>,
    constraints: usize,
    seed: u64,
) -> Result<(), NoMemory>
    requires first { 1 ≤ seed }
    requires last { seed ≤ store.old.vars }
    requires few { constraints ≤ most_constraints }
    requires added { store.old.added ≡ constraints + length taken.old.items }
    requires table { IsSeedTable store.old seeds.old }
    requires from { seeds.old.from ≤ seed }
    ensures tried { OnOk result (HasTried IsSeedTaken seed store.old store.new taken.old.items taken.new.items) }
    ensures added { OnOk result (store.new.added ≡ constraints + length taken.new.items) }
    ensures vars { OnOk result (store.new.vars ≡ store.old.vars) }
    ensures table { OnOk result (IsSeedTable store.new seeds.new) }
    ensures from { OnOk result (seeds.new.from ≤ seed) }
{
    let _vars = store.vars();
    let _added = added(constraints, taken);
    let Some(guess) = guess_of(alloc, store, seeds, seed)? else {
        return Ok(());
    };
    let Some(count) = count_of(alloc, guess.group())? else {
        return Ok(());
    };
    let group = take(alloc, store, guess, count.bound, Some(count.elimination))?;
    seeds.took(group.group());
    taken.push(group)?;
    Ok(())
}

// The guess of a seed, where it has one.
fn guess_of(
    alloc: Global,
    store: &Store,
    seeds: &mut Seeds,
    seed: u64,
) -> Result<Option<Guess>, NoMemory>
    requires first { 1 ≤ seed }
    requires last { seed ≤ store.now.vars }
    requires table { IsSeedTable store.now seeds.old }
    requires from { seeds.old.from ≤ seed }
    ensures some { IfOk result (λ o. IfSome o (λ g. IsSeedGuess store.now seed g.group g.ids)) }
    ensures none { IfOk result (λ o. IfNone o ((g : Gathered) (ids : List ℕ) → IsSeedGuess store.now seed g ids → ⊥)) }
    ensures table { IsSeedTable store.now seeds.new }
    ensures from { seeds.new.from ≤ seed }
{
    refused_seeds_have_no_guess();
    match seeds.guess(alloc, store, seed) {
        Ok(guess) => Ok(Some(guess)),
        Err(NoGuess::Memory) => Err(AllocError),
        Err(_) => Ok(None),
    }
}
