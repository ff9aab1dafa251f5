// The phase of starts: groups of binary clauses.
ghost use Rattle.std.specs.Prelude.{◌≡◌, ◌≤◌, ◌+◌, length, OnOk};
ghost use Rattle.std.specs.List.{range_with_len};
ghost use Rattle.kn_format.specs.Grammar.{most_constraints};
ghost use Rattle.kn_store.specs.Stores.{IsStored};
ghost use Rattle.kn_guess.specs.Tables.{IsPairTable};
ghost use Rattle.kn_extract.specs.Extractions.{IsPairTaken};
ghost use Rattle.kn_extract.specs.Taking.{HasTried, HaveTried};

use crate::Taken;
use crate::taking::{added, take};
use kn_guess::{Pairs, pairs_stay, refused_starts_have_no_guess};
use kn_logic::NoMemory;
use kn_store::Store;
use std::alloc::Global;

// Tries each constraint of the formula as a start, of which there are so many.
pub(crate) fn try_starts(
    alloc: Global,
    store: &mut Store,
    taken: &mut Vec<Taken>,
    constraints: usize,
) -> Result<(), NoMemory>
    requires few { constraints ≤ most_constraints }
    requires added { store.old.added ≡ constraints + length taken.old.items }
    ensures tried { OnOk result (HaveTried IsPairTaken (range_with_len 1 constraints) store.old store.new taken.old.items taken.new.items) }
    ensures added { OnOk result (store.new.added ≡ constraints + length taken.new.items) }
{
    let pairs = Pairs::new(alloc, store)?;
    try_each(alloc, store, &pairs, taken, constraints)
}

fn try_each(
    alloc: Global,
    store: &mut Store,
    pairs: &Pairs,
    taken: &mut Vec<Taken>,
    constraints: usize,
) -> Result<(), NoMemory>
    requires few { constraints ≤ most_constraints }
    requires added { store.old.added ≡ constraints + length taken.old.items }
    requires table { IsPairTable store.old pairs.now }
    ensures tried { OnOk result (HaveTried IsPairTaken (range_with_len 1 constraints) store.old store.new taken.old.items taken.new.items) }
    ensures added { OnOk result (store.new.added ≡ constraints + length taken.new.items) }
{
    for place in 0..constraints {
        try_start(alloc, store, pairs, taken, constraints, place as u64 + 1)?;
    }
    Ok(())
}

fn try_start(
    alloc: Global,
    store: &mut Store,
    pairs: &Pairs,
    taken: &mut Vec<Taken>,
    constraints: usize,
    start: u64,
) -> Result<(), NoMemory>
    requires few { constraints ≤ most_constraints }
    requires added { store.old.added ≡ constraints + length taken.old.items }
    requires table { IsPairTable store.old pairs.now }
    ensures tried { OnOk result (HasTried IsPairTaken start store.old store.new taken.old.items taken.new.items) }
    ensures table { OnOk result (IsPairTable store.new pairs.now) }
    ensures added { OnOk result (store.new.added ≡ constraints + length taken.new.items) }
{
    refused_starts_have_no_guess();
    pairs_stay();
    let _vars = store.vars();
    let _added = added(constraints, taken);
    let Some(guess) = pairs.guess(alloc, store, start)? else {
        return Ok(());
    };
    let bound = guess.group().border().len() as u64 - 1;
    let group = take(alloc, store, guess, bound, None)?;
    taken.push(group)?;
    Ok(())
}
