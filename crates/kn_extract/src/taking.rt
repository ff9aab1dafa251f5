// A group is taken: its clauses go, and its klause comes.
ghost use Rattle.std.specs.Prelude.{◌≡◌, ◌≤◌, ◌<◌, ◌+◌, ◌^◌, ◌++◌, ◌∷◌, [], length, map, IfOk, OnOk};
ghost use Rattle.std.specs.List.{AllByRecursion};
ghost use Rattle.kn_format.specs.Grammar.{most_constraints};
ghost use Rattle.kn_logic.specs.Constraints.{klause, Fits};
ghost use Rattle.kn_extract.specs.Kept.{IsTaken};
ghost use Rattle.kn_extract.specs.Taking.{previous, without, IsWorthTaking};

use crate::Taken;
use kn_guess::Guess;
use kn_logic::{Constraint, NoMemory};
use kn_quant::Elimination;
use kn_store::Store;
use std::alloc::Global;

// The number of constraints that were ever added: those of a formula, and a klause for each group.
pub(crate) fn added(constraints: usize, taken: &[Taken]) -> u64
    requires { constraints ≤ most_constraints }
    ensures value { result ≡ constraints + length taken.now }
    ensures room { result + 1 < 2 ^ 64 }
{
    constraints as u64 + taken.len() as u64
}

// Takes the group that was guessed, which is the count of this bound.
pub(crate) fn take(
    alloc: Global,
    store: &mut Store,
    guess: Guess,
    bound: u64,
    elimination: Option<Elimination>,
) -> Result<Taken, NoMemory>
    requires fits { Fits store.old.vars (klause bound guess.group.border) }
    requires room { store.old.added + 1 < 2 ^ 64 }
    requires ids { AllByRecursion (λ id. 1 ≤ id) guess.ids }
    requires worth { IsWorthTaking guess.group bound elimination }
    ensures value { IfOk result (λ t. t ≡ record { group = guess.group; places = map previous guess.ids; klause = klause bound guess.group.border; elimination = elimination }) }
    ensures taken { IfOk result IsTaken }
    ensures store { OnOk result (store.new ≡ record store.old { added = store.old.added + 1; live = without guess.ids store.old.live ++ record { id = store.old.added + 1; constraint = klause bound guess.group.border } ∷ [] }) }
{
    let border = Vec::from_slice(alloc, guess.group().border())?;
    let klause = Constraint::new(bound, border);
    let copy = klause.copy()?;
    let places = places(alloc, guess.ids())?;
    let (group, ids) = guess.into_parts();
    remove_all(store, &ids);
    store.add(klause)?;
    Ok(Taken::new(group, places, copy, elimination))
}

// The places of constraints in the formula, counted from 0, by their ids, counted from 1.
fn places(alloc: Global, ids: &[u64]) -> Result<Vec<usize>, NoMemory>
    requires { AllByRecursion (λ id. 1 ≤ id) ids.now }
    ensures { IfOk result (λ places. places.items ≡ map previous ids.now) }
{
    let mut places = Vec::with_capacity(alloc, ids.len())?;
    for id in ids {
        places.push(*id as usize - 1)?;
    }
    Ok(places)
}

fn remove_all(store: &mut Store, ids: &[u64])
    ensures { store.new ≡ record store.old { live = without ids.now store.old.live } }
{
    for id in ids {
        store.remove(*id);
    }
}
