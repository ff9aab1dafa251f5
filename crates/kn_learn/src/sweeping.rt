//! What was left out of the clause is derived, from the last place down, and nothing that is not needed.
ghost use Rattle.std.specs.Prelude.{ℕ, List, [], ◌≡◌, ◌<◌, ◌+◌, take, vec_len, length, OnOk};
ghost use Rattle.std.specs.List.{AllByRecursion};
ghost use Rattle.std.specs.List.Sorted.{IsPermutation, IsNonDecreasing};
ghost use Rattle.kn_learn.specs.Analyses.{IsNeeded, IsRemovable, IsWalking};

use crate::NoMemory;
use crate::analysis::Analysis;
use crate::reading::reason_at;
use crate::walking::see_reasons;
use kn_propagate::Engine;
use kn_watch::Watched;

/// Derives what the conflict rests on of what is explained.
pub(crate) fn sweep<C: Watched, K: Watched>(
    engine: &Engine<C, K>,
    a: &mut Analysis,
) -> Result<(), NoMemory>
    requires walking { IsWalking engine.now.trail engine.now.live a.old.walk.lowest a.old.walk.explained.items a.old.walk }
    requires removable { AllByRecursion (IsRemovable engine.now.trail) a.old.walk.explained.items }
    ensures walking { OnOk result (IsWalking engine.now.trail engine.now.live a.new.walk.lowest [] a.new.walk) }
    ensures stays { OnOk result ((q : ℕ) → IsNeeded a.old.walk.marks q → IsNeeded a.new.walk.marks q) }
{
    put_in_order(&mut a.walk.explained);
    let mut count = a.walk.explained.len();
    while count > 0 {
        count -= 1;
        sweep_at(engine, a, count)?;
    }
    Ok(())
}

/// Puts places into ascending order.
pub(crate) fn put_in_order(places: &mut Vec<usize>)
    ensures permutation { IsPermutation places.old.items places.new.items }
    ensures order { IsNonDecreasing places.new.items }
{
    places.sort_unstable();
}

// derives one of the explained places, if the conflict rests on it
fn sweep_at<C: Watched, K: Watched>(
    engine: &Engine<C, K>,
    a: &mut Analysis,
    at: usize,
) -> Result<(), NoMemory>
    requires at { at < length a.old.walk.explained.items }
    requires order { IsNonDecreasing a.old.walk.explained.items }
    requires walking { IsWalking engine.now.trail engine.now.live a.old.walk.lowest (take (at + 1) a.old.walk.explained.items) a.old.walk }
    requires removable { AllByRecursion (IsRemovable engine.now.trail) a.old.walk.explained.items }
    ensures walking { OnOk result (IsWalking engine.now.trail engine.now.live a.new.walk.lowest (take at a.new.walk.explained.items) a.new.walk) }
    ensures same { OnOk result (a.new.walk.explained.items ≡ a.old.walk.explained.items) }
    ensures stays { OnOk result ((q : ℕ) → IsNeeded a.old.walk.marks q → IsNeeded a.new.walk.marks q) }
{
    let place = a.walk.explained[at];
    if !a.walk.marks.at(place).is_needed() {
        return Ok(());
    }
    let Some(id) = reason_at(engine.trail(), place) else {
        unreachable!()
    };
    see_reasons(engine, a, id, place)?;
    a.walk.derived.push(place)?;
    Ok(())
}
