//! Which literals of the clause follow from the others by reasons.
ghost use Rattle.std.specs.Prelude.{ℕ, ◌≡◌, ◌<◌, length, true, false, OnOk, IfOk};
ghost use Rattle.std.specs.List.{AllByRecursion};
ghost use Rattle.kn_learn.specs.Marking.{mark_at, is_needed};
ghost use Rattle.kn_learn.specs.Analyses.{IsNeeded, IsLower, IsRemovable, Explores};

use crate::NoMemory;
use crate::analysis::{Analysis, Walk};
use crate::marks::Mark;
use crate::reading::{false_before, level_at, reason_at};
use crate::seeing::level_bit;
use kn_logic::Lit;
use kn_propagate::Engine;
use kn_watch::{Trail, Watched};

/// How deep reasons are looked into, so that the stack stays small.
const DEPTH: u32 = 1000;

/// How many literals of level 0 are explained for the sake of one: each of them is a hint of the clause. One
/// that wants more stays in the clause.
const CONE: u64 = 64;

/// Finds which of the kept places follow from the others by reasons, and marks them.
pub(crate) fn remove<C: Watched, K: Watched>(
    engine: &Engine<C, K>,
    a: &mut Analysis,
) -> Result<(), NoMemory>
    requires lower { AllByRecursion (IsLower engine.now.trail) a.old.walk.kept.items }
    requires needed { AllByRecursion (IsNeeded a.old.walk.marks) a.old.walk.kept.items }
    ensures explores { OnOk result (Explores engine.now.trail a.old.walk a.new.walk) }
{
    for i in 0..a.walk.kept.len() {
        let place = a.walk.kept[i];
        remove_one(engine, a, place)?;
    }
    Ok(())
}

// marks a kept place if it follows from others
fn remove_one<C: Watched, K: Watched>(
    engine: &Engine<C, K>,
    a: &mut Analysis,
    place: usize,
) -> Result<(), NoMemory>
    requires lower { IsLower engine.now.trail place }
    requires needed { IsNeeded a.old.walk.marks place }
    ensures explores { OnOk result (Explores engine.now.trail a.old.walk a.new.walk) }
{
    a.cone = CONE;
    if !explain(engine, a, place, DEPTH)? {
        return Ok(());
    }
    a.walk.explained.push(place)?;
    a.walk.marks.set(place, Mark::Pending)
}

// whether the literals that a place's reason rests on all follow from others, or are needed anyway
#[cycle(explaining)]
fn explain<C: Watched, K: Watched>(
    engine: &Engine<C, K>,
    a: &mut Analysis,
    place: usize,
    depth: u32,
) -> Result<bool, NoMemory>
    requires lower { IsLower engine.now.trail place }
    ensures explores { OnOk result (Explores engine.now.trail a.old.walk a.new.walk) }
    ensures yes { IfOk result (λ yes. yes ≡ true → IsRemovable engine.now.trail place) }
{
    if depth == 0 {
        return Ok(false);
    }
    let Some(id) = reason_at(engine.trail(), place) else {
        return Ok(false);
    };
    let Some(lits) = engine.lits_of(id) else {
        return Ok(false);
    };
    for lit in lits {
        if !is_explained(engine, a, *lit, place, depth - 1)? {
            return Ok(false);
        }
    }
    Ok(true)
}

// whether what made a literal false before a place follows from others, or is needed anyway; for the sake of a
// place above level 0, a literal of level 0 may come into the clause
#[cycle(explaining)]
fn is_explained<C: Watched, K: Watched>(
    engine: &Engine<C, K>,
    a: &mut Analysis,
    lit: Lit,
    before: usize,
    depth: u32,
) -> Result<bool, NoMemory>
    requires before { before < length engine.now.trail.made }
    ensures explores { OnOk result (Explores engine.now.trail a.old.walk a.new.walk) }
{
    let Some(place) = false_before(engine.trail(), lit, before) else {
        return Ok(true);
    };
    match a.walk.marks.at(place) {
        Mark::Seen | Mark::Pending | Mark::Explained => Ok(true),
        Mark::Failed => Ok(may_stay(engine.trail(), place, before)),
        Mark::Unseen => {
            if attempt(engine, a, place, depth)? {
                return Ok(true);
            }
            Ok(may_stay(engine.trail(), place, before))
        }
    }
}

// tries to explain a place that is not needed, and marks it
#[cycle(explaining)]
fn attempt<C: Watched, K: Watched>(
    engine: &Engine<C, K>,
    a: &mut Analysis,
    place: usize,
    depth: u32,
) -> Result<bool, NoMemory>
    requires place { place < length engine.now.trail.made }
    requires unneeded { is_needed (mark_at a.old.walk.marks place) ≡ false }
    ensures explores { OnOk result (Explores engine.now.trail a.old.walk a.new.walk) }
{
    let trail = engine.trail();
    if !is_promising(a, level_at(trail, place), trail.level()) {
        return Ok(false);
    }
    if !explain(engine, a, place, depth)? {
        a.walk.marks.set(place, Mark::Failed)?;
        return Ok(false);
    }
    a.walk.explained.push(place)?;
    a.walk.marks.set(place, Mark::Explained)?;
    Ok(true)
}

// whether a place of this level may follow from others: some kept place has its level, or it is 0 and not too
// many of level 0 were looked at
fn is_promising(a: &mut Analysis, level: u64, top: u64) -> bool
    ensures walk { a.new.walk ≡ a.old.walk }
    ensures lower { result ≡ true → level < top }
{
    if level >= top {
        return false;
    }
    if level > 0 {
        return has_level(a.levels, level);
    }
    take_one(&mut a.cone)
}

// whether the bit of a level is among these
fn has_level(levels: u64, level: u64) -> bool {
    levels & level_bit(level) != 0
}

// takes one of what is left; whether there was one
fn take_one(left: &mut u64) -> bool {
    match left.checked_sub(1) {
        Some(less) => {
            *left = less;
            true
        }
        None => false,
    }
}

// whether a place is of level 0 and another is not
fn may_stay(trail: &Trail, place: usize, other: usize) -> bool
    requires place { place < length trail.now.made }
    requires other { other < length trail.now.made }
{
    level_at(trail, place) == 0 && level_at(trail, other) > 0
}
