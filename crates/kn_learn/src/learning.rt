//! What is learned of a conflict above level 0.
ghost use Rattle.std.specs.Prelude.{ℕ, List, [], ◌∷◌, ◌++◌, ◌≡◌, ◌<◌, ◌≤◌, ◌-◌, length, Some, IfOk, OnOk, map};
ghost use Rattle.std.specs.List.{AllByRecursion};
ghost use Rattle.kn_logic.specs.Constraints.{Bounded};
ghost use Rattle.kn_propagate.specs.declared.step.Step.TheVariants.{Conflict};
ghost use Rattle.kn_propagate.specs.Engines.{live_in};
ghost use Rattle.kn_learn.specs.Lessons.{IsLesson};
ghost use Rattle.kn_learn.specs.Reasons.{negations_at, is_last, without_repeats, hints_of};
ghost use Rattle.kn_learn.specs.Analyses.{AreNeeded, IsLower, IsWalking, rest_of, AreWithin, IsReached};

use crate::NoMemory;
use crate::analysis::{Analysis, Walk};
use crate::learned::Learned;
use crate::noting::note_reasons;
use crate::reading::{level_at, lit_at, reason_at};
use crate::removing::remove;
use crate::sweeping::{put_in_order, sweep};
use crate::walking::walk;
use kn_logic::Lit;
use kn_propagate::Engine;
use kn_watch::{Trail, Watched};
use std::alloc::Global;

/// What a conflict teaches with which the last propagation ended, at a level of at least 1. An error where
/// memory is short.
pub fn learn<C: Watched, K: Watched>(
    alloc: Global,
    engine: &Engine<C, K>,
    conflict: u64,
) -> Result<Learned, NoMemory>
    requires level { 1 ≤ engine.now.trail.level }
    requires conflict { engine.now.last ≡ Some (Conflict conflict) }
    ensures { IfOk result (IsLesson engine.now) }
{
    let mut analysis = Analysis::new(alloc);
    let learned = learn_with(&mut analysis, engine, conflict)?;
    Ok(learned)
}

/// As `learn`, with tables that are kept from conflict to conflict: what it costs is in proportion to the
/// constraints that it looks at and the literals of the conflict's level. An error where memory is short.
pub fn learn_with<C: Watched, K: Watched>(
    analysis: &mut Analysis,
    engine: &Engine<C, K>,
    conflict: u64,
) -> Result<Learned, NoMemory>
    requires level { 1 ≤ engine.now.trail.level }
    requires conflict { engine.now.last ≡ Some (Conflict conflict) }
    ensures { IfOk result (IsLesson engine.now) }
{
    analysis.clear(engine.trail().len() - 1);
    walk(engine, analysis, conflict)?;
    remove(engine, analysis)?;
    sweep(engine, analysis)?;
    let learned = conclude(engine, analysis, conflict)?;
    Ok(learned)
}

/// The reasons of the places in their order, none of which follows itself, and behind them the conflict.
pub(crate) fn hints(
    alloc: Global,
    trail: &Trail,
    places: &[usize],
    conflict: u64,
) -> Result<Vec<u64>, NoMemory>
    requires { AllByRecursion (λ p. p < length trail.now.made) places.now }
    ensures { IfOk result (λ ids. ids.items ≡ hints_of trail.now.made places.now conflict) }
{
    let mut ids = Vec::new(alloc);
    let mut last = None;
    for place in places {
        let id = reason_at(trail, *place).unwrap_or(0);
        add(&mut ids, &mut last, id)?;
    }
    ids.push(conflict)?;
    Ok(ids)
}

// adds an id, unless it was the last
fn add(ids: &mut Vec<u64>, last: &mut Option<u64>, id: u64) -> Result<(), NoMemory>
    ensures { OnOk result ((more : List ℕ) → ids.new.items ++ without_repeats last.new more ≡ ids.old.items ++ without_repeats last.old (id ∷ more)) }
{
    if is_last(*last, id) {
        return Ok(());
    }
    ids.push(id)?;
    *last = Some(id);
    Ok(())
}

fn is_last(last: Option<u64>, id: u64) -> bool
    ensures { result ≡ is_last last id }
{
    match last {
        Some(other) => other == id,
        None => false,
    }
}

// the clause of an analysis that is done, with its hints
fn conclude<C: Watched, K: Watched>(
    engine: &Engine<C, K>,
    a: &mut Analysis,
    conflict: u64,
) -> Result<Learned, NoMemory>
    requires level { 1 ≤ engine.now.trail.level }
    requires conflict { engine.now.last ≡ Some (Conflict conflict) }
    requires walking { IsWalking engine.now.trail engine.now.live a.old.walk.lowest [] a.old.walk }
    requires needed { (c : Bounded) → live_in engine.now.live conflict ≡ Some c → AreNeeded engine.now.trail.made a.old.walk.marks c (length engine.now.trail.made) }
    ensures { IfOk result (IsLesson engine.now) }
{
    let alloc = *a.rest.allocator();
    let trail = engine.trail();
    choose(&a.walk, &mut a.rest)?;
    let lits = negations(alloc, trail, a.walk.lowest, &a.rest)?;
    let level = highest(trail, &a.rest);
    put_in_order(&mut a.walk.derived);
    let ids = hints(alloc, trail, &a.walk.derived, conflict)?;
    note_reasons(engine, &mut a.walk.marks, &mut a.seen, &a.rest)?;
    Ok(Learned::new(lits, level, ids))
}

// the kept places that stand in the clause
fn choose(walk: &Walk, rest: &mut Vec<usize>) -> Result<(), NoMemory>
    ensures { OnOk result (rest.new.items ≡ rest_of walk.now.marks walk.now.kept.items) }
{
    rest.clear();
    for place in &walk.kept {
        choose_one(walk, rest, *place)?;
    }
    Ok(())
}

// adds a kept place, if it stands in the clause
fn choose_one(walk: &Walk, rest: &mut Vec<usize>, place: usize) -> Result<(), NoMemory>
    ensures { OnOk result (rest.new.items ≡ rest.old.items ++ rest_of walk.now.marks (place ∷ [])) }
{
    if walk.marks.at(place).is_seen() {
        rest.push(place)?;
    }
    Ok(())
}

// the negations of the literals of a place and of others
fn negations(
    alloc: Global,
    trail: &Trail,
    lowest: usize,
    rest: &[usize],
) -> Result<Vec<Lit>, NoMemory>
    requires lowest { lowest < length trail.now.made }
    requires rest { AllByRecursion (IsLower trail.now) rest.now }
    ensures { IfOk result (λ lits. lits.items ≡ negations_at trail.now.made (lowest ∷ rest.now)) }
{
    let mut lits = Vec::new(alloc);
    lits.push(lit_at(trail, lowest).negated())?;
    for place in rest {
        lits.push(lit_at(trail, *place).negated())?;
    }
    Ok(lits)
}

// the highest level of places that came below the present level
fn highest(trail: &Trail, rest: &[usize]) -> u64
    requires level { 1 ≤ trail.now.level }
    requires rest { AllByRecursion (IsLower trail.now) rest.now }
    ensures within { AreWithin trail.now.made result rest.now }
    ensures below { result < trail.now.level }
    ensures reached { IsReached trail.now.made result rest.now }
{
    let mut level = 0;
    for place in rest {
        level = level_at(trail, *place).max(level);
    }
    level
}
