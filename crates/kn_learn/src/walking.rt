//! The walk back over the conflict's level.
ghost use Rattle.std.specs.Prelude.{ℕ, List, [], ◌≡◌, ◌<◌, ◌≤◌, ◌+◌, ◌-◌, length, Some, OnOk};
ghost use Rattle.kn_logic.specs.Constraints.{Bounded};
ghost use Rattle.kn_propagate.specs.Engines.{live_in};
ghost use Rattle.kn_learn.specs.Analyses.{IsNeeded, AreNeeded, IsWalking, IsBlank, Grows, IsLeft};

use crate::NoMemory;
use crate::analysis::Analysis;
use crate::reading::reason_at;
use crate::seeing::see_all;
use kn_propagate::Engine;
use kn_watch::Watched;

/// Marks what a conflict rests on, and derives what of it came at the present level, down to the one place by
/// which all of it goes: the first unique implication point.
pub(crate) fn walk<C: Watched, K: Watched>(
    engine: &Engine<C, K>,
    a: &mut Analysis,
    conflict: u64,
) -> Result<(), NoMemory>
    requires level { 1 ≤ engine.now.trail.level }
    requires blank { IsBlank (length engine.now.trail.made - 1) a.old.walk }
    ensures walking { OnOk result (IsWalking engine.now.trail engine.now.live a.new.walk.lowest [] a.new.walk) }
    ensures none { OnOk result (a.new.walk.explained.items ≡ []) }
    ensures needed { OnOk result ((c : Bounded) → live_in engine.now.live conflict ≡ Some c → AreNeeded engine.now.trail.made a.new.walk.marks c (length engine.now.trail.made)) }
{
    see_reasons(engine, a, conflict, engine.trail().len())?;
    descend(engine, a)
}

/// Marks as needed what made the literals of a live constraint false before a place.
pub(crate) fn see_reasons<C: Watched, K: Watched>(
    engine: &Engine<C, K>,
    a: &mut Analysis,
    id: u64,
    before: usize,
) -> Result<(), NoMemory>
    ensures walking { OnOk result ((p : ℕ) (left : List ℕ) → IsWalking engine.now.trail engine.now.live p left a.old.walk → before ≤ p + 1 → IsLeft a.old.walk before left → IsWalking engine.now.trail engine.now.live p left a.new.walk) }
    ensures needed { OnOk result ((c : Bounded) → live_in engine.now.live id ≡ Some c → AreNeeded engine.now.trail.made a.new.walk.marks c before) }
    ensures grows { OnOk result (Grows before a.old.walk a.new.walk) }
{
    let Some(lits) = engine.lits_of(id) else {
        return Ok(());
    };
    see_all(engine.trail(), a, lits, before)
}

// goes down to the place by which all goes
fn descend<C: Watched, K: Watched>(engine: &Engine<C, K>, a: &mut Analysis) -> Result<(), NoMemory>
    requires some { 1 ≤ length engine.now.trail.made }
    requires walking { IsWalking engine.now.trail engine.now.live (length engine.now.trail.made - 1) [] a.old.walk }
    requires none { a.old.walk.explained.items ≡ [] }
    ensures walking { OnOk result (IsWalking engine.now.trail engine.now.live a.new.walk.lowest [] a.new.walk) }
    ensures none { OnOk result (a.new.walk.explained.items ≡ []) }
    ensures stays { OnOk result ((q : ℕ) → IsNeeded a.old.walk.marks q → IsNeeded a.new.walk.marks q) }
{
    let mut place = engine.trail().len() - 1;
    while place > a.walk.lowest {
        derive(engine, a, place)?;
        place -= 1;
    }
    Ok(())
}

// derives the literal of a place by its reason, if the conflict rests on it
fn derive<C: Watched, K: Watched>(
    engine: &Engine<C, K>,
    a: &mut Analysis,
    place: usize,
) -> Result<(), NoMemory>
    requires walking { IsWalking engine.now.trail engine.now.live place [] a.old.walk }
    requires none { a.old.walk.explained.items ≡ [] }
    requires place { place < length engine.now.trail.made }
    requires above { a.old.walk.lowest < place }
    ensures walking { OnOk result (IsWalking engine.now.trail engine.now.live (place - 1) [] a.new.walk) }
    ensures none { OnOk result (a.new.walk.explained.items ≡ []) }
    ensures stays { OnOk result ((q : ℕ) → IsNeeded a.old.walk.marks q → IsNeeded a.new.walk.marks q) }
    ensures above { OnOk result (a.new.walk.lowest < place) }
{
    if !a.walk.marks.at(place).is_seen() {
        return Ok(());
    }
    let Some(id) = reason_at(engine.trail(), place) else {
        unreachable!()
    };
    see_reasons(engine, a, id, place)?;
    a.walk.derived.push(place)?;
    Ok(())
}
