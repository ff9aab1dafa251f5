//! The hints of a conflict at level 0.
ghost use Rattle.std.specs.Prelude.{ℕ, List, [], ◌≡◌, ◌<◌, ◌≤◌, ◌-◌, length, true, Some, IfOk, OnOk};
ghost use Rattle.kn_propagate.specs.declared.step.Step.TheVariants.{Conflict};
ghost use Rattle.kn_learn.specs.Lessons.{Refutes};
ghost use Rattle.kn_learn.specs.Reasons.{contains};
ghost use Rattle.kn_learn.specs.Analyses.{IsNeeded, IsWalking, IsRooted};

use crate::NoMemory;
use crate::analysis::Analysis;
use crate::learning::hints;
use crate::reading::reason_at;
use crate::sweeping::put_in_order;
use crate::walking::see_reasons;
use kn_propagate::Engine;
use kn_watch::Watched;
use std::alloc::Global;

/// The hints of a conflict with which the last propagation ended, at level 0: their run from no literals ends in
/// conflict. An error where memory is short.
pub fn root_hints<C: Watched, K: Watched>(
    alloc: Global,
    engine: &Engine<C, K>,
    conflict: u64,
) -> Result<Vec<u64>, NoMemory>
    requires level { engine.now.trail.level ≡ 0 }
    requires conflict { engine.now.last ≡ Some (Conflict conflict) }
    ensures { IfOk result (λ ids. Refutes engine.now.live [] ids.items) }
{
    let len = engine.trail().len();
    if len == 0 {
        let only = hints(alloc, engine.trail(), &[], conflict)?;
        return Ok(only);
    }
    let mut a = Analysis::new(alloc);
    a.clear(len - 1);
    see_reasons(engine, &mut a, conflict, len)?;
    descend(engine, &mut a)?;
    put_in_order(&mut a.walk.derived);
    let ids = hints(alloc, engine.trail(), &a.walk.derived, conflict)?;
    Ok(ids)
}

// derives all that the conflict rests on
fn descend<C: Watched, K: Watched>(engine: &Engine<C, K>, a: &mut Analysis) -> Result<(), NoMemory>
    requires level { engine.now.trail.level ≡ 0 }
    requires some { 1 ≤ length engine.now.trail.made }
    requires walking { IsWalking engine.now.trail engine.now.live (length engine.now.trail.made - 1) [] a.old.walk }
    requires none { a.old.walk.explained.items ≡ [] }
    ensures rooted { OnOk result (IsRooted engine.now.live engine.now.trail.made a.new.walk) }
    ensures stays { OnOk result ((q : ℕ) → IsNeeded a.old.walk.marks q → IsNeeded a.new.walk.marks q) }
{
    let mut place = engine.trail().len() - 1;
    while place > 0 {
        derive(engine, a, place)?;
        place -= 1;
    }
    derive(engine, a, 0)?;
    Ok(())
}

// derives the literal of a place by its reason, if the conflict rests on it
fn derive<C: Watched, K: Watched>(
    engine: &Engine<C, K>,
    a: &mut Analysis,
    place: usize,
) -> Result<(), NoMemory>
    requires level { engine.now.trail.level ≡ 0 }
    requires walking { IsWalking engine.now.trail engine.now.live place [] a.old.walk }
    requires none { a.old.walk.explained.items ≡ [] }
    requires place { place < length engine.now.trail.made }
    ensures walking { OnOk result (IsWalking engine.now.trail engine.now.live (place - 1) [] a.new.walk) }
    ensures none { OnOk result (a.new.walk.explained.items ≡ []) }
    ensures stays { OnOk result ((q : ℕ) → IsNeeded a.old.walk.marks q → IsNeeded a.new.walk.marks q) }
    ensures here { OnOk result (IsNeeded a.new.walk.marks place → contains a.new.walk.derived.items place ≡ true) }
{
    if !a.walk.marks.at(place).is_seen() {
        return Ok(());
    }
    let Some(id) = reason_at(engine.trail(), place) else {
        unreachable!()
    };
    see_reasons(engine, a, id, place)?;
    a.walk.derived.push(place)?;
    Ok(())
}
