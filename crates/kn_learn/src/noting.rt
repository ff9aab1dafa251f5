//! The variables of the reason side, whose activity is raised too: those on which the reasons of the learned
//! clause's literals rest.
ghost use Rattle.std.specs.Prelude.{◌<◌, length};
ghost use Rattle.std.specs.List.{AllByRecursion};
ghost use Rattle.kn_learn.specs.Analyses.{IsLower};

use crate::NoMemory;
use crate::marks::{Mark, Marks};
use crate::reading::{false_before, level_at, lit_at, reason_at};
use kn_logic::Lit;
use kn_propagate::Engine;
use kn_watch::{Trail, Watched};

/// Notes the variables above level 0 on which the reasons of these places rest, where they were not come by.
pub(crate) fn note_reasons<C: Watched, K: Watched>(
    engine: &Engine<C, K>,
    marks: &mut Marks,
    seen: &mut Vec<u64>,
    rest: &[usize],
) -> Result<(), NoMemory>
    requires { AllByRecursion (IsLower engine.now.trail) rest.now }
{
    for place in rest {
        note_reason(engine, marks, seen, *place)?;
    }
    Ok(())
}

// notes the variables on which the reason of a place rests
fn note_reason<C: Watched, K: Watched>(
    engine: &Engine<C, K>,
    marks: &mut Marks,
    seen: &mut Vec<u64>,
    place: usize,
) -> Result<(), NoMemory>
    requires { place < length engine.now.trail.made }
{
    let Some(id) = reason_at(engine.trail(), place) else {
        return Ok(());
    };
    let Some(lits) = engine.lits_of(id) else {
        return Ok(());
    };
    for lit in lits {
        note(engine.trail(), marks, seen, *lit, place)?;
    }
    Ok(())
}

// notes the variable of a literal that was false before a place
fn note(
    trail: &Trail,
    marks: &mut Marks,
    seen: &mut Vec<u64>,
    lit: Lit,
    before: usize,
) -> Result<(), NoMemory> {
    let Some(place) = false_before(trail, lit, before) else {
        return Ok(());
    };
    if marks.at(place).is_needed() {
        return Ok(());
    }
    if level_at(trail, place) == 0 {
        return Ok(());
    }
    seen.push(lit_at(trail, place).var())?;
    marks.set(place, Mark::Seen)
}
