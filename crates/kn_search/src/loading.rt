//! Engines for the constraints of a formula.
ghost use Rattle.std.specs.Prelude.{ℕ, ◌≡◌, ◌+◌, [], None, map, length, IfOk, OnOk};
ghost use Rattle.kn_logic.specs.Constraints.{IsWithin};
ghost use Rattle.kn_rules.specs.States.{from_file};
ghost use Rattle.kn_propagate.specs.Engines.{live_in, IsAdded};
ghost use Rattle.kn_search.specs.Mirrors.{Mirrors};

use kn_kinds::{CardWatch, ClauseWatch, GuardWatch, KlauseWatch};
use kn_logic::{Constraint, Formula, NoMemory};
use kn_propagate::Engine;
use kn_watch::Watched;
use std::alloc::Global;

/// An engine over the variables of a formula that has its constraints, each under its place and 1, as the proof of
/// the formula gives them: clauses in the one kind, klauses with a guard or without in the other. It is at level 0,
/// without a literal. An error where memory is short.
pub fn engine_of(alloc: Global, f: &Formula) -> Result<Engine<ClauseWatch, CardWatch>, NoMemory>
    ensures trail { IfOk result (λ e. e.trail ≡ record { vars = f.now.vars; level = 0; made = [] }) }
    ensures mirrors { IfOk result (λ e. Mirrors e.live (map from_file f.now.constraints)) }
{
    let mut engine = Engine::new(alloc, f.vars())?;
    for place in 0..f.len() {
        let Some(c) = f.get(place) else {
            unreachable!()
        };
        load(alloc, &mut engine, c, place as u64 + 1)?;
    }
    Ok(engine)
}

/// Adds a constraint to an engine at level 0, under a new id: a clause in the one kind, a klause with a guard or
/// without in the other. An error where memory is short.
pub fn load(
    alloc: Global,
    engine: &mut Engine<ClauseWatch, CardWatch>,
    c: &Constraint,
    id: u64,
) -> Result<(), NoMemory>
    requires root { engine.old.trail.level ≡ 0 }
    requires fresh { live_in engine.old.live id ≡ None }
    requires within { IsWithin engine.old.trail.vars c.now }
    ensures trail { OnOk result (engine.new.trail ≡ engine.old.trail) }
    ensures live { OnOk result (IsAdded engine.old.live id c.now engine.new.live) }
{
    let copy = c.copy()?;
    if c.is_clause() {
        return engine.add_clause(ClauseWatch::new(copy), id);
    }
    engine.add_klause(watch_of(alloc, copy)?, id)
}

/// A klause as it is watched.
fn watch_of(alloc: Global, c: Constraint) -> Result<CardWatch, NoMemory>
    ensures { IfOk result (λ w. ⟦<CardWatch as Watched>⟧.bounded w ≡ c) }
{
    if c.guard().is_some() {
        return Ok(CardWatch::Guard(GuardWatch::new(alloc, c)?));
    }
    Ok(CardWatch::Klause(KlauseWatch::new(alloc, c)?))
}
