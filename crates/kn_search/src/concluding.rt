//! What is learned of a conflict.
ghost use Rattle.std.specs.Prelude.{ℕ, ◌≡◌, ◌≤◌, ◌<◌, ◌+◌, ◌++◌, ◌∷◌, [], List, Some, None, true, false, length, IfOk, IfErr, OnOk, IsErrOf};
ghost use Rattle.kn_logic.specs.Literals.{Literal, AreKnown};
ghost use Rattle.kn_logic.specs.Constraints.{clause};
ghost use Rattle.kn_logic.specs.Propagation.{IsShort};
ghost use Rattle.kn_logic.specs.Newness.{IsNew};
ghost use Rattle.kn_lines.specs.declared.line.Line.TheVariants.{Learned};
ghost use Rattle.kn_rules.specs.Searching.{Allows};
ghost use Rattle.kn_bytes.specs.Outside.{Rose};
ghost use Rattle.kn_watch.specs.Trails.{literals, below};
ghost use Rattle.kn_propagate.specs.declared.step.Step.TheVariants.{Conflict};
ghost use Rattle.kn_propagate.specs.Engines.{Live, live_in, constraints, IsAdded};
ghost use Rattle.kn_learn.specs.Lessons.{Refutes};
ghost use Rattle.kn_log.specs.Logs.{Logs, IsReadable};
ghost use Rattle.kn_log.specs.Written.{LogsSuch};
ghost use Rattle.kn_search.specs.Mirrors.{Mirrors};
ghost use Rattle.kn_search.specs.Outcomes.{MayLog};
ghost use Rattle.kn_search.specs.Searches.{LogsPart, LogsPartNot, AreHeld, AreKept};

use crate::guide::Guide;
use kn_bytes::Sink;
use kn_kinds::ClauseWatch;
use kn_learn::{learn_with, root_hints};
use kn_lines::Ids;
use kn_log::{Log, LogError};
use kn_logic::{Constraint, Lit, NoMemory};
use kn_propagate::Engine;
use kn_watch::Watched;
use std::alloc::Global;

/// Logs what is learned of a conflict, takes back what was assumed since, and adds the learned clause to the engine.
/// Answers the id of the clause.
pub fn conclude<K: Watched, S: Sink>(
    alloc: Global,
    engine: &mut Engine<ClauseWatch, K>,
    log: &mut Log,
    sink: &mut S,
    guide: &mut Guide,
    id: u64,
) -> Result<u64, LogError>
    requires above { 1 ≤ engine.old.trail.level }
    requires conflict { engine.old.last ≡ Some (Conflict id) }
    requires known { engine.old.trail.vars ≤ log.old.state.vars }
    requires mirrors { Mirrors engine.old.live log.old.state.given }
    requires whole { log.old.failed ≡ false }
    ensures vars { OnOk result (engine.new.trail.vars ≡ engine.old.trail.vars) }
    ensures mirrors { OnOk result (Mirrors engine.new.live log.new.state.given) }
    ensures held { IfOk result (λ id. (ids : List ℕ) → AreHeld log.old.state.given ids → AreHeld log.new.state.given (ids ++ id ∷ [])) }
    ensures kept { IfOk result (λ id. (first : List Live) (ids : List ℕ) → AreKept first engine.old.live ids → AreKept first engine.new.live (ids ++ id ∷ [])) }
    ensures logs { OnOk result ((forget : ℕ) (deletions : ℕ) → LogsPart engine.old.trail.vars forget deletions 1 0 log.old log.new (S.written sink.old) (S.written sink.new)) }
    ensures error { IfErr result (λ e. (forget : ℕ) (deletions : ℕ) → LogsPartNot engine.old.trail.vars forget deletions 1 log.old log.new (S.written sink.old) (S.written sink.new) e) }
    ensures later { S.faults sink.old ≤ S.faults sink.new }
    ensures fault { IsErrOf result LogError.Fault → Rose (S.faults sink.old) (S.faults sink.new) }
{
    let learned = learn_with(&mut guide.analysis, engine, id)?;
    let level = guide.landing(learned.level());
    let (lits, hints) = learned.into_parts();
    let id = log_clause(alloc, engine, log, sink, &lits, hints)?;
    guide.decider.release(engine.trail(), level);
    take_clause(engine, lits, level, id)?;
    Ok(id)
}

/// Logs a learned clause, and answers its id.
fn log_clause<K: Watched, S: Sink>(
    alloc: Global,
    engine: &Engine<ClauseWatch, K>,
    log: &mut Log,
    sink: &mut S,
    lits: &[Lit],
    hints: Vec<u64>,
) -> Result<u64, LogError>
    requires known { engine.now.trail.vars ≤ log.old.state.vars }
    requires mirrors { Mirrors engine.now.live log.old.state.given }
    requires whole { log.old.failed ≡ false }
    requires lits { AreKnown engine.now.trail.vars lits.now }
    requires new { IsNew (constraints engine.now.live) lits.now }
    requires refutes { Refutes engine.now.live lits.now hints.items }
    ensures allows { (forget : ℕ) (deletions : ℕ) → Allows engine.now.trail.vars forget deletions log.old.state (Learned (clause lits.now) hints.items) }
    ensures logs { Logs (Learned (clause lits.now) hints.items) log.old log.new (S.written sink.old) (S.written sink.new) result }
    ensures id { IfOk result (λ id. id ≡ length log.old.state.given + 1) }
    ensures spelled { IsReadable result (Learned (clause lits.now) hints.items) }
    ensures later { S.faults sink.old ≤ S.faults sink.new }
    ensures fault { IsErrOf result LogError.Fault → Rose (S.faults sink.old) (S.faults sink.new) }
{
    let clause = Constraint::new(1, Vec::from_slice(alloc, lits)?);
    log.learned(clause, Ids::new(hints), sink)
}

/// Goes back to a level, and adds a clause.
fn take_clause<K: Watched>(
    engine: &mut Engine<ClauseWatch, K>,
    lits: Vec<Lit>,
    level: u64,
    id: u64,
) -> Result<(), NoMemory>
    requires level { level ≤ engine.old.trail.level }
    requires fresh { live_in engine.old.live id ≡ None }
    requires lits { AreKnown engine.old.trail.vars lits.items }
    requires waits { (k : ℕ) → k < level → IsShort (literals (below (k + 1) engine.old.trail.made)) (clause lits.items) → ⊥ }
    ensures vars { engine.new.trail.vars ≡ engine.old.trail.vars }
    ensures live { OnOk result (IsAdded engine.old.live id (clause lits.items) engine.new.live) }
{
    engine.back_to(level);
    engine.add_clause(ClauseWatch::new(Constraint::new(1, lits)), id)
}

/// Logs the clause without literals, by a conflict at level 0, and answers its id.
pub fn refute<K: Watched, S: Sink>(
    alloc: Global,
    engine: &Engine<ClauseWatch, K>,
    log: &mut Log,
    sink: &mut S,
    id: u64,
) -> Result<u64, LogError>
    requires root { engine.now.trail.level ≡ 0 }
    requires conflict { engine.now.last ≡ Some (Conflict id) }
    requires mirrors { Mirrors engine.now.live log.old.state.given }
    requires whole { log.old.failed ≡ false }
    ensures logs { (vars : ℕ) (forget : ℕ) (deletions : ℕ) → LogsSuch (MayLog vars forget deletions 0 log.old.state log.new.state) log.old log.new (S.written sink.old) (S.written sink.new) result }
    ensures refuted { OnOk result (log.new.state.refuted ≡ true) }
    ensures mirrors { OnOk result (Mirrors engine.now.live log.new.state.given) }
    ensures later { S.faults sink.old ≤ S.faults sink.new }
    ensures fault { IsErrOf result LogError.Fault → Rose (S.faults sink.old) (S.faults sink.new) }
{
    let hints = root_hints(alloc, engine, id)?;
    let clause = Constraint::new(1, Vec::new(alloc));
    log.lemma(clause, Ids::new(hints), sink)
}
