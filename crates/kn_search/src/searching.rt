//! The search.
ghost use Rattle.std.specs.Prelude.{◌≡◌, ◌≤◌, false, IfOk, IfErr, OnOk, IsErrOf};
ghost use Rattle.kn_bytes.specs.Outside.{Rose};
ghost use Rattle.kn_search.specs.Mirrors.{Mirrors};
ghost use Rattle.kn_search.specs.Outcomes.{Ends, EndsNot};

use crate::concluding::{conclude, refute};
use crate::diving::{dive, values_of};
use crate::forgetting::{Held, forget_some};
use crate::guide::Guide;
use crate::{Options, Outcome, SearchError};
use kn_bytes::Sink;
use kn_kinds::ClauseWatch;
use kn_log::Log;
use kn_propagate::Engine;
use kn_watch::Watched;
use std::alloc::Global;

/// Searches for a model of the constraints of an engine, or for their refutation. The engine's constraints are those of
/// the log that a search rests on, and its variables are known to the log. What is learned is logged and added to the
/// engine, and at a refutation the clause without literals is logged. `Memory`: the log and its sink hold each line
/// whole. `WriteFault`: the sink got only a part of the last line, and the log takes no more. After an error the engine
/// may have any of its constraints and any trail.
pub fn search<K: Watched, S: Sink>(
    alloc: Global,
    engine: &mut Engine<ClauseWatch, K>,
    log: &mut Log,
    sink: &mut S,
    options: &Options,
) -> Result<Outcome, SearchError>
    requires known { engine.old.trail.vars ≤ log.old.state.vars }
    requires mirrors { Mirrors engine.old.live log.old.state.given }
    requires whole { log.old.failed ≡ false }
    ensures ends { IfOk result (λ o. Ends engine.old options.now log.old log.new (S.written sink.old) (S.written sink.new) o) }
    ensures error { IfErr result (λ e. EndsNot engine.old options.now log.old log.new (S.written sink.old) (S.written sink.new) e) }
    ensures vars { OnOk result (engine.new.trail.vars ≡ engine.old.trail.vars) }
    ensures mirrors { OnOk result (Mirrors engine.new.live log.new.state.given) }
    ensures later { S.faults sink.old ≤ S.faults sink.new }
    ensures fault { IsErrOf result SearchError.WriteFault → Rose (S.faults sink.old) (S.faults sink.new) }
{
    let mut guide = Guide::new(alloc, engine, log)?;
    let mut held = Held::new(alloc);
    let mut learned = 0;
    loop {
        let Some(conflict) = dive(engine, &mut guide.decider) else {
            return Ok(Outcome::Model(values_of(alloc, engine.trail())?));
        };
        if engine.trail().level() == 0 {
            refute(alloc, engine, log, sink, conflict)?;
            return Ok(Outcome::Refuted);
        }
        if learned == options.conflicts {
            return Ok(Outcome::Spent { learned });
        }
        let id = conclude(alloc, engine, log, sink, &mut guide, conflict)?;
        held.push(id)?;
        learned += 1;
        forget_some(alloc, engine, log, sink, &mut held, options.forget)?;
    }
}
