//! What guides a search: which literal is assumed, what is learned of a conflict, and how far back to go.
ghost use Rattle.std.specs.Prelude.{◌≤◌};
ghost use Rattle.kn_propagate.specs.Engines.{IsEngine};

use crate::decider::Decider;
use crate::restarts::Restarts;
use kn_kinds::ClauseWatch;
use kn_learn::Analysis;
use kn_log::Log;
use kn_logic::NoMemory;
use kn_propagate::Engine;
use kn_watch::Watched;
use std::alloc::Global;

/// The heuristics of a search and the tables of its analysis. Nothing that a search promises rests on what stands
/// there.
#[derive(Drop)]
pub struct Guide {
    pub decider: Decider,
    pub analysis: Analysis,
    restarts: Restarts,
}

impl Guide {
    /// For the constraints of an engine, which stand in the log. An error where memory is short.
    pub fn new<K: Watched>(
        alloc: Global,
        engine: &Engine<ClauseWatch, K>,
        log: &Log,
    ) -> Result<Guide, NoMemory>
        ensures { IsEngine engine.now }
    {
        let vars = engine.vars();
        Ok(Guide {
            decider: first_decider(alloc, engine, log, vars)?,
            analysis: Analysis::new(alloc),
            restarts: Restarts::new(),
        })
    }

    /// Takes notice of a conflict that was analysed; the level to go back to: that of the learned clause, or 0 for a
    /// restart.
    pub fn landing(&mut self, level: u64) -> u64
        ensures { result ≤ level }
    {
        self.decider.raise(self.analysis.seen());
        self.decider.decay();
        if self.restarts.is_due() { 0 } else { level }
    }
}

/// A decider that has met all constraints of the engine, each once.
fn first_decider<K: Watched>(
    alloc: Global,
    engine: &Engine<ClauseWatch, K>,
    log: &Log,
    vars: u64,
) -> Result<Decider, NoMemory> {
    let mut decider = Decider::new(alloc, vars)?;
    for id in 1..log.next_id() {
        let Some(lits) = engine.lits_of(id) else {
            continue;
        };
        let Some(c) = log.live(id) else {
            continue;
        };
        decider.meet(c.bound(), lits);
    }
    decider.open(vars);
    Ok(decider)
}
