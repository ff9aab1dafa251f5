//! Engines for the constraints that are live in a log.
ghost use Rattle.std.specs.Prelude.{◌≡◌, [], IfOk};
ghost use Rattle.std.specs.List.{AllByRecursion};
ghost use Rattle.kn_logic.specs.Constraints.{IsWithin};
ghost use Rattle.kn_store.specs.Stores.{ids_of, constraints_of};
ghost use Rattle.kn_opening.specs.Openings.{live_behind};
ghost use Rattle.kn_search.specs.Mirrors.{Mirrors};

use kn_kinds::{CardWatch, ClauseWatch};
use kn_log::Log;
use kn_logic::NoMemory;
use kn_propagate::Engine;
use kn_search::load;
use std::alloc::Global;

/// An engine over so many variables that has the constraints of a log that a search rests on, each under its id:
/// clauses in the one kind, klauses with a guard or without in the other. It is at level 0, without a literal. An error
/// where memory is short.
pub(crate) fn engine_of(
    alloc: Global,
    vars: u64,
    ids: &[u64],
    log: &Log,
) -> Result<Engine<ClauseWatch, CardWatch>, NoMemory>
    requires ids { ids_of (live_behind 0 log.now.state.given) ≡ ids.now }
    requires within { AllByRecursion (IsWithin vars) (constraints_of (live_behind 0 log.now.state.given)) }
    ensures trail { IfOk result (λ e. e.trail ≡ record { vars = vars; level = 0; made = [] }) }
    ensures mirrors { IfOk result (λ e. Mirrors e.live log.now.state.given) }
{
    let mut engine = Engine::new(alloc, vars)?;
    for id in ids {
        let Some(c) = log.live(*id) else {
            unreachable!()
        };
        load(alloc, &mut engine, c, *id)?;
    }
    Ok(engine)
}
