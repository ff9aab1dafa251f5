//! One group: its klause comes, and its clauses go.
ghost use Rattle.std.specs.Prelude.{◌≡◌, ◌≤◌, ◌<◌, ◌+◌, ◌-◌, ◌^◌, Some, None, false, length, map, IfOk, IsErrOf};
ghost use Rattle.std.specs.List.{AllByRecursion};
ghost use Rattle.kn_bytes.specs.Outside.{Rose};
ghost use Rattle.kn_rules.specs.States.{live_at};
ghost use Rattle.kn_extract.specs.Structure.{IsOver};
ghost use Rattle.kn_log.specs.Written.{LogsSuch};
ghost use Rattle.kn_justify.specs.Closings.{AreJustifying, Replaces};
ghost use Rattle.kn_opening.specs.Openings.{klause_in_proof};

use kn_bytes::Sink;
use kn_extract::Taken;
use kn_justify::{justify_elimination, justify_pairs};
use kn_log::{Log, LogError};
use kn_logic::NoMemory;
use std::alloc::Global;

/// Justifies the klause of a group that was taken, whose clauses are live under the ids of their places. Answers the id
/// of the klause.
pub(crate) fn justify<S: Sink>(
    alloc: Global,
    taken: &Taken,
    log: &mut Log,
    sink: &mut S,
) -> Result<u64, LogError>
    requires whole { log.old.failed ≡ false }
    requires within { AllByRecursion (λ place. place < 2 ^ 64 - 1) taken.now.places }
    requires pair { taken.now.elimination ≡ None → taken.now.klause.bound + 1 ≡ length taken.now.group.border }
    requires over { IsOver log.old.state.vars taken.now.group }
    requires live { map (live_at log.old.state.given) (map (λ place. place + 1) taken.now.places) ≡ map (λ c. Some c) taken.now.group.taken }
    ensures replaced { IfOk result (Replaces log.old.state log.new.state (map (λ place. place + 1) taken.now.places) (klause_in_proof taken.now)) }
    ensures lines { LogsSuch (AreJustifying (klause_in_proof taken.now) (map (λ place. place + 1) taken.now.places)) log.old log.new (S.written sink.old) (S.written sink.new) result }
    ensures later { S.faults sink.old ≤ S.faults sink.new }
    ensures fault { IsErrOf result LogError.Fault → Rose (S.faults sink.old) (S.faults sink.new) }
{
    let ids = ids_of(alloc, taken.places())?;
    match taken.elimination() {
        None => justify_pairs(alloc, taken.group(), &ids, log, sink),
        Some(elimination) => justify_elimination(
            alloc,
            taken.group(),
            &ids,
            elimination,
            taken.klause().bound(),
            log,
            sink,
        ),
    }
}

// the ids of places: a place counts from 0, an id from 1
fn ids_of(alloc: Global, places: &[usize]) -> Result<Vec<u64>, NoMemory>
    requires { AllByRecursion (λ place. place < 2 ^ 64 - 1) places.now }
    ensures { IfOk result (λ ids. ids.items ≡ map (λ place. place + 1) places.now) }
{
    let mut ids = Vec::with_capacity(alloc, places.len())?;
    for place in places {
        ids.push(*place as u64 + 1)?;
    }
    Ok(ids)
}
