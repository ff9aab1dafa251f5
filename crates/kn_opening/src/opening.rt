//! All groups, in the order in which they were taken.
ghost use Rattle.std.specs.Prelude.{◌≡◌, ◌≤◌, ◌+◌, ◌++◌, ◌∷◌, [], filter, if◌then◌else◌, IfOk, IsErrOf};
ghost use Rattle.std.specs.List.{range_with_len};
ghost use Rattle.std.specs.Option.{is_some};
ghost use Rattle.kn_rules.specs.States.{live_at};
ghost use Rattle.kn_bytes.specs.Outside.{Rose};
ghost use Rattle.kn_log.specs.Logs.{fresh};
ghost use Rattle.kn_log.specs.Written.{LogsSuch};
ghost use Rattle.kn_opening.specs.Openings.{AreOpeningLines, IsOpened};

use crate::justifying::justify;
use kn_bytes::Sink;
use kn_extract::{Extraction, groups_stand_apart, what_remains_is_known};
use kn_log::{Log, LogError};
use kn_logic::NoMemory;
use std::alloc::Global;

/// Writes the opening of a proof behind the header of the formula that an extraction began with: for each group, in
/// their order, the lines that justify its klause, and the deletion of its clauses. Answers the ids of the constraints
/// of the formula that remains, in their order. An error where memory is short, or the sink counted a fault: the lines
/// so far were written, all but the last of them whole.
pub fn open<S: Sink>(
    alloc: Global,
    e: &Extraction,
    log: &mut Log,
    sink: &mut S,
) -> Result<Vec<u64>, LogError>
    requires fresh { log.old ≡ fresh e.now.original }
    ensures opened { IfOk result (λ ids. IsOpened e.now log.new.state ids.items) }
    ensures lines { LogsSuch AreOpeningLines log.old log.new (S.written sink.old) (S.written sink.new) result }
    ensures later { S.faults sink.old ≤ S.faults sink.new }
    ensures fault { IsErrOf result LogError.Fault → Rose (S.faults sink.old) (S.faults sink.new) }
{
    groups_stand_apart();
    what_remains_is_known();
    let count = e.original().len();
    let mut klauses = Vec::new(alloc);
    for taken in e.taken() {
        let id = justify(alloc, taken, log, sink)?;
        keep(&mut klauses, id)?;
    }
    let mut ids = left(alloc, count, log)?;
    ids.extend_from_slice(&klauses)?;
    Ok(ids)
}

fn keep(ids: &mut Vec<u64>, id: u64) -> Result<(), NoMemory>
    ensures { IfOk result (λ _. ids.new.items ≡ ids.old.items ++ id ∷ []) }
{
    ids.push(id)?;
    Ok(())
}

// the ids from 1 to a number that are live
fn left(alloc: Global, count: usize, log: &Log) -> Result<Vec<u64>, NoMemory>
    ensures { IfOk result (λ ids. ids.items ≡ filter (λ id. is_some (live_at log.now.state.given id)) (range_with_len 1 count)) }
{
    let mut ids = Vec::new(alloc);
    for place in 0..count {
        keep_live(&mut ids, place as u64 + 1, log)?;
    }
    Ok(ids)
}

fn keep_live(ids: &mut Vec<u64>, id: u64, log: &Log) -> Result<(), NoMemory>
    ensures { IfOk result (λ _. ids.new.items ≡ ids.old.items ++ (if is_some (live_at log.now.state.given id) then id ∷ [] else [])) }
{
    match log.live(id) {
        Some(_) => keep(ids, id),
        None => Ok(()),
    }
}
