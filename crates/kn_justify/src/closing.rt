//! The last two lines of a justification: its klause, and the deletion of the clauses that the klause now stands for.
ghost use Rattle.std.specs.Prelude.{◌≡◌, ◌≤◌, false, nat_eq, IfOk, IsOk, IsErrOf};
ghost use Rattle.std.specs.List.{IsDistinct};
ghost use Rattle.kn_bytes.specs.Outside.{Rose};
ghost use Rattle.kn_lines.specs.Lines.{IsWellFormed};
ghost use Rattle.kn_lines.specs.declared.line.Line.TheVariants.{Klause};
ghost use Rattle.kn_rules.specs.Steps.{step};
ghost use Rattle.kn_log.specs.Written.{LogsSuch};
ghost use Rattle.kn_justify.specs.Closings.{AreLive, AreClosing, Replaces};

use kn_bytes::Sink;
use kn_lines::Ids;
use kn_log::{Log, LogError};
use kn_logic::Constraint;
use std::alloc::Global;

/// Closes a justification: logs the klause, by the variable that stands for its grid and the id of the clause of
/// that variable alone, and deletes these ids, which it stands for. Answers the id of the klause.
pub(crate) fn close<S: Sink>(
    alloc: Global,
    klause: Constraint,
    root: u64,
    unit: u64,
    ids: &[u64],
    log: &mut Log,
    sink: &mut S,
) -> Result<u64, LogError>
    requires whole { log.old.failed ≡ false }
    requires formed { IsWellFormed (Klause klause root unit) }
    requires steps { IsOk (step log.old.state (Klause klause root unit)) }
    requires live { AreLive log.old.state.given ids.now }
    requires different { IsDistinct nat_eq ids.now }
    ensures closed { IfOk result (Replaces log.old.state log.new.state ids.now klause) }
    ensures lines { LogsSuch (AreClosing klause ids.now) log.old log.new (S.written sink.old) (S.written sink.new) result }
    ensures later { S.faults sink.old ≤ S.faults sink.new }
    ensures fault { IsErrOf result LogError.Fault → Rose (S.faults sink.old) (S.faults sink.new) }
{
    let gone = Ids::new(Vec::from_slice(alloc, ids)?);
    let id = log.klause(klause, root, unit, sink)?;
    log.delete(gone, sink)?;
    Ok(id)
}
