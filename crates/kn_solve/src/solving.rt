//! The way from an extraction to an answer.
ghost use Rattle.std.specs.Prelude.{◌≡◌, ◌≤◌, ◌^◌, IfOk, IsErr, IsErrOf};
ghost use Rattle.kn_bytes.specs.Outside.{Rose};
ghost use Rattle.kn_solve.specs.Solutions.{Solves, SolvesNot, IsFinished, IsOutcomeOf};

use crate::loading::engine_of;
use kn_bytes::Sink;
use kn_extract::{Extraction, what_remains_is_known};
use kn_log::Log;
use kn_opening::open;
use kn_rebuild::rebuild;
use kn_search::{Options, Outcome, SearchError, search};
use std::alloc::Global;

/// Has the formula of an extraction a model? The proof is written from its header on: the klauses in place of the
/// clauses that hid them, then the search on what remains. A model is one of the formula that the extraction began
/// with, and its auxiliary variables have the values of the rebuilding rule. An error where memory is short, or the
/// sink counted a fault: the lines so far were written, all but the last of them whole.
pub fn solve<S: Sink>(
    alloc: Global,
    e: &Extraction,
    sink: &mut S,
    options: &Options,
) -> Result<Outcome, SearchError>
    requires { e.now.original.vars ≤ 2 ^ 32 }
    ensures ends { IfOk result (Solves e.now.original options.now (S.written sink.old) (S.written sink.new)) }
    ensures error { IsErr result → SolvesNot e.now.original options.now (S.written sink.old) (S.written sink.new) }
    ensures later { S.faults sink.old ≤ S.faults sink.new }
    ensures fault { IsErrOf result SearchError.WriteFault → Rose (S.faults sink.old) (S.faults sink.new) }
{
    let mut log = Log::new(alloc, e.original(), sink)?;
    let ids = open(alloc, e, &mut log, sink)?;
    what_remains_is_known();
    let mut engine = engine_of(alloc, e.formula().vars(), &ids, &log)?;
    let outcome = search(alloc, &mut engine, &mut log, sink, options)?;
    Ok(finished(e, outcome))
}

// a model with its auxiliary values
fn finished(e: &Extraction, outcome: Outcome) -> Outcome
    requires { IsOutcomeOf e.now.formula outcome }
    ensures { IsFinished e.now outcome result }
{
    match outcome {
        Outcome::Model(mut values) => {
            rebuild(e, &mut values);
            Outcome::Model(values)
        }
        other => other,
    }
}
