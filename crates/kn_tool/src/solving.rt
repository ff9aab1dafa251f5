//! The command `solve`: a model, or a proof that there is none, or neither within the limits that the words set.
ghost use Rattle.std.specs.Prelude.{◌≡◌, ◌≤◌, ◌<◌, ◌^◌, length, None, IfOk, IfErr};
ghost use Rattle.kn_format.specs.Texts.{IsWithinLimits};
ghost use Rattle.kn_tool.specs.Changes.{source_change, sink_change};
ghost use Rattle.kn_tool.specs.Solves.{SolveRow, SolvedRow, satisfiable_text};
ghost use Rattle.kn_tool.specs.Replies.{IsReply, Finds, IsReplyOf};
ghost use Rattle.kn_search.specs.declared.outcome.Outcome.TheVariants.{Model};

use crate::answer::text_of;
use crate::files::understand;
use crate::reply::{Reply, reply_of, short_memory};
use crate::{Answer, Which};
use kn_bytes::{Sink, Source};
use kn_extract::{Extraction, extract};
use kn_format::write_model;
use kn_logic::{Assignment, Formula, NoMemory};
use kn_search::{Options, Outcome, SearchError};
use kn_solve::solve;
use std::alloc::Global;

/// The reply of `solve`: the formula is read and understood, and its hidden counts are taken out. Then it is solved;
/// each line of the proof is written as it is made.
pub fn solve_file<F: Source, P: Sink>(
    alloc: Global,
    formula: &mut F,
    proof: &mut P,
    options: Options,
) -> Reply
    ensures reply { IsReply (SolveRow options.conflicts options.forget
        (source_change F.Source formula.old formula.new) (sink_change P.Sink proof.old proof.new)) result }
    ensures later_formula { F.faults formula.old ≤ F.faults formula.new }
    ensures later_proof { P.faults proof.old ≤ P.faults proof.new }
{
    match understand(alloc, formula) {
        Ok(f) => solve_formula(alloc, f, proof, options),
        Err(reply) => reply,
    }
}

fn solve_formula<P: Sink>(alloc: Global, f: Formula, proof: &mut P, options: Options) -> Reply
    requires { IsWithinLimits f }
    ensures reply { IsReply (SolvedRow options.conflicts options.forget (sink_change P.Sink proof.old proof.new) f) result }
    ensures later { P.faults proof.old ≤ P.faults proof.new }
{
    let Ok(e) = extract(alloc, f) else {
        return short_memory();
    };
    match solve_extraction(alloc, &e, proof, options) {
        Ok(outcome) => reply_of_outcome(alloc, outcome),
        Err(answer) => Reply::Silent { answer },
    }
}

/// What is found of the formula that an extraction began with, or the answer that has no text.
pub(crate) fn solve_extraction<P: Sink>(
    alloc: Global,
    e: &Extraction,
    proof: &mut P,
    options: Options,
) -> Result<Outcome, Answer>
    requires vars { e.now.original.vars ≤ 2 ^ 32 }
    requires count { length e.now.original.constraints < 2 ^ 64 }
    ensures found { IfOk result (Finds options.conflicts options.forget e.now.original (sink_change P.Sink proof.old proof.new)) }
    ensures err { IfErr result (λ answer. SolvedRow options.conflicts options.forget (sink_change P.Sink proof.old proof.new) e.now.original answer None) }
    ensures later { P.faults proof.old ≤ P.faults proof.new }
{
    match solve(alloc, e, proof, &options) {
        Ok(outcome) => Ok(outcome),
        Err(SearchError::Memory) => Err(Answer::NoMemory),
        Err(SearchError::WriteFault) => Err(PROOF_FAULT),
    }
}

const PROOF_FAULT: Answer = Answer::WriteFault {
    which: Which::Proof,
};

fn reply_of_outcome(alloc: Global, outcome: Outcome) -> Reply
    ensures { IsReplyOf outcome result }
{
    match outcome {
        Outcome::Model(model) => reply_of_model(alloc, &model),
        Outcome::Refuted => reply_of(alloc, Answer::Refuted),
        Outcome::Spent { learned } => reply_of(alloc, Answer::Unknown { learned }),
    }
}

fn reply_of_model(alloc: Global, model: &Assignment) -> Reply
    ensures { IsReplyOf (Model model.now) result }
{
    match satisfiable_text(alloc, model) {
        Ok(text) => Reply::Text {
            answer: Answer::Model,
            text,
        },
        Err(_) => short_memory(),
    }
}

/// The answer, and the values on lines of their own.
fn satisfiable_text(alloc: Global, model: &Assignment) -> Result<Vec<u8>, NoMemory>
    ensures { IfOk result (λ text. text.items ≡ satisfiable_text model.now) }
{
    let mut text = text_of(alloc, &Answer::Model)?;
    text.extend_from_slice(&write_model(alloc, model)?)?;
    Ok(text)
}
