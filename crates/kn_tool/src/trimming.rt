//! The command `trim`: the lines and hints of a proof that its refutation uses. A wrong proof is told as by `check`.
ghost use Rattle.std.specs.Prelude.{◌≡◌, ◌≤◌, ◌^◌};
ghost use Rattle.kn_tool.specs.Changes.{source_change};
ghost use Rattle.kn_tool.specs.Trims.{TrimRow, TrimmedRow};
ghost use Rattle.kn_tool.specs.Replies.{IsReply, IsTrimReply};

use crate::files::{read_source, understand};
use crate::reply::{Reply, reply_of, short_memory};
use crate::{Answer, Which};
use kn_bytes::Source;
use kn_logic::Formula;
use kn_trim::{Trimmed, trim};
use std::alloc::Global;

/// The reply of `trim`: the formula is read and understood, then the proof is read, checked and cut down.
pub fn trim_files<F: Source, Q: Source>(alloc: Global, formula: &mut F, proof: &mut Q) -> Reply
    ensures reply { IsReply (TrimRow
        (source_change F.Source formula.old formula.new) (source_change Q.Source proof.old proof.new)) result }
    ensures later_formula { F.faults formula.old ≤ F.faults formula.new }
    ensures later_proof { Q.faults proof.old ≤ Q.faults proof.new }
{
    match understand(alloc, formula) {
        Ok(f) => trim_proof(alloc, &f, proof),
        Err(reply) => reply,
    }
}

fn trim_proof<Q: Source>(alloc: Global, f: &Formula, proof: &mut Q) -> Reply
    requires { f.now.vars ≤ 2 ^ 32 }
    ensures reply { IsReply (TrimmedRow (source_change Q.Source proof.old proof.new) f.now) result }
    ensures later { Q.faults proof.old ≤ Q.faults proof.new }
{
    let text = match read_source(alloc, proof, Which::Proof) {
        Ok(text) => text,
        Err(reply) => return reply,
    };
    match trim(alloc, f, &text) {
        Ok(trimmed) => reply_to(alloc, trimmed),
        Err(_) => short_memory(),
    }
}

fn reply_to(alloc: Global, trimmed: Trimmed) -> Reply
    ensures { IsTrimReply trimmed result }
{
    match trimmed {
        Trimmed::Text(text) => Reply::Text {
            answer: Answer::Done,
            text: text.into_bytes(),
        },
        Trimmed::NotVerified { line, why } => reply_of(alloc, Answer::NotVerified { line, why }),
    }
}
