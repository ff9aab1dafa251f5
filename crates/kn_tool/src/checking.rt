//! The command `check`. The proof is not read before the formula is understood, so that one fault is told, the first.
ghost use Rattle.std.specs.Prelude.{◌≡◌, ◌≤◌, ◌^◌};
ghost use Rattle.kn_tool.specs.Changes.{source_change};
ghost use Rattle.kn_tool.specs.Checks.{CheckRow, CheckedRow};
ghost use Rattle.kn_tool.specs.Replies.{IsReply, verdict_of};

use crate::files::{read_source, understand};
use crate::reply::{Reply, reply_of, short_memory};
use crate::{Answer, Which};
use kn_bytes::Source;
use kn_logic::Formula;
use kn_rules::{Checked, check};
use std::alloc::Global;

/// The reply of `check`: the formula is read and understood, then the proof is read and checked.
pub fn check_files<F: Source, Q: Source>(alloc: Global, formula: &mut F, proof: &mut Q) -> Reply
    ensures reply { IsReply (CheckRow
        (source_change F.Source formula.old formula.new) (source_change Q.Source proof.old proof.new)) result }
    ensures later_formula { F.faults formula.old ≤ F.faults formula.new }
    ensures later_proof { Q.faults proof.old ≤ Q.faults proof.new }
{
    match understand(alloc, formula) {
        Ok(f) => check_formula(alloc, &f, proof),
        Err(reply) => reply,
    }
}

fn check_formula<Q: Source>(alloc: Global, f: &Formula, proof: &mut Q) -> Reply
    requires { f.now.vars ≤ 2 ^ 32 }
    ensures reply { IsReply (CheckedRow (source_change Q.Source proof.old proof.new) f.now) result }
    ensures later { Q.faults proof.old ≤ Q.faults proof.new }
{
    let text = match read_source(alloc, proof, Which::Proof) {
        Ok(text) => text,
        Err(reply) => return reply,
    };
    match check(alloc, f, &text) {
        Ok(checked) => reply_of(alloc, verdict(checked)),
        Err(_) => short_memory(),
    }
}

fn verdict(checked: Checked) -> Answer
    ensures { result ≡ verdict_of checked }
{
    match checked {
        Checked::Verified => Answer::Verified,
        Checked::NotVerified { line, why } => Answer::NotVerified { line, why },
    }
}
