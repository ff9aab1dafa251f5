//! The command `work`: the whole way over a formula that is made and not read, whose counts are known beforehand.
ghost use Rattle.std.specs.Prelude.{◌≡◌, ◌≤◌, ◌++◌, IfOk, OnOk};
ghost use Rattle.kn_gen.specs.Blocks.{generated};
ghost use Rattle.kn_tool.specs.Words.{most_blocks};
ghost use Rattle.kn_tool.specs.Changes.{sink_change};
ghost use Rattle.kn_tool.specs.Works.{WorkRow, count_line, numbers_text, ending_text};
ghost use Rattle.kn_tool.specs.Replies.{IsReply};
ghost use Rattle.kn_tool.specs.WorkReplies.{IsNoModel, work_answer, IsSummary};

use crate::Answer;
use crate::answer::text_of;
use crate::reply::{Reply, short_memory};
use crate::solving::solve_extraction;
use kn_bytes::Sink;
use kn_extract::{Extraction, extract};
use kn_gen::{blocks_are_counted, blocks_have_no_model, make_formula};
use kn_logic::{Formula, NoMemory};
use kn_search::{Options, Outcome};
use kn_text::push_number;
use std::alloc::Global;

/// How far `work` searches.
const WORK_OPTIONS: Options = Options {
    conflicts: 1_000_000,
    forget: 0,
};

/// The reply of `work`: the formula of so many blocks is generated, its hidden counts are taken out, and it is solved;
/// each line of the proof is written as it is made.
pub fn work_blocks<P: Sink>(alloc: Global, blocks: u32, proof: &mut P) -> Reply
    requires first { 1 ≤ blocks }
    requires last { blocks ≤ most_blocks }
    ensures reply { IsReply (WorkRow blocks (sink_change P.Sink proof.old proof.new)) result }
    ensures later { P.faults proof.old ≤ P.faults proof.new }
{
    blocks_are_counted();
    match generated_extraction(alloc, blocks) {
        Ok(e) => solve_blocks(alloc, blocks, &e, proof),
        Err(_) => short_memory(),
    }
}

/// The extraction of the generated formula.
fn generated_extraction(alloc: Global, blocks: u32) -> Result<Extraction, NoMemory>
    requires first { 1 ≤ blocks }
    requires last { blocks ≤ most_blocks }
    ensures { IfOk result (λ e. e.original ≡ generated blocks) }
{
    blocks_are_counted();
    let f = make_formula(alloc, blocks)?;
    extract(alloc, f)
}

fn solve_blocks<P: Sink>(alloc: Global, blocks: u32, e: &Extraction, proof: &mut P) -> Reply
    requires first { 1 ≤ blocks }
    requires last { blocks ≤ most_blocks }
    requires original { e.now.original ≡ generated blocks }
    ensures reply { IsReply (WorkRow blocks (sink_change P.Sink proof.old proof.new)) result }
    ensures later { P.faults proof.old ≤ P.faults proof.new }
{
    blocks_are_counted();
    blocks_have_no_model();
    match solve_extraction(alloc, e, proof, WORK_OPTIONS) {
        Ok(outcome) => summary_reply(alloc, blocks, e, answer_of(&outcome)),
        Err(answer) => Reply::Silent { answer },
    }
}

/// The answer of an outcome that is no model.
fn answer_of(outcome: &Outcome) -> Answer
    requires { IsNoModel outcome.now }
    ensures { result ≡ work_answer outcome.now }
{
    match outcome {
        Outcome::Model(_) => unreachable!(),
        Outcome::Refuted => Answer::Refuted,
        Outcome::Spent { learned } => Answer::Unknown { learned: *learned },
    }
}

/// The reply that tells the summary with this answer.
fn summary_reply(alloc: Global, blocks: u32, e: &Extraction, answer: Answer) -> Reply
    requires { e.now.original ≡ generated blocks }
    ensures { IsSummary blocks answer result }
{
    let klauses = e.taken().len() as u64;
    match summary(alloc, blocks, e.original(), klauses, &answer) {
        Ok(text) => Reply::Text { answer, text },
        Err(_) => short_memory(),
    }
}

/// The numbers of a formula and of the klauses that are extracted, and the answer.
fn summary(
    alloc: Global,
    blocks: u32,
    f: &Formula,
    klauses: u64,
    answer: &Answer,
) -> Result<Vec<u8>, NoMemory>
    ensures { IfOk result (λ text. text.items ≡ numbers_text blocks f.now klauses ++ ending_text answer.now) }
{
    let mut text = Vec::new(alloc);
    push_count(&mut text, b"blocks", u64::from(blocks))?;
    push_count(&mut text, b"variables", f.vars())?;
    push_count(&mut text, b"clauses", f.len() as u64)?;
    push_count(&mut text, b"klauses", klauses)?;
    push_ending(alloc, &mut text, answer)?;
    Ok(text)
}

fn push_count(out: &mut Vec<u8>, name: &[u8], count: u64) -> Result<(), NoMemory>
    ensures { OnOk result (out.new.items ≡ out.old.items ++ count_line name.now count) }
{
    out.extend_from_slice(b"c ")?;
    out.extend_from_slice(name)?;
    out.extend_from_slice(b" ")?;
    push_number(out, count)?;
    out.extend_from_slice(b"\n")
}

fn push_ending(alloc: Global, out: &mut Vec<u8>, answer: &Answer) -> Result<(), NoMemory>
    ensures { OnOk result (out.new.items ≡ out.old.items ++ ending_text answer.now) }
{
    if let Answer::Refuted = answer {
        out.extend_from_slice(b"c proof verified\n")?;
    }
    out.extend_from_slice(&text_of(alloc, answer)?)
}
