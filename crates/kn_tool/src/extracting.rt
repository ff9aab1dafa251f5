//! The command `extract`: klauses in place of the clauses that hide them. Models differ in auxiliary variables alone.
ghost use Rattle.std.specs.Prelude.{◌≡◌, ◌≤◌};
ghost use Rattle.kn_format.specs.Texts.{IsWithinLimits};
ghost use Rattle.kn_tool.specs.Changes.{source_change};
ghost use Rattle.kn_tool.specs.Extracts.{ExtractRow, ExtractedRow};
ghost use Rattle.kn_tool.specs.Replies.{IsReply};

use crate::Answer;
use crate::files::understand;
use crate::reply::{Reply, short_memory};
use kn_bytes::Source;
use kn_extract::{Extraction, an_extraction_keeps_models, extract, extraction_text};
use kn_logic::Formula;
use std::alloc::Global;

/// The reply of `extract`: the formula is read and understood, then its hidden counts are taken out.
pub fn extract_file<F: Source>(alloc: Global, formula: &mut F) -> Reply
    ensures reply { IsReply (ExtractRow (source_change F.Source formula.old formula.new)) result }
    ensures later { F.faults formula.old ≤ F.faults formula.new }
{
    match understand(alloc, formula) {
        Ok(f) => extract_formula(alloc, f),
        Err(reply) => reply,
    }
}

fn extract_formula(alloc: Global, f: Formula) -> Reply
    requires { IsWithinLimits f }
    ensures { IsReply (ExtractedRow f) result }
{
    match extract(alloc, f) {
        Ok(e) => extraction_reply(alloc, &e),
        Err(_) => short_memory(),
    }
}

fn extraction_reply(alloc: Global, e: &Extraction) -> Reply
    requires { IsWithinLimits e.now.original }
    ensures { IsReply (ExtractedRow e.now.original) result }
{
    an_extraction_keeps_models();
    let _formula = e.formula();
    match extraction_text(alloc, e) {
        Ok(text) => Reply::Text {
            answer: Answer::Done,
            text,
        },
        Err(_) => short_memory(),
    }
}
