//! Reading a formula or a proof whole, up to a limit, and what each command replies where that fails.
ghost use Rattle.std.specs.Prelude.{◌≡◌, ◌≤◌, IfOk, IfErr};
ghost use Rattle.kn_tool.specs.Changes.{source_change, GivesAll};
ghost use Rattle.kn_tool.specs.Files.{Accepts, UnreadRow, NoFormulaRow};
ghost use Rattle.kn_tool.specs.Replies.{IsReply, IsRefusal, IsUnread};

use crate::reply::{Reply, reply_of, short_memory};
use crate::{Answer, Which};
use kn_bytes::{ReadAll, Source, read_all};
use kn_format::{ReadError, read_formula};
use kn_logic::Formula;
use std::alloc::Global;

/// The most bytes that are read of a source.
pub const MAX_BYTES: u64 = 1 << 28;

/// The formula that a source spells, or the reply where there is none.
pub fn understand<F: Source>(alloc: Global, formula: &mut F) -> Result<Formula, Reply>
    ensures ok { IfOk result (λ f. Accepts (source_change F.Source formula.old formula.new) f) }
    ensures err { IfErr result (IsReply (NoFormulaRow (source_change F.Source formula.old formula.new))) }
    ensures later { F.faults formula.old ≤ F.faults formula.new }
{
    let text = match read_source(alloc, formula, Which::Formula) {
        Ok(text) => text,
        Err(reply) => return Err(reply),
    };
    match read_formula(alloc, &text) {
        Ok(f) => Ok(f),
        Err(error) => Err(refusal(alloc, error)),
    }
}

fn refusal(alloc: Global, error: ReadError) -> Reply
    ensures { IsRefusal error result }
{
    match error {
        ReadError::Refused(refusal) => reply_of(
            alloc,
            Answer::Refused {
                line: refusal.line,
                why: refusal.why,
            },
        ),
        ReadError::Memory => short_memory(),
    }
}

/// All bytes of a source, or the reply where they are not had.
pub fn read_source<S: Source>(alloc: Global, source: &mut S, which: Which) -> Result<Vec<u8>, Reply>
    ensures ok { IfOk result (λ text. GivesAll (source_change S.Source source.old source.new) text.items) }
    ensures err { IfErr result (IsReply (UnreadRow which (source_change S.Source source.old source.new))) }
    ensures later { S.faults source.old ≤ S.faults source.new }
{
    match read_all(alloc, source, MAX_BYTES) {
        Ok(text) => Ok(text),
        Err(error) => Err(unread(alloc, which, error)),
    }
}

fn unread(alloc: Global, which: Which, error: ReadAll) -> Reply
    ensures { IsUnread which error result }
{
    match error {
        ReadAll::Fault => reply_of(alloc, Answer::ReadFault { which }),
        ReadAll::TooLong => reply_of(alloc, Answer::TooLong { which }),
        ReadAll::Memory => short_memory(),
    }
}
