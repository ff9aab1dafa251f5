//! The command `convert`: a formula in clauses alone, for solvers that know no klauses.
ghost use Rattle.std.specs.Prelude.{◌≡◌, ◌≤◌, length};
ghost use Rattle.kn_format.specs.Grammar.{most_variables, most_constraints};
ghost use Rattle.kn_tool.specs.Changes.{source_change};
ghost use Rattle.kn_tool.specs.Conversions.{ConvertRow, ConvertedRow};
ghost use Rattle.kn_tool.specs.Replies.{IsReply};

use crate::Answer;
use crate::files::understand;
use crate::reply::{Reply, reply_of, short_memory};
use kn_bytes::Source;
use kn_counter::{CountError, counted};
use kn_format::write_cnf;
use kn_logic::Formula;
use std::alloc::Global;

/// The reply of `convert`: the formula is read and understood, then turned into clauses.
pub fn convert_file<F: Source>(alloc: Global, formula: &mut F) -> Reply
    ensures reply { IsReply (ConvertRow (source_change F.Source formula.old formula.new)) result }
    ensures later { F.faults formula.old ≤ F.faults formula.new }
{
    match understand(alloc, formula) {
        Ok(f) => convert_formula(alloc, &f),
        Err(reply) => reply,
    }
}

fn convert_formula(alloc: Global, f: &Formula) -> Reply
    requires vars { f.now.vars ≤ most_variables }
    requires constraints { length f.now.constraints ≤ most_constraints }
    ensures { IsReply (ConvertedRow f.now) result }
{
    match counted(alloc, f) {
        Ok(clauses) => match write_cnf(alloc, &clauses) {
            Ok(text) => Reply::Text {
                answer: Answer::Done,
                text,
            },
            Err(_) => short_memory(),
        },
        Err(CountError::TooLarge { .. }) => reply_of(alloc, Answer::Refused { line: 0, why: 12 }),
        Err(CountError::Memory) => short_memory(),
    }
}
