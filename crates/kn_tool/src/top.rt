//! `run`, the program but for its devices. No command writes its answer: all are told in one place, after the work.
ghost use Rattle.std.specs.Prelude.{◌≡◌, ◌≤◌, Option, None, option_map};
ghost use Rattle.kn_tool.specs.Words.{Asked, HasShape, HasNoShape, AsksFor, texts, asked_by, names_of};
ghost use Rattle.kn_tool.specs.Changes.{source_change, sink_change};
ghost use Rattle.kn_tool.specs.Outcomes.{files_change, RowOf, Tells, HeadlineOf, CompleteOf, AnswersUsage};
ghost use Rattle.kn_tool.specs.Replies.{IsReply, IsTold, Sent};
ghost use Rattle.kn_tool.specs.WorkReplies.{AreInRange};

use crate::answer::USAGE;
use crate::checking::check_files;
use crate::converting::convert_file;
use crate::extracting::extract_file;
use crate::reply::Reply;
use crate::solving::solve_file;
use crate::trimming::trim_files;
use crate::working::work_blocks;
use crate::{Answer, Command, Which, parse};
use kn_bytes::{Sink, Source, write_all};
use kn_search::Options;
use std::alloc::Global;

/// Does what the words ask for. `formula` and `proof_in` are read, the answer's text is written to `out`,
/// and a proof that is made to `proof_out`. An object whose name the words do not give is left as it is.
pub fn run<F: Source, Q: Source, O: Sink, P: Sink>(
    alloc: Global,
    words: &[Vec<u8>],
    formula: &mut F,
    proof_in: &mut Q,
    out: &mut O,
    proof_out: &mut P,
) -> Answer
    // Each answer by its row: what it says of the files, and of the text that was written.
    ensures tells { Tells (texts words.now) (files_change
        (source_change F.Source formula.old formula.new)
        (source_change Q.Source proof_in.old proof_in.new)
        (sink_change P.Sink proof_out.old proof_out.new)) (sink_change O.Sink out.old out.new) result }
    // What an answer promises, in the words of formulas and models.
    ensures headline { (asked : Asked) → HasShape (texts words.now) asked → HeadlineOf asked (files_change
        (source_change F.Source formula.old formula.new)
        (source_change Q.Source proof_in.old proof_in.new)
        (sink_change P.Sink proof_out.old proof_out.new)) (sink_change O.Sink out.old out.new) result }
    // Where nothing fails, the answer is what the texts say, unless memory is short.
    ensures complete { (asked : Asked) → HasShape (texts words.now) asked → CompleteOf asked (files_change
        (source_change F.Source formula.old formula.new)
        (source_change Q.Source proof_in.old proof_in.new)
        (sink_change P.Sink proof_out.old proof_out.new)) (sink_change O.Sink out.old out.new) result }
    ensures usage { HasNoShape (texts words.now) → AnswersUsage result }

    // Objects that have no name in these words are as before.
    ensures unnamed_formula { (request : Option Asked) → AsksFor (texts words.now) request → (names_of request).formula ≡ None → formula.new ≡ formula.old }
    ensures unnamed_proof { (request : Option Asked) → AsksFor (texts words.now) request → (names_of request).proof_in ≡ None → proof_in.new ≡ proof_in.old }
    ensures unnamed_sink { (request : Option Asked) → AsksFor (texts words.now) request → (names_of request).proof_out ≡ None → proof_out.new ≡ proof_out.old }

    ensures later_formula { F.faults formula.old ≤ F.faults formula.new }
    ensures later_proof { Q.faults proof_in.old ≤ Q.faults proof_in.new }
    ensures later_sink { P.faults proof_out.old ≤ P.faults proof_out.new }
    ensures later_out { O.faults out.old ≤ O.faults out.new }
{
    let reply = carry_out(alloc, parse(words), formula, proof_in, proof_out);
    tell(out, reply)
}

/// The reply to a command, or to words that ask for none.
fn carry_out<F: Source, Q: Source, P: Sink>(
    alloc: Global,
    command: Option<Command>,
    formula: &mut F,
    proof_in: &mut Q,
    proof_out: &mut P,
) -> Reply
    requires { AreInRange (option_map asked_by command) }
    ensures reply { IsReply (RowOf (option_map asked_by command.entry) (files_change
        (source_change F.Source formula.old formula.new)
        (source_change Q.Source proof_in.old proof_in.new)
        (sink_change P.Sink proof_out.old proof_out.new))) result }
    ensures usage { command.entry ≡ None → result ≡ Reply.Usage }
    ensures unnamed_formula { (names_of (option_map asked_by command.entry)).formula ≡ None → formula.new ≡ formula.old }
    ensures unnamed_proof { (names_of (option_map asked_by command.entry)).proof_in ≡ None → proof_in.new ≡ proof_in.old }
    ensures unnamed_sink { (names_of (option_map asked_by command.entry)).proof_out ≡ None → proof_out.new ≡ proof_out.old }
    ensures later_formula { F.faults formula.old ≤ F.faults formula.new }
    ensures later_proof { Q.faults proof_in.old ≤ Q.faults proof_in.new }
    ensures later_sink { P.faults proof_out.old ≤ P.faults proof_out.new }
{
    match command {
        Some(Command::Check { .. }) => check_files(alloc, formula, proof_in),
        Some(
            Command::Solve {
                conflicts,
                forget,
                ..
            },
        ) => solve_file(alloc, formula, proof_out, Options { conflicts, forget }),
        Some(Command::Extract { .. }) => extract_file(alloc, formula),
        Some(Command::Convert { .. }) => convert_file(alloc, formula),
        Some(Command::Trim { .. }) => trim_files(alloc, formula, proof_in),
        Some(Command::Work { blocks }) => work_blocks(alloc, blocks, proof_out),
        None => Reply::Usage,
    }
}

/// Writes the text of a reply, and answers it where that succeeds.
fn tell<O: Sink>(out: &mut O, reply: Reply) -> Answer
    ensures told { IsTold reply (sink_change O.Sink out.old out.new) result }
    ensures later { O.faults out.old ≤ O.faults out.new }
{
    match reply {
        Reply::Text { answer, text } => send(out, &text, answer),
        Reply::Usage => send(out, USAGE, Answer::Usage),
        Reply::Silent { answer } => answer,
    }
}

fn send<O: Sink>(out: &mut O, text: &[u8], answer: Answer) -> Answer
    ensures sent { Sent answer text.now (sink_change O.Sink out.old out.new) result }
    ensures later { O.faults out.old ≤ O.faults out.new }
{
    match write_all(out, text) {
        Ok(()) => answer,
        Err(_) => Answer::WriteFault { which: Which::Out },
    }
}
