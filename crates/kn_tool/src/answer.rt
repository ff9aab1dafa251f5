//! The answers of the program. Statuses 10 and 20 and the `s` lines of `solve` are those of the SAT Competition.
ghost use Rattle.std.specs.Prelude.{◌≡◌, ◌++◌, IfOk, OnOk, codes};
ghost use Rattle.kn_tool.specs.Answers.{status_of, answer_text, place_text, which_text, usage_text};

use kn_text::push_number;
use std::alloc::{AllocError, Global};

/// The line that says how the program is called. It names all commands that are planned: `minimise` and `assume` are
/// answered by this line until they are built.
pub const USAGE: &[u8] =
    b"c usage: knf check F P | knf solve F P [--conflicts N] [--forget N] | knf extract F | knf convert F | knf work N | knf minimise F P [--conflicts N] | knf assume F P [--conflicts N] | knf trim F P\n";

/// One of the program's files, or standard output.
#[derive(Clone, Copy, Debug, PartialEq, Eq)]
pub enum Which {
    Formula,
    Proof,
    Out,
}

/// What the program answers. Lines count from 1; a line of 0 is one of an empty text.
#[derive(Clone, Copy, Debug, PartialEq, Eq)]
pub enum Answer {
    /// The formula has a model, and one was written.
    Model,
    /// The formula has no model: the proof that was written says so.
    Refuted,
    /// As many clauses were learned as the words allow, and neither was found.
    Unknown { learned: u64 },
    /// What was asked for was written.
    Done,
    /// The proof is accepted, and so the formula has no model.
    Verified,
    /// The proof is not accepted: the first line that is wrong, and its cause.
    NotVerified { line: u64, why: u8 },
    /// No formula is spelled: the first line at fault, and its cause.
    Refused { line: u64, why: u8 },
    /// The source gave more than `MAX_BYTES` bytes.
    TooLong { which: Which },
    /// The words ask for no command.
    Usage,
    /// The source failed.
    ReadFault { which: Which },
    /// The sink failed.
    WriteFault { which: Which },
    /// Memory is short.
    NoMemory,
}

impl Answer {
    /// The exit status.
    pub fn status(&self) -> u8
        ensures { result ≡ status_of self.now }
    {
        match self {
            Answer::Model => 10,
            Answer::Refuted => 20,
            Answer::Unknown { .. } | Answer::Done | Answer::Verified => 0,
            Answer::NotVerified { .. } => 30,
            Answer::Refused { .. } | Answer::TooLong { .. } => 1,
            Answer::Usage => 2,
            Answer::ReadFault { .. } => 3,
            Answer::WriteFault { .. } => 4,
            Answer::NoMemory => 5,
        }
    }
}

/// The text of an answer; empty for those that have none. That of a model goes on with the values,
/// and where a command is done its text is what it made.
pub fn text_of(alloc: Global, answer: &Answer) -> Result<Vec<u8>, AllocError>
    ensures { IfOk result (λ text. text.items ≡ answer_text answer.now) }
{
    let mut text = Vec::new(alloc);
    match answer {
        Answer::Model => text.extend_from_slice(b"s SATISFIABLE\n")?,
        Answer::Refuted => text.extend_from_slice(b"s UNSATISFIABLE\n")?,
        Answer::Unknown { .. } => text.extend_from_slice(b"s UNKNOWN\n")?,
        Answer::Verified => text.extend_from_slice(b"s VERIFIED\n")?,
        Answer::NotVerified { line, why } => {
            text.extend_from_slice(b"c ")?;
            push_place(&mut text, *line, *why)?;
            text.extend_from_slice(b"s NOT VERIFIED\n")?;
        }
        Answer::Refused { line, why } => {
            text.extend_from_slice(b"c refused ")?;
            push_place(&mut text, *line, *why)?;
        }
        Answer::TooLong { which } => push_source(&mut text, b"c too long ", *which)?,
        Answer::Usage => text.extend_from_slice(USAGE)?,
        Answer::ReadFault { which } => push_source(&mut text, b"c read fault ", *which)?,
        Answer::Done | Answer::WriteFault { .. } | Answer::NoMemory => (),
    }
    Ok(text)
}

fn push_place(out: &mut Vec<u8>, line: u64, why: u8) -> Result<(), AllocError>
    ensures { OnOk result (out.new.items ≡ out.old.items ++ place_text line why) }
{
    out.extend_from_slice(b"line ")?;
    push_number(out, line)?;
    out.extend_from_slice(b" cause ")?;
    push_number(out, u64::from(why))?;
    out.extend_from_slice(b"\n")?;
    Ok(())
}

fn push_source(out: &mut Vec<u8>, front: &[u8], which: Which) -> Result<(), AllocError>
    ensures { OnOk result (out.new.items ≡ out.old.items ++ (front.now ++ which_text which ++ codes "\n")) }
{
    out.extend_from_slice(front)?;
    match which {
        Which::Formula => out.extend_from_slice(b"formula\n")?,
        Which::Proof => out.extend_from_slice(b"proof\n")?,
        Which::Out => out.extend_from_slice(b"out\n")?,
    }
    Ok(())
}
