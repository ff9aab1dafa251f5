//! The text of a proof as a whole: its header has to fit the formula, and the first line that is wrong ends it.
ghost use Rattle.std.specs.Prelude.{◌≡◌, ◌≤◌, ◌<◌, ◌+◌, ◌^◌, ◌↔◌, IfOk, IsTrue, length};
ghost use Rattle.kn_logic.specs.Formulas.{IsFormula, IsUnsatisfiable};
ghost use Rattle.kn_text.specs.Lines.{lines_of, words_of, content_from};
ghost use Rattle.kn_lines.specs.Lines.{SpellsLine};
ghost use Rattle.kn_lines.specs.declared.line.Line.TheVariants.{Header};
ghost use Rattle.kn_rules.specs.Proofs.{IsProof, IsFirstWrong, WrongFrom};
ghost use Rattle.kn_rules.specs.Checking.{IfVerified, IfFault, EndsRefuted, Takes, BeginsFilled};

use crate::machine::Machine;
use crate::{FeedError, cause};
use kn_lines::{Line, LineError, read_line};
use kn_logic::{Formula, NoMemory};
use kn_text::{first_line, is_skipped};
use std::alloc::{AllocError, Global};

/// What became of a proof.
#[derive(Clone, Copy, Debug, PartialEq, Eq)]
pub enum Checked {
    /// All lines step, and one of them gave the clause without literals.
    Verified,
    /// The first line that does not step, counted from 1, and the cause, one of those in `cause`; where all lines
    /// step and none gave the clause without literals, their number and `NOT_REFUTED`.
    NotVerified { line: u64, why: u8 },
}

/// Checks the text of a proof for the formula. It fails only where memory is short.
pub fn check(alloc: Global, f: &Formula, bytes: &[u8]) -> Result<Checked, NoMemory>
    requires { f.now.vars ≤ 2 ^ 32 }
    ensures verified { IfOk result (λ checked. IfVerified checked (IsProof f.now bytes.now)) }
    ensures sound { IfOk result (λ checked. IfVerified checked (IsUnsatisfiable f.now)) }
    ensures wrong { IfOk result (λ checked. IfFault checked (IsFirstWrong f.now bytes.now)) }
    ensures refused { IfOk result (λ checked. IfFault checked (λ _. IsProof f.now bytes.now → ⊥)) }
{
    answer(alloc, f, bytes)
}

fn answer(alloc: Global, f: &Formula, bytes: &[u8]) -> Result<Checked, NoMemory>
    requires { f.now.vars ≤ 2 ^ 32 }
    ensures verified { IfOk result (λ checked. IfVerified checked (IsProof f.now bytes.now)) }
    ensures formula { IfOk result (λ checked. IfVerified checked (IsFormula f.now)) }
    ensures wrong { IfOk result (λ checked. IfFault checked (IsFirstWrong f.now bytes.now)) }
{
    let (passed, rest) = pass_skipped(bytes);
    let Some((line, behind)) = first_line(rest) else {
        return Ok(Checked::NotVerified {
            line: passed,
            why: cause::NOT_REFUTED,
        });
    };
    if !is_header(alloc, f, line)? {
        return Ok(Checked::NotVerified {
            line: passed + 1,
            why: cause::WRONG_HEADER,
        });
    }
    let mut machine = Machine::new(alloc, f)?;
    check_lines(alloc, &mut machine, passed + 1, behind)
}

/// Passes over the lines that are skipped, up to the first other one: their number, and what is left.
fn pass_skipped(text: &[u8]) -> (u64, &[u8])
    ensures content { content_from (result.0 + 1) (lines_of result.1.now) ≡ content_from 1 (lines_of text.now) }
    ensures count { result.0 + length (lines_of result.1.now) ≡ length (lines_of text.now) }
    ensures room { result.0 + length result.1.now ≤ length text.now }
    ensures filled { BeginsFilled (lines_of result.1.now) }
{
    let mut passed = 0;
    let mut rest = text;
    while let Some((line, behind)) = first_line(rest) {
        if !is_skipped(line) {
            return (passed, rest);
        }
        passed += 1;
        rest = behind;
    }
    (passed, rest)
}

/// Whether the line is the header of a proof for the formula.
fn is_header(alloc: Global, f: &Formula, line: &[u8]) -> Result<bool, NoMemory>
    ensures header { IfOk result (λ yes. IsTrue yes ↔ SpellsLine line.now (Header f.now.vars (length f.now.constraints))) }
    ensures formula { IsFormula f.now }
{
    let count = f.len() as u64;
    match read_line(alloc, line) {
        Ok(Some(Line::Header { vars, constraints })) => {
            Ok(vars == f.vars() && constraints == count)
        }
        Ok(_) => Ok(false),
        Err(LineError::Bad) => Ok(false),
        Err(LineError::Memory) => Err(AllocError),
    }
}

/// Checks the lines behind the header, before which so many lines stand.
fn check_lines(
    alloc: Global,
    machine: &mut Machine,
    mut line: u64,
    mut rest: &[u8],
) -> Result<Checked, NoMemory>
    requires { line + length rest.now < 2 ^ 64 }
    ensures verified { IfOk result (λ checked. IfVerified checked (EndsRefuted machine.old (content_from (line + 1) (lines_of rest.entry.now)))) }
    ensures wrong { IfOk result (λ checked. IfFault checked (WrongFrom machine.old (content_from (line + 1) (lines_of rest.entry.now)) (line + length (lines_of rest.entry.now)))) }
{
    while let Some((text, behind)) = first_line(rest) {
        line += 1;
        rest = behind;
        match take_line(alloc, machine, text) {
            Ok(()) => {}
            Err(FeedError::Wrong(why)) => return Ok(Checked::NotVerified { line, why }),
            Err(FeedError::Memory) => return Err(AllocError),
        }
    }
    match machine.finish() {
        Ok(()) => Ok(Checked::Verified),
        Err(why) => Ok(Checked::NotVerified { line, why }),
    }
}

/// Takes a line of a text, if it is not one that is skipped.
fn take_line(alloc: Global, machine: &mut Machine, text: &[u8]) -> Result<(), FeedError>
    ensures { Takes result (words_of text.now) machine.old machine.new }
{
    match read_line(alloc, text) {
        Ok(Some(line)) => machine.feed(&line),
        Ok(None) => Ok(()),
        Err(LineError::Bad) => Err(FeedError::Wrong(cause::BAD_LINE)),
        Err(LineError::Memory) => Err(FeedError::Memory),
    }
}
