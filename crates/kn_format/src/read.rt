//! Reading a formula whole. Behind the last constraint a line of `%` ends it, as in the files of SATLIB.
ghost use Rattle.std.specs.Prelude.{◌≡◌, ◌∷◌, [], ◌+◌, ◌^◌, ◌<◌, ◌≤◌, length, IfOk, IfErr};
ghost use Rattle.kn_logic.specs.Formulas.{Problem};
ghost use Rattle.kn_text.specs.Lines.{lines_of, words_of, content_from};
ghost use Rattle.kn_format.specs.declared.error.Refusal.{Refusal};
ghost use Rattle.kn_format.specs.Grammar.{Spells, SpellsNone};
ghost use Rattle.kn_format.specs.Faults.{is_percent, IsFirstFault};
ghost use Rattle.kn_format.specs.Reading.{Gives, after_lines, read_of, ReadsAs, RefusesAs, IfRefused};

use crate::cause;
use crate::error::ReadError;
use crate::header::problem_line;
use crate::reader::{Reader, refused};
use kn_logic::Formula;
use kn_text::{first_line, first_word, is_skipped};
use std::alloc::Global;

// The first line, behind so many, that is neither blank nor a comment: its number, itself and what stands
// behind it. Where there is none, the number of all lines.
fn content_line(before: u64, text: &[u8]) -> Result<(u64, &[u8], &[u8]), u64>
    requires { before + length text.now < 2 ^ 64 }
    ensures some { IfOk result (λ x. content_from (before + 1) (lines_of text.now)
        ≡ record { number = x.0; words = words_of x.1.now } ∷ content_from (x.0 + 1) (lines_of x.2.now)) }
    ensures number { IfOk result (λ x. x.0 + length (lines_of x.2.now) ≡ before + length (lines_of text.now)) }
    ensures within { IfOk result (λ x. x.0 + length x.2.now ≤ before + length text.now) }
    ensures shorter { IfOk result (λ x. length x.2.now < length text.now) }
    ensures none { IfErr result (λ _. content_from (before + 1) (lines_of text.now) ≡ []) }
    ensures lines { IfErr result (λ lines. lines ≡ before + length (lines_of text.now)) }
{
    let mut lines = before;
    let mut rest = text;
    while let Some((line, behind)) = first_line(rest) {
        lines += 1;
        rest = behind;
        if !is_skipped(line) {
            return Ok((lines, line, behind));
        }
    }
    Err(lines)
}

fn is_percent(line: &[u8]) -> bool
    ensures { result ≡ is_percent (words_of line.now) }
{
    match first_word(line) {
        Some((word, _)) => word.first() == Some(&b'%'),
        None => false,
    }
}

// Reads the constraints of the lines behind the one of this number.
fn read_lines(reader: Reader, number: u64, text: &[u8]) -> Result<Formula, ReadError>
    requires { number + length text.now < 2 ^ 64 }
    ensures { Gives (after_lines (number + length (lines_of text.now)) reader (content_from (number + 1) (lines_of text.now))) result }
{
    let mut reader = reader;
    let mut number = number;
    let mut rest = text;
    loop {
        let (at, line, behind) = match content_line(number, rest) {
            Ok(found) => found,
            Err(lines) => return reader.at_end(lines),
        };
        if reader.is_done() && is_percent(line) {
            return Ok(reader.formula());
        }
        reader.words(at, line)?;
        number = at;
        rest = behind;
    }
}

fn read(alloc: Global, bytes: &[u8]) -> Result<Formula, ReadError>
    ensures { Gives (read_of bytes.now) result }
{
    match content_line(0, bytes) {
        Ok((number, line, rest)) => match problem_line(line) {
            Ok(header) => read_lines(Reader::new(alloc, header), number, rest),
            Err(why) => Err(refused(number, why)),
        },
        Err(lines) => Err(refused(lines, cause::NO_HEADER)),
    }
}

/// Reads a formula from a text of CNF or KNF. The errors are short memory, and the first fault of a text
/// that spells no formula.
pub fn read_formula(alloc: Global, bytes: &[u8]) -> Result<Formula, ReadError>
    ensures found { IfOk result (λ f. Spells bytes.now f) }
    ensures only { (f : Problem) → Spells bytes.now f → ReadsAs f result }
    ensures refused { IfRefused result (IsFirstFault bytes.now) }
    ensures first { (fault : Refusal) → IsFirstFault bytes.now fault → RefusesAs fault result }
    ensures none { IfRefused result (λ _. SpellsNone bytes.now) }
{
    read(alloc, bytes)
}
