//! The walk over the text of a proof, which reads its lines.
ghost use Rattle.std.specs.Prelude.{◌≡◌, ◌≤◌, ◌^◌, false, true, IfOk, IfSome, IfNone};
ghost use Rattle.kn_text.specs.Lines.{content_of, is_skipped, words_of};
ghost use Rattle.kn_lines.specs.Lines.{IsWellFormed, SpellsLine, SpellsNone};
ghost use Rattle.kn_rules.specs.Proofs.{IsProof};
ghost use Rattle.kn_trim.specs.Reading.{IsBehindFirst, IsLean};

use crate::lean::Lean;
use crate::reader::Reader;
use kn_lines::{Line, LineError, read_line};
use kn_logic::{Formula, NoMemory};
use kn_text::{first_line, is_skipped};
use std::alloc::{AllocError, Global};

/// The lines of a proof for the formula, each with its used hints alone.
pub fn read_lines(alloc: Global, f: &Formula, bytes: &[u8]) -> Result<Lean, NoMemory>
    requires vars { f.now.vars ≤ 2 ^ 32 }
    requires proof { IsProof f.now bytes.now }
    ensures { IfOk result (λ lean. IsLean f.now bytes.now lean.lines.items lean.variables lean.ids) }
{
    let mut reader = Reader::new(alloc, f)?;
    let mut rest = behind_first(bytes);
    while let Some((text, behind)) = first_line(rest) {
        rest = behind;
        if let Some(line) = proof_line(alloc, text)? {
            reader.take(line)?;
        }
    }
    Ok(reader.finish())
}

/// What stands behind the first line that is not skipped.
fn behind_first(bytes: &[u8]) -> &[u8]
    ensures { IsBehindFirst (content_of bytes.now) result.now }
{
    let mut rest = bytes;
    while let Some((line, behind)) = first_line(rest) {
        rest = behind;
        if !is_skipped(line) {
            return rest;
        }
    }
    rest
}

/// The line of a proof that the bytes spell; `None` where they are skipped.
fn proof_line(alloc: Global, bytes: &[u8]) -> Result<Option<Line>, NoMemory>
    requires { SpellsNone bytes.now → ⊥ }
    ensures spelled { IfOk result (λ read. IfSome read (λ line. SpellsLine bytes.now line)) }
    ensures formed { IfOk result (λ read. IfSome read (λ line. IsWellFormed line)) }
    ensures kept { IfOk result (λ read. IfSome read (λ _. is_skipped (words_of bytes.now) ≡ false)) }
    ensures skipped { IfOk result (λ read. IfNone read (is_skipped (words_of bytes.now) ≡ true)) }
{
    match read_line(alloc, bytes) {
        Ok(read) => Ok(read),
        Err(LineError::Bad) => unreachable!(),
        Err(LineError::Memory) => Err(AllocError),
    }
}
