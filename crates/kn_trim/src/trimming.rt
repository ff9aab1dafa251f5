//! Trimming the text of a proof.
ghost use Rattle.std.specs.Prelude.{◌≡◌, ◌≤◌, ◌^◌, IfOk};
ghost use Rattle.kn_rules.specs.Proofs.{IsProof, IsFirstWrong};
ghost use Rattle.kn_trim.specs.Needed.{IsTrimmed};
ghost use Rattle.kn_trim.specs.Trimming.{IfText, IfFault};

use crate::TrimText;
use crate::marking::marked;
use crate::reading::read_lines;
use crate::writing::kept_text;
use kn_logic::{Formula, NoMemory};
use kn_rules::{Checked, check};
use std::alloc::Global;

/// What became of a proof that was to be trimmed.
#[derive(Debug, Drop)]
pub enum Trimmed {
    /// The text is a proof, and this is the text of its needed lines.
    Text(TrimText),
    /// The text is no proof: its first wrong line, counted from 1, and the cause, as `kn_rules::check` tells
    /// them.
    NotVerified { line: u64, why: u8 },
}

/// The needed lines of a proof for the formula, as a proof of their own: those that the first clause without
/// literals rests on, each with its used hints alone, and with their variables and ids numbered anew. It fails
/// only where memory is short.
///
/// The proof is checked once, and gone over three times after that, which costs as much as its text and the
/// constraints of its hints.
pub fn trim(alloc: Global, f: &Formula, bytes: &[u8]) -> Result<Trimmed, NoMemory>
    requires { f.now.vars ≤ 2 ^ 32 }
    ensures text { IfOk result (λ trimmed. IfText trimmed (IsTrimmed f.now bytes.now)) }
    ensures verified { IfOk result (λ trimmed. IfText trimmed (λ _. IsProof f.now bytes.now)) }
    ensures proof { IfOk result (λ trimmed. IfText trimmed (IsProof f.now)) }
    ensures wrong { IfOk result (λ trimmed. IfFault trimmed (IsFirstWrong f.now bytes.now)) }
    ensures refused { IfOk result (λ trimmed. IfFault trimmed (λ _. IsProof f.now bytes.now → ⊥)) }
{
    match check(alloc, f, bytes)? {
        Checked::Verified => Ok(Trimmed::Text(needed_text(alloc, f, bytes)?)),
        Checked::NotVerified { line, why } => Ok(Trimmed::NotVerified { line, why }),
    }
}

/// The text of the needed lines of a proof.
fn needed_text(alloc: Global, f: &Formula, bytes: &[u8]) -> Result<TrimText, NoMemory>
    requires vars { f.now.vars ≤ 2 ^ 32 }
    requires proof { IsProof f.now bytes.now }
    ensures trimmed { IfOk result (λ text. IsTrimmed f.now bytes.now text) }
    ensures proof { IfOk result (λ text. IsProof f.now text) }
{
    let lean = read_lines(alloc, f, bytes)?;
    let own = marked(alloc, f, &lean.lines, lean.variables, lean.ids)?;
    let text = kept_text(alloc, f, &lean.lines, &own)?;
    Ok(TrimText::new(text))
}
