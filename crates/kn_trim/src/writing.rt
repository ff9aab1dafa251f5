//! Writing the kept lines of a proof.
ghost use Rattle.std.specs.Prelude.{◌≡◌, length, IfOk, OnOk};
ghost use Rattle.std.specs.List.{AllByRecursion};
ghost use Rattle.kn_logic.specs.Formulas.{IsFormula};
ghost use Rattle.kn_lines.specs.Lines.{IsWellFormed};
ghost use Rattle.kn_trim.specs.Needed.{AreMet, AreNeeded, kept_by, kept_lines, proof_text};

use crate::renumbering::Renumbering;
use kn_lines::{Line, write_line};
use kn_logic::{Formula, NoMemory};
use std::alloc::Global;

/// The text of a proof of the needed lines.
pub fn kept_text(
    alloc: Global,
    f: &Formula,
    lines: &[Line],
    own: &[bool],
) -> Result<Vec<u8>, NoMemory>
    requires needed { AreNeeded f.now lines.now own.now }
    requires formed { AllByRecursion IsWellFormed lines.now }
    ensures text { IfOk result (λ text. text.items ≡ proof_text f.now (kept_lines (kept_by f.now lines.now own.now) lines.now own.now)) }
    ensures formula { OnOk result (IsFormula f.now) }
{
    let kept = kept_by(alloc, f, lines, own)?;
    write_lines(alloc, f, &kept, lines, own)
}

/// The new numbers of what the formula and the kept lines give.
fn kept_by(
    alloc: Global,
    f: &Formula,
    lines: &[Line],
    own: &[bool],
) -> Result<Renumbering, NoMemory>
    requires { length own.now ≡ length lines.now }
    ensures { IfOk result (λ kept. kept ≡ kept_by f.now lines.now own.now) }
{
    let mut kept = Renumbering::new(alloc, f)?;
    for (place, line) in lines.iter().enumerate() {
        kept.give(line, own[place])?;
    }
    Ok(kept)
}

/// The text of a proof of the kept lines, by their new numbers.
fn write_lines(
    alloc: Global,
    f: &Formula,
    kept: &Renumbering,
    lines: &[Line],
    own: &[bool],
) -> Result<Vec<u8>, NoMemory>
    requires length { length own.now ≡ length lines.now }
    requires met { AreMet kept.now lines.now own.now }
    requires formed { AllByRecursion IsWellFormed lines.now }
    ensures text { IfOk result (λ text. text.items ≡ proof_text f.now (kept_lines kept.now lines.now own.now)) }
    ensures formula { OnOk result (IsFormula f.now) }
{
    let header = Line::Header {
        vars: f.vars(),
        constraints: f.len() as u64,
    };
    let mut text = write_line(alloc, &header)?;
    for (place, line) in lines.iter().enumerate() {
        if own[place] {
            let line = kept.line(alloc, line)?;
            text.extend_from_slice(&write_line(alloc, &line)?)?;
        }
    }
    Ok(text)
}
