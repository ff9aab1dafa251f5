//! Writing a line, in one of the spellings that are read: one space between words, and no zeros in front.
ghost use Rattle.std.specs.Prelude.{◌≡◌, ◌<◌, ◌^◌, ◌++◌, OnOk, IfOk};
ghost use Rattle.kn_text.specs.Lines.{line_text};
ghost use Rattle.kn_text.specs.Numbers.{literal_word, IsWritable};
ghost use Rattle.kn_lines.specs.Lines.{AreLiterals, AreNumbers, IsArmInRange, IsInRange, IsWellFormed, arm_word, line_words};
ghost use Rattle.kn_lines.specs.Writing.{spaced, literals_text, ids_text, header_text, definition_text, derived_text, pair_text, klause_text, unfolding_text, delete_text, content_text};

use crate::{Arm, Line, NoMemory};
use kn_logic::{Constraint, Lit};
use kn_text::{push_literal, push_number};
use std::alloc::Global;

/// The text of a line of a proof, with its line feed. What is written is read again: the numbers of a line
/// in memory are all in the range of those of a text.
pub fn write_line(alloc: Global, line: &Line) -> Result<Vec<u8>, NoMemory>
    requires { IsWellFormed line.now }
    ensures text { IfOk result (λ text. text.items ≡ line_text (line_words line.now)) }
    ensures range { IfOk result (λ _. IsInRange line.now) }
{
    let mut text = Vec::new(alloc);
    push_line(&mut text, line)?;
    Ok(text)
}

// Appends a line with its line feed. Where memory is short, `out` may hold a part of it.
fn push_line(out: &mut Vec<u8>, line: &Line) -> Result<(), NoMemory>
    requires { IsWellFormed line.now }
    ensures text { OnOk result (out.new.items ≡ out.old.items ++ line_text (line_words line.now)) }
    ensures range { OnOk result (IsInRange line.now) }
{
    push_content(out, line)?;
    out.push(b'\n')?;
    Ok(())
}

// Appends a line without its line feed.
fn push_content(out: &mut Vec<u8>, line: &Line) -> Result<(), NoMemory>
    ensures text { OnOk result (out.new.items ≡ out.old.items ++ content_text line.now) }
    ensures range { OnOk result (IsInRange line.now) }
{
    match line {
        Line::Header { vars, constraints } => push_header(out, *vars, *constraints),
        Line::Define { x, high, low } => push_definition(out, *x, high, low),
        Line::Lemma { clause, hints } => push_derived(out, b"r", clause.lits(), hints.ids()),
        Line::Learned { clause, hints } => push_derived(out, b"l", clause.lits(), hints.ids()),
        Line::Klause { klause, root, unit } => push_klause(out, klause, *root, *unit),
        Line::Unfold { klause, root } => push_unfolding(out, *klause, *root),
        Line::Delete { ids } => push_delete(out, ids.ids()),
    }
}

fn push_header(out: &mut Vec<u8>, vars: u64, constraints: u64) -> Result<(), NoMemory>
    ensures { OnOk result (out.new.items ≡ out.old.items ++ header_text vars constraints) }
{
    out.extend_from_slice(b"p kpf ")?;
    push_number(out, vars)?;
    out.push(b' ')?;
    push_number(out, constraints)
}

fn push_definition(out: &mut Vec<u8>, x: Lit, high: &Arm, low: &Arm) -> Result<(), NoMemory>
    ensures text { OnOk result (out.new.items ≡ out.old.items ++ definition_text x high.now low.now) }
    ensures test { OnOk result (IsWritable x) }
    ensures high { OnOk result (IsArmInRange high.now) }
    ensures low { OnOk result (IsArmInRange low.now) }
{
    out.push(b'd')?;
    push_behind_space(out, x)?;
    push_arm(out, high)?;
    push_arm(out, low)
}

fn push_derived(
    out: &mut Vec<u8>,
    first: &[u8],
    lits: &[Lit],
    hints: &[u64],
) -> Result<(), NoMemory>
    ensures text { OnOk result (out.new.items ≡ out.old.items ++ derived_text first.now lits.now hints.now) }
    ensures literals { OnOk result (AreLiterals lits.now) }
    ensures numbers { OnOk result (AreNumbers hints.now) }
{
    out.extend_from_slice(first)?;
    push_literals(out, lits)?;
    push_ids(out, hints)
}

fn push_klause(out: &mut Vec<u8>, klause: &Constraint, root: u64, unit: u64) -> Result<(), NoMemory>
    ensures text { OnOk result (out.new.items ≡ out.old.items ++ klause_text klause.now.bound klause.now.lits root unit) }
    ensures bound { OnOk result (klause.now.bound < 2 ^ 64) }
    ensures literals { OnOk result (AreLiterals klause.now.lits) }
{
    out.extend_from_slice(b"k ")?;
    push_number(out, klause.bound())?;
    push_literals(out, klause.lits())?;
    push_pair(out, root, unit)
}

fn push_unfolding(out: &mut Vec<u8>, klause: u64, root: u64) -> Result<(), NoMemory>
    ensures { OnOk result (out.new.items ≡ out.old.items ++ unfolding_text klause root) }
{
    out.push(b'g')?;
    push_pair(out, klause, root)
}

fn push_delete(out: &mut Vec<u8>, ids: &[u64]) -> Result<(), NoMemory>
    ensures text { OnOk result (out.new.items ≡ out.old.items ++ delete_text ids.now) }
    ensures numbers { OnOk result (AreNumbers ids.now) }
{
    out.push(b'x')?;
    push_ids(out, ids)
}

// Appends literals, each behind a space, and an end mark.
fn push_literals(out: &mut Vec<u8>, lits: &[Lit]) -> Result<(), NoMemory>
    ensures text { OnOk result (out.new.items ≡ out.old.items ++ literals_text lits.now) }
    ensures literals { OnOk result (AreLiterals lits.now) }
{
    for lit in lits {
        push_behind_space(out, *lit)?;
    }
    out.extend_from_slice(b" 0")
}

// Appends ids, each behind a space, and an end mark.
fn push_ids(out: &mut Vec<u8>, ids: &[u64]) -> Result<(), NoMemory>
    ensures text { OnOk result (out.new.items ≡ out.old.items ++ ids_text ids.now) }
    ensures numbers { OnOk result (AreNumbers ids.now) }
{
    for id in ids {
        out.push(b' ')?;
        push_number(out, *id)?;
    }
    out.extend_from_slice(b" 0")
}

// Appends two numbers, each behind a space.
fn push_pair(out: &mut Vec<u8>, a: u64, b: u64) -> Result<(), NoMemory>
    ensures { OnOk result (out.new.items ≡ out.old.items ++ pair_text a b) }
{
    out.push(b' ')?;
    push_number(out, a)?;
    out.push(b' ')?;
    push_number(out, b)
}

// Appends an arm behind a space.
fn push_arm(out: &mut Vec<u8>, arm: &Arm) -> Result<(), NoMemory>
    ensures text { OnOk result (out.new.items ≡ out.old.items ++ spaced (arm_word arm.now)) }
    ensures range { OnOk result (IsArmInRange arm.now) }
{
    match arm {
        Arm::True => out.extend_from_slice(b" T"),
        Arm::False => out.extend_from_slice(b" F"),
        Arm::Lit(lit) => push_behind_space(out, *lit),
    }
}

// Appends a literal behind a space.
fn push_behind_space(out: &mut Vec<u8>, lit: Lit) -> Result<(), NoMemory>
    ensures text { OnOk result (out.new.items ≡ out.old.items ++ spaced (literal_word lit)) }
    ensures literal { OnOk result (IsWritable lit) }
{
    // Gives the prover the range that `literal` asks for: a literal keeps that its variable is at least 1.
    prove!(lit.var() > 0);
    out.push(b' ')?;
    push_literal(out, lit)
}
