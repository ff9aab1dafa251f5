//! Formulas as texts that are read again, and models as the `v` lines of the SAT Competition's output.
ghost use Rattle.std.specs.Prelude.{◌≡◌, ◌+◌, ◌++◌, ◌∷◌, [], ℕ, List, length, IfOk, OnOk, decimal, codes, Some, None, true};
ghost use Rattle.std.specs.List.{AllByRecursion, flat_map};
ghost use Rattle.kn_logic.specs.Constraints.{is_clause};
ghost use Rattle.kn_logic.specs.Formulas.{IsFormula};
ghost use Rattle.kn_text.specs.Lines.{line_text};
ghost use Rattle.kn_text.specs.Numbers.{literal_word};
ghost use Rattle.kn_format.specs.Grammar.{format_word, Spells};
ghost use Rattle.kn_format.specs.Writing.{spaced, mark_text};
ghost use Rattle.kn_format.specs.Texts.{constraint_line, mark_words, formula_text, knf_text, cnf_text, value_lines, list_words, true_literals, model_text, IsWithinLimits};

use crate::format::Format;
use kn_logic::{Assignment, Constraint, Formula, Lit, NoMemory};
use kn_text::{push_literal, push_number};
use std::alloc::Global;

fn push_literals(out: &mut Vec<u8>, lits: &[Lit]) -> Result<(), NoMemory>
    ensures { OnOk result (out.new.items ≡ out.old.items ++ flat_map spaced lits.now) }
{
    for lit in lits {
        push_literal(out, *lit)?;
        out.push(b' ')?;
    }
    Ok(())
}

// What stands before the literals of a klause.
fn push_mark(out: &mut Vec<u8>, guard: Option<Lit>, bound: u64) -> Result<(), NoMemory>
    ensures { OnOk result (out.new.items ≡ out.old.items ++ mark_text guard bound) }
{
    match guard {
        Some(lit) => {
            out.extend_from_slice(b"q ")?;
            push_literal(out, lit)?;
            out.push(b' ')?;
        }
        None => out.extend_from_slice(b"k ")?,
    }
    push_number(out, bound)?;
    out.push(b' ')?;
    Ok(())
}

// Literals, the end mark, and a line feed.
fn push_list(out: &mut Vec<u8>, lits: &[Lit]) -> Result<(), NoMemory>
    ensures { OnOk result (out.new.items ≡ out.old.items ++ line_text (list_words lits.now)) }
{
    push_literals(out, lits)?;
    out.extend_from_slice(b"0\n")?;
    Ok(())
}

fn push_klause(out: &mut Vec<u8>, c: &Constraint) -> Result<(), NoMemory>
    ensures { OnOk result (out.new.items ≡ out.old.items ++ line_text (mark_words c.now.guard c.now.bound ++ list_words c.now.lits)) }
{
    push_mark(out, c.guard(), c.bound())?;
    push_list(out, c.lits())?;
    Ok(())
}

fn push_constraint(out: &mut Vec<u8>, c: &Constraint) -> Result<(), NoMemory>
    ensures { OnOk result (out.new.items ≡ out.old.items ++ constraint_line c.now) }
{
    if c.is_clause() {
        push_list(out, c.lits())
    } else {
        push_klause(out, c)
    }
}

fn push_constraints(out: &mut Vec<u8>, constraints: &[Constraint]) -> Result<(), NoMemory>
    ensures { OnOk result (out.new.items ≡ out.old.items ++ flat_map constraint_line constraints.now) }
{
    for c in constraints {
        push_constraint(out, c)?;
    }
    Ok(())
}

fn push_format(out: &mut Vec<u8>, format: Format) -> Result<(), NoMemory>
    ensures { OnOk result (out.new.items ≡ out.old.items ++ format_word format) }
{
    match format {
        Format::Cnf => out.extend_from_slice(b"cnf"),
        Format::Knf => out.extend_from_slice(b"knf"),
    }
}

fn push_problem(out: &mut Vec<u8>, format: Format, vars: u64, count: u64) -> Result<(), NoMemory>
    ensures { OnOk result (out.new.items ≡ out.old.items ++ line_text (codes "p" ∷ format_word format ∷ decimal vars ∷ decimal count ∷ [])) }
{
    out.extend_from_slice(b"p ")?;
    push_format(out, format)?;
    out.push(b' ')?;
    push_number(out, vars)?;
    out.push(b' ')?;
    push_number(out, count)?;
    out.push(b'\n')?;
    Ok(())
}

fn write_formula(alloc: Global, format: Format, f: &Formula) -> Result<Vec<u8>, NoMemory>
    ensures text { IfOk result (λ text. text.items ≡ formula_text format f.now) }
    ensures formula { IsFormula f.now }
{
    let mut out = Vec::new(alloc);
    push_problem(&mut out, format, f.vars(), f.len() as u64)?;
    push_constraints(&mut out, f.constraints())?;
    Ok(out)
}

/// Writes a formula as a text of KNF: the problem line, and each constraint on a line of its own.
pub fn write_knf(alloc: Global, f: &Formula) -> Result<Vec<u8>, NoMemory>
    ensures text { IfOk result (λ text. text.items ≡ knf_text f.now) }
    ensures again { IfOk result (λ text. IsWithinLimits f.now → Spells text.items f.now) }
{
    write_formula(alloc, Format::Knf, f)
}

/// Writes a formula of clauses as a text of CNF: the problem line, and each clause on a line of its own.
pub fn write_cnf(alloc: Global, f: &Formula) -> Result<Vec<u8>, NoMemory>
    requires { AllByRecursion (λ c. is_clause c ≡ true) f.now.constraints }
    ensures text { IfOk result (λ text. text.items ≡ cnf_text f.now) }
    ensures again { IfOk result (λ text. IsWithinLimits f.now → Spells text.items f.now) }
{
    write_formula(alloc, Format::Cnf, f)
}

// What stands before a word of a model's text, on whose line this many more words fit; how many fit then.
fn push_gap(out: &mut Vec<u8>, room: u64) -> Result<u64, NoMemory>
    ensures { IfOk result (λ next. (word : List ℕ) (words : List (List ℕ)) → out.new.items ++ (word ++ value_lines next words) ≡ out.old.items ++ value_lines room (word ∷ words)) }
{
    if room == 0 {
        out.extend_from_slice(b"\nv ")?;
        return Ok(9);
    }
    out.push(b' ')?;
    Ok(room - 1)
}

fn push_values(out: &mut Vec<u8>, values: &[bool]) -> Result<u64, NoMemory>
    ensures { IfOk result (λ room. out.new.items ++ value_lines room (codes "0" ∷ []) ≡ out.old.items ++ value_lines 10 (list_words (true_literals 1 values.now))) }
{
    let mut room = 10;
    for (i, value) in values.iter().enumerate() {
        room = push_gap(out, room)?;
        push_literal(out, Lit::new(i as u64 + 1, *value))?;
    }
    Ok(room)
}

/// Writes an assignment as a model: the literals that are true, ascending by variable, and then `0`, ten
/// numbers to a line, each line begun by `v`.
pub fn write_model(alloc: Global, m: &Assignment) -> Result<Vec<u8>, NoMemory>
    ensures { IfOk result (λ text. text.items ≡ model_text m.now) }
{
    let mut out = Vec::new(alloc);
    out.push(b'v')?;
    let room = push_values(&mut out, m.values())?;
    push_gap(&mut out, room)?;
    out.extend_from_slice(b"0\n")?;
    Ok(out)
}
