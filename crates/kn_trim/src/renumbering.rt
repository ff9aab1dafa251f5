//! New numbers for the variables and ids of a line.
ghost use Rattle.std.specs.Prelude.{◌≡◌, ◌≤◌, ◌++◌, map, replicate, true, length, IfOk, OnOk};
ghost use Rattle.kn_logic.specs.Constraints.{klause};
ghost use Rattle.kn_lines.specs.Lines.{AreIds, IsWellFormed};
ghost use Rattle.kn_trim.specs.Numbers.{is_marked, new_number};
ghost use Rattle.kn_trim.specs.Needed.{AreMarked, IsMet, arm_variables, ids_given, renumbered, renumbered_arm, renumbered_literal, variables_given, variables_of};

use crate::given::{ids_given, variables_given};
use crate::numbers::{Numbers, push_all};
use kn_lines::{Arm, Ids, Line};
use kn_logic::{Constraint, Formula, Lit, NoMemory};
use std::alloc::Global;
use std::marker::Model;

/// Which variables and ids are kept, and their new numbers.
#[derive(Debug, Drop)]
pub struct Renumbering {
    variables: Numbers,
    ids: Numbers,
}

impl Model for Renumbering {
    ghost use Rattle.kn_trim.specs.Needed.{Kept};

    ghost Value = { Kept };

    ghost view = { λ r. record { variables = r.variables; ids = r.ids } };
}

impl Renumbering {
    /// The variables and constraints of the formula are kept.
    pub fn new(alloc: Global, f: &Formula) -> Result<Renumbering, NoMemory>
        ensures variables { IfOk result (λ r. r.variables ≡ replicate f.now.vars true) }
        ensures ids { IfOk result (λ r. r.ids ≡ replicate (length f.now.constraints) true) }
    {
        let mut variables = Numbers::none(alloc)?;
        push_all(&mut variables, f.vars(), true)?;
        let mut ids = Numbers::none(alloc)?;
        push_all(&mut ids, f.len() as u64, true)?;
        Ok(Renumbering { variables, ids })
    }

    /// What the line gives is kept or not.
    pub fn give(&mut self, line: &Line, kept: bool) -> Result<(), NoMemory>
        ensures variables { OnOk result (self.new.variables ≡ self.old.variables ++ replicate (variables_given line.now) kept) }
        ensures ids { OnOk result (self.new.ids ≡ self.old.ids ++ replicate (ids_given line.now) kept) }
    {
        push_all(&mut self.variables, variables_given(line), kept)?;
        push_all(&mut self.ids, ids_given(line), kept)
    }

    /// The line by the new numbers of what it names, all of which is kept.
    pub fn line(&self, alloc: Global, line: &Line) -> Result<Line, NoMemory>
        requires met { IsMet self.now line.now }
        requires formed { IsWellFormed line.now }
        ensures line { IfOk result (λ l. l ≡ renumbered (new_number self.now.variables) (new_number self.now.ids) line.now) }
        ensures formed { IfOk result IsWellFormed }
    {
        match line {
            Line::Header { vars, constraints } => Ok(Line::Header {
                vars: *vars,
                constraints: *constraints,
            }),
            Line::Define { x, high, low } => Ok(Line::Define {
                x: literal(&self.variables, *x),
                high: arm(&self.variables, high),
                low: arm(&self.variables, low),
            }),
            Line::Lemma { clause, hints } => Ok(Line::Lemma {
                clause: constraint(alloc, &self.variables, clause)?,
                hints: ids(alloc, &self.ids, hints.ids())?,
            }),
            Line::Learned { clause, hints } => Ok(Line::Learned {
                clause: constraint(alloc, &self.variables, clause)?,
                hints: ids(alloc, &self.ids, hints.ids())?,
            }),
            Line::Klause { klause, root, unit } => Ok(Line::Klause {
                klause: constraint(alloc, &self.variables, klause)?,
                root: number(&self.variables, *root),
                unit: number(&self.ids, *unit),
            }),
            Line::Unfold { klause, root } => Ok(Line::Unfold {
                klause: number(&self.ids, *klause),
                root: number(&self.variables, *root),
            }),
            Line::Delete { .. } => unreachable!(),
        }
    }
}

/// The new number of one that is kept.
#[tactic(auto, using(crate::proofs::NumberLemmas::marked_within, crate::proofs::NumberLemmas::number_positive))]
fn number(numbers: &Numbers, old: u64) -> u64
    requires { is_marked numbers.now old ≡ true }
    ensures value { result ≡ new_number numbers.now old }
    ensures positive { 1 ≤ result }
{
    numbers.of(old)
}

fn literal(variables: &Numbers, lit: Lit) -> Lit
    requires { is_marked variables.now lit.variable ≡ true }
    ensures { result ≡ renumbered_literal (new_number variables.now) lit }
{
    Lit::new(number(variables, lit.var()), lit.is_positive())
}

fn arm(variables: &Numbers, arm: &Arm) -> Arm
    requires { AreMarked variables.now (arm_variables arm.now) }
    ensures { result ≡ renumbered_arm (new_number variables.now) arm.now }
{
    match arm {
        Arm::Lit(lit) => Arm::Lit(literal(variables, *lit)),
        Arm::True => Arm::True,
        Arm::False => Arm::False,
    }
}

/// The constraint, which has no guard.
fn constraint(alloc: Global, variables: &Numbers, c: &Constraint) -> Result<Constraint, NoMemory>
    requires { AreMarked variables.now (variables_of c.now.lits) }
    ensures { IfOk result (λ new. new ≡ klause c.now.bound (map (renumbered_literal (new_number variables.now)) c.now.lits)) }
{
    Ok(Constraint::new(c.bound(), literals(alloc, variables, c.lits())?))
}

fn literals(alloc: Global, variables: &Numbers, lits: &[Lit]) -> Result<Vec<Lit>, NoMemory>
    requires { AreMarked variables.now (variables_of lits.now) }
    ensures { IfOk result (λ new. new.items ≡ map (renumbered_literal (new_number variables.now)) lits.now) }
{
    let mut new = Vec::with_capacity(alloc, lits.len())?;
    for lit in lits {
        new.push(literal(variables, *lit))?;
    }
    Ok(new)
}

#[tactic(auto, using(crate::proofs::NumberLemmas::new_are_ids))]
fn ids(alloc: Global, numbers: &Numbers, old: &[u64]) -> Result<Ids, NoMemory>
    requires { AreMarked numbers.now old.now }
    ensures value { IfOk result (λ new. new ≡ map (new_number numbers.now) old.now) }
    ensures positive { IfOk result AreIds }
{
    Ok(Ids::new(new_numbers(alloc, numbers, old)?))
}

fn new_numbers(alloc: Global, numbers: &Numbers, old: &[u64]) -> Result<Vec<u64>, NoMemory>
    requires { AreMarked numbers.now old.now }
    ensures { IfOk result (λ new. new.items ≡ map (new_number numbers.now) old.now) }
{
    let mut new = Vec::with_capacity(alloc, old.len())?;
    for id in old {
        new.push(number(numbers, *id))?;
    }
    Ok(new)
}
