//! Which of the variables and ids that a proof gives are needed.
ghost use Rattle.std.specs.Prelude.{◌≡◌, ◌≤◌, ◌+◌, ◌||◌, ◌∷◌, [], IfOk, if◌then◌else◌, length};
ghost use Rattle.kn_trim.specs.Needed.{variables_of, arm_variables, named_variables, named_ids, variables_given, ids_given};
ghost use Rattle.kn_trim.specs.Marking.{AreBefore, is_any, none_of, with_line, with_marks};

use crate::given::{ids_given, variables_given};
use kn_lines::{Arm, Line};
use kn_logic::{Lit, NoMemory};
use std::alloc::Global;
use std::marker::Model;

/// Which variables and ids are needed.
#[derive(Debug, Drop)]
pub struct Needs {
    variables: Vec<bool>,
    ids: Vec<bool>,
}

impl Model for Needs {
    ghost use Rattle.kn_trim.specs.Needed.{Kept};

    ghost Value = { Kept };

    ghost view = { λ n. record { variables = n.variables.items; ids = n.ids.items } };
}

impl Needs {
    /// What the line names is needed.
    pub fn add(&mut self, line: &Line)
        requires variables { AreBefore (length self.old.variables) (named_variables line.now) }
        requires ids { AreBefore (length self.old.ids) (named_ids line.now) }
        ensures { self.new ≡ with_line self.old line.now }
    {
        match line {
            Line::Header { .. } => {}
            Line::Define { x, high, low } => {
                mark_one(&mut self.variables, x.var());
                mark_arm(&mut self.variables, high);
                mark_arm(&mut self.variables, low);
            }
            Line::Lemma { clause, hints } => {
                mark_literals(&mut self.variables, clause.lits());
                mark_all(&mut self.ids, hints.ids());
            }
            Line::Learned { clause, hints } => {
                mark_literals(&mut self.variables, clause.lits());
                mark_all(&mut self.ids, hints.ids());
            }
            Line::Klause { klause, root, unit } => {
                mark_one(&mut self.variables, *root);
                mark_literals(&mut self.variables, klause.lits());
                mark_one(&mut self.ids, *unit);
            }
            Line::Unfold { klause, root } => {
                mark_one(&mut self.variables, *root);
                mark_one(&mut self.ids, *klause);
            }
            Line::Delete { ids } => mark_all(&mut self.ids, ids.ids()),
        }
    }

    /// None is needed of so many.
    pub fn none(alloc: Global, variables: u64, ids: u64) -> Result<Needs, NoMemory>
        ensures { IfOk result (λ n. n ≡ none_of variables ids) }
    {
        Ok(Needs {
            variables: vec![in alloc; false; variables as usize]?,
            ids: vec![in alloc; false; ids as usize]?,
        })
    }

    /// Whether a line is needed, because it ends the proof or gives what is needed; what it names is needed then.
    pub fn take(&mut self, line: &Line, ends: bool, variables: u64, ids: u64) -> bool
        requires variables { variables + variables_given line.now ≤ length self.old.variables }
        requires ids { ids + ids_given line.now ≤ length self.old.ids }
        requires named { AreBefore variables (named_variables line.now) }
        requires hints { AreBefore ids (named_ids line.now) }
        ensures needed { result ≡ (ends || (is_any self.old.variables variables (variables_given line.now) || is_any self.old.ids ids (ids_given line.now))) }
        ensures needs { self.new ≡ (if result then with_line self.old line.now else self.old) }
    {
        let needed = ends || self.is_any(line, variables, ids);
        if needed {
            self.add(line);
        }
        needed
    }

    /// Whether one of the variables and ids that a line gives behind so many is needed.
    pub fn is_any(&self, line: &Line, variables: u64, ids: u64) -> bool
        requires variables { variables + variables_given line.now ≤ length self.now.variables }
        requires ids { ids + ids_given line.now ≤ length self.now.ids }
        ensures { result ≡ (is_any self.now.variables variables (variables_given line.now) || is_any self.now.ids ids (ids_given line.now)) }
    {
        any_marked(&self.variables, variables, variables_given(line))
            || any_marked(&self.ids, ids, ids_given(line))
    }
}

fn any_marked(marks: &[bool], first: u64, count: u64) -> bool
    requires { first + count ≤ length marks.now }
    ensures { result ≡ is_any marks.now first count }
{
    let mut place = first;
    let mut left = count;
    while left > 0 {
        if marks[place as usize] {
            return true;
        }
        place += 1;
        left -= 1;
    }
    false
}

fn mark_one(marks: &mut [bool], number: u64)
    requires { AreBefore (length marks.old) (number ∷ []) }
    ensures { marks.new ≡ with_marks marks.old (number ∷ []) }
{
    marks[(number - 1) as usize] = true;
}

fn mark_all(marks: &mut [bool], numbers: &[u64])
    requires { AreBefore (length marks.old) numbers.now }
    ensures { marks.new ≡ with_marks marks.old numbers.now }
{
    for number in numbers {
        mark_one(marks, *number);
    }
}

fn mark_literals(marks: &mut [bool], lits: &[Lit])
    requires { AreBefore (length marks.old) (variables_of lits.now) }
    ensures { marks.new ≡ with_marks marks.old (variables_of lits.now) }
{
    for lit in lits {
        mark_one(marks, lit.var());
    }
}

fn mark_arm(marks: &mut [bool], arm: &Arm)
    requires { AreBefore (length marks.old) (arm_variables arm.now) }
    ensures { marks.new ≡ with_marks marks.old (arm_variables arm.now) }
{
    if let Arm::Lit(lit) = arm {
        mark_one(marks, lit.var());
    }
}
