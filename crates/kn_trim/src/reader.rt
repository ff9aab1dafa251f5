//! Reading the lines of a proof, one after another.
ghost use Rattle.std.specs.Prelude.{◌≡◌, ◌≤◌, ◌+◌, ◌^◌, [], length, IfOk, IsOk, OnOk};
ghost use Rattle.kn_lines.specs.Lines.{IsWellFormed};
ghost use Rattle.kn_rules.specs.States.{start};
ghost use Rattle.kn_rules.specs.Steps.{step};
ghost use Rattle.kn_trim.specs.Used.{lean};
ghost use Rattle.kn_trim.specs.Needed.{variables_given};
ghost use Rattle.kn_trim.specs.Reading.{IsIdle, Takes};

use crate::given::variables_given;
use crate::hints::used_hints;
use crate::lean::Lean;
use kn_lines::{Ids, Line};
use kn_logic::{Formula, NoMemory};
use kn_rules::{Assumed, Checker};
use std::alloc::Global;
use std::marker::Model;

/// A proof as far as it was read.
#[derive(Drop)]
pub struct Reader {
    checker: Checker,
    assumed: Assumed,
    lines: Vec<Line>,
}

impl Model for Reader {
    ghost use Rattle.kn_trim.specs.Reading.{Read};

    ghost Value = { Read };

    ghost view = { λ r. record { state = r.checker; assumed = r.assumed; lines = r.lines.items } };
}

impl Reader {
    /// The header of a proof for the formula was read.
    pub fn new(alloc: Global, f: &Formula) -> Result<Reader, NoMemory>
        requires { f.now.vars ≤ 2 ^ 32 }
        ensures state { IfOk result (λ r. r.state ≡ start f.now) }
        ensures lines { IfOk result (λ r. r.lines ≡ []) }
        ensures idle { IfOk result (λ r. IsIdle r.state r.assumed) }
    {
        Ok(Reader {
            checker: Checker::new(alloc, f)?,
            assumed: Assumed::new(alloc, f.vars())?,
            lines: Vec::new(alloc),
        })
    }

    /// One line more, which is known to step.
    pub fn take(&mut self, line: Line) -> Result<(), NoMemory>
        requires formed { IsWellFormed line }
        requires steps { IsOk (step self.old.state line) }
        requires idle { IsIdle self.old.state self.old.assumed }
        ensures { OnOk result (Takes line self.old self.new) }
    {
        let alloc = *self.lines.allocator();
        let lean = lean_line(alloc, &mut self.assumed, &self.checker, &line)?;
        grow(&mut self.assumed, &line)?;
        self.checker.accept(line)?;
        self.lines.push(lean)?;
        Ok(())
    }

    /// What was read.
    pub fn finish(self) -> Lean
        ensures lines { result.lines.items ≡ self.lines }
        ensures variables { result.variables ≡ self.state.vars }
        ensures ids { result.ids ≡ length self.state.given }
    {
        let variables = self.checker.vars();
        let ids = self.checker.next_id() - 1;
        Lean {
            lines: self.lines,
            variables,
            ids,
        }
    }
}

/// The line with its used hints alone.
#[tactic(auto, using(crate::proofs::Noting::followed_known, crate::proofs::Noting::followed_live))]
fn lean_line(
    alloc: Global,
    assumed: &mut Assumed,
    checker: &Checker,
    line: &Line,
) -> Result<Line, NoMemory>
    requires idle { IsIdle checker.now assumed.old }
    requires steps { IsOk (step checker.now line.now) }
    ensures line { IfOk result (λ l. l ≡ lean checker.now line.now) }
    ensures idle { OnOk result (assumed.new ≡ assumed.old) }
{
    match line {
        Line::Header { .. } => unreachable!(),
        Line::Define { x, high, low } => Ok(Line::Define {
            x: *x,
            high: *high,
            low: *low,
        }),
        Line::Lemma { clause, hints } => {
            let hints = used_hints(alloc, assumed, checker, clause.lits(), hints.ids())?;
            Ok(Line::Lemma {
                clause: clause.copy()?,
                hints,
            })
        }
        Line::Learned { clause, hints } => {
            let hints = used_hints(alloc, assumed, checker, clause.lits(), hints.ids())?;
            Ok(Line::Learned {
                clause: clause.copy()?,
                hints,
            })
        }
        Line::Klause { klause, root, unit } => Ok(Line::Klause {
            klause: klause.copy()?,
            root: *root,
            unit: *unit,
        }),
        Line::Unfold { klause, root } => Ok(Line::Unfold {
            klause: *klause,
            root: *root,
        }),
        Line::Delete { ids } => Ok(Line::Delete {
            ids: Ids::new(Vec::from_slice(alloc, ids.ids())?),
        }),
    }
}

/// Literals are over the variable too that the line defines, if it defines one.
fn grow(assumed: &mut Assumed, line: &Line) -> Result<(), NoMemory>
    ensures vars { OnOk result (assumed.new.vars ≡ assumed.old.vars + variables_given line.now) }
    ensures lits { OnOk result (assumed.new.lits ≡ assumed.old.lits) }
{
    if variables_given(line) == 1 {
        assumed.grow()?;
    }
    Ok(())
}
