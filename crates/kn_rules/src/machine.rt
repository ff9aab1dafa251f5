//! The state of a proof, and the step of each kind of line. Causes are tested in a fixed order: the first is told.
ghost use Rattle.std.specs.Prelude.{◌≡◌, ◌≤◌, ◌+◌, ◌^◌, ◌&&◌, length, Ok, Err, IfOk, IfSome, IsOk, OnOk, OnErr, option_copied, if◌then◌else◌};
ghost use Rattle.kn_logic.specs.Constraints.{clause, klause, IsWithin};
ghost use Rattle.kn_lines.specs.Lines.{IsWellFormed};
ghost use Rattle.kn_rules.specs.States.{start, definition_of, live_at};
ghost use Rattle.kn_rules.specs.Grids.{is_root};
ghost use Rattle.kn_rules.specs.Causes.{not_refuted};
ghost use Rattle.kn_rules.specs.Steps.{is_known_variable, is_known_arm, follow, deleted, with_given, with_one, define, count, unfold_klause, step};
ghost use Rattle.kn_rules.specs.Feeding.{Feeds};
ghost use Rattle.kn_rules.specs.Lent.{defined_of, fours};

use crate::assumed::Assumed;
use crate::clauses::{constraint_of, is_unit};
use crate::entries::Entries;
use crate::four::Four;
use crate::grid::is_root;
use crate::hints::follows;
use crate::known::{are_different, are_known, is_known, is_known_arm, is_plain};
use crate::{Definition, FeedError, Origin, cause};
use kn_lines::{Arm, Line};
use kn_logic::{Constraint, Formula, Lit, NoMemory};
use std::alloc::Global;
use std::marker::Model;

/// What checks a proof, one line after another, behind the header, and keeps no constraint of a definition. A line
/// costs as much as itself and the constraints of its hints; a klause with a root as much as its grid has nodes.
#[derive(Debug, Drop)]
pub struct Machine {
    alloc: Global,
    vars: u64,
    entries: Entries,
    refuted: bool,
    assumed: Assumed,
}

impl Model for Machine {
    ghost use Rattle.kn_rules.specs.States.{ProofState, IsReady};

    ghost Value = { ProofState };

    ghost view = { λ m. record { vars = m.vars; definitions = m.entries.defined.list; given = m.entries.given; refuted = m.refuted } };

    ghost invariant = { λ m. IsReady m.vars m.entries.defined m.entries.given m.assumed };
}

impl Machine {
    /// The state behind the header of a proof for this formula.
    pub fn new(alloc: Global, f: &Formula) -> Result<Machine, NoMemory>
        requires { f.now.vars ≤ 2 ^ 32 }
        ensures { IfOk result (λ c. c ≡ start f.now) }
    {
        let vars = f.vars();
        Ok(Machine {
            alloc,
            vars,
            entries: Entries::new(alloc, vars, f.constraints())?,
            refuted: false,
            assumed: Assumed::new(alloc, vars)?,
        })
    }

    /// Takes the next line. `Wrong` tells the first cause for which the line does not step; then, and
    /// where memory is short, the state is as before. A copy is kept, which takes no more memory than it needs: the
    /// lists of a line that was read have room for more.
    pub fn feed(&mut self, line: &Line) -> Result<(), FeedError>
        requires { IsWellFormed line.now }
        ensures { Feeds result (step self.old line.now) self.old self.new }
    {
        match line {
            Line::Header { .. } => Err(FeedError::Wrong(cause::WRONG_HEADER)),
            Line::Define { x, high, low } => self.define(*x, *high, *low),
            Line::Lemma { clause, hints } => self.follow(Origin::Lemma, clause, hints.ids()),
            Line::Learned { clause, hints } => self.follow(Origin::Learned, clause, hints.ids()),
            Line::Klause { klause, root, unit } => self.count(klause, *root, *unit),
            Line::Unfold { klause, root } => self.unfold(*klause, *root),
            Line::Delete { ids } => self.delete(ids.ids()),
        }
    }

    /// Takes a line that is known to step, and tests nothing again: no hint is run and no id is looked up
    /// before. It fails only where memory is short, and the state is as before then.
    pub fn accept(&mut self, line: Line) -> Result<(), NoMemory>
        requires formed { IsWellFormed line }
        requires steps { IsOk (step self.old line) }
        ensures ok { OnOk result (step self.old line ≡ Ok self.new) }
        ensures err { OnErr result (self.new ≡ self.old) }
    {
        match line {
            Line::Header { .. } => unreachable!(),
            Line::Define { x, high, low } => self.keep_definition(x, high, low),
            Line::Lemma { clause, hints } => self.keep(Origin::Lemma, clause, hints.ids()),
            Line::Learned { clause, hints } => self.keep(Origin::Learned, clause, hints.ids()),
            Line::Klause { klause, root, unit } => self.keep_klause(klause, root, unit),
            Line::Unfold { klause, root } => self.keep_root(klause, root),
            Line::Delete { ids } => {
                self.discard(ids.ids());
                Ok(())
            }
        }
    }

    /// Whether the lines so far are a whole proof: `Err` holds `NOT_REFUTED` exactly where none of them gave
    /// the clause without literals.
    pub fn finish(&self) -> Result<(), u8>
        ensures { result ≡ (if self.now.refuted then Ok tt else Err not_refuted) }
    {
        if self.refuted {
            Ok(())
        } else {
            Err(cause::NOT_REFUTED)
        }
    }

    /// The number of known variables. Each definition is that of one of them.
    pub fn vars(&self) -> u64
        ensures value { result ≡ self.now.vars }
        ensures defined { length self.now.definitions ≤ self.now.vars }
    {
        self.vars
    }

    /// The id that the next clause gets; ids count from 1.
    pub fn next_id(&self) -> u64
        ensures { result ≡ length self.now.given + 1 }
    {
        self.entries.next_id()
    }

    /// The variable that is defined next.
    pub fn next_variable(&self) -> u64
        ensures value { result ≡ self.now.vars + 1 }
        ensures defined { length self.now.definitions ≤ self.now.vars }
    {
        self.entries.definitions().next()
    }

    /// Whether the variables of a definition are known.
    pub fn knows(&self, test: Lit, high: &Arm, low: &Arm) -> bool
        ensures { result ≡ (is_known_variable self.now.vars test.variable && (is_known_arm self.now.vars high.now && is_known_arm self.now.vars low.now)) }
    {
        is_known(self.vars, test.var())
            && is_known_arm(self.vars, high)
            && is_known_arm(self.vars, low)
    }

    /// Whether a clause without literals was given.
    pub fn is_refuted(&self) -> bool
        ensures { result ≡ self.now.refuted }
    {
        self.refuted
    }

    /// The constraint of an id, lent by this machine or from the constraints of all definitions; `None` exactly where
    /// the id was not given or is deleted.
    pub fn lend<'a>(&'a self, kept: &'a [Four], id: u64) -> Option<&'a Constraint>
        requires { kept.now ≡ fours (defined_of self.now) }
        ensures value { option_copied result ≡ live_at self.now.given id }
        ensures within { IfSome result (λ c. IsWithin self.now.vars c.now) }
    {
        self.entries.lend(kept, id)
    }

    fn follow(&mut self, origin: Origin, c: &Constraint, hints: &[u64]) -> Result<(), FeedError>
        requires { c.now ≡ clause c.now.lits }
        ensures { Feeds result (follow self.old origin c.now.lits hints.now) self.old self.new }
    {
        if !are_known(self.vars, c.lits()) {
            return Err(FeedError::Wrong(cause::UNKNOWN_VARIABLE));
        }
        match follows(&mut self.assumed, &self.entries, c.lits(), hints)? {
            Some(true) => {}
            Some(false) => return Err(FeedError::Wrong(cause::NO_CONFLICT)),
            None => return Err(FeedError::Wrong(cause::NOT_LIVE)),
        }
        self.keep(origin, c.copy()?, hints)?;
        Ok(())
    }

    /// Gives the next id to a clause that follows by these hints.
    fn keep(&mut self, origin: Origin, c: Constraint, hints: &[u64]) -> Result<(), NoMemory>
        requires formed { c ≡ clause c.lits }
        requires steps { IsOk (follow self.old origin c.lits hints.now) }
        ensures ok { OnOk result (follow self.old origin c.lits hints.now ≡ Ok self.new) }
        ensures err { OnErr result (self.new ≡ self.old) }
    {
        let refutes = c.lits().is_empty();
        self.entries.push(origin, c)?;
        self.refuted = self.refuted | refutes;
        Ok(())
    }

    fn define(&mut self, x: Lit, high: Arm, low: Arm) -> Result<(), FeedError>
        ensures { Feeds result (define self.old x high low) self.old self.new }
    {
        if !self.knows(x, &high, &low) {
            return Err(FeedError::Wrong(cause::UNKNOWN_VARIABLE));
        }
        self.keep_definition(x, high, low)?;
        Ok(())
    }

    /// Gives the next variable this definition, whose variables are known, and the next four ids to what
    /// the definition says.
    fn keep_definition(&mut self, x: Lit, high: Arm, low: Arm) -> Result<(), NoMemory>
        requires { IsOk (define self.old x high low) }
        ensures ok { OnOk result (define self.old x high low ≡ Ok self.new) }
        ensures err { OnErr result (self.new ≡ self.old) }
    {
        let variable = self.entries.definitions().next();
        // one variable more stays assumable where memory is short below, which no line can see
        self.assumed.grow()?;
        self.entries.define(&Definition { test: x, high, low })?;
        self.vars = variable;
        Ok(())
    }

    fn count(&mut self, c: &Constraint, root: u64, unit: u64) -> Result<(), FeedError>
        requires { c.now ≡ klause c.now.bound c.now.lits }
        ensures { Feeds result (count self.old c.now.bound c.now.lits root unit) self.old self.new }
    {
        if !are_known(self.vars, c.lits()) || !is_known(self.vars, root) {
            return Err(FeedError::Wrong(cause::UNKNOWN_VARIABLE));
        }
        let Some(live) = self.entries.find(unit) else {
            return Err(FeedError::Wrong(cause::NOT_LIVE))
        };
        let says_root = is_unit(&live, root);
        if !are_different(&mut self.assumed, c.lits())? {
            return Err(FeedError::Wrong(cause::NOT_PLAIN));
        }
        if !self.is_root(c.lits(), c.bound(), root)? {
            return Err(FeedError::Wrong(cause::WRONG_ROOT));
        }
        if !says_root {
            return Err(FeedError::Wrong(cause::WRONG_UNIT));
        }
        self.keep_klause(c.copy()?, root, unit)?;
        Ok(())
    }

    /// Gives the next id to a klause that its grid's root is known to say.
    fn keep_klause(&mut self, c: Constraint, root: u64, unit: u64) -> Result<(), NoMemory>
        requires formed { c ≡ klause c.bound c.lits }
        requires steps { IsOk (count self.old c.bound c.lits root unit) }
        ensures ok { OnOk result (count self.old c.bound c.lits root unit ≡ Ok self.new) }
        ensures err { OnErr result (self.new ≡ self.old) }
    {
        self.give(Origin::Klause, c)
    }

    fn unfold(&mut self, id: u64, root: u64) -> Result<(), FeedError>
        ensures { Feeds result (unfold_klause self.old id root) self.old self.new }
    {
        if !is_known(self.vars, root) {
            return Err(FeedError::Wrong(cause::UNKNOWN_VARIABLE));
        }
        match is_plain(&mut self.assumed, &self.entries, id)? {
            Some(true) => {}
            Some(false) => return Err(FeedError::Wrong(cause::NOT_PLAIN)),
            None => return Err(FeedError::Wrong(cause::NOT_LIVE)),
        }
        if !self.is_root_of(id, root)? {
            return Err(FeedError::Wrong(cause::WRONG_ROOT));
        }
        self.keep_root(id, root)?;
        Ok(())
    }

    /// Gives the next id to the clause of a root, which a klause is known to say.
    fn keep_root(&mut self, id: u64, root: u64) -> Result<(), NoMemory>
        requires { IsOk (unfold_klause self.old id root) }
        ensures ok { OnOk result (unfold_klause self.old id root ≡ Ok self.new) }
        ensures err { OnErr result (self.new ≡ self.old) }
    {
        let lit = Lit::new(root, true);
        let clause = constraint_of(self.alloc, 1, &[lit])?;
        self.give(Origin::Unfolding, clause)
    }

    /// Gives the next id to a constraint over known variables.
    fn give(&mut self, origin: Origin, c: Constraint) -> Result<(), NoMemory>
        requires { IsWithin self.old.vars c }
        ensures ok { OnOk result (self.new ≡ with_one self.old origin c) }
        ensures err { OnErr result (self.new ≡ self.old) }
    {
        self.entries.push(origin, c)?;
        Ok(())
    }

    /// Whether a variable stands for the root of the grid of "at least `bound` of these literals".
    fn is_root(&self, lits: &[Lit], bound: u64, root: u64) -> Result<bool, NoMemory>
        ensures { IfOk result (λ yes. yes ≡ is_root (definition_of self.now) lits.now bound root) }
    {
        is_root(self.alloc, self.entries.definitions(), lits, bound, root)
    }

    /// The same of the grid of a live id's constraint. Of another id nothing is said, and nobody asks.
    fn is_root_of(&self, id: u64, root: u64) -> Result<bool, NoMemory>
        ensures { IfOk result (λ yes. IfSome (live_at self.now.given id) (λ c. yes ≡ is_root (definition_of self.now) c.lits c.bound root)) }
    {
        match self.entries.find(id) {
            Some(c) => self.is_root(c.lits(), c.bound(), root),
            None => Ok(true),
        }
    }

    /// Deletes ids, each of which is live when its turn comes.
    fn discard(&mut self, ids: &[u64])
        requires { IsOk (deleted self.old.given ids.now) }
        ensures { with_given self.old (deleted self.old.given ids.now) ≡ Ok self.new }
    {
        self.entries.discard(ids);
    }

    fn delete(&mut self, ids: &[u64]) -> Result<(), FeedError>
        ensures { Feeds result (with_given self.old (deleted self.old.given ids.now)) self.old self.new }
    {
        if !self.entries.delete(ids)? {
            return Err(FeedError::Wrong(cause::NOT_LIVE));
        }
        Ok(())
    }
}
