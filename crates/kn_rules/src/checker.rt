//! The checker for those who make proofs line by line. It lends constraints, so it keeps more than `check` needs.
ghost use Rattle.std.specs.Prelude.{◌≡◌, ◌≤◌, ◌<◌, ◌+◌, ◌++◌, ◌∷◌, ◌^◌, [], length, vec_capacity, Ok, Err, IfOk, IfSome, IsOk, OnOk, OnErr, option_copied, if◌then◌else◌};
ghost use Rattle.kn_logic.specs.Constraints.{IsWithin};
ghost use Rattle.kn_lines.specs.Lines.{IsWellFormed};
ghost use Rattle.kn_rules.specs.States.{start, live_at};
ghost use Rattle.kn_rules.specs.Causes.{not_refuted};
ghost use Rattle.kn_rules.specs.Steps.{define, next_variable, step};
ghost use Rattle.kn_rules.specs.Feeding.{Feeds};
ghost use Rattle.kn_rules.specs.Lent.{four_of};
ghost use Rattle.kn_rules.specs.declared.checker.FeedError.TheVariants.{Memory};

use crate::four::Four;
use crate::machine::Machine;
use crate::{Definition, cause};
use kn_lines::{Arm, Line};
use kn_logic::{Constraint, Formula, Lit, NoMemory};
use std::alloc::{AllocError, AllocFailed, Global};
use std::error::Error;
use std::fmt;
use std::marker::Model;

/// Why a line was not taken.
#[derive(Clone, Copy, Debug, PartialEq, Eq)]
pub enum FeedError {
    /// The line does not step, for this cause of those in `cause`. It is never `BAD_LINE` or `NOT_REFUTED`.
    Wrong(u8),
    /// Want of memory.
    Memory,
}

impl fmt::Display for FeedError {
    fn fmt<W: fmt::Write>(&self, f: &mut fmt::Formatter<W>) -> fmt::Result {
        match self {
            FeedError::Wrong(cause::WRONG_HEADER) => write!(f, "a header behind the first line"),
            FeedError::Wrong(cause::UNKNOWN_VARIABLE) => write!(f, "an unknown variable"),
            FeedError::Wrong(cause::NOT_LIVE) => write!(f, "an id that is not live"),
            FeedError::Wrong(cause::NO_CONFLICT) => write!(f, "hints without a conflict"),
            FeedError::Wrong(cause::WRONG_UNIT) => write!(
                f,
                "a unit clause that is not the root's"
            ),
            FeedError::Wrong(cause::WRONG_ROOT) => write!(
                f,
                "a root that does not stand for the grid"
            ),
            FeedError::Wrong(cause::NOT_PLAIN) => {
                write!(
                    f,
                    "a klause that names a variable twice, or an unfolded one with a guard"
                )
            }
            FeedError::Wrong(why) => write!(f, "a wrong line, of cause {why}"),
            FeedError::Memory => write!(f, "memory is short"),
        }
    }
}

impl Error for FeedError {}

impl From<AllocError> for FeedError {
    ghost from_gives = { λ _ e. e ≡ Memory };

    fn from(_: AllocError) -> FeedError {
        FeedError::Memory
    }
}

impl<T: Drop> From<AllocFailed<T>> for FeedError {
    ghost from_gives = { λ _ e. e ≡ Memory };

    fn from(_: AllocFailed<T>) -> FeedError {
        FeedError::Memory
    }
}

/// A checker of a proof, one line after another, behind the header. A line costs as much as itself and
/// the constraints of its hints; a klause with a root as much as its grid has nodes. It keeps the constraints of each
/// definition, since `live` lends them; `check` keeps none of them.
#[derive(Debug, Drop)]
pub struct Checker {
    alloc: Global,
    machine: Machine,
    kept: Vec<Four>,
}

impl Model for Checker {
    ghost use Rattle.std.specs.Prelude.{◌≡◌};
    ghost use Rattle.kn_rules.specs.States.{ProofState};
    ghost use Rattle.kn_rules.specs.Lent.{defined_of, fours};

    ghost Value = { ProofState };

    ghost view = { λ c. c.machine };

    ghost invariant = { λ c. c.kept.items ≡ fours (defined_of c.machine) };
}

impl Checker {
    /// The state behind the header of a proof for this formula.
    pub fn new(alloc: Global, f: &Formula) -> Result<Checker, NoMemory>
        requires { f.now.vars ≤ 2 ^ 32 }
        ensures { IfOk result (λ c. c ≡ start f.now) }
    {
        Ok(Checker {
            alloc,
            machine: Machine::new(alloc, f)?,
            kept: Vec::new(alloc),
        })
    }

    /// Takes the next line. `Wrong` tells the first cause for which the line does not step; then, and
    /// where memory is short, the state is as before.
    pub fn feed(&mut self, line: &Line) -> Result<(), FeedError>
        requires { IsWellFormed line.now }
        ensures { Feeds result (step self.old line.now) self.old self.new }
    {
        if let Line::Define { x, high, low } = line {
            return self.define(*x, *high, *low);
        }
        self.machine.feed(line)
    }

    /// Takes a line that is known to step, and tests nothing again: no hint is run and no id is looked up
    /// before. It fails only where memory is short, and the state is as before then.
    pub fn accept(&mut self, line: Line) -> Result<(), NoMemory>
        requires formed { IsWellFormed line }
        requires steps { IsOk (step self.old line) }
        ensures ok { OnOk result (step self.old line ≡ Ok self.new) }
        ensures err { OnErr result (self.new ≡ self.old) }
    {
        if let Line::Define { x, high, low } = line {
            return self.keep_definition(x, high, low);
        }
        self.machine.accept(line)
    }

    /// Whether the lines so far are a whole proof: `Err` holds `cause::NOT_REFUTED` exactly where none of them
    /// gave the clause without literals.
    pub fn finish(&self) -> Result<(), u8>
        ensures { result ≡ (if self.now.refuted then Ok tt else Err not_refuted) }
    {
        self.machine.finish()
    }

    /// The number of known variables. Each definition is that of one of them.
    pub fn vars(&self) -> u64
        ensures value { result ≡ self.now.vars }
        ensures defined { length self.now.definitions ≤ self.now.vars }
    {
        self.machine.vars()
    }

    /// The id that the next clause gets; ids count from 1.
    pub fn next_id(&self) -> u64
        ensures { result ≡ length self.now.given + 1 }
    {
        self.machine.next_id()
    }

    /// Whether a clause without literals was given.
    pub fn is_refuted(&self) -> bool
        ensures { result ≡ self.now.refuted }
    {
        self.machine.is_refuted()
    }

    /// The constraint of an id; `None` exactly where the id was not given or is deleted.
    pub fn live(&self, id: u64) -> Option<&Constraint>
        ensures value { option_copied result ≡ live_at self.now.given id }
        ensures within { IfSome result (λ c. IsWithin self.now.vars c.now) }
    {
        self.machine.lend(&self.kept, id)
    }

    fn define(&mut self, x: Lit, high: Arm, low: Arm) -> Result<(), FeedError>
        ensures { Feeds result (define self.old x high low) self.old self.new }
    {
        if !self.machine.knows(x, &high, &low) {
            return Err(FeedError::Wrong(cause::UNKNOWN_VARIABLE));
        }
        self.keep_definition(x, high, low)?;
        Ok(())
    }

    /// Takes the line of a definition that is known to step.
    fn keep_definition(&mut self, x: Lit, high: Arm, low: Arm) -> Result<(), NoMemory>
        requires { IsOk (define self.old x high low) }
        ensures ok { OnOk result (define self.old x high low ≡ Ok self.new) }
        ensures err { OnErr result (self.new ≡ self.old) }
    {
        let four = self.next_four(x, &high, &low)?;
        self.kept.reserve(1)?;
        self.machine.accept(Line::Define { x, high, low })?;
        push_reserved(&mut self.kept, four);
        Ok(())
    }

    /// What a definition gives for the next variable.
    fn next_four(&self, test: Lit, high: &Arm, low: &Arm) -> Result<Four, NoMemory>
        ensures four { IfOk result (λ four. four ≡ four_of (next_variable self.now) (record { test = test; high = high.now; low = low.now })) }
        ensures defined { length self.now.definitions ≤ self.now.vars }
    {
        let variable = Lit::new(self.machine.next_variable(), true);
        let d = Definition {
            test,
            high: *high,
            low: *low,
        };
        Four::new(self.alloc, variable, &d)
    }
}

fn push_reserved(kept: &mut Vec<Four>, four: Four)
    requires { length kept.old.items < vec_capacity kept.old }
    ensures { kept.new.items ≡ kept.old.items ++ four ∷ [] }
{
    let Ok(()) = kept.push(four) else {
        unreachable!()
    };
}
