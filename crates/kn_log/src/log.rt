//! The log of a proof. A line steps before it is written, so that a sink that fails has the beginning of a proof;
//! where memory is short nothing has happened.
ghost use Rattle.std.specs.Prelude.{◌≡◌, ◌≤◌, ◌<◌, ◌+◌, ◌^◌, [], length, false, IfOk, IsOk, IfSome, IsErrOf, option_copied};
ghost use Rattle.kn_logic.specs.Constraints.{IsWithin};
ghost use Rattle.kn_bytes.specs.Outside.{Rose};
ghost use Rattle.kn_lines.specs.Lines.{IsWellFormed};
ghost use Rattle.kn_lines.specs.declared.line.Line.TheVariants.{Define, Lemma, Learned, Klause, Unfold, Delete};
ghost use Rattle.kn_rules.specs.States.{live_at};
ghost use Rattle.kn_rules.specs.Steps.{step};
ghost use Rattle.kn_log.specs.Logs.{Logs, Opens, IsReadable, header_of};

use crate::LogError;
use kn_bytes::{Sink, write_all};
use kn_lines::{Arm, Ids, Line, write_line};
use kn_logic::{Constraint, Formula, Lit};
use kn_rules::Checker;
use std::alloc::Global;
use std::marker::Model;

/// A proof as far as it was made: each line stepped, and was given to a sink.
#[derive(Drop)]
pub struct Log {
    alloc: Global,
    checker: Checker,
    failed: bool,
}

impl Model for Log {
    ghost use Rattle.kn_log.specs.Logs.{Logged};

    ghost Value = { Logged };

    ghost view = { λ l. record { state = l.checker; failed = l.failed } };
}

impl Log {
    /// A log of a proof for the formula, whose header is written to the sink. `Memory`: nothing was
    /// written. `Fault`: a part of the header was.
    pub fn new<S: Sink>(alloc: Global, f: &Formula, sink: &mut S) -> Result<Log, LogError>
        requires { f.now.vars ≤ 2 ^ 32 }
        ensures opens { Opens f.now (S.written sink.old) (S.written sink.new) result }
        ensures spelled { IsReadable result (header_of f.now) }
        ensures counted { length f.now.constraints < 2 ^ 64 }
        ensures later { S.faults sink.old ≤ S.faults sink.new }
        ensures fault { IsErrOf result LogError.Fault → Rose (S.faults sink.old) (S.faults sink.new) }
    {
        let header = Line::Header {
            vars: f.vars(),
            constraints: f.len() as u64,
        };
        let text = write_line(alloc, &header)?;
        let checker = Checker::new(alloc, f)?;
        if write_all(sink, &text).is_err() {
            return Err(LogError::Fault);
        }
        Ok(Log {
            alloc,
            checker,
            failed: false,
        })
    }

    /// Defines the next variable as "if x then high else low", and answers it; its clauses get the next four
    /// ids. `Memory`: nothing happened. `Fault`: it is defined, but the sink got only a part of the line, and
    /// the log takes no more.
    pub fn define<S: Sink>(
        &mut self,
        x: Lit,
        high: Arm,
        low: Arm,
        sink: &mut S,
    ) -> Result<u64, LogError>
        requires whole { self.old.failed ≡ false }
        requires steps { IsOk (step self.old.state (Define x high low)) }
        ensures logs { Logs (Define x high low) self.old self.new (S.written sink.old) (S.written sink.new) result }
        ensures variable { IfOk result (λ v. v ≡ self.old.state.vars + 1) }
        ensures spelled { IsReadable result (Define x high low) }
        ensures later { S.faults sink.old ≤ S.faults sink.new }
        ensures fault { IsErrOf result LogError.Fault → Rose (S.faults sink.old) (S.faults sink.new) }
    {
        self.add(Line::Define { x, high, low }, sink)?;
        Ok(self.vars())
    }

    /// Adds a lemma, which follows by these hints, and answers its id. `Memory`: nothing happened.
    /// `Fault`: the lemma has its id, but the sink got only a part of its line, and the log takes no more.
    pub fn lemma<S: Sink>(
        &mut self,
        clause: Constraint,
        hints: Ids,
        sink: &mut S,
    ) -> Result<u64, LogError>
        requires whole { self.old.failed ≡ false }
        requires formed { IsWellFormed (Lemma clause hints) }
        requires steps { IsOk (step self.old.state (Lemma clause hints)) }
        ensures logs { Logs (Lemma clause hints) self.old self.new (S.written sink.old) (S.written sink.new) result }
        ensures id { IfOk result (λ id. id ≡ length self.old.state.given + 1) }
        ensures spelled { IsReadable result (Lemma clause hints) }
        ensures later { S.faults sink.old ≤ S.faults sink.new }
        ensures fault { IsErrOf result LogError.Fault → Rose (S.faults sink.old) (S.faults sink.new) }
    {
        let id = self.next_id();
        self.add(Line::Lemma { clause, hints }, sink)?;
        Ok(id)
    }

    /// Adds a learned clause, as `lemma` adds a lemma.
    pub fn learned<S: Sink>(
        &mut self,
        clause: Constraint,
        hints: Ids,
        sink: &mut S,
    ) -> Result<u64, LogError>
        requires whole { self.old.failed ≡ false }
        requires formed { IsWellFormed (Learned clause hints) }
        requires steps { IsOk (step self.old.state (Learned clause hints)) }
        ensures logs { Logs (Learned clause hints) self.old self.new (S.written sink.old) (S.written sink.new) result }
        ensures id { IfOk result (λ id. id ≡ length self.old.state.given + 1) }
        ensures spelled { IsReadable result (Learned clause hints) }
        ensures later { S.faults sink.old ≤ S.faults sink.new }
        ensures fault { IsErrOf result LogError.Fault → Rose (S.faults sink.old) (S.faults sink.new) }
    {
        let id = self.next_id();
        self.add(Line::Learned { clause, hints }, sink)?;
        Ok(id)
    }

    /// Adds a klause, whose grid stands under the root, by the clause of the root alone that has the id
    /// `unit`, and answers its id. `Memory` and `Fault` are as in `lemma`.
    pub fn klause<S: Sink>(
        &mut self,
        klause: Constraint,
        root: u64,
        unit: u64,
        sink: &mut S,
    ) -> Result<u64, LogError>
        requires whole { self.old.failed ≡ false }
        requires formed { IsWellFormed (Klause klause root unit) }
        requires steps { IsOk (step self.old.state (Klause klause root unit)) }
        ensures logs { Logs (Klause klause root unit) self.old self.new (S.written sink.old) (S.written sink.new) result }
        ensures id { IfOk result (λ id. id ≡ length self.old.state.given + 1) }
        ensures spelled { IsReadable result (Klause klause root unit) }
        ensures later { S.faults sink.old ≤ S.faults sink.new }
        ensures fault { IsErrOf result LogError.Fault → Rose (S.faults sink.old) (S.faults sink.new) }
    {
        let id = self.next_id();
        self.add(Line::Klause { klause, root, unit }, sink)?;
        Ok(id)
    }

    /// Adds the clause of the root alone, by the klause of this id, whose grid stands under the root, and
    /// answers the id of the clause. `Memory` and `Fault` are as in `lemma`.
    pub fn unfold<S: Sink>(&mut self, klause: u64, root: u64, sink: &mut S) -> Result<u64, LogError>
        requires whole { self.old.failed ≡ false }
        requires formed { IsWellFormed (Unfold klause root) }
        requires steps { IsOk (step self.old.state (Unfold klause root)) }
        ensures logs { Logs (Unfold klause root) self.old self.new (S.written sink.old) (S.written sink.new) result }
        ensures id { IfOk result (λ id. id ≡ length self.old.state.given + 1) }
        ensures spelled { IsReadable result (Unfold klause root) }
        ensures later { S.faults sink.old ≤ S.faults sink.new }
        ensures fault { IsErrOf result LogError.Fault → Rose (S.faults sink.old) (S.faults sink.new) }
    {
        let id = self.next_id();
        self.add(Line::Unfold { klause, root }, sink)?;
        Ok(id)
    }

    /// Deletes ids, each of which is live when its turn comes. `Memory`: nothing happened. `Fault`: they
    /// are deleted, but the sink got only a part of the line, and the log takes no more.
    pub fn delete<S: Sink>(&mut self, ids: Ids, sink: &mut S) -> Result<(), LogError>
        requires whole { self.old.failed ≡ false }
        requires formed { IsWellFormed (Delete ids) }
        requires steps { IsOk (step self.old.state (Delete ids)) }
        ensures logs { Logs (Delete ids) self.old self.new (S.written sink.old) (S.written sink.new) result }
        ensures spelled { IsReadable result (Delete ids) }
        ensures later { S.faults sink.old ≤ S.faults sink.new }
        ensures fault { IsErrOf result LogError.Fault → Rose (S.faults sink.old) (S.faults sink.new) }
    {
        self.add(Line::Delete { ids }, sink)
    }

    /// The id that the next clause gets; ids count from 1.
    pub fn next_id(&self) -> u64
        ensures { result ≡ length self.now.state.given + 1 }
    {
        self.checker.next_id()
    }

    /// Whether a clause without literals was added.
    pub fn refuted(&self) -> bool
        ensures { result ≡ self.now.state.refuted }
    {
        self.checker.is_refuted()
    }

    /// Whether the sink has failed. The log takes no line then.
    pub fn failed(&self) -> bool
        ensures { result ≡ self.now.failed }
    {
        self.failed
    }

    /// The constraint of an id; `None` exactly where the id was not given or is deleted.
    pub fn live(&self, id: u64) -> Option<&Constraint>
        ensures value { option_copied result ≡ live_at self.now.state.given id }
        ensures within { IfSome result (λ c. IsWithin self.now.state.vars c.now) }
    {
        self.checker.live(id)
    }

    /// The number of known variables. Each definition is that of one of them.
    pub fn vars(&self) -> u64
        ensures value { result ≡ self.now.state.vars }
        ensures defined { length self.now.state.definitions ≤ self.now.state.vars }
    {
        self.checker.vars()
    }

    // Adds a line. Its text and all memory come first, then the step, then the sink.
    fn add<S: Sink>(&mut self, line: Line, sink: &mut S) -> Result<(), LogError>
        requires whole { self.old.failed ≡ false }
        requires formed { IsWellFormed line }
        requires steps { IsOk (step self.old.state line) }
        ensures logs { Logs line self.old self.new (S.written sink.old) (S.written sink.new) result }
        ensures spelled { IsReadable result line }
        ensures later { S.faults sink.old ≤ S.faults sink.new }
        ensures fault { IsErrOf result LogError.Fault → Rose (S.faults sink.old) (S.faults sink.new) }
    {
        let bytes = write_line(self.alloc, &line)?;
        self.checker.accept(line)?;
        if write_all(sink, &bytes).is_err() {
            self.failed = true;
            return Err(LogError::Fault);
        }
        Ok(())
    }
}
