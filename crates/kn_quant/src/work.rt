//! An elimination under way: each stage is kept with its trace as soon as it is made.
ghost use Rattle.std.specs.Prelude.{ℕ, ◌≡◌, ◌<◌, ◌+◌, ◌-◌, ◌^◌, ◌⊎◌, [], ◌∷◌, ◌++◌, true, length, map, OnOk, OnErr, IfOk, IfErr};
ghost use Rattle.std.specs.List.{AllByRecursion, IsDistinct};
ghost use Rattle.kn_logic.specs.Constraints.{is_clause};
ghost use Rattle.kn_diagram.specs.Diagrams.{function_of, depth_in};
ghost use Rattle.kn_quant.specs.Runs.{Join, Quantify, given, AreNarrow};
ghost use Rattle.kn_quant.specs.Eliminations.{has_node, Makes, IsGiven, StopsIn, IfWideStage, error_after, IsProgress, Takes, steps_of};

use crate::{Bucket, Elimination, QuantError, Stage, exists};
use kn_diagram::{DiagramError, Diagrams, Node, Trace};
use kn_logic::{Constraint, NoMemory};
use std::alloc::Global;
use std::marker::Model;

/// An elimination while it is made.
#[derive(Drop)]
pub(crate) struct Work {
    diagrams: Diagrams,
    stages: Vec<Stage>,
    buckets: Vec<Bucket>,
    taken: usize,
}

impl Model for Work {
    ghost use Rattle.kn_quant.specs.Eliminations.{Progress, IsProgress};

    ghost Value = { Progress };

    ghost view = { λ w. record { table = w.diagrams; stages = w.stages.items; buckets = w.buckets.items; taken = w.taken } };

    ghost invariant = { λ w. IsProgress (record { table = w.diagrams; stages = w.stages.items; buckets = w.buckets.items; taken = w.taken }) };
}

impl Work {
    /// No entries yet, over diagrams.
    pub(crate) fn new(alloc: Global, diagrams: Diagrams) -> Work
        ensures { result ≡ record { table = diagrams; stages = []; buckets = []; taken = 0 } }
    {
        Work {
            diagrams,
            stages: Vec::new(alloc),
            buckets: Vec::new(alloc),
            taken: 0,
        }
    }

    pub(crate) fn diagrams(&self) -> &Diagrams
        ensures value { result.now ≡ self.now.table }
        ensures progress { IsProgress self.now }
    {
        &self.diagrams
    }

    /// Takes the next clause.
    pub(crate) fn take(&mut self, clause: &Constraint) -> Result<Node, NoMemory>
        requires clause { is_clause clause.now ≡ true }
        requires within { AllByRecursion (λ l. depth_in self.old.table.order l.variable < length self.old.table.order) clause.now.lits }
        ensures { IfOk result (λ node. Takes self.old self.new clause.now node) }
    {
        let node = self.diagrams.of_clause(clause)?;
        let taken = self.taken;
        push(&mut self.stages, Stage::Clause { taken, node })?;
        self.taken = taken + 1;
        Ok(node)
    }

    /// The next stage, which joins two nodes.
    pub(crate) fn and(&mut self, left: Node, right: Node) -> Result<Node, QuantError>
        requires left { has_node self.old.stages left ≡ true }
        requires right { has_node self.old.stages right ≡ true }
        ensures makes { IfOk result (λ node. Makes self.old self.new (Join (function_of self.old.table left) (function_of self.old.table right) ∷ []) []) }
        ensures node { IfOk result (λ node. IsGiven self.new (given (Join (function_of self.old.table left) (function_of self.old.table right))) node) }
        ensures wide { IfErr result (λ e. IfWideStage e (StopsIn self.old (Join (function_of self.old.table left) (function_of self.old.table right) ∷ []))) }
    {
        let made = self.stages.len() - self.taken;
        let mut met = Trace::new(self.diagrams.allocator());
        match self.diagrams.and(left, right, &mut met) {
            Ok(node) => {
                let stage = Stage::And {
                    left,
                    right,
                    node,
                    met,
                };
                push(&mut self.stages, stage)?;
                Ok(node)
            }
            Err(error) => Err(error_after(made, error)),
        }
    }

    /// The next stage, which quantifies a variable of the order in a node.
    pub(crate) fn exists(&mut self, var: u64, from: Node) -> Result<Node, QuantError>
        requires within { depth_in self.old.table.order var < length self.old.table.order }
        requires there { has_node self.old.stages from ≡ true }
        ensures makes { IfOk result (λ node. Makes self.old self.new (Quantify var (function_of self.old.table from) ∷ []) []) }
        ensures node { IfOk result (λ node. IsGiven self.new (given (Quantify var (function_of self.old.table from))) node) }
        ensures wide { IfErr result (λ e. IfWideStage e (StopsIn self.old (Quantify var (function_of self.old.table from) ∷ []))) }
    {
        let made = self.stages.len() - self.taken;
        let alloc = self.diagrams.allocator();
        let mut met = Trace::new(alloc);
        let mut halves = Trace::new(alloc);
        match exists(&mut self.diagrams, from, var, &mut met, &mut halves) {
            Ok(node) => {
                let stage = Stage::Exists {
                    var,
                    from,
                    node,
                    met,
                    halves,
                };
                push(&mut self.stages, stage)?;
                Ok(node)
            }
            Err(error) => Err(error_after(made, error)),
        }
    }

    /// Notes the bucket of a variable.
    pub(crate) fn note(&mut self, var: u64, function: Node) -> Result<(), NoMemory>
        requires { has_node self.old.stages function ≡ true }
        ensures { IfOk result (λ _. Makes self.old self.new [] ((var, function_of self.old.table function) ∷ [])) }
    {
        self.buckets.push(Bucket { var, function })?;
        Ok(())
    }

    /// The elimination, once its result is there.
    pub(crate) fn finish(self, last: Node) -> Elimination
        requires { ((self.stages ≡ []) × (last ≡ 1)) ⊎ (has_node self.stages last ≡ true) }
        ensures value { result ≡ record { table = self.table; stages = self.stages; buckets = self.buckets; result = last } }
        ensures narrow { AreNarrow self.table.order (steps_of self.table self.stages) }
    {
        Elimination::new(self.diagrams, self.stages, self.buckets, last)
    }
}

// The error of the stage behind so many.
fn error_after(made: usize, error: DiagramError) -> QuantError
    requires { made < 2 ^ 64 - 1 }
    ensures { result ≡ error_after made error }
{
    match error {
        DiagramError::Wide { level } => QuantError::Wide {
            stage: made as u64 + 1,
            level,
        },
        DiagramError::Memory => QuantError::Memory,
    }
}

// Puts an entry behind the others.
fn push(stages: &mut Vec<Stage>, stage: Stage) -> Result<(), NoMemory>
    ensures ok { OnOk result (stages.new.items ≡ stages.old.items ++ stage ∷ []) }
    ensures err { OnErr result (stages.new.items ≡ stages.old.items) }
{
    stages.push(stage)?;
    Ok(())
}
