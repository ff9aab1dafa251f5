//! A finished elimination. All its nodes are of one table, so that proofs and models can be made of it afterwards.
ghost use Rattle.std.specs.Prelude.{◌≡◌, All};
ghost use Rattle.kn_diagram.specs.Diagrams.{IsNode};
ghost use Rattle.kn_quant.specs.Eliminations.{IsElimination, IsThere};

use crate::{Bucket, Stage};
use kn_diagram::{Diagrams, Node};
use std::marker::Model;

/// The elimination of a group's auxiliary variables: each stage with its trace, each bucket with its
/// function, and the node of the result.
#[derive(Drop)]
pub struct Elimination {
    diagrams: Diagrams,
    stages: Vec<Stage>,
    buckets: Vec<Bucket>,
    result: Node,
}

impl Model for Elimination {
    ghost use Rattle.kn_quant.specs.Eliminations.{Eliminated, IsElimination};

    ghost Value = { Eliminated };

    ghost view = { λ e. record { table = e.diagrams; stages = e.stages.items; buckets = e.buckets.items; result = e.result } };

    ghost invariant = { λ e. IsElimination (record { table = e.diagrams; stages = e.stages.items; buckets = e.buckets.items; result = e.result }) };
}

impl Elimination {
    pub(crate) fn new(
        diagrams: Diagrams,
        stages: Vec<Stage>,
        buckets: Vec<Bucket>,
        last: Node,
    ) -> Elimination
        requires { IsElimination (record { table = diagrams; stages = stages.items; buckets = buckets.items; result = last }) }
        ensures { result ≡ record { table = diagrams; stages = stages.items; buckets = buckets.items; result = last } }
    {
        Elimination {
            diagrams,
            stages,
            buckets,
            result: last,
        }
    }

    /// The diagrams that the nodes are of.
    pub fn diagrams(&self) -> &Diagrams
        ensures value { result.now ≡ self.now.table }
        ensures elimination { IsElimination self.now }
    {
        &self.diagrams
    }

    /// The entries of the taken clauses, then the stages, each in order.
    pub fn stages(&self) -> &[Stage]
        ensures value { result.now ≡ self.now.stages }
        ensures there { All (IsThere self.now.table) result.now }
        ensures elimination { IsElimination self.now }
    {
        &self.stages
    }

    /// The buckets that were not empty, in order.
    pub fn buckets(&self) -> &[Bucket]
        ensures value { result.now ≡ self.now.buckets }
        ensures there { All (λ b. IsNode self.now.table b.function) result.now }
        ensures elimination { IsElimination self.now }
    {
        &self.buckets
    }

    /// The node of the result.
    pub fn result(&self) -> Node
        ensures value { result ≡ self.now.result }
        ensures there { IsNode self.now.table result }
        ensures elimination { IsElimination self.now }
    {
        self.result
    }
}
