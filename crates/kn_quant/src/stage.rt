//! What is kept of an elimination: stages with their traces, for a proof, and buckets, for the values of a model.
use kn_diagram::{Node, Trace};

/// An entry of an elimination: a node, and how it came.
#[derive(Debug, Drop)]
pub enum Stage {
    /// The clause at this place of the taken ones, places counted from 0.
    Clause {
        taken: usize,
        node: Node,
    },

    /// The conjunction of two earlier nodes, with the pairs that were met.
    And {
        left: Node,
        right: Node,
        node: Node,
        met: Trace,
    },

    /// "For some value of the variable" of an earlier node, with both traces.
    Exists {
        var: u64,
        from: Node,
        node: Node,
        met: Trace,
        halves: Trace,
    },
}

/// The conjunction of the pieces that depend on a variable.
#[derive(Clone, Copy, Debug, PartialEq, Eq)]
pub struct Bucket {
    pub var: u64,
    pub function: Node,
}
