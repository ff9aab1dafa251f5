//! What a line of a proof says, apart from its spelling: reader, writer, checker and makers of proofs share it.
use crate::Ids;
use kn_logic::{Constraint, Lit};

/// What a definition by cases goes on to: a constant, or a literal.
#[derive(Clone, Copy, Debug, PartialEq, Eq)]
pub enum Arm {
    True,
    False,
    Lit(Lit),
}

/// A line of a proof.
#[derive(Debug, Drop)]
pub enum Line {
    /// `p kpf V C`: the numbers of variables and constraints of the formula.
    Header {
        vars: u64,
        constraints: u64,
    },
    /// `d X H L`: the next variable, defined as "if x then high else low".
    Define {
        x: Lit,
        high: Arm,
        low: Arm,
    },
    /// `r LITS 0 IDS 0`: a clause, and the ids of its hints in the order in which they are run.
    Lemma {
        clause: Constraint,
        hints: Ids,
    },
    /// `l LITS 0 IDS 0`: a clause that a solver learned, and its hints.
    Learned {
        clause: Constraint,
        hints: Ids,
    },
    /// `k B LITS 0 ROOT UNIT`: a klause, the variable that stands for its grid, and the id of the clause with
    /// that variable alone.
    Klause {
        klause: Constraint,
        root: u64,
        unit: u64,
    },
    /// `g ID ROOT`: the id of a klause, and the variable that stands for its grid, which is given as a clause.
    Unfold {
        klause: u64,
        root: u64,
    },
    /// `x IDS 0`: the ids that are deleted, one after another.
    Delete {
        ids: Ids,
    },
}
