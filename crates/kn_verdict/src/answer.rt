//! What is found of a group. Each answer but the klause has its reason with it, which can be looked at by hand.
use kn_logic::Assignment;
use kn_quant::Elimination;

/// What is found of a group with n border literals.
#[derive(Drop)]
pub enum Verdict {
    /// The clauses say "at least `bound` of the border literals", a bound from 2 to n - 1.
    Klause {
        bound: u64,
        elimination: Elimination,
    },

    /// They say it for a bound that makes no klause: 0, 1, n or n + 1.
    OutOfRange {
        bound: u64,
    },

    /// They say it for no bound. `bound` is the only one possible, and `values` are values of the border's
    /// variables, ascending, at which the clauses and that bound differ.
    NotCardinal {
        bound: u64,
        values: Assignment,
    },

    /// A stage of the elimination is wide, at the variable `level`; stages count from 1, and this is the
    /// first that is wide.
    Wide {
        stage: u64,
        level: u64,
    },
}
