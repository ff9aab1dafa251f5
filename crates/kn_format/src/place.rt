//! The places of the grammar at which a word of the constraints may stand, for the reader of a formula.
/// What comes next among the words of the constraints.
#[derive(Clone, Copy, PartialEq, Eq)]
pub enum Place {
    /// A constraint begins, or the text ends.
    Between,
    /// The guard of a klause.
    Guard,
    /// The bound of a klause.
    Bound,
    /// A literal of a clause, or its end mark.
    Clause,
    /// A literal of a klause, or its end mark.
    Klause,
}
