//! The two ends of a propagation, which are all that a search asks it for.

/// How a propagation ended.
#[derive(Clone, Copy, Debug, PartialEq, Eq)]
pub enum Step {
    /// No live constraint is short: nothing more is forced, and none is violated.
    Closed,
    /// The constraint of this id has fewer literals than its bound that are not false, and no guard or a true
    /// one.
    Conflict { id: u64 },
}
