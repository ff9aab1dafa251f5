//! The lines of a proof, as the walks go over them.
use kn_lines::Line;

/// The lines of a proof behind its header, each with its used hints alone, and how many variables and ids the
/// formula and they have in all.
#[derive(Debug, Drop)]
pub struct Lean {
    pub lines: Vec<Line>,
    pub variables: u64,
    pub ids: u64,
}
