//! DIMACS CNF, and KNF, which has klauses besides: the second word of the problem line tells them apart.
/// The two formats of a formula's text.
#[derive(Clone, Copy, Debug, PartialEq, Eq)]
pub enum Format {
    /// Clauses alone.
    Cnf,
    /// Clauses and klauses.
    Knf,
}
