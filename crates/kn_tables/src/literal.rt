//! Literals of tables, whose variables count from 0, as the bits of an index do.
/// A literal of a table: the variable `var`, which counts from 0, or its negation where not `positive`.
#[derive(Clone, Copy, Debug, PartialEq, Eq)]
pub struct TableLit {
    pub var: u8,
    pub positive: bool,
}
