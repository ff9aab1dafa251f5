//! The one kind of definition, by cases: a node of a decision diagram, as a new variable (extended resolution).
use kn_lines::Arm;
use kn_logic::Lit;

/// What defines a variable: "if test then high else low".
#[derive(Clone, Copy, Debug, PartialEq, Eq)]
pub struct Definition {
    /// What decides between the arms; its variable is one that was known before.
    pub test: Lit,
    /// The value where the test is true.
    pub high: Arm,
    /// The value where the test is false.
    pub low: Arm,
}
