//! Nodes as numbers. Since no function has two nodes, equal numbers are all that it takes to compare functions.
ghost use Rattle.std.specs.Prelude.{◌≡◌, ◌↔◌, IsTrue};

use std::marker::Model;

/// A node of a `Diagrams`.
#[derive(Clone, Copy, Debug, PartialEq, Eq, Hash)]
pub struct Node {
    number: usize,
}

impl Model for Node {
    ghost use Rattle.std.specs.Prelude.{ℕ};

    ghost Value = { ℕ };

    ghost view = { λ n. n.number };

    ghost inverse = { λ n. record { number = n } };
}

impl Node {
    /// The function that is false everywhere.
    pub const FALSE: Node = Node { number: 0 };

    /// The function that is true everywhere.
    pub const TRUE: Node = Node { number: 1 };

    pub(crate) fn new(number: usize) -> Node
        ensures { result ≡ number }
    {
        Node { number }
    }

    pub(crate) fn number(self) -> usize
        ensures { result ≡ self }
    {
        self.number
    }
}
