//! A piece notes its bucket when it is made, so that no later turn has to look through its diagram again.
ghost use Rattle.std.specs.Prelude.{◌≡◌};
ghost use Rattle.kn_quant.specs.Pieces.{is_marked};

use kn_diagram::Node;

/// A piece, with the lowest of the variables still to be taken on which it depends.
#[derive(Clone, Copy, Debug)]
pub(crate) struct Piece {
    pub(crate) node: Node,
    pub(crate) lowest: Option<u64>,
}

impl Piece {
    /// Whether this variable is the lowest.
    pub(crate) fn is_of(&self, var: u64) -> bool
        ensures { result ≡ is_marked var self.now }
    {
        match self.lowest {
            Some(lowest) => lowest == var,
            None => false,
        }
    }
}
