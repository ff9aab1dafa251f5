//! The nodes of a count's grid, told by their place alone: a checker needs no diagram to know what a proof speaks of.
ghost use Rattle.std.specs.Prelude.{◌≡◌, ◌≤◌, ◌<◌, ◌+◌, ◌-◌, ◌^◌, ℕ, Bool, List, length};
ghost use Rattle.kn_logic.specs.Literals.{Literal};
ghost use Rattle.kn_counter.specs.Grids.{cell_of, IsKind};

/// The kind of a node (i, j) of the grid of a count, which says that at least j of the literals from the
/// i-th on are true.
#[derive(Clone, Copy, Debug, PartialEq, Eq)]
pub enum Cell {
    /// None is asked for: the node always holds.
    True,
    /// More are asked for than there are: the node never holds.
    False,
    /// If the i-th literal then node (i + 1, j - 1), else node (i + 1, j).
    Inner,
}

/// The kind of node (i, j) of the grid over n literals; i counts from 1, and n + 1 is behind the last.
pub fn grid_cell(n: u64, i: u64, j: u64) -> Cell
    requires place { (1 ≤ i) × (i ≤ n + 1) }
    requires end { n < 2 ^ 64 - 1 }
    ensures { result ≡ cell_of n i j }
{
    if j == 0 {
        Cell::True
    } else if n + 1 - i < j {
        Cell::False
    } else {
        Cell::Inner
    }
}

/// A law over the definitions, and no code: the kind of a node is what the node says.
pub fn grid_says()
    ensures { (values : List Bool) (lits : List Literal) (i : ℕ) (j : ℕ) → 1 ≤ i → i ≤ length lits + 1 → IsKind values lits i j (cell_of (length lits) i j) }
{}
