//! The one bound that a group can have: the fewest border literals, from the first on, that let its clauses hold.
ghost use Rattle.std.specs.Prelude.{ℕ, ◌≡◌, ◌≤◌, ◌-◌, ◌++◌, ◌↔◌, Bool, true, false, length, map, replicate};
ghost use Rattle.kn_diagram.specs.Diagrams.{function_of, is_true_by};
ghost use Rattle.kn_quant.specs.Runs.{CanHold};
ghost use Rattle.kn_verdict.specs.Cardinals.{IsOnlyBound};
ghost use Rattle.kn_verdict.specs.Numbers.{IsAtBorder};

use crate::measure::{half, place_of};
use kn_diagram::{Diagrams, Node};
use kn_logic::Group;

/// The only bound that a group can have, whose clauses can be satisfied where a node's function is true.
pub fn only_bound(d: &Diagrams, group: &Group, node: Node) -> u64
    requires few { length group.now.border ≤ 128 }
    requires node { IsAtBorder group.now d.now node }
    requires meaning { (v : ℕ → Bool) → (function_of d.now node v ≡ true) ↔ CanHold group.now v }
    ensures { IsOnlyBound group.now result }
{
    let n = group.border().len();
    for first in 0..n + 1 {
        if starts_at(d, group, node, first) {
            return first as u64;
        }
    }
    n as u64 + 1
}

/// Whether a node's function is true where exactly the first border literals, so many, are true.
fn starts_at(d: &Diagrams, group: &Group, node: Node, first: usize) -> bool
    requires node { IsAtBorder group.now d.now node }
    requires first { first ≤ length group.now.border }
    ensures { (v : ℕ → Bool) → map (is_true_by v) group.now.border ≡ replicate first true ++ replicate (length group.now.border - first) false → result ≡ function_of d.now node v }
{
    let mut at = node;
    while let Some(parts) = d.parts(at) {
        let place = place_of(d, group, at);
        let value = (place < first) == group.border()[place].is_positive();
        at = half(parts, value);
    }
    at == Node::TRUE
}
