//! Width is counted over the nodes that a result reaches, not over all that were made: it is the function's alone.
ghost use Rattle.std.specs.Prelude.{ℕ, ◌≡◌, ◌+◌, ◌^◌, ◌<◌, ◌≤◌, ◌==◌, ◌⊎◌, All, length, slice_index, nat_eq, nat_lt, if◌then◌else◌, OnOk, IfOk, IfSome, IfNone};
ghost use Rattle.indexmap.specs.IndexSet.{insert_key};
ghost use Rattle.kn_diagram.specs.Diagrams.{IsNode, depth_of, high_of, low_of};
ghost use Rattle.kn_diagram.specs.Widths.{of_depth, width_at, IsWidest, IsFirstWide};

use crate::node_set::NodeSet;
use crate::{Diagrams, Node};
use kn_logic::NoMemory;
use std::alloc::Global;

/// A function is wide where more nodes of one variable than this are reached.
pub(crate) const NARROW: u64 = 256;

/// The greatest number of different nodes of one variable that are reached from a node.
pub(crate) fn widest(alloc: Global, d: &Diagrams, f: Node) -> Result<u64, NoMemory>
    requires { IsNode d.now f }
    ensures { IfOk result (λ n. IsWidest d.now f n) }
{
    let set = reached(alloc, d, f)?;
    let widths = by_depth(alloc, d, set.numbers())?;
    Ok(greatest(&widths))
}

/// How far down the order the first variable stands of which more than 256 nodes are reached from a node.
pub(crate) fn first_wide(alloc: Global, d: &Diagrams, f: Node) -> Result<Option<usize>, NoMemory>
    requires { IsNode d.now f }
    ensures wide { IfOk result (λ place. IfSome place (IsFirstWide d.now f)) }
    ensures narrow { IfOk result (λ place. IfNone place ((k : ℕ) → k < length d.now.order → width_at d.now f k ≤ 256)) }
{
    let set = reached(alloc, d, f)?;
    // So few nodes need no count of each variable's: mostly a call ends here.
    if set.numbers().len() as u64 <= NARROW {
        return Ok(None);
    }
    let widths = by_depth(alloc, d, set.numbers())?;
    Ok(first_above(&widths, NARROW))
}

/// How many nodes of each variable are reached, the top one first.
pub(crate) fn widths(alloc: Global, d: &Diagrams, f: Node) -> Result<Vec<u64>, NoMemory>
    requires { IsNode d.now f }
    ensures len { IfOk result (λ ws. length ws.items ≡ length d.now.order) }
    ensures widths { IfOk result (λ ws. (k : ℕ) → k < length d.now.order → slice_index ws.items k ≡ width_at d.now f k) }
{
    let set = reached(alloc, d, f)?;
    by_depth(alloc, d, set.numbers())
}

/// The last place before an end whose number is not 0.
pub(crate) fn last_used(widths: &[u64], end: usize) -> Option<usize>
    requires { end ≤ length widths.now }
    ensures some { IfSome result (λ k. (k < end) × (1 ≤ slice_index widths.now k)) }
    ensures last { IfSome result (λ k. (j : ℕ) → k < j → j < end → slice_index widths.now j ≡ 0) }
    ensures none { IfNone result ((j : ℕ) → j < end → slice_index widths.now j ≡ 0) }
{
    let mut place = end;
    while place > 0 {
        place -= 1;
        if widths[place] > 0 {
            return Some(place);
        }
    }
    None
}

// The nodes that are reached: those below a node of the set join it, until each has had its turn.
fn reached(alloc: Global, d: &Diagrams, f: Node) -> Result<NodeSet, NoMemory>
    requires { IsNode d.now f }
    ensures nodes { IfOk result (λ set. All (IsNode d.now) set) }
    ensures widths { IfOk result (λ set. (k : ℕ) → of_depth d.now k set ≡ width_at d.now f k) }
{
    let mut set = NodeSet::new(alloc);
    set.insert(f)?;
    // Older nodes than `f` alone are below it.
    for place in 0..d.count_to(f) {
        let Some(node) = set.get(place) else {
            return Ok(set);
        };
        insert_below(d, &mut set, node)?;
    }
    Ok(set)
}

// Adds the high and the low node of a node that is no constant.
fn insert_below(d: &Diagrams, set: &mut NodeSet, node: Node) -> Result<(), NoMemory>
    requires { IsNode d.now node }
    ensures { OnOk result (set.new ≡ (if nat_lt node 2 then set.old else insert_key nat_eq (insert_key nat_eq set.old (high_of d.now node)) (low_of d.now node))) }
{
    if let Some((_, high, low)) = d.parts(node) {
        set.insert(high)?;
        set.insert(low)?;
    }
    Ok(())
}

// How many of these nodes each variable has, the top one first.
fn by_depth(alloc: Global, d: &Diagrams, numbers: &[usize]) -> Result<Vec<u64>, NoMemory>
    requires { All (IsNode d.now) numbers.now }
    ensures len { IfOk result (λ ws. length ws.items ≡ length d.now.order) }
    ensures widths { IfOk result (λ ws. (k : ℕ) → k < length d.now.order → slice_index ws.items k ≡ of_depth d.now k numbers.now) }
{
    let mut widths = vec![in alloc; 0; d.height()]?;
    for number in numbers {
        count(d, &mut widths, Node::new(*number));
    }
    Ok(widths)
}

// Counts a node at its depth. A constant has no variable, and is not counted.
fn count(d: &Diagrams, widths: &mut [u64], node: Node)
    requires there { IsNode d.now node }
    requires len { length widths.old ≡ length d.now.order }
    requires small { (k : ℕ) → k < length widths.old → slice_index widths.old k < 2 ^ 63 }
    ensures len { length widths.new ≡ length widths.old }
    ensures widths { (k : ℕ) → k < length d.now.order → slice_index widths.new k ≡ (if depth_of d.now node == k then 1 else 0) + slice_index widths.old k }
{
    if node.number() >= 2 {
        let depth = d.depth(node);
        widths[depth] += 1;
    }
}

fn greatest(widths: &[u64]) -> u64
    ensures bound { (k : ℕ) → k < length widths.now → slice_index widths.now k ≤ result }
    ensures met { (result ≡ 0) ⊎ ((k : ℕ) × (k < length widths.now) × (slice_index widths.now k ≡ result)) }
{
    let mut best = 0;
    for width in widths {
        if *width > best {
            best = *width;
        }
    }
    best
}

// The place of the first number that is above a bound.
fn first_above(widths: &[u64], bound: u64) -> Option<usize>
    ensures some { IfSome result (λ k. (k < length widths.now) × (bound < slice_index widths.now k)) }
    ensures first { IfSome result (λ k. (j : ℕ) → j < k → slice_index widths.now j ≤ bound) }
    ensures none { IfNone result ((k : ℕ) → k < length widths.now → slice_index widths.now k ≤ bound) }
{
    for (place, width) in widths.iter().enumerate() {
        if *width > bound {
            return Some(place);
        }
    }
    None
}
