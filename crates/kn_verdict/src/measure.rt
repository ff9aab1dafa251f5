//! Measuring a function from the bottom up: the numbers of a node come from those of its two halves.
ghost use Rattle.std.specs.Prelude.{◌≡◌, ◌≤◌, ◌⊎◌, ◌++◌, [], ◌∷◌, Some, length, map, slice_get, slice_index, if◌then◌else◌, IfOk, OnOk, OnErr};
ghost use Rattle.kn_diagram.specs.Diagrams.{depth_of};
ghost use Rattle.kn_verdict.specs.Numbers.{IsAtBorder, IsMeasured, AreMeasured};

use crate::fewest::Fewest;
use crate::measures::Measures;
use kn_diagram::{Diagrams, Node};
use kn_logic::{Group, NoMemory};

/// The numbers of a node's function, by way of those that were noted.
pub fn measure(
    d: &Diagrams,
    group: &Group,
    node: Node,
    noted: &mut Measures,
) -> Result<Fewest, NoMemory>
    requires few { length group.now.border ≤ 128 }
    requires node { IsAtBorder group.now d.now node }
    requires noted { AreMeasured group.now d.now noted.old }
    ensures measured { IfOk result (IsMeasured group.now d.now node) }
    ensures noted { AreMeasured group.now d.now noted.new }
{
    let Some(parts) = d.parts(node) else {
        let n = group.border().len() as u64;
        return Ok(Fewest::of_constant(n, node == Node::TRUE));
    };
    if let Some(numbers) = noted.get(node) {
        return Ok(numbers);
    }
    let high = measure(d, group, parts.1, noted)?;
    let low = measure(d, group, parts.2, noted)?;
    let lit = group.border()[place_of(d, group, node)];
    let numbers = Fewest::joined(lit, high, low);
    note(noted, node, numbers)?;
    Ok(numbers)
}

/// The place in the border of a node's variable.
pub fn place_of(d: &Diagrams, group: &Group, node: Node) -> usize
    requires node { IsAtBorder group.now d.now node }
    requires two { 2 ≤ node }
    ensures { slice_get (map (λ l. l.variable) group.now.border) result ≡ Some (slice_index d.now.order (depth_of d.now node)) }
{
    let below = d.depth(node) - group.aux().len();
    group.border().len() - 1 - below
}

/// Of the parts of a node, the node for where its variable has this value.
pub fn half(parts: (u64, Node, Node), value: bool) -> Node
    ensures { result ≡ (if value then parts.1 else parts.2) }
{
    if value { parts.1 } else { parts.2 }
}

// Notes the numbers of a node, unless it has some.
fn note(noted: &mut Measures, node: Node, numbers: Fewest) -> Result<(), NoMemory>
    ensures ok { OnOk result ((noted.new ≡ noted.old) ⊎ (noted.new ≡ noted.old ++ (node, numbers) ∷ [])) }
    ensures err { OnErr result (noted.new ≡ noted.old) }
{
    if noted.get(node).is_none() {
        noted.insert(node, numbers)?;
    }
    Ok(())
}
