//! Tests on the diagrams of counts, the grids: "at least half of n" is as wide as n / 2, well within the limit.
ghost use Rattle.std.specs.Prelude.{ℕ, ◌≡◌, ◌+◌, ◌<◌, ◌≤◌, All, length, OnOk, IfOk};
ghost use Rattle.std.specs.List.{range_with_len};
ghost use Rattle.kn_diagram.specs.Diagrams.{IsNode, Keeps, depth_in};

use crate::{DiagramError, Diagrams, Node, Trace};
use kn_logic::{Constraint, Lit, NoMemory};
use std::alloc::Global;
use std::test::Fail;

// Diagrams over the variables from 1 to a number, 1 at the top.
#[tactic(auto, using(crate::proofs::GridLemmas::range_more, crate::proofs::GridLemmas::range_distinct))]
fn over(alloc: Global, vars: usize) -> Result<Diagrams, NoMemory>
    requires { vars < 1000 }
    ensures { IfOk result (λ d. d.order ≡ range_with_len 1 vars) }
{
    let mut order = Vec::new(alloc);
    while order.len() < vars {
        let next = order.len() as u64 + 1;
        order.push(next)?;
    }
    Diagrams::new(alloc, &order)
}

// The node of "this variable is true".
fn literal(alloc: Global, d: &mut Diagrams, var: u64) -> Result<Node, DiagramError>
    requires first { 1 ≤ var }
    requires within { depth_in d.old.order var < length d.old.order }
    ensures kept { Keeps d.old d.new }
    ensures node { IfOk result (λ w. IsNode d.new w) }
{
    let lits = Vec::from_slice(alloc, &[Lit::new(var, true)])?;
    Ok(d.of_clause(&Constraint::new(1, lits))?)
}

// "The literal and the one function, or the other."
fn either_way(
    alloc: Global,
    d: &mut Diagrams,
    literal: Node,
    with: Node,
    without: Node,
) -> Result<Node, DiagramError>
    requires literal { IsNode d.old literal }
    requires one { IsNode d.old with }
    requires other { IsNode d.old without }
    ensures kept { Keeps d.old d.new }
    ensures node { IfOk result (λ w. IsNode d.new w) }
{
    let mut unread = Trace::new(alloc);
    let both = d.and(literal, with, &mut unread)?;
    d.or(both, without, &mut unread)
}

// Place j of the row is "at least j of some literals": it takes one literal more.
#[tactic(auto, using(crate::proofs::GridLemmas::nodes_kept))]
fn add_literal(
    alloc: Global,
    d: &mut Diagrams,
    row: &mut Vec<Node>,
    literal: Node,
) -> Result<(), DiagramError>
    requires literal { IsNode d.old literal }
    requires nodes { All (IsNode d.old) row.old.items }
    ensures order { d.new.order ≡ d.old.order }
    ensures nodes { OnOk result (All (IsNode d.new) row.new.items) }
    ensures len { length row.new.items ≡ length row.old.items }
{
    let mut at = row.len();
    while at > 1 {
        at -= 1;
        row[at] = either_way(alloc, d, literal, row[at - 1], row[at])?;
    }
    Ok(())
}

// "At least so many of the variables from 1 to a number", from the last variable upwards.
#[tactic(auto, using(crate::proofs::GridLemmas::nodes_kept, crate::proofs::GridLemmas::within_order))]
fn at_least(alloc: Global, d: &mut Diagrams, vars: u64, bound: usize) -> Result<Node, DiagramError>
    requires order { d.old.order ≡ range_with_len 1 vars }
    requires small { bound < 1000 }
    ensures order { d.new.order ≡ range_with_len 1 vars }
    ensures node { IfOk result (λ w. IsNode d.new w) }
{
    let mut row = vec![in alloc; Node::FALSE; bound + 1]?;
    row[0] = Node::TRUE;
    let mut var = vars;
    while var > 0 {
        let literal = literal(alloc, d, var)?;
        add_literal(alloc, d, &mut row, literal)?;
        var -= 1;
    }
    Ok(row[bound])
}

// How wide "at least half of so many literals" is.
fn half_of(alloc: Global, literals: usize) -> Result<u64, DiagramError>
    requires { literals < 1000 }
{
    let mut d = over(alloc, literals)?;
    let f = at_least(alloc, &mut d, literals as u64, literals / 2)?;
    Ok(d.widest(f)?)
}

#[test]
fn grid_of_16_literals(rt: HostRuntime) -> Result<(), Fail> {
    assert_eq!(rt; half_of(rt.alloc(), 16), Ok(8));
    Ok(())
}

#[test]
fn grid_of_32_literals(rt: HostRuntime) -> Result<(), Fail> {
    assert_eq!(rt; half_of(rt.alloc(), 32), Ok(16));
    Ok(())
}

#[test]
fn grid_of_64_literals(rt: HostRuntime) -> Result<(), Fail> {
    assert_eq!(rt; half_of(rt.alloc(), 64), Ok(32));
    Ok(())
}

#[test]
fn grid_of_128_literals(rt: HostRuntime) -> Result<(), Fail> {
    assert_eq!(rt; half_of(rt.alloc(), 128), Ok(64));
    Ok(())
}
