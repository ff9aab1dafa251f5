//! The lemmas of a join, in the order of its trace, in which the pairs below a pair come before it.
ghost use Rattle.std.specs.Prelude.{◌≡◌, ◌<◌, ◌≤◌, ◌⊎◌, [], true, false, option_to_list, IfOk, IsErrOf};
ghost use Rattle.kn_bytes.specs.Outside.{Rose};
ghost use Rattle.kn_logic.specs.Literals.{IsKnown};
ghost use Rattle.kn_log.specs.Written.{LogsSuch};
ghost use Rattle.kn_diagram.specs.Diagrams.{IsNode, depth_of, high_at, low_at};
ghost use Rattle.kn_diagram.specs.Traces.{AreExplained};
ghost use Rattle.kn_justify.specs.Arms.{Settled};
ghost use Rattle.kn_justify.specs.Growth.{ArePlain};
ghost use Rattle.kn_justify.specs.Names.{IsNamedMet, HasName, test_of, pair_arms};
ghost use Rattle.kn_justify.specs.Lemmas.{joined, seen, AreJoined, AreCovered, AreNamed, HasChildren, IsOpen, IsClosed, depth_at};

use crate::Named;
use crate::lemmas::Lemmas;
use crate::pairs::pair;
use crate::side::Side;
use kn_bytes::Sink;
use kn_diagram::{Diagrams, Met, Node};
use kn_log::{Log, LogError};
use kn_logic::Lit;
use std::alloc::Global;

/// Gives later hints the clause of each entry of a join: its lemma is noted by the pair.
pub(crate) fn joins<S: Sink>(
    alloc: Global,
    d: &Diagrams,
    side: Side,
    trace: &[Met],
    named: &Named,
    log: &mut Log,
    sink: &mut S,
) -> Result<Lemmas, LogError>
    requires whole { log.old.failed ≡ false }
    requires named { AreNamed log.old.state d.now named.now trace.now }
    requires explained { AreExplained (joined side) d.now [] trace.now }
    ensures joined { IfOk result (AreJoined log.new.state.given d.now named.now side) }
    ensures covered { IfOk result (λ lemmas. AreCovered lemmas trace.now) }
    ensures lines { LogsSuch ArePlain log.old log.new (S.written sink.old) (S.written sink.new) result }
    ensures later { S.faults sink.old ≤ S.faults sink.new }
    ensures fault { IsErrOf result LogError.Fault → Rose (S.faults sink.old) (S.faults sink.new) }
{
    let mut lemmas = Lemmas::new(alloc);
    for m in trace {
        if lemmas.get(m.u, m.v).is_some() {
            continue;
        }
        let id = entry(alloc, d, side, m, &lemmas, named, log, sink)?;
        lemmas.insert(m.u, m.v, id)?;
    }
    Ok(lemmas)
}

// The lemma of an entry, by those of its two pairs of children.
fn entry<S: Sink>(
    alloc: Global,
    d: &Diagrams,
    side: Side,
    m: &Met,
    lemmas: &Lemmas,
    named: &Named,
    log: &mut Log,
    sink: &mut S,
) -> Result<Option<u64>, LogError>
    requires whole { log.old.failed ≡ false }
    requires met { IsNamedMet log.old.state d.now named.now m.now }
    requires joined { AreJoined log.old.state.given d.now named.now side lemmas.now }
    requires children { HasChildren d.now side lemmas.now m.now }
    ensures settled { IfOk result (λ id. Settled log.new.state.given (option_to_list id) (pair_arms named.now (seen side m.now))) }
    ensures lines { LogsSuch ArePlain log.old log.new (S.written sink.old) (S.written sink.new) result }
    ensures later { S.faults sink.old ≤ S.faults sink.new }
    ensures fault { IsErrOf result LogError.Fault → Rose (S.faults sink.old) (S.faults sink.new) }
{
    let top = upper(d, m);
    let depth = d.depth(top);
    if is_closed(m) {
        return Ok(None);
    }
    let test = test_of(d, top);
    let (u_high, u_low) = halves(d, m.u, depth);
    let (v_high, v_low) = halves(d, m.v, depth);
    let Some(high) = lemmas.get(u_high, v_high) else {
        unreachable!()
    };
    let Some(low) = lemmas.get(u_low, v_low) else {
        unreachable!()
    };
    let seen = side.seen(m);
    pair(alloc, d, &seen, depth, test, high, low, named, log, sink)
}

// The one of two nodes whose variable stands above that of the other.
fn upper(d: &Diagrams, m: &Met) -> Node
    requires u_there { IsNode d.now m.now.u }
    requires v_there { IsNode d.now m.now.v }
    ensures depth { depth_of d.now result ≡ depth_at d.now m.now }
    ensures one { (result ≡ m.now.u) ⊎ (result ≡ m.now.v) }
{
    if d.depth(m.u) <= d.depth(m.v) {
        return m.u;
    }
    m.v
}

// Whether the two nodes are one, or one of them is a constant.
fn is_closed(m: &Met) -> bool
    ensures closed { result ≡ true → IsClosed m.now }
    ensures open_ { result ≡ false → IsOpen m.now }
{
    if m.u == m.v {
        return true;
    }
    if is_constant(m.u) {
        return true;
    }
    is_constant(m.v)
}

fn is_constant(node: Node) -> bool
    ensures yes { result ≡ true → node < 2 }
    ensures not { result ≡ false → 2 ≤ node }
{
    node == Node::FALSE || node == Node::TRUE
}

// The variable of a node, as a literal.
fn test_of(d: &Diagrams, node: Node) -> Lit
    requires there { IsNode d.now node }
    requires branch { 2 ≤ node }
    requires counted { 1 ≤ (test_of d.now node).variable }
    ensures { result ≡ test_of d.now node }
{
    match d.parts(node) {
        Some((var, _, _)) => Lit::new(var, true),
        None => unreachable!(),
    }
}

// The high and the low node of a node of the variable at this depth; of any other the node itself, twice.
fn halves(d: &Diagrams, node: Node, depth: usize) -> (Node, Node)
    requires there { IsNode d.now node }
    requires branch { 2 ≤ node }
    ensures high { result.0 ≡ high_at d.now depth node }
    ensures low { result.1 ≡ low_at d.now depth node }
{
    if d.depth(node) != depth {
        return (node, node);
    }
    match d.parts(node) {
        Some((_, high, low)) => (high, low),
        None => (node, node),
    }
}
