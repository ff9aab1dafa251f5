//! From the clauses of a group to the units of all stages. All nodes of a stage's trace are named before its lemmas.
ghost use Rattle.std.specs.Prelude.{ℕ, ◌≡◌, ◌≤◌, [], Bool, false, Some, IfOk, OnOk, IsErrOf};
ghost use Rattle.std.specs.List.{list_any};
ghost use Rattle.kn_bytes.specs.Outside.{Rose};
ghost use Rattle.kn_logic.specs.Constraints.{clause};
ghost use Rattle.kn_rules.specs.States.{live_at};
ghost use Rattle.kn_log.specs.Written.{LogsSuch};
ghost use Rattle.kn_diagram.specs.Diagrams.{IsNode, function_of, is_true_by};
ghost use Rattle.kn_quant.specs.Eliminations.{node_of};
ghost use Rattle.kn_justify.specs.Growth.{ArePlain};
ghost use Rattle.kn_justify.specs.Names.{IsNamed, AreRight, AreKept, IsUnit};
ghost use Rattle.kn_justify.specs.Stages.{IsAnd, IsExists, left_of, right_of};
ghost use Rattle.kn_justify.specs.Taken.{IsOrderKnown, AreUnits, AreMade, AreMadeInTurn, IsNext, IsNoted};

use crate::naming::name_trace;
use crate::noted::Units;
use crate::{Named, and_unit, clause_unit, exists_unit, name_nodes};
use kn_bytes::Sink;
use kn_diagram::{Diagrams, Node};
use kn_log::{Log, LogError};
use kn_logic::{Constraint, NoMemory};
use kn_quant::Stage;
use std::alloc::Global;

/// Makes the units of the nodes of all stages, in turn; the nodes are named on the way. The clauses are live under
/// the ids.
pub(crate) fn make_units<S: Sink>(
    alloc: Global,
    d: &Diagrams,
    clauses: &[Constraint],
    ids: &[u64],
    stages: &[Stage],
    named: &mut Named,
    log: &mut Log,
    sink: &mut S,
) -> Result<Units, LogError>
    requires whole { log.old.failed ≡ false }
    requires right { AreRight log.old.state d.now named.old }
    requires known { IsOrderKnown log.old.state.vars d.now }
    requires stages { AreMadeInTurn log.old.state.given d.now clauses.now ids.now stages.now }
    ensures units { IfOk result (AreUnits log.new.state.given named.new) }
    ensures made { IfOk result (λ units. AreMade units stages.now) }
    ensures right { AreRight log.new.state d.now named.new }
    ensures lines { LogsSuch ArePlain log.old log.new (S.written sink.old) (S.written sink.new) result }
    ensures later { S.faults sink.old ≤ S.faults sink.new }
    ensures fault { IsErrOf result LogError.Fault → Rose (S.faults sink.old) (S.faults sink.new) }
{
    let mut units = Units::new(alloc);
    for stage in stages {
        let id = stage_unit(alloc, d, clauses, ids, stage, &units, named, log, sink)?;
        note(node_of(stage), id, &mut units)?;
    }
    Ok(units)
}

// The unit of a stage's node.
fn stage_unit<S: Sink>(
    alloc: Global,
    d: &Diagrams,
    clauses: &[Constraint],
    ids: &[u64],
    stage: &Stage,
    units: &Units,
    named: &mut Named,
    log: &mut Log,
    sink: &mut S,
) -> Result<Option<u64>, LogError>
    requires whole { log.old.failed ≡ false }
    requires right { AreRight log.old.state d.now named.old }
    requires known { IsOrderKnown log.old.state.vars d.now }
    requires units { AreUnits log.old.state.given named.old units.now }
    requires next { IsNext log.old.state.given d.now clauses.now ids.now units.now stage.now }
    ensures unit { IfOk result (IsUnit log.new.state.given named.new (node_of stage.now)) }
    ensures named { OnOk result (IsNamed named.new (node_of stage.now)) }
    ensures right { AreRight log.new.state d.now named.new }
    ensures kept { AreKept named.old named.new }
    ensures lines { LogsSuch ArePlain log.old log.new (S.written sink.old) (S.written sink.new) result }
    ensures later { S.faults sink.old ≤ S.faults sink.new }
    ensures fault { IsErrOf result LogError.Fault → Rose (S.faults sink.old) (S.faults sink.new) }
{
    match stage {
        Stage::Clause { taken, node } => take(
            alloc,
            d,
            &clauses[*taken],
            ids[*taken],
            *node,
            named,
            log,
            sink,
        ),
        Stage::And { left, right, .. } => {
            let Some(first) = units.get(*left) else {
                unreachable!()
            };
            let Some(second) = units.get(*right) else {
                unreachable!()
            };
            join(alloc, d, stage, first, second, named, log, sink)
        },
        Stage::Exists { from, .. } => {
            let Some(first) = units.get(*from) else {
                unreachable!()
            };
            quantify(alloc, d, stage, first, named, log, sink)
        },
    }
}

// The unit of a clause's node, which is named before.
fn take<S: Sink>(
    alloc: Global,
    d: &Diagrams,
    c: &Constraint,
    id: u64,
    node: Node,
    named: &mut Named,
    log: &mut Log,
    sink: &mut S,
) -> Result<Option<u64>, LogError>
    requires whole { log.old.failed ≡ false }
    requires right { AreRight log.old.state d.now named.old }
    requires known { IsOrderKnown log.old.state.vars d.now }
    requires there { IsNode d.now node }
    requires function { (v : ℕ → Bool) → function_of d.now node v ≡ list_any (is_true_by v) c.now.lits }
    requires clause { c.now ≡ clause c.now.lits }
    requires filled { c.now.lits ≡ [] → ⊥ }
    requires live { live_at log.old.state.given id ≡ Some c.now }
    ensures unit { IfOk result (IsUnit log.new.state.given named.new node) }
    ensures named { OnOk result (IsNamed named.new node) }
    ensures right { AreRight log.new.state d.now named.new }
    ensures kept { AreKept named.old named.new }
    ensures lines { LogsSuch ArePlain log.old log.new (S.written sink.old) (S.written sink.new) result }
    ensures later { S.faults sink.old ≤ S.faults sink.new }
    ensures fault { IsErrOf result LogError.Fault → Rose (S.faults sink.old) (S.faults sink.new) }
{
    let _depth = d.depth(node);
    name_nodes(d, node, named, log, sink)?;
    clause_unit(alloc, d, c, id, node, named, log, sink)
}

// The unit of a conjunction's node, whose trace is named before.
fn join<S: Sink>(
    alloc: Global,
    d: &Diagrams,
    stage: &Stage,
    left: Option<u64>,
    right: Option<u64>,
    named: &mut Named,
    log: &mut Log,
    sink: &mut S,
) -> Result<Option<u64>, LogError>
    requires whole { log.old.failed ≡ false }
    requires right { AreRight log.old.state d.now named.old }
    requires known { IsOrderKnown log.old.state.vars d.now }
    requires stage { IsAnd d.now stage.now }
    requires left { IsUnit log.old.state.given named.old (left_of stage.now) left × IsNamed named.old (left_of stage.now) }
    requires other { IsUnit log.old.state.given named.old (right_of stage.now) right × IsNamed named.old (right_of stage.now) }
    ensures unit { IfOk result (IsUnit log.new.state.given named.new (node_of stage.now)) }
    ensures named { OnOk result (IsNamed named.new (node_of stage.now)) }
    ensures right { AreRight log.new.state d.now named.new }
    ensures kept { AreKept named.old named.new }
    ensures lines { LogsSuch ArePlain log.old log.new (S.written sink.old) (S.written sink.new) result }
    ensures later { S.faults sink.old ≤ S.faults sink.new }
    ensures fault { IsErrOf result LogError.Fault → Rose (S.faults sink.old) (S.faults sink.new) }
{
    let Stage::And { met, .. } = stage else {
        unreachable!()
    };
    name_trace(d, met.met(), named, log, sink)?;
    and_unit(alloc, d, stage, left, right, named, log, sink)
}

// The unit of a quantification's node, whose traces are named before.
fn quantify<S: Sink>(
    alloc: Global,
    d: &Diagrams,
    stage: &Stage,
    from: Option<u64>,
    named: &mut Named,
    log: &mut Log,
    sink: &mut S,
) -> Result<Option<u64>, LogError>
    requires whole { log.old.failed ≡ false }
    requires right { AreRight log.old.state d.now named.old }
    requires known { IsOrderKnown log.old.state.vars d.now }
    requires stage { IsExists d.now stage.now }
    requires from { IsUnit log.old.state.given named.old (left_of stage.now) from × IsNamed named.old (left_of stage.now) }
    ensures unit { IfOk result (IsUnit log.new.state.given named.new (node_of stage.now)) }
    ensures named { OnOk result (IsNamed named.new (node_of stage.now)) }
    ensures right { AreRight log.new.state d.now named.new }
    ensures kept { AreKept named.old named.new }
    ensures lines { LogsSuch ArePlain log.old log.new (S.written sink.old) (S.written sink.new) result }
    ensures later { S.faults sink.old ≤ S.faults sink.new }
    ensures fault { IsErrOf result LogError.Fault → Rose (S.faults sink.old) (S.faults sink.new) }
{
    let Stage::Exists { met, halves, .. } = stage else {
        unreachable!()
    };
    name_trace(d, met.met(), named, log, sink)?;
    name_trace(d, halves.met(), named, log, sink)?;
    exists_unit(alloc, d, stage, from, named, log, sink)
}

// The node that a stage gives.
fn node_of(stage: &Stage) -> Node
    ensures { result ≡ node_of stage.now }
{
    match stage {
        Stage::Clause { node, .. } => *node,
        Stage::And { node, .. } => *node,
        Stage::Exists { node, .. } => *node,
    }
}

// Notes the unit of a node, unless the node has one.
fn note(node: Node, id: Option<u64>, units: &mut Units) -> Result<(), NoMemory>
    ensures { OnOk result (IsNoted node id units.old units.new) }
{
    if units.get(node).is_some() {
        return Ok(());
    }
    units.insert(node, id)
}
