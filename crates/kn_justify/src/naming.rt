//! Names for the nodes of diagrams, by definitions as in extended resolution, children before parents.
ghost use Rattle.std.specs.Prelude.{◌≡◌, ◌≤◌, false, None, slice_index, OnOk, IsErrOf};
ghost use Rattle.kn_bytes.specs.Outside.{Rose};
ghost use Rattle.kn_logic.specs.Literals.{IsKnown};
ghost use Rattle.kn_log.specs.Written.{LogsSuch};
ghost use Rattle.kn_diagram.specs.Diagrams.{IsNode, depth_of, high_of, low_of};
ghost use Rattle.kn_justify.specs.Growth.{ArePlain, Grown};
ghost use Rattle.kn_justify.specs.Taken.{IsOrderKnown, AreThere, AreAllNamed};
ghost use Rattle.kn_justify.specs.Names.{name_of, test_of, IsNamed, HasName, AreRight, AreKept, AreOfReached, AreReachedKnown};

use crate::Named;
use crate::defining::define;
use kn_bytes::Sink;
use kn_diagram::{Diagrams, Met, Node};
use kn_log::{Log, LogError};
use kn_logic::Lit;

/// Names each node that is reached from a node and has no name, by a definition each, those of its high and its low
/// node before its own. All names that are there are right, and stay so, after an error too.
pub fn name_nodes<S: Sink>(
    d: &Diagrams,
    f: Node,
    named: &mut Named,
    log: &mut Log,
    sink: &mut S,
) -> Result<(), LogError>
    requires whole { log.old.failed ≡ false }
    requires right { AreRight log.old.state d.now named.old }
    requires there { IsNode d.now f }
    requires known { AreReachedKnown log.old.state.vars d.now f }
    ensures named { OnOk result (IsNamed named.new f) }
    ensures right { AreRight log.new.state d.now named.new }
    ensures kept { AreKept named.old named.new }
    ensures reached { AreOfReached d.now f named.old named.new }
    ensures grown { Grown log.old.state log.new.state }
    ensures lines { LogsSuch ArePlain log.old log.new (S.written sink.old) (S.written sink.new) result }
    ensures later { S.faults sink.old ≤ S.faults sink.new }
    ensures fault { IsErrOf result LogError.Fault → Rose (S.faults sink.old) (S.faults sink.new) }
{
    let _depth = d.depth(f);
    let Some(parts) = d.parts(f) else {
        return Ok(());
    };
    if named.get(f).is_some() {
        return Ok(());
    }
    name_nodes(d, parts.1, named, log, sink)?;
    name_nodes(d, parts.2, named, log, sink)?;
    name_node(d, f, parts.0, parts.1, parts.2, named, log, sink)
}

/// Names the nodes that are reached from the nodes of a trace, as `name_nodes` does.
pub(crate) fn name_trace<S: Sink>(
    d: &Diagrams,
    trace: &[Met],
    named: &mut Named,
    log: &mut Log,
    sink: &mut S,
) -> Result<(), LogError>
    requires whole { log.old.failed ≡ false }
    requires right { AreRight log.old.state d.now named.old }
    requires there { AreThere d.now trace.now }
    requires known { IsOrderKnown log.old.state.vars d.now }
    ensures named { OnOk result (AreAllNamed named.new trace.now) }
    ensures right { AreRight log.new.state d.now named.new }
    ensures kept { AreKept named.old named.new }
    ensures lines { LogsSuch ArePlain log.old log.new (S.written sink.old) (S.written sink.new) result }
    ensures later { S.faults sink.old ≤ S.faults sink.new }
    ensures fault { IsErrOf result LogError.Fault → Rose (S.faults sink.old) (S.faults sink.new) }
{
    for m in trace {
        name_entry(d, m, named, log, sink)?;
    }
    Ok(())
}

// Names the nodes that are reached from the three of an entry.
fn name_entry<S: Sink>(
    d: &Diagrams,
    m: &Met,
    named: &mut Named,
    log: &mut Log,
    sink: &mut S,
) -> Result<(), LogError>
    requires whole { log.old.failed ≡ false }
    requires right { AreRight log.old.state d.now named.old }
    requires there { IsNode d.now m.now.u × IsNode d.now m.now.v × IsNode d.now m.now.w }
    requires known { IsOrderKnown log.old.state.vars d.now }
    ensures named { OnOk result (IsNamed named.new m.now.u × IsNamed named.new m.now.v × IsNamed named.new m.now.w) }
    ensures right { AreRight log.new.state d.now named.new }
    ensures kept { AreKept named.old named.new }
    ensures lines { LogsSuch ArePlain log.old log.new (S.written sink.old) (S.written sink.new) result }
    ensures later { S.faults sink.old ≤ S.faults sink.new }
    ensures fault { IsErrOf result LogError.Fault → Rose (S.faults sink.old) (S.faults sink.new) }
{
    let _depth = d.depth(m.u);
    name_nodes(d, m.u, named, log, sink)?;
    name_nodes(d, m.v, named, log, sink)?;
    name_nodes(d, m.w, named, log, sink)
}

// Names a node that has no name, of this variable and with these two nodes, which are constants or named.
fn name_node<S: Sink>(
    d: &Diagrams,
    node: Node,
    var: u64,
    high: Node,
    low: Node,
    named: &mut Named,
    log: &mut Log,
    sink: &mut S,
) -> Result<(), LogError>
    requires whole { log.old.failed ≡ false }
    requires right { AreRight log.old.state d.now named.old }
    requires absent { name_of named.old node ≡ None }
    requires var { var ≡ slice_index d.now.order (depth_of d.now node) }
    requires high { high ≡ high_of d.now node }
    requires low { low ≡ low_of d.now node }
    requires high_named { IsNamed named.old high }
    requires low_named { IsNamed named.old low }
    requires known { IsKnown log.old.state.vars (test_of d.now node) }
    ensures named { OnOk result (IsNamed named.new node) }
    ensures right { AreRight log.new.state d.now named.new }
    ensures kept { AreKept named.old named.new }
    ensures reached { AreOfReached d.now node named.old named.new }
    ensures lines { LogsSuch ArePlain log.old log.new (S.written sink.old) (S.written sink.new) result }
    ensures later { S.faults sink.old ≤ S.faults sink.new }
    ensures fault { IsErrOf result LogError.Fault → Rose (S.faults sink.old) (S.faults sink.new) }
{
    let x = Lit::new(var, true);
    let name = define(x, named.known_arm(high), named.known_arm(low), log, sink)?;
    named.insert(node, name)?;
    Ok(())
}
