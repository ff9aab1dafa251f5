//! Units of joins and quantifications. A unit says that the function of a node holds; that of a result follows from
//! those of the nodes it was made from, by the lemmas of its trace.
ghost use Rattle.std.specs.Prelude.{◌≡◌, ◌≤◌, ◌∷◌, [], true, false, option_to_list, IfOk, IsErrOf};
ghost use Rattle.kn_bytes.specs.Outside.{Rose};
ghost use Rattle.kn_rules.specs.Steps.{is_known_arm};
ghost use Rattle.kn_log.specs.Written.{LogsSuch};
ghost use Rattle.kn_quant.specs.Eliminations.{node_of};
ghost use Rattle.kn_justify.specs.Arms.{Settled, Refuted};
ghost use Rattle.kn_justify.specs.Growth.{ArePlain, Grown};
ghost use Rattle.kn_justify.specs.Names.{arm_at, IsNamed, IsUnit, pair_arms};
ghost use Rattle.kn_justify.specs.Lemmas.{AreNamed};
ghost use Rattle.kn_justify.specs.Stages.{IsAnd, IsExists, traces_of, left_of, right_of};

use crate::Named;
use crate::joins::joins;
use crate::pairs::push_option;
use crate::quantified::quantified;
use crate::settling::settle;
use crate::side::{Side, alone};
use kn_bytes::Sink;
use kn_diagram::{Diagrams, Met, Node};
use kn_lines::Arm;
use kn_log::{Log, LogError};
use kn_logic::NoMemory;
use kn_quant::Stage;
use std::alloc::Global;

/// The unit of the node of an `And` stage, whose nodes are named: the clause of the node's arm alone, from the units of
/// its two sides, by a lemma for each entry of the trace that needs one. Answers its id; `None` exactly where the
/// node is "true".
pub fn and_unit<S: Sink>(
    alloc: Global,
    d: &Diagrams,
    stage: &Stage,
    left: Option<u64>,
    right: Option<u64>,
    named: &Named,
    log: &mut Log,
    sink: &mut S,
) -> Result<Option<u64>, LogError>
    requires whole { log.old.failed ≡ false }
    requires stage { IsAnd d.now stage.now }
    requires named { AreNamed log.old.state d.now named.now (traces_of stage.now) }
    requires left { IsUnit log.old.state.given named.now (left_of stage.now) left }
    requires right { IsUnit log.old.state.given named.now (right_of stage.now) right }
    ensures unit { IfOk result (IsUnit log.new.state.given named.now (node_of stage.now)) }
    ensures grown { Grown log.old.state log.new.state }
    ensures lines { LogsSuch ArePlain log.old log.new (S.written sink.old) (S.written sink.new) result }
    ensures later { S.faults sink.old ≤ S.faults sink.new }
    ensures fault { IsErrOf result LogError.Fault → Rose (S.faults sink.old) (S.faults sink.new) }
{
    let Stage::And {
        left: u,
        right: v,
        node,
        met,
    } = stage
    else {
        unreachable!()
    };
    let last = Met {
        u: *u,
        v: *v,
        w: *node,
    };
    let _depth = d.depth(last.w);
    let lemmas = joins(alloc, d, Side::Both, met.met(), named, log, sink)?;
    let Some(lemma) = lemmas.get(last.u, last.v) else {
        unreachable!()
    };
    unit(alloc, &last, left, right, lemma, named, log, sink)
}

/// The unit of the node of an `Exists` stage, whose nodes are named: the clause of the node's arm alone, from the unit
/// of its first node, by a lemma for each entry of its traces that needs one. Answers its id; `None` exactly
/// where the node is "true".
pub fn exists_unit<S: Sink>(
    alloc: Global,
    d: &Diagrams,
    stage: &Stage,
    from: Option<u64>,
    named: &Named,
    log: &mut Log,
    sink: &mut S,
) -> Result<Option<u64>, LogError>
    requires whole { log.old.failed ≡ false }
    requires stage { IsExists d.now stage.now }
    requires named { AreNamed log.old.state d.now named.now (traces_of stage.now) }
    requires from { IsUnit log.old.state.given named.now (left_of stage.now) from }
    ensures unit { IfOk result (IsUnit log.new.state.given named.now (node_of stage.now)) }
    ensures grown { Grown log.old.state log.new.state }
    ensures lines { LogsSuch ArePlain log.old log.new (S.written sink.old) (S.written sink.new) result }
    ensures later { S.faults sink.old ≤ S.faults sink.new }
    ensures fault { IsErrOf result LogError.Fault → Rose (S.faults sink.old) (S.faults sink.new) }
{
    let Stage::Exists {
        var,
        from: f,
        node,
        met,
        halves,
    } = stage
    else {
        unreachable!()
    };
    let _depth = d.depth(*node);
    let lemmas = quantified(alloc, d, *var, met.met(), halves.met(), named, log, sink)?;
    let Some(lemma) = lemmas.get(*f, *f) else {
        unreachable!()
    };
    unit(
        alloc,
        &alone(*f, *node),
        from,
        None,
        lemma,
        named,
        log,
        sink,
    )
}

/// The unit of a node that is not "false", by hints that refute it.
pub(crate) fn unit_by<S: Sink>(
    alloc: Global,
    node: Node,
    hints: Vec<u64>,
    named: &Named,
    log: &mut Log,
    sink: &mut S,
) -> Result<Option<u64>, LogError>
    requires whole { log.old.failed ≡ false }
    requires some { node ≡ 0 → ⊥ }
    requires named { IsNamed named.now node }
    requires known { is_known_arm log.old.state.vars (arm_at named.now node) ≡ true }
    requires hints { Refuted log.old.state.given hints.items (arm_at named.now node ∷ []) }
    ensures unit { IfOk result (IsUnit log.new.state.given named.now node) }
    ensures lines { LogsSuch ArePlain log.old log.new (S.written sink.old) (S.written sink.new) result }
    ensures later { S.faults sink.old ≤ S.faults sink.new }
    ensures fault { IsErrOf result LogError.Fault → Rose (S.faults sink.old) (S.faults sink.new) }
{
    let arms = one(alloc, named.known_arm(node))?;
    settle(alloc, &arms, hints, log, sink)
}

// A list of one arm.
fn one(alloc: Global, arm: Arm) -> Result<Vec<Arm>, NoMemory>
    ensures { IfOk result (λ arms. arms.items ≡ arm ∷ []) }
{
    let mut arms = Vec::new(alloc);
    arms.push(arm)?;
    Ok(arms)
}

// The unit of an entry's result, by the units of its two nodes and the entry's lemma.
fn unit<S: Sink>(
    alloc: Global,
    m: &Met,
    left: Option<u64>,
    right: Option<u64>,
    lemma: Option<u64>,
    named: &Named,
    log: &mut Log,
    sink: &mut S,
) -> Result<Option<u64>, LogError>
    requires whole { log.old.failed ≡ false }
    requires some { m.now.w ≡ 0 → ⊥ }
    requires named { IsNamed named.now m.now.w }
    requires known { is_known_arm log.old.state.vars (arm_at named.now m.now.w) ≡ true }
    requires left { IsUnit log.old.state.given named.now m.now.u left }
    requires right { IsUnit log.old.state.given named.now m.now.v right }
    requires lemma { Settled log.old.state.given (option_to_list lemma) (pair_arms named.now m.now) }
    ensures unit { IfOk result (IsUnit log.new.state.given named.now m.now.w) }
    ensures lines { LogsSuch ArePlain log.old log.new (S.written sink.old) (S.written sink.new) result }
    ensures later { S.faults sink.old ≤ S.faults sink.new }
    ensures fault { IsErrOf result LogError.Fault → Rose (S.faults sink.old) (S.faults sink.new) }
{
    let mut hints = Vec::new(alloc);
    push_option(&mut hints, left)?;
    push_option(&mut hints, right)?;
    push_option(&mut hints, lemma)?;
    unit_by(alloc, m.w, hints, named, log, sink)
}
