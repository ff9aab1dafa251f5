//! The klause of a group with auxiliary variables: the elimination that found it is turned into a proof of it.
ghost use Rattle.std.specs.Prelude.{ℕ, ◌≡◌, ◌≤◌, false, length, nat_eq, Some, None, IfOk, OnOk, IsErrOf};
ghost use Rattle.std.specs.List.{IsDistinct, AllByRecursion};
ghost use Rattle.kn_bytes.specs.Outside.{Rose};
ghost use Rattle.kn_logic.specs.Literals.{AreKnown};
ghost use Rattle.kn_logic.specs.Constraints.{Bounded};
ghost use Rattle.kn_logic.specs.Groups.{is_among};
ghost use Rattle.kn_rules.specs.States.{live_at};
ghost use Rattle.kn_log.specs.Written.{LogsSuch};
ghost use Rattle.kn_quant.specs.Eliminations.{IsEliminationOf};
ghost use Rattle.kn_justify.specs.Names.{AreRight};
ghost use Rattle.kn_justify.specs.Closings.{AreLive, AreClosing, AreJustifying, Replaces};
ghost use Rattle.kn_justify.specs.Taken.{AreTaken, IsGroupWithin, CountsBorder, klause_of, AreUnits, AreMade};

use crate::Named;
use crate::closing::close;
use crate::noted::Units;
use crate::stages::make_units;
use kn_bytes::Sink;
use kn_log::{Log, LogError};
use kn_logic::{Constraint, Group};
use kn_quant::Elimination;
use std::alloc::Global;

/// Justifies the klause of a group by its elimination: "at least `bound` of the border literals", which descend in
/// it. The taken clauses, live under the ids, make the unit of each stage's node; that of the result is the unit of
/// the klause, whose grid is the result's diagram. Then the taken clauses are deleted. Answers the klause's id.
///
/// The lines are definitions and lemmas that have a literal, then the one of the klause and the one of the deletion.
/// Each other id stays what it was. After an error some of the last lines are not there.
pub fn justify_elimination<S: Sink>(
    alloc: Global,
    group: &Group,
    ids: &[u64],
    elimination: &Elimination,
    bound: u64,
    log: &mut Log,
    sink: &mut S,
) -> Result<u64, LogError>
    requires whole { log.old.failed ≡ false }
    requires elimination { IsEliminationOf group.now elimination.now }
    requires counts { CountsBorder group.now bound }
    requires bound { (1 ≤ bound) × (bound ≤ length group.now.border) }
    requires known { IsGroupWithin log.old.state.vars group.now }
    requires live { AreTaken log.old.state.given ids.now group.now.taken }
    requires different { IsDistinct nat_eq ids.now }
    ensures replaced { IfOk result (Replaces log.old.state log.new.state ids.now (klause_of group.now bound)) }
    ensures klause { IfOk result (λ id. live_at log.new.state.given id ≡ Some (klause_of group.now bound)) }
    ensures gone { OnOk result (AllByRecursion (λ id. live_at log.new.state.given id ≡ None) ids.now) }
    ensures kept { (id : ℕ) (c : Bounded) → is_among ids.now id ≡ false → live_at log.old.state.given id ≡ Some c → live_at log.new.state.given id ≡ Some c }
    ensures lines { LogsSuch (AreJustifying (klause_of group.now bound) ids.now) log.old log.new (S.written sink.old) (S.written sink.new) result }
    ensures later { S.faults sink.old ≤ S.faults sink.new }
    ensures fault { IsErrOf result LogError.Fault → Rose (S.faults sink.old) (S.faults sink.new) }
{
    let d = elimination.diagrams();
    let _depth = d.depth(elimination.result());
    let clauses = group.taken();
    let stages = elimination.stages();
    let mut named = Named::new(alloc);
    let units = make_units(alloc, d, clauses, ids, stages, &mut named, log, sink)?;
    conclude(
        alloc,
        group,
        ids,
        elimination,
        bound,
        &units,
        &named,
        log,
        sink,
    )
}

// The klause, once all units are made.
fn conclude<S: Sink>(
    alloc: Global,
    group: &Group,
    ids: &[u64],
    elimination: &Elimination,
    bound: u64,
    units: &Units,
    named: &Named,
    log: &mut Log,
    sink: &mut S,
) -> Result<u64, LogError>
    requires whole { log.old.failed ≡ false }
    requires elimination { IsEliminationOf group.now elimination.now }
    requires counts { CountsBorder group.now bound }
    requires bound { (1 ≤ bound) × (bound ≤ length group.now.border) }
    requires known { AreKnown log.old.state.vars group.now.border }
    requires right { AreRight log.old.state elimination.now.table named.now }
    requires units { AreUnits log.old.state.given named.now units.now }
    requires made { AreMade units.now elimination.now.stages }
    requires live { AreLive log.old.state.given ids.now }
    requires different { IsDistinct nat_eq ids.now }
    ensures replaced { IfOk result (Replaces log.old.state log.new.state ids.now (klause_of group.now bound)) }
    ensures lines { LogsSuch (AreClosing (klause_of group.now bound) ids.now) log.old log.new (S.written sink.old) (S.written sink.new) result }
    ensures later { S.faults sink.old ≤ S.faults sink.new }
    ensures fault { IsErrOf result LogError.Fault → Rose (S.faults sink.old) (S.faults sink.new) }
{
    let root = elimination.result();
    let _depth = elimination.diagrams().depth(root);
    let border = group.border();
    let Some(id) = units.get(root) else {
        unreachable!()
    };
    let Some(unit) = id else { unreachable!() };
    let Some(name) = named.get(root) else {
        unreachable!()
    };
    let mut lits = Vec::from_slice(alloc, border)?;
    lits.reverse();
    let klause = Constraint::new(bound, lits);
    close(alloc, klause, name.lit.var(), unit, ids, log, sink)
}
