//! How "all literals of a list", and "all but one at most", go on to one literal more in front.
ghost use Rattle.std.specs.Prelude.{◌≡◌, ◌+◌, ◌<◌, ◌≤◌, ◌^◌, ◌++◌, ◌∷◌, List, [], true, false, length, Some, IfOk, OnOk, IsErrOf};
ghost use Rattle.std.specs.List.{AllByRecursion};
ghost use Rattle.kn_bytes.specs.Outside.{Rose};
ghost use Rattle.kn_logic.specs.Literals.{Literal, IsKnown};
ghost use Rattle.kn_rules.specs.Steps.{is_known_arm};
ghost use Rattle.kn_log.specs.Written.{LogsSuch};
ghost use Rattle.kn_justify.specs.Growth.{ArePlain};
ghost use Rattle.kn_justify.specs.PairGroups.{IsPaired, ids_with, IsAll, IsAllButOne, held_arm, unit_hints};

use crate::defining::define;
use crate::name::Name;
use crate::pair_ids::PairIds;
use crate::settling::settle;
use kn_bytes::Sink;
use kn_lines::Arm;
use kn_log::{Log, LogError};
use kn_logic::{Lit, NoMemory};
use std::alloc::Global;

/// What stands for "all literals of a list", with the hints that lead from these literals to it.
#[derive(Drop)]
pub(crate) struct All {
    pub(crate) arm: Arm,
    pub(crate) lifts: Vec<u64>,
}

/// A literal that holds, and the id of the clause of it alone.
#[derive(Clone, Copy)]
pub(crate) struct Held {
    pub(crate) lit: Lit,
    pub(crate) unit: u64,
}

/// Goes on from "all literals of a list" to the same of one literal more, in front of them.
pub(crate) fn count_all<S: Sink>(
    l: Lit,
    all: &mut All,
    log: &mut Log,
    sink: &mut S,
) -> Result<(), LogError>
    requires whole { log.old.failed ≡ false }
    requires known { IsKnown log.old.state.vars l }
    requires arm { is_known_arm log.old.state.vars all.old.arm ≡ true }
    ensures counted { OnOk result ((lits : List Literal) → IsAll log.old.state lits all.old → IsAll log.new.state (l ∷ lits) all.new) }
    ensures lines { LogsSuch ArePlain log.old log.new (S.written sink.old) (S.written sink.new) result }
    ensures later { S.faults sink.old ≤ S.faults sink.new }
    ensures fault { IsErrOf result LogError.Fault → Rose (S.faults sink.old) (S.faults sink.new) }
{
    let name = define(l, all.arm, Arm::False, log, sink)?;
    push(&mut all.lifts, name.id + 2)?;
    all.arm = Arm::Lit(name.lit);
    Ok(())
}

/// Goes on from "all literals of a list but one at most" to the same of one literal more, in front of them: by
/// the clauses of that literal with each of them, and by what stands for all of them.
pub(crate) fn count_all_but_one<S: Sink>(
    alloc: Global,
    l: Lit,
    lits: &[Lit],
    all: &All,
    held: Option<Held>,
    pairs: &PairIds,
    log: &mut Log,
    sink: &mut S,
) -> Result<Held, LogError>
    requires whole { log.old.failed ≡ false }
    requires filled { 0 < length lits.now }
    requires known { IsKnown log.old.state.vars l }
    requires paired { AllByRecursion (IsPaired log.old.state.given pairs.now l) lits.now }
    requires all { IsAll log.old.state lits.now all.now }
    requires but_one { IsAllButOne log.old.state lits.now held }
    ensures counted { IfOk result (λ h. IsAllButOne log.new.state (l ∷ lits.now) (Some h)) }
    ensures lines { LogsSuch ArePlain log.old log.new (S.written sink.old) (S.written sink.new) result }
    ensures later { S.faults sink.old ≤ S.faults sink.new }
    ensures fault { IsErrOf result LogError.Fault → Rose (S.faults sink.old) (S.faults sink.new) }
{
    let name = define(l, arm_of(&held), all.arm, log, sink)?;
    let hints = unit_hints(alloc, &held, &name, l, lits, &all.lifts, pairs)?;
    let unit = settle(alloc, &[Arm::Lit(name.lit)], hints, log, sink)?;
    match unit {
        Some(unit) => Ok(Held {
            lit: name.lit,
            unit,
        }),
        None => unreachable!(),
    }
}

// What is held, in a line; "true" where nothing is.
fn arm_of(held: &Option<Held>) -> Arm
    ensures { result ≡ held_arm held.now }
{
    match held {
        Some(held) => Arm::Lit(held.lit),
        None => Arm::True,
    }
}

// The hints for "all but one at most" of a literal and others.
fn unit_hints(
    alloc: Global,
    held: &Option<Held>,
    name: &Name,
    l: Lit,
    lits: &[Lit],
    lifts: &[u64],
    pairs: &PairIds,
) -> Result<Vec<u64>, NoMemory>
    requires fits { name.now.id + 3 < 2 ^ 64 }
    ensures { IfOk result (λ hints. hints.items ≡ unit_hints pairs.now held.now name.now l lits.now lifts.now) }
{
    let mut hints = Vec::new(alloc);
    if let Some(held) = held {
        hints.push(held.unit)?;
    }
    hints.push(name.id + 2)?;
    push_pairs(&mut hints, l, lits, pairs)?;
    hints.extend_from_slice(lifts)?;
    hints.push(name.id + 3)?;
    Ok(hints)
}

// Adds the ids of a literal's clauses with others.
fn push_pairs(hints: &mut Vec<u64>, l: Lit, lits: &[Lit], pairs: &PairIds) -> Result<(), NoMemory>
    ensures { OnOk result (hints.new.items ≡ hints.old.items ++ ids_with pairs.now l lits.now) }
{
    for k in lits {
        if let Some(id) = pairs.get(l.var(), k.var()) {
            hints.push(id)?;
        }
    }
    Ok(())
}

fn push(hints: &mut Vec<u64>, id: u64) -> Result<(), NoMemory>
    ensures { OnOk result (hints.new.items ≡ hints.old.items ++ id ∷ []) }
{
    hints.push(id)?;
    Ok(())
}
