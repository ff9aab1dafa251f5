//! Noting which hints of a line its run uses.
ghost use Rattle.std.specs.Prelude.{◌≡◌, ◌++◌, true, map, IfOk, IsSome, OnOk};
ghost use Rattle.kn_logic.specs.Literals.{IsKnown, AreKnown, negated};
ghost use Rattle.kn_logic.specs.Constraints.{IsWithin};
ghost use Rattle.kn_logic.specs.Propagation.{has_unset, after_bound, after_guard, after_hint};
ghost use Rattle.kn_rules.specs.Steps.{are_known, hinted};
ghost use Rattle.kn_trim.specs.Used.{used_ids};
ghost use Rattle.kn_trim.specs.Noting.{Turns, used_from};
ghost use Rattle.kn_trim.specs.Reading.{IsIdle};

use kn_lines::Ids;
use kn_logic::{Constraint, Lit, NoMemory};
use kn_rules::{Assumed, Checker};
use std::alloc::Global;

/// What a hint has done in its run.
#[derive(Clone, Copy, Debug, PartialEq, Eq)]
pub enum Turn {
    /// The run has ended in conflict.
    Conflict,
    /// A literal has joined that was not there.
    Joins,
    /// No literal has joined that was not there.
    Nothing,
}

/// The used ones of the ids of a clause's hints. No literal is assumed before, and none after.
#[tactic(auto, using(crate::proofs::Noting::used_noted))]
pub fn used_hints(
    alloc: Global,
    assumed: &mut Assumed,
    checker: &Checker,
    lits: &[Lit],
    hints: &[u64],
) -> Result<Ids, NoMemory>
    requires idle { IsIdle checker.now assumed.old }
    requires known { are_known checker.now.vars lits.now ≡ true }
    requires live { IsSome (hinted checker.now.given hints.now) }
    ensures used { IfOk result (λ ids. ids ≡ used_ids lits.now hints.now (hinted checker.now.given hints.now)) }
    ensures idle { OnOk result (assumed.new ≡ assumed.old) }
{
    push_negations(assumed, lits)?;
    let ids = used(alloc, assumed, checker, hints)?;
    assumed.clear();
    Ok(Ids::new(ids))
}

/// The negations of the literals are assumed too.
fn push_negations(assumed: &mut Assumed, lits: &[Lit]) -> Result<(), NoMemory>
    requires { are_known assumed.old.vars lits.now ≡ true }
    ensures { OnOk result (assumed.new ≡ record assumed.old { lits = assumed.old.lits ++ map negated lits.now }) }
{
    for lit in lits {
        assumed.push(lit.negated())?;
    }
    Ok(())
}

/// The used ones of the ids of hints, run from the literals that are assumed.
fn used(
    alloc: Global,
    assumed: &mut Assumed,
    checker: &Checker,
    hints: &[u64],
) -> Result<Vec<u64>, NoMemory>
    requires { assumed.old.vars ≡ checker.now.vars }
    ensures used { IfOk result (λ ids. ids.items ≡ used_from checker.now.given assumed.old.lits hints.now) }
    ensures vars { assumed.new.vars ≡ assumed.old.vars }
{
    let mut ids = Vec::new(alloc);
    for id in hints {
        let Some(hint) = checker.live(*id) else {
            return Ok(ids);
        };
        match apply(assumed, hint)? {
            Turn::Conflict => {
                ids.push(*id)?;
                return Ok(ids);
            }
            Turn::Joins => ids.push(*id)?,
            Turn::Nothing => {}
        }
    }
    Ok(ids)
}

fn apply(assumed: &mut Assumed, hint: &Constraint) -> Result<Turn, NoMemory>
    requires { IsWithin assumed.old.vars hint.now }
    ensures run { IfOk result (λ turn. Turns turn assumed.old.lits (after_hint assumed.old.lits hint.now) assumed.new.lits) }
    ensures vars { assumed.new.vars ≡ assumed.old.vars }
{
    match hint.guard() {
        Some(guard) => apply_guarded(assumed, guard, hint.bound(), hint.lits()),
        None => apply_bound(assumed, hint.bound(), hint.lits()),
    }
}

#[tactic(auto, using(crate::proofs::Noting::is_used_one, crate::proofs::Noting::is_used_none))]
fn apply_guarded(
    assumed: &mut Assumed,
    guard: Lit,
    bound: u64,
    lits: &[Lit],
) -> Result<Turn, NoMemory>
    requires guard { IsKnown assumed.old.vars guard }
    requires known { AreKnown assumed.old.vars lits.now }
    ensures run { IfOk result (λ turn. Turns turn assumed.old.lits (after_guard assumed.old.lits guard bound lits.now) assumed.new.lits) }
    ensures vars { assumed.new.vars ≡ assumed.old.vars }
{
    if assumed.has(guard) {
        return apply_bound(assumed, bound, lits);
    }
    if assumed.has(guard.negated()) {
        return Ok(Turn::Nothing);
    }
    if assumed.count_open_to(lits, bound) < bound {
        assumed.push(guard.negated())?;
        return Ok(Turn::Joins);
    }
    Ok(Turn::Nothing)
}

#[tactic(auto, using(crate::proofs::Noting::is_used_open, crate::proofs::Noting::is_used_none))]
fn apply_bound(assumed: &mut Assumed, bound: u64, lits: &[Lit]) -> Result<Turn, NoMemory>
    requires { AreKnown assumed.old.vars lits.now }
    ensures run { IfOk result (λ turn. Turns turn assumed.old.lits (after_bound assumed.old.lits bound lits.now) assumed.new.lits) }
    ensures vars { assumed.new.vars ≡ assumed.old.vars }
{
    let open = assumed.count_open_to(lits, bound);
    if open < bound {
        return Ok(Turn::Conflict);
    }
    if open > bound {
        return Ok(Turn::Nothing);
    }
    let joins = has_unset(assumed, lits);
    assumed.push_open(lits)?;
    if joins {
        return Ok(Turn::Joins);
    }
    Ok(Turn::Nothing)
}

/// Whether some literal has no value.
fn has_unset(assumed: &Assumed, lits: &[Lit]) -> bool
    requires { AreKnown assumed.now.vars lits.now }
    ensures { result ≡ has_unset assumed.now.lits lits.now }
{
    for lit in lits {
        if assumed.is_open(*lit) && !assumed.has(*lit) {
            return true;
        }
    }
    false
}
