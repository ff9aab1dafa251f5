//! Reverse unit propagation over the hints of a line alone, in their order: nothing is searched for.
ghost use Rattle.std.specs.Prelude.{◌≡◌, ◌++◌, [], map, Some, None, true, IfOk, OnOk, option_map, if◌then◌else◌};
ghost use Rattle.std.specs.Option.{is_none};
ghost use Rattle.kn_logic.specs.Literals.{IsKnown, AreKnown, negated};
ghost use Rattle.kn_logic.specs.Constraints.{IsWithin};
ghost use Rattle.kn_logic.specs.Propagation.{after_bound, after_guard, after_hint, hint_run};
ghost use Rattle.kn_rules.specs.States.{AreLiveWithin};
ghost use Rattle.kn_rules.specs.Steps.{hinted, is_conflict};

use crate::assumed::Assumed;
use crate::entries::Entries;
use crate::ids::are_live;
use crate::live::Live;
use kn_logic::{Lit, NoMemory};

/// Whether the hints, run from the negations of the literals, end in conflict; `None` exactly where one of them
/// is not live, also behind a conflict. Each is looked up once. The list of what is assumed, which is empty, is so
/// again afterwards.
pub fn follows(
    assumed: &mut Assumed,
    entries: &Entries,
    lits: &[Lit],
    hints: &[u64],
) -> Result<Option<bool>, NoMemory>
    requires empty { assumed.old.lits ≡ [] }
    requires known { AreKnown assumed.old.vars lits.now }
    requires within { AreLiveWithin assumed.old.vars entries.now.given }
    ensures run { IfOk result (λ run. run ≡ option_map (is_conflict lits.now) (hinted entries.now.given hints.now)) }
    ensures same { assumed.new ≡ assumed.old }
{
    let run = run_from_negations(assumed, entries, lits, hints);
    assumed.clear();
    run
}

fn run_from_negations(
    assumed: &mut Assumed,
    entries: &Entries,
    lits: &[Lit],
    hints: &[u64],
) -> Result<Option<bool>, NoMemory>
    requires empty { assumed.old.lits ≡ [] }
    requires known { AreKnown assumed.old.vars lits.now }
    requires within { AreLiveWithin assumed.old.vars entries.now.given }
    ensures run { IfOk result (λ run. run ≡ option_map (is_conflict lits.now) (hinted entries.now.given hints.now)) }
    ensures vars { assumed.new.vars ≡ assumed.old.vars }
{
    push_negations(assumed, lits)?;
    run_hints(assumed, entries, hints)
}

fn push_negations(assumed: &mut Assumed, lits: &[Lit]) -> Result<(), NoMemory>
    requires { AreKnown assumed.old.vars lits.now }
    ensures pushed { OnOk result (assumed.new.lits ≡ assumed.old.lits ++ map negated lits.now) }
    ensures vars { assumed.new.vars ≡ assumed.old.vars }
{
    for lit in lits {
        assumed.push(lit.negated())?;
    }
    Ok(())
}

/// Whether the run of the hints ends in conflict. Those behind it are not run, but are to be live too.
fn run_hints(
    assumed: &mut Assumed,
    entries: &Entries,
    hints: &[u64],
) -> Result<Option<bool>, NoMemory>
    requires { AreLiveWithin assumed.old.vars entries.now.given }
    ensures run { IfOk result (λ run. run ≡ option_map (λ cs. is_none (hint_run assumed.old.lits cs)) (hinted entries.now.given hints.now)) }
    ensures vars { assumed.new.vars ≡ assumed.old.vars }
{
    let mut left = hints;
    while let Some((id, rest)) = left.split_first() {
        let Some(hint) = entries.find(*id) else {
            return Ok(None)
        };
        if !apply(assumed, &hint)? {
            return Ok(conflict_before(entries, rest));
        }
        left = rest;
    }
    Ok(Some(false))
}

/// What becomes of a run that has ended in conflict: `None` exactly where a hint behind it is not live.
fn conflict_before(entries: &Entries, rest: &[u64]) -> Option<bool>
    ensures { result ≡ option_map (λ _. true) (hinted entries.now.given rest.now) }
{
    if are_live(entries, rest) {
        Some(true)
    } else {
        None
    }
}

/// Runs one hint, and tells whether the run goes on: it does not where it ends in conflict.
fn apply(assumed: &mut Assumed, hint: &Live) -> Result<bool, NoMemory>
    requires { IsWithin assumed.old.vars hint.now }
    ensures run { IfOk result (λ on. after_hint assumed.old.lits hint.now ≡ (if on then Some assumed.new.lits else None)) }
    ensures vars { assumed.new.vars ≡ assumed.old.vars }
{
    match hint.guard() {
        Some(guard) => apply_guarded(assumed, guard, hint.bound(), hint.lits()),
        None => apply_bound(assumed, hint.bound(), hint.lits()),
    }
}

fn apply_guarded(
    assumed: &mut Assumed,
    guard: Lit,
    bound: u64,
    lits: &[Lit],
) -> Result<bool, NoMemory>
    requires guard { IsKnown assumed.old.vars guard }
    requires known { AreKnown assumed.old.vars lits.now }
    ensures run { IfOk result (λ on. after_guard assumed.old.lits guard bound lits.now ≡ (if on then Some assumed.new.lits else None)) }
    ensures vars { assumed.new.vars ≡ assumed.old.vars }
{
    if assumed.has(guard) {
        return apply_bound(assumed, bound, lits);
    }
    if assumed.has(guard.negated()) {
        return Ok(true);
    }
    if assumed.count_open_to(lits, bound) < bound {
        assumed.push(guard.negated())?;
    }
    Ok(true)
}

fn apply_bound(assumed: &mut Assumed, bound: u64, lits: &[Lit]) -> Result<bool, NoMemory>
    requires { AreKnown assumed.old.vars lits.now }
    ensures run { IfOk result (λ on. after_bound assumed.old.lits bound lits.now ≡ (if on then Some assumed.new.lits else None)) }
    ensures vars { assumed.new.vars ≡ assumed.old.vars }
{
    let open = assumed.count_open_to(lits, bound);
    if open < bound {
        return Ok(false);
    }
    if open == bound {
        assumed.push_open(lits)?;
    }
    Ok(true)
}
