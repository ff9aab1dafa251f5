//! The one place where a justification logs lemmas. Clauses that always hold are left out: no run of hints needs one.
ghost use Rattle.std.specs.Prelude.{◌≡◌, ◌≤◌, [], true, false, Some, is_none, option_to_list, IfOk, IfSome, IsErrOf};
ghost use Rattle.kn_bytes.specs.Outside.{Rose};
ghost use Rattle.kn_logic.specs.Literals.{has};
ghost use Rattle.kn_logic.specs.Constraints.{clause};
ghost use Rattle.kn_rules.specs.States.{live_at};
ghost use Rattle.kn_log.specs.Written.{LogsSuch};
ghost use Rattle.kn_justify.specs.Arms.{literals_of, has_true, has_both, is_trivial, Settled, Refuted, AreKnownArms};
ghost use Rattle.kn_justify.specs.Growth.{ArePlain};

use kn_bytes::Sink;
use kn_lines::{Arm, Ids};
use kn_log::{Log, LogError};
use kn_logic::{Constraint, Lit, NoMemory};
use std::alloc::Global;

/// Gives later hints the clause of these arms: logs it as a lemma, by hints that refute the arms, and answers
/// its id; or logs nothing and answers `None`, exactly where it has a true constant, or a literal and its
/// negation.
pub(crate) fn settle<S: Sink>(
    alloc: Global,
    arms: &[Arm],
    hints: Vec<u64>,
    log: &mut Log,
    sink: &mut S,
) -> Result<Option<u64>, LogError>
    requires whole { log.old.failed ≡ false }
    requires known { AreKnownArms log.old.state.vars arms.now }
    requires hints { Refuted log.old.state.given hints.items arms.now }
    requires filled { literals_of arms.now ≡ [] → is_trivial arms.now ≡ true }
    ensures settled { IfOk result (λ id. Settled log.new.state.given (option_to_list id) arms.now) }
    ensures told { IfOk result (λ id. IfSome id (λ i. live_at log.new.state.given i ≡ Some (clause (literals_of arms.now)))) }
    ensures none { IfOk result (λ id. is_none id ≡ is_trivial arms.now) }
    ensures lines { LogsSuch ArePlain log.old log.new (S.written sink.old) (S.written sink.new) result }
    ensures later { S.faults sink.old ≤ S.faults sink.new }
    ensures fault { IsErrOf result LogError.Fault → Rose (S.faults sink.old) (S.faults sink.new) }
{
    let lits = literals(alloc, arms)?;
    if has_true(arms) | has_both(&lits) {
        return Ok(None);
    }
    let id = log.lemma(Constraint::new(1, lits), Ids::new(hints), sink)?;
    Ok(Some(id))
}

// The arms that are literals.
fn literals(alloc: Global, arms: &[Arm]) -> Result<Vec<Lit>, NoMemory>
    ensures { IfOk result (λ lits. lits.items ≡ literals_of arms.now) }
{
    let mut lits = Vec::new(alloc);
    for arm in arms {
        if let Arm::Lit(l) = arm {
            lits.push(*l)?;
        }
    }
    Ok(lits)
}

// Whether one of the arms is true.
fn has_true(arms: &[Arm]) -> bool
    ensures { result ≡ has_true arms.now }
{
    for arm in arms {
        if let Arm::True = arm {
            return true;
        }
    }
    false
}

// Whether a literal stands there before its negation.
fn has_both(lits: &[Lit]) -> bool
    ensures { result ≡ has_both lits.now }
{
    let mut rest = lits;
    while let Some((first, behind)) = rest.split_first() {
        if stands(behind, first.negated()) {
            return true;
        }
        rest = behind;
    }
    false
}

// Whether a literal stands in the list.
fn stands(lits: &[Lit], lit: Lit) -> bool
    ensures { result ≡ has lits.now lit }
{
    for x in lits {
        if lit == *x {
            return true;
        }
    }
    false
}
