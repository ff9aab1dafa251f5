//! The texts that logs write to sinks in memory, which ids are live then, and what is left where a sink fails.
ghost use Rattle.std.specs.Prelude.{◌≡◌, ◌≤◌, ◌∷◌, [], true, false, IfOk, IsSome};
ghost use Rattle.kn_logic.specs.Constraints.{klause};
ghost use Rattle.kn_lines.specs.declared.line.Arm.TheVariants as arm;
ghost use Rattle.kn_rules.specs.States.{live_at};
ghost use Rattle.kn_log.specs.Logs.{fresh};

use super::*;
use kn_bytes::MemSink;
use kn_lines::{Arm, Ids};
use kn_logic::{Constraint, Formula, Lit, NoMemory};
use std::alloc::Global;
use std::test::Fail;

// `p cnf 1 2`, `1 0`, `-1 0`
fn contradiction(alloc: Global) -> Result<Formula, NoMemory>
    ensures { IfOk result (λ f. f ≡ record { vars = 1; constraints = klause 1 (record { variable = 1; positive = true } ∷ []) ∷ klause 1 (record { variable = 1; positive = false } ∷ []) ∷ [] }) }
{
    let mut f = Formula::new(alloc, 1);
    f.push(Constraint::new(1, vec![in alloc; Lit::new(1, true)]?))?;
    f.push(Constraint::new(1, vec![in alloc; Lit::new(1, false)]?))?;
    Ok(f)
}

// adds the clause without literals, as a lemma or as a learned clause
fn refute(alloc: Global, log: &mut Log, learned: bool, sink: &mut MemSink) -> Result<u64, LogError>
    requires { log.old ≡ fresh (record { vars = 1; constraints = klause 1 (record { variable = 1; positive = true } ∷ []) ∷ klause 1 (record { variable = 1; positive = false } ∷ []) ∷ [] }) }
{
    let clause = Constraint::new(1, Vec::new(alloc));
    let hints = Ids::new(Vec::from_slice(alloc, &[1, 2])?);
    if learned {
        log.learned(clause, hints, sink)
    } else {
        log.lemma(clause, hints, sink)
    }
}

// defines a variable as the first, unfolds the first clause to it, and counts it again
fn count(alloc: Global, log: &mut Log, sink: &mut MemSink) -> Result<u64, LogError>
    requires { log.old ≡ fresh (record { vars = 1; constraints = klause 1 (record { variable = 1; positive = true } ∷ []) ∷ klause 1 (record { variable = 1; positive = false } ∷ []) ∷ [] }) }
{
    let root = log.define(Lit::new(1, true), Arm::True, Arm::False, sink)?;
    let unit = log.unfold(1, root, sink)?;
    let klause = Constraint::new(1, Vec::from_slice(alloc, &[Lit::new(1, true)])?);
    log.klause(klause, root, unit, sink)
}

// `p knf 3 2`, `k 2 1 2 3 0`, `k 2 -1 -2 -3 0`
fn twice(alloc: Global) -> Result<Formula, NoMemory>
    ensures { IfOk result (λ f. f ≡ record { vars = 3; constraints = klause 2 (record { variable = 1; positive = true } ∷ record { variable = 2; positive = true } ∷ record { variable = 3; positive = true } ∷ []) ∷ klause 2 (record { variable = 1; positive = false } ∷ record { variable = 2; positive = false } ∷ record { variable = 3; positive = false } ∷ []) ∷ [] }) }
{
    let mut f = Formula::new(alloc, 3);
    let on = vec![in alloc; Lit::new(1, true), Lit::new(2, true), Lit::new(3, true)]?;
    f.push(Constraint::new(2, on))?;
    let off = vec![in alloc; Lit::new(1, false), Lit::new(2, false), Lit::new(3, false)]?;
    f.push(Constraint::new(2, off))?;
    Ok(f)
}

// the arm that is a variable
fn arm(var: u64) -> Arm
    requires { 1 ≤ var }
    ensures { result ≡ arm.Lit (record { variable = var; positive = true }) }
{
    Arm::Lit(Lit::new(var, true))
}

// the clause of a variable alone
fn unit(alloc: Global, var: u64) -> Result<Constraint, NoMemory>
    requires { 1 ≤ var }
    ensures { IfOk result (λ c. c ≡ klause 1 (record { variable = var; positive = true } ∷ [])) }
{
    Ok(Constraint::new(1, vec![in alloc; Lit::new(var, true)]?))
}

// the hints, in their order
fn ids(alloc: Global, hints: &[u64]) -> Result<Ids, NoMemory>
    ensures { IfOk result (λ list. list ≡ hints.now) }
{
    Ok(Ids::new(Vec::from_slice(alloc, hints)?))
}

// defines the grid of the first klause, unfolds the klause, and refutes both
fn refute_twice(alloc: Global, log: &mut Log, sink: &mut MemSink) -> Result<u64, LogError>
    requires { log.old ≡ fresh (record { vars = 3; constraints = klause 2 (record { variable = 1; positive = true } ∷ record { variable = 2; positive = true } ∷ record { variable = 3; positive = true } ∷ []) ∷ klause 2 (record { variable = 1; positive = false } ∷ record { variable = 2; positive = false } ∷ record { variable = 3; positive = false } ∷ []) ∷ [] }) }
{
    log.define(Lit::new(3, true), Arm::True, Arm::False, sink)?;
    log.define(Lit::new(2, true), arm(4), Arm::False, sink)?;
    log.define(Lit::new(2, true), Arm::True, arm(4), sink)?;
    let root = log.define(Lit::new(1, true), arm(6), arm(5), sink)?;
    log.unfold(1, root, sink)?;
    let one = log.lemma(unit(alloc, 1)?, ids(alloc, &[1, 2])?, sink)?;
    let two = log.lemma(unit(alloc, 2)?, ids(alloc, &[1, 2])?, sink)?;
    let empty = Constraint::new(1, Vec::new(alloc));
    log.lemma(empty, ids(alloc, &[one, two, 2])?, sink)
}

// deletes the first id, if it is live
fn forget(alloc: Global, log: &mut Log, sink: &mut MemSink) -> Result<(), LogError>
    requires { log.old.failed ≡ false }
{
    if log.live(1).is_none() {
        return Ok(());
    }
    log.delete(Ids::new(Vec::from_slice(alloc, &[1])?), sink)
}

#[test]
fn a_proof_is_written(rt: HostRuntime) -> Result<(), Fail> {
    let alloc = rt.alloc();
    let f = contradiction(alloc)?;
    let mut sink = MemSink::new(alloc, 99, 6, Vec::new(alloc))?;
    let Ok(mut log) = Log::new(alloc, &f, &mut sink) else {
        return Err("the header is written".into());
    };
    assert_eq!(rt; refute(alloc, &mut log, false, &mut sink), Ok(3));
    assert!(rt; log.refuted() && !log.failed() && log.next_id() == 4 && log.vars() == 1);
    if !log.failed() {
        assert_eq!(rt; forget(alloc, &mut log, &mut sink), Ok(()));
    }
    assert!(rt; log.live(1).is_none() && log.live(3).is_some());
    assert_eq!(rt; sink.written(), b"p kpf 1 2\nr 0 1 2 0\nx 1 0\n".as_slice());
    Ok(())
}

#[test]
fn a_learned_clause_is_written(rt: HostRuntime) -> Result<(), Fail> {
    let alloc = rt.alloc();
    let f = contradiction(alloc)?;
    let mut sink = MemSink::new(alloc, 99, 6, Vec::new(alloc))?;
    let Ok(mut log) = Log::new(alloc, &f, &mut sink) else {
        return Err("the header is written".into());
    };
    assert_eq!(rt; refute(alloc, &mut log, true, &mut sink), Ok(3));
    assert!(rt; log.refuted() && log.next_id() == 4 && log.live(3).is_some());
    assert_eq!(rt; sink.written(), b"p kpf 1 2\nl 0 1 2 0\n".as_slice());
    Ok(())
}

#[test]
fn a_klause_is_counted(rt: HostRuntime) -> Result<(), Fail> {
    let alloc = rt.alloc();
    let f = contradiction(alloc)?;
    let mut sink = MemSink::new(alloc, 99, 6, Vec::new(alloc))?;
    let Ok(mut log) = Log::new(alloc, &f, &mut sink) else {
        return Err("the header is written".into());
    };
    assert_eq!(rt; count(alloc, &mut log, &mut sink), Ok(8));
    assert!(rt; log.next_id() == 9 && log.vars() == 2 && !log.refuted());
    assert_eq!(rt;
        sink.written(),
        b"p kpf 1 2\nd 1 T F\ng 1 2\nk 1 1 0 2 7\n".as_slice()
    );
    Ok(())
}

#[test]
fn a_klause_is_unfolded(rt: HostRuntime) -> Result<(), Fail> {
    let alloc = rt.alloc();
    let f = twice(alloc)?;
    let mut sink = MemSink::new(alloc, 199, 6, Vec::new(alloc))?;
    let Ok(mut log) = Log::new(alloc, &f, &mut sink) else {
        return Err("the header is written".into());
    };
    assert_eq!(rt; refute_twice(alloc, &mut log, &mut sink), Ok(22));
    assert!(rt; log.refuted());
    assert_eq!(rt;
        sink.written(),
        b"p kpf 3 2\nd 3 T F\nd 2 4 F\nd 2 T 4\nd 1 6 5\ng 1 7\nr 1 0 1 2 0\nr 2 0 1 2 0\nr 0 20 21 2 0\n".as_slice()
    );
    Ok(())
}

#[test]
fn a_sink_fails(rt: HostRuntime) -> Result<(), Fail> {
    let alloc = rt.alloc();
    let f = contradiction(alloc)?;
    let mut sink = MemSink::new(alloc, 99, 6, vec![in alloc; 2]?)?;
    assert_eq!(rt; Log::new(alloc, &f, &mut sink).err(), Some(LogError::Fault));
    assert_eq!(rt; sink.written(), b"p kpf ".as_slice());
    let mut sink = MemSink::new(alloc, 99, 6, vec![in alloc; 4]?)?;
    let Ok(mut log) = Log::new(alloc, &f, &mut sink) else {
        return Err("the header is written".into());
    };
    assert_eq!(rt;
        refute(alloc, &mut log, true, &mut sink),
        Err(LogError::Fault)
    );
    assert!(rt; log.failed());
    assert_eq!(rt; sink.written(), b"p kpf 1 2\nl 0 1 ".as_slice());
    Ok(())
}
