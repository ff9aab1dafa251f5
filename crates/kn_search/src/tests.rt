//! Searches on small files: what they find, and the proofs that they write.
ghost use Rattle.std.specs.Prelude.{◌≡◌, ◌≤◌, ◌∷◌, [], ◌^◌, IfOk};
ghost use Rattle.kn_logic.specs.Literals.{IsKnown};

mod guessing;
mod newness;
mod small;

use super::*;
use kn_bytes::MemSink;
use kn_log::Log;
use kn_logic::{Assignment, Constraint, Formula, Lit, NoMemory, satisfies};
use kn_rules::{Checked, check};
use std::alloc::Global;
use std::test::Fail;

// what a search answers on a formula, whose proof is written to the sink
fn searched(
    alloc: Global,
    f: &Formula,
    conflicts: u64,
    forget: u64,
    sink: &mut MemSink,
) -> Result<Outcome, SearchError>
    requires { f.now.vars ≤ 2 ^ 32 }
{
    let options = Options { conflicts, forget };
    let mut log = Log::new(alloc, f, sink)?;
    let mut engine = engine_of(alloc, f)?;
    search(alloc, &mut engine, &mut log, sink, &options)
}

// a sink with room for the proof of a small file, whose calls of these numbers fail
fn sink(alloc: Global, failing: &[u64]) -> Result<MemSink, NoMemory> {
    MemSink::new(alloc, 1 << 16, 1 << 16, Vec::from_slice(alloc, failing)?)
}

// the literals of the variables from 1 to 6
fn six(alloc: Global, positive: bool) -> Result<Vec<Lit>, NoMemory>
    ensures { IfOk result (λ lits. lits.items ≡ record { variable = 1; positive = positive } ∷ record { variable = 2; positive = positive } ∷ record { variable = 3; positive = positive } ∷ record { variable = 4; positive = positive } ∷ record { variable = 5; positive = positive } ∷ record { variable = 6; positive = positive } ∷ []) }
{
    Ok(vec![in alloc;
        Lit::new(1, positive),
        Lit::new(2, positive),
        Lit::new(3, positive),
        Lit::new(4, positive),
        Lit::new(5, positive),
        Lit::new(6, positive),
    ]?)
}

// six variables, of which at least so many are true, and at least so many false
fn counts(alloc: Global, on: u64, off: u64) -> Result<Formula, NoMemory>
    ensures { IfOk result (λ f. f.vars ≡ 6) }
{
    let mut f = Formula::new(alloc, 6);
    f.push(Constraint::new(on, six(alloc, true)?))?;
    f.push(Constraint::new(off, six(alloc, false)?))?;
    Ok(f)
}

// the number of variables that are true
fn true_count(m: &Assignment) -> u64 {
    let mut count: u64 = 0;
    for value in m.values() {
        if *value {
            count = count.saturating_add(1);
        }
    }
    count
}

// the number of lines that begin with a byte
fn lines_of(text: &[u8], kind: u8) -> u64 {
    let mut count: u64 = 0;
    let mut rest = text;
    while let Some((line, behind)) = kn_text::first_line(rest) {
        if line.first() == Some(&kind) {
            count = count.saturating_add(1);
        }
        rest = behind;
    }
    count
}

#[test]
fn models_satisfy(rt: HostRuntime) -> Result<(), Fail> {
    let alloc = rt.alloc();
    // bounds that leave no choice how many are true, and bounds that leave one
    for (on, off) in [(3, 3), (6, 0), (0, 6), (1, 2), (4, 1), (0, 0)] {
        let f = counts(alloc, on, off)?;
        let mut sink = sink(alloc, &[])?;
        let Ok(Outcome::Model(m)) = searched(alloc, &f, 100, 0, &mut sink) else {
            return Err("a model is found".into());
        };
        assert_eq!(rt; m.vars(), 6);
        assert!(rt; m.vars() == 6 && satisfies(&f, &m));
        assert!(rt; true_count(&m) >= on && true_count(&m).saturating_add(off) <= 6);
    }
    Ok(())
}

#[test]
fn refutations_are_verified(rt: HostRuntime) -> Result<(), Fail> {
    let alloc = rt.alloc();
    // the bounds, how many clauses are kept, and whether some are forgotten
    let table = [
        (4, 3, 0),
        (3, 4, 0),
        (6, 1, 0),
        (5, 3, 0),
        (4, 3, 1),
        (3, 4, 2),
        (4, 3, 99),
    ];
    for (on, off, forget) in table {
        let f = counts(alloc, on, off)?;
        let mut sink = sink(alloc, &[])?;
        let Ok(Outcome::Refuted) = searched(alloc, &f, 100, forget, &mut sink) else {
            return Err("it is refuted".into());
        };
        assert_eq!(rt; check(alloc, &f, sink.written())?, Checked::Verified);
        assert_eq!(rt; lines_of(sink.written(), b'r'), 1);
        assert_eq!(rt;
            lines_of(sink.written(), b'x') > 0,
            forget == 1 || forget == 2
        );
    }
    Ok(())
}

#[test]
fn budgets_are_spent(rt: HostRuntime) -> Result<(), Fail> {
    let alloc = rt.alloc();
    let f = counts(alloc, 4, 3)?;
    for budget in [0, 1, 2, 3] {
        let mut sink = sink(alloc, &[])?;
        let Ok(Outcome::Spent { learned }) = searched(alloc, &f, budget, 0, &mut sink) else {
            return Err("the budget is spent".into());
        };
        assert_eq!(rt; learned, budget);
        assert_eq!(rt; lines_of(sink.written(), b'l'), budget);
        assert_eq!(rt; lines_of(sink.written(), b'r'), 0);
    }
    Ok(())
}

#[test]
fn a_sink_fails(rt: HostRuntime) -> Result<(), Fail> {
    let alloc = rt.alloc();
    let f = counts(alloc, 4, 3)?;
    let mut whole = sink(alloc, &[])?;
    let answer = searched(alloc, &f, 100, 1, &mut whole);
    assert!(rt; matches!(answer, Ok(Outcome::Refuted)));
    for call in [1, 2, 3, 4] {
        let mut sink = sink(alloc, &[call])?;
        let answer = searched(alloc, &f, 100, 1, &mut sink);
        assert!(rt; matches!(answer, Err(SearchError::WriteFault)));
        assert!(rt; whole.written().starts_with(sink.written()));
        assert!(rt; sink.written().last() == Some(&b'\n') || call == 1);
    }
    Ok(())
}
