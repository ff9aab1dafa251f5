//! Small files, solved whole.
use super::*;
use kn_bytes::MemSink;
use kn_extract::{Extraction, extract};
use kn_format::{ReadError, read_formula};
use kn_logic::{Assignment, NoMemory, satisfies};
use kn_rules::{Checked, check};
use kn_search::{Options, Outcome, SearchError};
use std::alloc::Global;
use std::test::Fail;

// exactly one of 1, 2 and 3 is true: at most one by the variables 4 and 5
const COUNTER: &str = "p cnf 5 6\n1 2 3 0\n-1 4 0\n-4 5 0\n-2 5 0\n-2 -4 0\n-3 -5 0\n";

// at most one of 1, 2 and 3 is true, and at most one is false
const PAIRS: &str = "p cnf 3 6\n-1 -2 0\n-1 -3 0\n-2 -3 0\n1 2 0\n1 3 0\n2 3 0\n";

// the extraction of the formula that a text spells
fn extracted(alloc: Global, text: &str) -> Result<Extraction, ReadError> {
    let f = read_formula(alloc, text.as_bytes())?;
    Ok(extract(alloc, f)?)
}

// a sink that takes each line in one call, and whose calls of these numbers fail
fn sink(alloc: Global, failing: &[u64]) -> Result<MemSink, NoMemory> {
    MemSink::new(alloc, 4096, 4096, Vec::from_slice(alloc, failing)?)
}

// the answer to a small extraction, with a budget of so many learned clauses
fn solved(
    alloc: Global,
    e: &Extraction,
    conflicts: u64,
    sink: &mut MemSink,
) -> Result<Outcome, SearchError> {
    if e.original().vars() > 9 {
        return Err(SearchError::Memory);
    }
    let options = Options {
        conflicts,
        forget: 0,
    };
    solve(alloc, e, sink, &options)
}

// whether one of 1, 2 and 3 is true, and 4 and 5 have the values of the rule
fn is_by_rule(values: &[bool]) -> bool {
    values == [true, false, false, true, true].as_slice()
        || values == [false, true, false, false, true].as_slice()
        || values == [false, false, true, false, false].as_slice()
}

fn is_model(e: &Extraction, m: &Assignment) -> bool {
    e.original().vars() <= m.vars() && satisfies(e.original(), m)
}

#[test]
fn a_counter_has_a_model(rt: HostRuntime) -> Result<(), Fail> {
    let Ok(e) = extracted(rt.alloc(), COUNTER) else {
        return Err("no extraction".into());
    };
    let mut sink = sink(rt.alloc(), &[])?;
    let Ok(Outcome::Model(m)) = solved(rt.alloc(), &e, 100, &mut sink) else {
        return Err("no model".into());
    };
    assert!(rt; is_by_rule(m.values()));
    assert!(rt; is_model(&e, &m));
    Ok(())
}

// whether the checker accepts a text as a refutation of a small formula
fn is_accepted(alloc: Global, e: &Extraction, text: &[u8]) -> Result<bool, NoMemory> {
    if e.original().vars() > 9 {
        return Ok(false);
    }
    Ok(check(alloc, e.original(), text)? == Checked::Verified)
}

#[test]
fn pairs_are_refuted(rt: HostRuntime) -> Result<(), Fail> {
    let Ok(e) = extracted(rt.alloc(), PAIRS) else {
        return Err("no extraction".into());
    };
    let mut sink = sink(rt.alloc(), &[])?;
    let answer = solved(rt.alloc(), &e, 100, &mut sink);
    assert!(rt; matches!(answer, Ok(Outcome::Refuted)));
    assert!(rt; is_accepted(rt.alloc(), &e, sink.written())?);
    Ok(())
}

#[test]
fn no_budget_is_spent_at_once(rt: HostRuntime) -> Result<(), Fail> {
    let Ok(e) = extracted(rt.alloc(), PAIRS) else {
        return Err("no extraction".into());
    };
    let mut sink = sink(rt.alloc(), &[])?;
    match solved(rt.alloc(), &e, 0, &mut sink) {
        Ok(Outcome::Spent { learned }) => assert_eq!(rt; learned, 0),
        Ok(Outcome::Refuted) => assert!(rt; is_accepted(rt.alloc(), &e, sink.written())?),
        _ => return Err("neither spent nor refuted".into()),
    }
    Ok(())
}

#[test]
fn a_fault_of_the_sink_is_told(rt: HostRuntime) -> Result<(), Fail> {
    let Ok(e) = extracted(rt.alloc(), PAIRS) else {
        return Err("no extraction".into());
    };
    let mut whole = sink(rt.alloc(), &[])?;
    assert!(rt; solved(rt.alloc(), &e, 100, &mut whole).is_ok());
    // the header, a line of the opening, and one of the search
    for call in [1, 9, 18] {
        let mut sink = sink(rt.alloc(), &[call])?;
        let answer = solved(rt.alloc(), &e, 100, &mut sink);
        assert!(rt; matches!(answer, Err(SearchError::WriteFault)));
        assert!(rt; whole.written().starts_with(sink.written()));
    }
    Ok(())
}
