//! The openings of small files: the ids that they answer, and their texts.
use super::*;
use kn_bytes::MemSink;
use kn_extract::{Extraction, extract};
use kn_format::{ReadError, read_formula};
use kn_log::{Log, LogError};
use kn_logic::{Constraint, Formula, Lit, NoMemory};
use kn_rules::{Checked, check};
use std::alloc::Global;
use std::test::Fail;

// exactly one of 1, 2 and 3 is true: at most one by the variables 4 and 5
const COUNTER: &str = "p cnf 5 6\n1 2 3 0\n-1 4 0\n-4 5 0\n-2 5 0\n-2 -4 0\n-3 -5 0\n";

// 1 and 2 are true, and at most one of 1, 2 and 3 is
const TWO: &str = "p cnf 5 7\n1 0\n2 0\n-1 4 0\n-4 5 0\n-2 5 0\n-2 -4 0\n-3 -5 0\n";

// at most one of 1, 2 and 3 is true, and at most one is false
const PAIRS: &str = "p cnf 3 6\n-1 -2 0\n-1 -3 0\n-2 -3 0\n1 2 0\n1 3 0\n2 3 0\n";

// the extraction of the formula that a text spells
fn extracted(alloc: Global, text: &str) -> Result<Extraction, ReadError> {
    let f = read_formula(alloc, text.as_bytes())?;
    Ok(extract(alloc, f)?)
}

// a sink that takes each line in one call, and whose calls of these numbers fail
fn sink(alloc: Global, failing: &[u64]) -> Result<MemSink, NoMemory> {
    MemSink::new(alloc, 4096, 4096, Vec::from_slice(alloc, failing)?)
}

// the log behind the opening of a small extraction, and the ids that it answers
fn opened(alloc: Global, e: &Extraction, sink: &mut MemSink) -> Result<(Log, Vec<u64>), LogError> {
    if e.original().vars() > 9 {
        return Err(LogError::Memory);
    }
    let mut log = Log::new(alloc, e.original(), sink)?;
    let ids = open(alloc, e, &mut log, sink)?;
    Ok((log, ids))
}

fn has_all(lits: &[Lit], wanted: &[Lit]) -> bool {
    for l in wanted {
        if !lits.contains(l) {
            return false;
        }
    }
    true
}

// whether both have one bound and the same literals, in any order
fn is_like(a: &Constraint, b: &Constraint) -> bool {
    a.bound() == b.bound() && has_all(a.lits(), b.lits()) && has_all(b.lits(), a.lits())
}

// whether the ids are live, one for each constraint of the formula, in their order
fn stand_for(log: &Log, ids: &[u64], f: &Formula) -> bool {
    if ids.len() != f.len() {
        return false;
    }
    for (place, id) in ids.iter().enumerate() {
        let (Some(live), Some(c)) = (log.live(*id), f.get(place)) else {
            return false;
        };
        if !is_like(live, c) {
            return false;
        }
    }
    true
}

#[test]
fn ids_are_those_of_what_remains(rt: HostRuntime) -> Result<(), Fail> {
    let alloc = rt.alloc();
    for (text, want) in [(COUNTER, [1, 129]), (PAIRS, [25, 44])] {
        let Ok(e) = extracted(alloc, text) else {
            return Err("no extraction".into());
        };
        let Ok((log, ids)) = opened(alloc, &e, &mut sink(alloc, &[])?) else {
            return Err("no opening".into());
        };
        assert!(rt; ids.as_slice() == want.as_slice(), "{text}");
        assert!(rt; stand_for(&log, &ids, e.formula()), "{text}");
    }
    Ok(())
}

// what the checker tells of the opening of a text's proof, with these lines behind it
fn rechecked(alloc: Global, text: &str, behind: &str) -> Result<Checked, LogError> {
    let Ok(e) = extracted(alloc, text) else {
        return Err(LogError::Memory);
    };
    let mut sink = sink(alloc, &[])?;
    opened(alloc, &e, &mut sink)?;
    let mut proof = Vec::from_slice(alloc, sink.written())?;
    proof.extend_from_slice(behind.as_bytes())?;
    if e.original().vars() > 9 {
        return Err(LogError::Memory);
    }
    Ok(check(alloc, e.original(), &proof)?)
}

#[test]
fn an_opening_begins_a_proof(rt: HostRuntime) -> Result<(), Fail> {
    let cases = [
        (COUNTER, "", Checked::NotVerified { line: 65, why: 9 }),
        (TWO, "l 0 1 2 130 0\n", Checked::Verified),
        (PAIRS, "", Checked::NotVerified { line: 17, why: 9 }),
        (PAIRS, "l 1 0 44 25 0\nr 0 45 25 44 0\n", Checked::Verified),
    ];
    for (text, behind, want) in cases {
        assert_eq!(rt;
            rechecked(rt.alloc(), text, behind),
            Ok(want),
            "{text} {behind}"
        );
    }
    Ok(())
}

// whether a fault in this call is told, and leaves whole lines of the text
fn leaves_lines(alloc: Global, e: &Extraction, text: &[u8], call: u64) -> Result<bool, NoMemory> {
    let mut sink = sink(alloc, &[call])?;
    let told = opened(alloc, e, &mut sink).err() == Some(LogError::Fault);
    let left = sink.written();
    Ok(told && text.starts_with(left) && (left.is_empty() || left.ends_with(b"\n")))
}

#[test]
fn a_fault_leaves_whole_lines(rt: HostRuntime) -> Result<(), Fail> {
    let alloc = rt.alloc();
    let Ok(e) = extracted(alloc, PAIRS) else {
        return Err("no extraction".into());
    };
    let mut whole = sink(alloc, &[])?;
    assert!(rt; opened(alloc, &e, &mut whole).is_ok());
    // one call for each of 17 lines
    for call in 1..18 {
        assert!(rt; leaves_lines(alloc, &e, whole.written(), call)?, "{call}");
    }
    let mut third = sink(alloc, &[3])?;
    assert!(rt; opened(alloc, &e, &mut third).is_err());
    assert_eq!(rt; third.written(), b"p kpf 3 6\nd -3 T F\n".as_slice());
    Ok(())
}
