//! First faults, by line and cause, of texts that are cut or wrong in one place, and texts that are written again.
use super::*;
use kn_logic::{Assignment, Constraint, Formula, Lit};
use std::alloc::Global;
use std::test::Fail;

// The line and the cause of the first fault; no line and no cause where the text is read.
fn fault(alloc: Global, text: &[u8]) -> (u64, u8) {
    match read_formula(alloc, text) {
        Ok(_) => (0, 0),
        Err(ReadError::Refused(refusal)) => (refusal.line, refusal.why),
        Err(ReadError::Memory) => (0, 255),
    }
}

const WHOLE: &[u8; 19] = b"p cnf 1 2\n1 0\n-1 0\n";

const CUT: &[(u64, u8); 20] = &[
    (0, 1),
    (1, 2),
    (1, 2),
    (1, 2),
    (1, 2),
    (1, 2),
    (1, 2),
    (1, 2),
    (1, 2),
    (1, 11),
    (1, 11),
    (2, 10),
    (2, 10),
    (2, 11),
    (2, 11),
    (3, 5),
    (3, 10),
    (3, 10),
    (0, 0),
    (0, 0),
];

const HEADERS: &[(&[u8], (u64, u8))] = &[
    (b"\n\n", (2, 1)),
    (b"c only", (1, 1)),
    (b"1 0\np cnf 1 1\n1 0\n", (1, 1)),
    (b"c\n%\n", (2, 1)),
    (b"\n \r\nP cnf 0 0", (3, 1)),
    (b"p cnf 1\n", (1, 2)),
    (b"p cnf 1 1 1\n", (1, 2)),
    (b"p dnf 1 1\n", (1, 2)),
    (b"p cnf -1 0\n", (1, 2)),
    (b"p cnf 1 +0\n", (1, 2)),
    (b"p cnf 18446744073709551616 0\n", (1, 2)),
    (b"c\np cnf 1 %\n", (2, 2)),
    (b"p cnf 1000001 0\n", (1, 3)),
    (b"p knf 18446744073709551615 0\n", (1, 3)),
    (b"c\n\np cnf 1000001 10000001\n", (3, 3)),
    (b"p cnf 1000000 0\n", (0, 0)),
    (b"p\tknf 0001000000 000\r\n", (0, 0)),
    (b"p cnf 0 10000001\n", (1, 4)),
    (b"p knf 1000000 18446744073709551615", (1, 4)),
    (b"p cnf 5 0010000001\n", (1, 4)),
    (b"p cnf 1 10000000\n", (1, 11)),
    (b"p cnf 0 0\n% 1 2", (0, 0)),
];

const BODIES: &[(&[u8], (u64, u8))] = &[
    (b"p cnf 1 1\n-0 0\n", (2, 5)),
    (b"p cnf 1 1\n+1 0\n", (2, 5)),
    (b"p cnf 1 1\n1 % 0\n", (2, 5)),
    (b"p cnf 1 1\n1\n% 0\n", (3, 5)),
    (b"p cnf 1 2\n1 0\n%\n", (3, 5)),
    (b"p cnf 1 1\n1 0 %\n", (2, 5)),
    (b"p cnf 1 1\n1 00 x\n", (2, 5)),
    (b"p cnf 1 1\n1 c 0\n", (2, 5)),
    (b"p cnf 1 1\n18446744073709551616 0\n", (2, 5)),
    (b"p cnf 2 1\nk 1 2 0\n", (2, 5)),
    (b"p cnf 2 1\nq 1 1 2 0\n", (2, 5)),
    (b"p cnf 2 0\nk\n", (2, 5)),
    (b"p knf 2 1\n1 k 0\n", (2, 5)),
    (b"p knf 2 1\nk -1 2 0\n", (2, 5)),
    (b"p knf 2 1\nk 1 k 0\n", (2, 5)),
    (b"p knf 2 1\nq 0 1 2 0\n", (2, 5)),
    (b"p knf 2 1\nq 1 -1 2 0\n", (2, 5)),
    (b"p cnf 2 1\n3 0\n", (2, 6)),
    (b"p cnf 2 1\n1 -3 0\n", (2, 6)),
    (b"p cnf 2 0\n3\n", (2, 6)),
    (b"p cnf 0 1\n18446744073709551615 0\n", (2, 6)),
    (b"p knf 2 1\nq 3 1 2 0\n", (2, 6)),
    (b"p knf 2 1\nk 1 2 3 0\n", (2, 6)),
    (b"p knf 2 1\nq 1 1000001 2 0\n", (2, 7)),
    (b"p knf 2 1\nk 1000001 1 0\n", (2, 7)),
    (b"p knf 2 1\nk\n18446744073709551615 0\n", (3, 7)),
    (b"p knf 2 1\nk 1000000 1 0\n", (0, 0)),
    (b"p knf 2 1\nk 2 1 -1 2 0\n", (2, 8)),
    (b"p knf 2 1\nk 1 1 1 0\n", (2, 8)),
    (b"p knf 2 1\nk 2 1\n2\n-2 0\n", (4, 8)),
    (b"p knf 2 1\nq 1 1 -1 2 0\n", (2, 8)),
    (b"p knf 2 1\nq 1 1 2 1 0\n", (2, 8)),
    (b"p knf 2 2\nk 1 1 0 k 1 1 -1 0\n", (2, 8)),
    (b"p knf 2 2\nk 1 1 2 0 q 1 1 2 0\n", (0, 0)),
    (b"p cnf 2 1\n1 -1 2 2 0\n", (0, 0)),
    (b"p cnf 2 1\n1 0 2 0\n", (2, 9)),
    (b"p cnf 2 0\n0\n", (2, 9)),
    (b"p cnf 2 1\n1 0\nc\n\n-2 0\n", (5, 9)),
    (b"p knf 2 0\nk\n", (2, 9)),
    (b"p knf 2 1\n1 0 q\n", (2, 9)),
    (b"p cnf 2 1\n1 2\n", (2, 10)),
    (b"p cnf 2 1\n1 2\nc 0", (3, 10)),
    (b"p knf 2 1\nk", (2, 10)),
    (b"p knf 2 1\nq 1\n\n", (3, 10)),
    (b"p knf 2 1\nq 1 2\n", (2, 10)),
    (b"p cnf 2 2\n1 2 0\n", (2, 11)),
    (b"p cnf 0 1", (1, 11)),
    (b"p knf 1 2\n\n0\nc\n", (4, 11)),
    (b"c a file\np cnf 3  2\n1 -2\n3 0 -1 0\n%\n0\n", (0, 0)),
    (b"c a file\np cnf 3  3\n1 -2\n3 0 -1 0\n%\n0\n", (5, 5)),
    (b"p cnf 2 1\n1\nc 9 x\n2 0", (0, 0)),
    (b"p cnf 2 1\r\n\t1\t2 0\r\n", (0, 0)),
    (b"p cnf 2 2\n0 01 002 000", (0, 0)),
    (b"p cnf 1 1\n1 0\n%x\np cnf 9 9\n", (0, 0)),
    (b"p cnf 1 1\n1 0 c\n", (2, 5)),
    (b"c\nc\np knf 3 3\nk 0 0\nq -3 2 1 2 0\nk 7 1 0\n", (0, 0)),
];

#[test]
fn finds_first_faults(rt: HostRuntime) {
    for (m, want) in CUT.iter().enumerate() {
        assert_eq!(rt; fault(rt.alloc(), &WHOLE[..m]), *want, "cut at {m}");
    }
    for (text, want) in HEADERS {
        assert_eq!(rt; fault(rt.alloc(), text), *want, "of {} bytes", text.len());
    }
    for (text, want) in BODIES {
        assert_eq!(rt; fault(rt.alloc(), text), *want, "of {} bytes", text.len());
    }
}

// What is written of what was read; empty where either fails.
fn again(alloc: Global, text: &[u8]) -> Vec<u8> {
    match read_formula(alloc, text) {
        Ok(f) => write_knf(alloc, &f).unwrap_or(Vec::new(alloc)),
        Err(_) => Vec::new(alloc),
    }
}

#[test]
fn writes_what_is_read(rt: HostRuntime) {
    let alloc = rt.alloc();
    let klauses = b"p knf 4 4\n1 -2 0\nk 2 1 2 -3 0\nq -4 0 1 2 3 0\n0\n";
    assert_eq!(rt; again(alloc, klauses).as_slice(), klauses.as_slice());
    let clauses = b"c a file\np cnf 3  2\n1 -2\n3 0 -1 0\n%\n0\n";
    assert_eq!(rt;
        again(alloc, clauses).as_slice(),
        b"p knf 3 2\n1 -2 3 0\n-1 0\n".as_slice()
    );
    let unit = b"p knf 2 3\nk 01 2 1 0 q 1 1 0 k 0 0\n";
    assert_eq!(rt;
        again(alloc, unit).as_slice(),
        b"p knf 2 3\n2 1 0\nq 1 1 0\nk 0 0\n".as_slice()
    );
}

#[test]
fn writes_clauses_and_models(rt: HostRuntime) -> Result<(), Fail> {
    let alloc = rt.alloc();
    let mut f = Formula::new(alloc, 2);
    let lits = vec![in alloc; Lit::new(2, false), Lit::new(1, true)]
        .ok()
        .ok_or("memory")?;
    f.push(Constraint::new(1, lits)).ok().ok_or("memory")?;
    let text = write_cnf(alloc, &f).ok().ok_or("memory")?;
    assert_eq!(rt; text.as_slice(), b"p cnf 2 1\n-2 1 0\n".as_slice());
    let mut m = Assignment::new(alloc, 10, true).ok().ok_or("memory")?;
    let text = write_model(alloc, &m).ok().ok_or("memory")?;
    assert_eq!(rt;
        text.as_slice(),
        b"v 1 2 3 4 5 6 7 8 9 10\nv 0\n".as_slice()
    );
    m.set(3, false);
    let text = write_model(alloc, &m).ok().ok_or("memory")?;
    assert_eq!(rt;
        text.as_slice(),
        b"v 1 2 -3 4 5 6 7 8 9 10\nv 0\n".as_slice()
    );
    Ok(())
}

// How the error is printed; empty where the text is read, and where memory is short.
fn printed(alloc: Global, text: &[u8]) -> String {
    match read_formula(alloc, text) {
        Ok(_) => String::new(alloc),
        Err(error) => format!(in alloc; "{error}").unwrap_or(String::new(alloc)),
    }
}

#[test]
fn prints_errors(rt: HostRuntime) {
    let cases = [
        (b"c only".as_slice(), "line 1: no problem line"),
        (
            b"p cnf 1 1\n\n1 -2 0\n",
            "line 3: a variable above those of the problem line",
        ),
        (
            b"p knf 2 1\nk 2 1 -1 0\n",
            "line 2: a variable that the klause has named before",
        ),
        (b"p cnf 1 1\n1 0\n", ""),
    ];
    for (text, want) in cases {
        assert_eq!(rt; printed(rt.alloc(), text).as_str(), want);
    }
}
