//! What `solve` makes of hidden counts.
use super::{
    PAIRS, PIGEONS, converted, is_model, is_proved, push_rows, rechecked, run_into, solved, source,
    source_of,
};
use crate::{Answer, Which};
use kn_bytes::MemSink;
use kn_text::first_line;
use std::test::Fail;

/// How many lines of a text begin so.
fn count_lines(text: &[u8], front: &[u8]) -> u64 {
    let mut count: u64 = 0;
    let mut rest = text;
    while let Some((line, behind)) = first_line(rest) {
        rest = behind;
        if line.starts_with(front) {
            count = count.saturating_add(1);
        }
    }
    count
}

#[test]
fn hidden_variables_get_values_by_the_rule(rt: HostRuntime) -> Result<(), Fail> {
    let formula = b"p cnf 5 6\n1 2 3 0\n-1 4 0\n-4 5 0\n-2 5 0\n-2 -4 0\n-3 -5 0\n";
    let texts = [
        "s SATISFIABLE\nv 1 -2 -3 4 5 0\n",
        "s SATISFIABLE\nv -1 2 -3 -4 5 0\n",
        "s SATISFIABLE\nv -1 -2 3 -4 -5 0\n",
    ];
    let seen = solved(rt.alloc(), formula, &[])?;
    assert_eq!(rt; seen.answer.status(), 10);
    let mut among = false;
    for text in texts {
        among = among || seen.text.as_slice() == text.as_bytes();
    }
    assert!(rt; among);
    Ok(())
}

#[test]
fn pigeons_in_clauses_are_refuted(rt: HostRuntime) -> Result<(), Fail> {
    let alloc = rt.alloc();
    let clauses = converted(alloc, PIGEONS)?;
    assert!(rt; clauses.text.starts_with(b"p cnf 21 28\n"));
    let seen = solved(alloc, &clauses.text, &[])?;
    assert_eq!(rt; seen.answer.status(), 20);
    assert!(rt; is_proved(alloc, &clauses.text, &seen.proof)?);
    let none = solved(alloc, &clauses.text, &["--conflicts", "0"])?;
    assert!(rt; none.answer == Answer::Unknown { learned: 0 } || none.answer == Answer::Refuted);
    assert_eq!(rt; count_lines(&none.proof, b"l "), 0);
    Ok(())
}

#[test]
fn what_is_forgotten_still_steps(rt: HostRuntime) -> Result<(), Fail> {
    let alloc = rt.alloc();
    let clauses = converted(alloc, PIGEONS)?;
    let few = solved(alloc, &clauses.text, &["--forget", "1", "--conflicts", "5"])?;
    assert!(rt; few.answer.status() == 20 || few.answer.status() == 0);
    assert!(rt; count_lines(&few.proof, b"l ") <= 5);
    let end = Answer::NotVerified {
        line: count_lines(&few.proof, b""),
        why: 9,
    };
    let again = rechecked(alloc, &clauses.text, &few.proof)?.answer;
    assert!(rt; again == Answer::Verified || again == end);
    Ok(())
}

#[test]
fn each_pair_group_has_its_klause(rt: HostRuntime) -> Result<(), Fail> {
    let seen = solved(rt.alloc(), PAIRS.as_bytes(), &[])?;
    assert_eq!(rt; seen.answer.status(), 20);
    assert_eq!(rt; count_lines(&seen.proof, b"k "), 2);
    assert!(rt; is_proved(rt.alloc(), PAIRS.as_bytes(), &seen.proof)?);
    Ok(())
}

#[test]
fn rows_in_clauses_have_a_model(rt: HostRuntime) -> Result<(), Fail> {
    let alloc = rt.alloc();
    let mut rows = String::new(alloc);
    rows.push_str("p knf 60 10\n")?;
    push_rows(alloc, &mut rows)?;
    let clauses = converted(alloc, &rows)?;
    assert!(rt; clauses.text.starts_with(b"p cnf 720 1370\n"));
    let seen = run_into(
        alloc,
        &["solve", "F", "P"],
        source_of(alloc, &clauses.text)?,
        source(alloc, "", true)?,
        MemSink::new(alloc, 4000, 4096, Vec::new(alloc))?,
        MemSink::new(alloc, 60_000_000, 4096, Vec::new(alloc))?,
    )?;
    assert_eq!(rt; seen.answer.status(), 10);
    assert!(rt; is_model(alloc, &clauses.text, &seen.text)?);
    Ok(())
}

#[test]
fn whole_lines_stand_before_a_fault(rt: HostRuntime) -> Result<(), Fail> {
    let alloc = rt.alloc();
    let mut failing = Vec::new(alloc);
    failing.push(3)?;
    let seen = run_into(
        alloc,
        &["solve", "F", "P"],
        source(alloc, PAIRS, false)?,
        source(alloc, "", true)?,
        MemSink::new(alloc, 100, 4096, Vec::new(alloc))?,
        MemSink::new(alloc, 4000, 4096, failing)?,
    )?;
    assert_eq!(rt;
        seen.answer,
        Answer::WriteFault {
            which: Which::Proof
        }
    );
    assert!(rt; seen.text.is_empty());
    assert!(rt; seen.proof.starts_with(b"p kpf 3 6\n"));
    assert!(rt; seen.proof.ends_with(b"\n"));
    assert_eq!(rt; count_lines(&seen.proof, b""), 2);
    Ok(())
}
