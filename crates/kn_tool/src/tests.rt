//! Each command but `work` through `run`, over sources and sinks in memory; written proofs are checked again.
mod faults;
mod solving;

use crate::{Answer, Which, run};
use kn_bytes::{MemSink, MemSource};
use kn_format::read_formula;
use kn_logic::{Assignment, satisfies};
use kn_text::{first_line, first_word, literal};
use std::alloc::{AllocError, Global};
use std::test::Fail;

const UNIT_FILE: &str = "p cnf 1 2\n1 0\n-1 0\n";

const UNIT_PROOF: &str = "p kpf 1 2\nr 0 1 2 0\n";

const TWO_OF_THREE: &str = "p knf 3 2\nk 2 1 2 3 0\nk 2 -1 -2 -3 0\n";

const PIGEONS: &str =
    "p knf 12 7\n1 2 3 0\n4 5 6 0\n7 8 9 0\n10 11 12 0\nk 3 -1 -4 -7 -10 0\nk 3 -2 -5 -8 -11 0\nk 3 -3 -6 -9 -12 0\n";

const PAIRS: &str = "p cnf 3 6\n-1 -2 0\n-1 -3 0\n-2 -3 0\n1 2 0\n1 3 0\n2 3 0\n";

const EACH_PAIR: &[u8] = b"p cnf 2 4\n1 2 0\n1 -2 0\n-1 2 0\n-1 -2 0\n";

/// What a run answered and wrote.
#[derive(Drop)]
struct Seen {
    answer: Answer,
    text: Vec<u8>,
    proof: Vec<u8>,
}

/// A source of a text, in pieces of three bytes, that fails at its first call where `fails`.
fn source(alloc: Global, text: &str, fails: bool) -> Result<MemSource, AllocError> {
    let mut failing = Vec::new(alloc);
    if fails {
        failing.push(1)?;
    }
    Ok(MemSource::new(Vec::from_slice(alloc, text.as_bytes())?, 3, failing))
}

/// A source of bytes that does not fail.
fn source_of(alloc: Global, bytes: &[u8]) -> Result<MemSource, AllocError> {
    Ok(MemSource::new(Vec::from_slice(alloc, bytes)?, 5, Vec::new(alloc)))
}

fn run_on(
    alloc: Global,
    words: &[&str],
    formula: MemSource,
    proof: MemSource,
) -> Result<Seen, AllocError> {
    let out = MemSink::new(alloc, 40_000, 7, Vec::new(alloc))?;
    let written = MemSink::new(alloc, 400_000, 4, Vec::new(alloc))?;
    run_into(alloc, words, formula, proof, out, written)
}

fn run_into(
    alloc: Global,
    words: &[&str],
    mut formula: MemSource,
    mut proof: MemSource,
    mut out: MemSink,
    mut written: MemSink,
) -> Result<Seen, AllocError> {
    let mut list = Vec::new(alloc);
    for word in words {
        list.push(Vec::from_slice(alloc, word.as_bytes())?)?;
    }
    let answer = run(
        alloc,
        &list,
        &mut formula,
        &mut proof,
        &mut out,
        &mut written,
    );
    let text = Vec::from_slice(alloc, out.written())?;
    let proof = Vec::from_slice(alloc, written.written())?;
    Ok(Seen {
        answer,
        text,
        proof,
    })
}

fn checked(alloc: Global, formula: &str, proof: &str) -> Result<Seen, AllocError> {
    run_on(
        alloc,
        &["check", "F", "P"],
        source(alloc, formula, false)?,
        source(alloc, proof, false)?,
    )
}

#[test]
fn check_tells_the_first_wrong_line(rt: HostRuntime) -> Result<(), Fail> {
    let cases = [
        (UNIT_FILE, UNIT_PROOF, "s VERIFIED\n"),
        (
            TWO_OF_THREE,
            "p kpf 3 2\nr 1 0 1 2 0\nr 2 0 1 2 0\nr 0 3 4 2 0\n",
            "s VERIFIED\n",
        ),
        (
            TWO_OF_THREE,
            "p kpf 3 2\nr 1 0 1 2 0\nr 2 0 1 2 0\nx 1 0\nr 0 3 4 1 0\n",
            "c line 5 cause 4\ns NOT VERIFIED\n",
        ),
        (
            TWO_OF_THREE,
            "p kpf 3 2\nr 1 0 1 2 0\nr 2 0 1 2 0\nx 1 1 0\nr 0 3 4 2 0\n",
            "c line 4 cause 4\ns NOT VERIFIED\n",
        ),
        (
            "p knf 4 3\nq 4 2 1 2 3 0\n4 0\nk 2 -1 -2 -3 0\n",
            "p kpf 4 3\nr 1 0 2 1 3 0\nr 2 0 2 1 3 0\nr 0 4 5 3 0\n",
            "s VERIFIED\n",
        ),
        (
            "p knf 3 3\nq 3 2 1 2 0\n-1 0\n3 0\n",
            "p kpf 3 3\nr 0 2 1 3 0\n",
            "s VERIFIED\n",
        ),
        (PAIRS, "p kpf 3 5\n", "c line 1 cause 1\ns NOT VERIFIED\n"),
        (PAIRS, "", "c line 0 cause 9\ns NOT VERIFIED\n"),
        (
            PAIRS,
            "p kpf 3 6\nr 0 1 0\n",
            "c line 2 cause 5\ns NOT VERIFIED\n",
        ),
        (
            PAIRS,
            "p kpf 3 6\nr 0 1\n",
            "c line 2 cause 2\ns NOT VERIFIED\n",
        ),
        (
            PAIRS,
            "p kpf 3 6\nr 4 0 1 0\n",
            "c line 2 cause 3\ns NOT VERIFIED\n",
        ),
        (
            PAIRS,
            "p kpf 3 6\np kpf 3 6\n",
            "c line 2 cause 1\ns NOT VERIFIED\n",
        ),
        (
            PAIRS,
            "c a proof\n\nd 1 T F\n",
            "c line 3 cause 1\ns NOT VERIFIED\n",
        ),
        (
            "p cnf 2 1\n0\n",
            "p kpf 2 1\n",
            "c line 1 cause 9\ns NOT VERIFIED\n",
        ),
        ("p cnf 2 1\n0\n", "p kpf 2 1\nr 0 1 0\n", "s VERIFIED\n"),
        (
            PAIRS,
            "p kpf 3 6\nd 3 F T\nd 2 F 4\nd 2 4 T\nd 1 5 6\nr -1 7 0 1 2 10 14 21 0\nr 7 0 23 22 18 17 3 10 0\nk 2 -1 -2 -3 0 7 24\nr 1 0 4 5 25 0\nr 0 26 25 6 0\n",
            "s VERIFIED\n",
        ),
        (
            PAIRS,
            "p kpf 3 6\nd 3 F T\nd 2 F 4\nd 2 4 T\nd 1 5 6\nr -1 7 0 1 2 10 14 21 0\nr 7 0 23 22 18 17 3 10 0\nk 3 -1 -2 -3 0 7 24\nr 1 0 4 5 25 0\nr 0 26 25 6 0\n",
            "c line 8 cause 7\ns NOT VERIFIED\n",
        ),
        (
            PAIRS,
            "p kpf 3 6\nd 4 T F\n",
            "c line 2 cause 3\ns NOT VERIFIED\n",
        ),
        (
            TWO_OF_THREE,
            "p kpf 3 2\nd 3 T F\nd 2 4 F\nd 2 T 4\nd 1 6 5\ng 1 7\nr 1 0 1 2 0\nr 2 0 1 2 0\nr 0 20 21 2 0\n",
            "s VERIFIED\n",
        ),
        (
            TWO_OF_THREE,
            "p kpf 3 2\nd 3 T F\nd 2 4 F\nd 2 T 4\nd 1 6 5\ng 2 7\nr 1 0 1 2 0\nr 2 0 1 2 0\nr 0 20 21 2 0\n",
            "c line 6 cause 7\ns NOT VERIFIED\n",
        ),
        (
            "p knf 3 3\nq 3 2 1 2 0\n-1 0\n3 0\n",
            "p kpf 3 3\nd 1 T F\ng 1 4\n",
            "c line 3 cause 8\ns NOT VERIFIED\n",
        ),
        (
            "p cnf 2 1\n1 0\n2 0\n",
            "p kpf 2 1\n",
            "c refused line 3 cause 9\n",
        ),
        ("", "", "c refused line 0 cause 1\n"),
    ];
    for (formula, proof, want) in cases {
        let seen = checked(rt.alloc(), formula, proof)?;
        assert_eq!(rt; seen.text.as_slice(), want.as_bytes(), "{formula} {proof}");
    }
    Ok(())
}

#[test]
fn a_proof_that_is_cut_is_wrong_where_it_ends(rt: HostRuntime) -> Result<(), Fail> {
    for size in 0..=UNIT_PROOF.len() {
        let (front, _) = UNIT_PROOF.as_bytes().split_at(size);
        let proof = MemSource::new(Vec::from_slice(rt.alloc(), front)?, 3, Vec::new(rt.alloc()));
        let want = match size {
            0 => Answer::NotVerified { line: 0, why: 9 },
            1..=8 => Answer::NotVerified { line: 1, why: 1 },
            9 | 10 => Answer::NotVerified { line: 1, why: 9 },
            11..=18 => Answer::NotVerified { line: 2, why: 2 },
            _ => Answer::Verified,
        };
        let formula = source(rt.alloc(), UNIT_FILE, false)?;
        let seen = run_on(rt.alloc(), &["check", "F", "P"], formula, proof)?;
        assert_eq!(rt; seen.answer, want, "{size}");
    }
    Ok(())
}

#[test]
fn trim_keeps_what_the_refutation_needs(rt: HostRuntime) -> Result<(), Fail> {
    let trimmed = "p kpf 3 2\nr 1 0 1 2 0\nr 2 0 1 2 0\nr 0 3 4 2 0\n";
    let cases = [
        (
            "p kpf 3 2\nr 1 0 1 2 0\nr 3 0 1 2 0\nr 2 0 1 2 0\nr 0 3 5 2 0\n",
            trimmed,
            0,
        ),
        (
            "p kpf 3 2\nd 3 T F\nr 1 0 1 2 0\nr 2 0 1 2 0\nx 3 0\nr 0 7 8 2 0\n",
            trimmed,
            0,
        ),
        (trimmed, trimmed, 0),
        (
            "p kpf 3 2\nr 1 0 1 2 0\nr 2 0 1 2 0\nx 1 0\nr 0 3 4 1 0\n",
            "c line 5 cause 4\ns NOT VERIFIED\n",
            30,
        ),
    ];
    for (proof, want, status) in cases {
        let seen = run_on(
            rt.alloc(),
            &["trim", "F", "P"],
            source(rt.alloc(), TWO_OF_THREE, false)?,
            source(rt.alloc(), proof, false)?,
        )?;
        assert_eq!(rt; seen.answer.status(), status, "{}", proof);
        assert_eq!(rt; seen.text.as_slice(), want.as_bytes(), "{}", proof);
        assert!(rt; seen.proof.is_empty());
    }
    Ok(())
}

#[test]
fn other_words_have_the_usage_line(rt: HostRuntime) -> Result<(), Fail> {
    let cases: [&[&str]; 19] = [
        &[],
        &["check", "F"],
        &["check", "F", "P", "X"],
        &["-check", "F", "P"],
        &["check", "", "P"],
        &["solve", "F"],
        &["solve", "F", ""],
        &["solve", "F", "P", "X"],
        &["solve", "F", "P", "--conflicts"],
        &["solve", "F", "P", "--conflicts", "-1"],
        &["solve", "F", "P", "--conflicts", "1000000000000000000"],
        &["solve", "F", "P", "--conflicts", "1", "--conflicts", "2"],
        &["solve", "F", "P", "--forget", "1", "--conflicts", ""],
        &["solve", "F", "P", "--forget", "1", "--conflicts", "2", "X"],
        &["convert"],
        &["convert", ""],
        &["convert", "F", "P"],
        &["trim", "F"],
        &["extract", "F", "P"],
    ];
    for words in cases {
        let formula = source(rt.alloc(), UNIT_FILE, true)?;
        let proof = source(rt.alloc(), UNIT_PROOF, true)?;
        let seen = run_on(rt.alloc(), words, formula, proof)?;
        assert_eq!(rt; seen.answer.status(), 2);
        assert_eq!(rt;
            seen.text.as_slice(),
            b"c usage: knf check F P | knf solve F P [--conflicts N] [--forget N] | knf extract F | knf convert F | knf work N | knf minimise F P [--conflicts N] | knf assume F P [--conflicts N] | knf trim F P\n".as_slice()
        );
    }
    Ok(())
}

#[test]
fn a_source_that_fails_is_named(rt: HostRuntime) -> Result<(), Fail> {
    let formula = source(rt.alloc(), UNIT_FILE, true)?;
    let proof = source(rt.alloc(), UNIT_PROOF, false)?;
    let first = run_on(rt.alloc(), &["check", "F", "P"], formula, proof)?;
    assert_eq!(rt; first.text.as_slice(), b"c read fault formula\n".as_slice());
    assert_eq!(rt; first.answer.status(), 3);
    let formula = source(rt.alloc(), UNIT_FILE, false)?;
    let proof = source(rt.alloc(), UNIT_PROOF, true)?;
    let second = run_on(rt.alloc(), &["check", "F", "P"], formula, proof)?;
    assert_eq!(rt; second.text.as_slice(), b"c read fault proof\n".as_slice());
    Ok(())
}

fn solved(alloc: Global, formula: &[u8], more: &[&str]) -> Result<Seen, AllocError> {
    let mut words = Vec::new(alloc);
    words.extend_from_slice(&["solve", "F", "P"])?;
    words.extend_from_slice(more)?;
    run_on(
        alloc,
        &words,
        source_of(alloc, formula)?,
        source(alloc, "", true)?,
    )
}

/// Whether the values behind the first line of a text satisfy a formula.
fn is_model(alloc: Global, formula: &[u8], text: &[u8]) -> Result<bool, AllocError> {
    let Ok(f) = read_formula(alloc, formula) else {
        return Ok(false);
    };
    let mut m = Assignment::new(alloc, f.vars(), false)?;
    let mut values = 0;
    let mut rest = text;
    while let Some((line, behind)) = first_line(rest) {
        rest = behind;
        let mut words = line;
        while let Some((word, more)) = first_word(words) {
            words = more;
            let Some(lit) = literal(word) else {
                continue;
            };
            if lit.var() <= m.vars() {
                m.set(lit.var(), lit.is_positive());
            }
            values = lit.var();
        }
    }
    Ok(values == f.vars() && m.vars() == f.vars() && satisfies(&f, &m))
}

/// What `check` says of a proof that was written.
fn rechecked(alloc: Global, formula: &[u8], proof: &[u8]) -> Result<Seen, AllocError> {
    run_on(
        alloc,
        &["check", "F", "P"],
        source_of(alloc, formula)?,
        source_of(alloc, proof)?,
    )
}

/// Whether the proof that was written is accepted.
fn is_proved(alloc: Global, formula: &[u8], proof: &[u8]) -> Result<bool, AllocError> {
    Ok(rechecked(alloc, formula, proof)?.answer == Answer::Verified)
}

#[test]
fn solve_finds_models_and_proofs(rt: HostRuntime) -> Result<(), Fail> {
    let cases = [
        ("p cnf 0 0\n", Answer::Model),
        ("p cnf 2 0\n", Answer::Model),
        ("p cnf 1 2\n1 0\n-1 0\n", Answer::Refuted),
        ("p cnf 2 1\n0\n", Answer::Refuted),
        ("p knf 1 1\nk 0 1 0\n", Answer::Model),
        ("p knf 1 1\nk 2 1 0\n", Answer::Refuted),
        ("p knf 0 1\nk 0 0\n", Answer::Model),
        ("p knf 4 2\nq 4 2 1 2 3 0\nk 2 -1 -2 -3 0\n", Answer::Model),
        (
            "p knf 4 3\nq 4 2 1 2 3 0\n4 0\nk 2 -1 -2 -3 0\n",
            Answer::Refuted,
        ),
        ("p knf 3 3\nq 3 2 1 2 0\n-1 0\n3 0\n", Answer::Refuted),
        ("p knf 2 1\nq -1 3 2 0\n", Answer::Model),
        (TWO_OF_THREE, Answer::Refuted),
        (PAIRS, Answer::Refuted),
        ("p knf 3 2\nk 2 1 2 3 0\nk 1 -1 -2 -3 0\n", Answer::Model),
        ("p cnf 1 1\n1 1 1 0\n", Answer::Model),
        ("p cnf 1 2\n1 1 0\n-1 -1 0\n", Answer::Refuted),
        ("p cnf 2 2\n1 -1 0\n-2 0\n", Answer::Model),
        (
            "p cnf 2 4\n1 2 0\n1 -2 0\n-1 2 0\n-1 -2 0\n",
            Answer::Refuted,
        ),
        ("p cnf 2 3\n1 2 0\n1 -2 0\n-1 2 0\n", Answer::Model),
        ("p cnf 3 3\n1 2 3 0\n-1 -2 0\n-3 1 0\n", Answer::Model),
        (
            "p cnf 3 8\n1 2 3 0\n1 2 -3 0\n1 -2 3 0\n1 -2 -3 0\n-1 2 3 0\n-1 2 -3 0\n-1 -2 3 0\n-1 -2 -3 0\n",
            Answer::Refuted,
        ),
        (
            "p cnf 3 7\n1 2 3 0\n1 2 -3 0\n1 -2 3 0\n1 -2 -3 0\n-1 2 3 0\n-1 2 -3 0\n-1 -2 3 0\n",
            Answer::Model,
        ),
        (
            "p knf 6 5\n1 2 0\n3 4 0\n5 6 0\nk 2 -1 -3 -5 0\nk 2 -2 -4 -6 0\n",
            Answer::Refuted,
        ),
        (
            "p knf 4 2\nk 3 1 2 3 4 0\nk 1 -1 -2 -3 -4 0\n",
            Answer::Model,
        ),
        (
            "p knf 4 2\nk 3 1 2 3 4 0\nk 2 -1 -2 -3 -4 0\n",
            Answer::Refuted,
        ),
    ];
    for (formula, want) in cases {
        let seen = solved(rt.alloc(), formula.as_bytes(), &[])?;
        assert_eq!(rt; seen.answer, want, "{formula}");
        assert_eq!(rt;
            is_model(rt.alloc(), formula.as_bytes(), &seen.text)?,
            want == Answer::Model,
            "{formula}"
        );
        assert_eq!(rt;
            is_proved(rt.alloc(), formula.as_bytes(), &seen.proof)?,
            want == Answer::Refuted,
            "{formula}"
        );
    }
    Ok(())
}

#[test]
fn solve_writes_its_texts(rt: HostRuntime) -> Result<(), Fail> {
    let empty = solved(rt.alloc(), b"p cnf 0 0\n", &[])?;
    assert_eq!(rt; empty.text.as_slice(), b"s SATISFIABLE\nv 0\n".as_slice());
    assert_eq!(rt; empty.proof.as_slice(), b"p kpf 0 0\n".as_slice());
    assert_eq!(rt; empty.answer.status(), 10);
    let refuted = solved(
        rt.alloc(),
        UNIT_FILE.as_bytes(),
        &["--forget", "0", "--conflicts", "7"],
    )?;
    assert_eq!(rt; refuted.text.as_slice(), b"s UNSATISFIABLE\n".as_slice());
    assert_eq!(rt; refuted.answer.status(), 20);
    let unknown = solved(rt.alloc(), EACH_PAIR, &["--conflicts", "0"])?;
    assert_eq!(rt; unknown.text.as_slice(), b"s UNKNOWN\n".as_slice());
    assert_eq!(rt; unknown.answer.status(), 0);
    assert_eq!(rt; unknown.proof.as_slice(), b"p kpf 2 4\n".as_slice());
    let refused = solved(rt.alloc(), b"p cnf 1 1\n2 0\n", &[])?;
    assert_eq!(rt;
        refused.text.as_slice(),
        b"c refused line 2 cause 6\n".as_slice()
    );
    assert_eq!(rt; refused.proof.len(), 0);
    Ok(())
}

#[test]
fn a_sink_of_the_proof_that_fails_is_named(rt: HostRuntime) -> Result<(), Fail> {
    let mut failing = Vec::new(rt.alloc());
    failing.push(2)?;
    let out = MemSink::new(rt.alloc(), 100, 7, Vec::new(rt.alloc()))?;
    let sink = MemSink::new(rt.alloc(), 100, 4, failing)?;
    let formula = source(rt.alloc(), UNIT_FILE, false)?;
    let unused = source(rt.alloc(), "", true)?;
    let seen = run_into(rt.alloc(), &["solve", "F", "P"], formula, unused, out, sink)?;
    assert_eq!(rt;
        seen.answer,
        Answer::WriteFault {
            which: Which::Proof
        }
    );
    assert_eq!(rt; seen.answer.status(), 4);
    assert_eq!(rt; seen.proof.as_slice(), b"p kp".as_slice());
    assert_eq!(rt; seen.text.len(), 0);
    Ok(())
}

fn converted(alloc: Global, formula: &str) -> Result<Seen, AllocError> {
    run_on(
        alloc,
        &["convert", "F"],
        source(alloc, formula, false)?,
        source(alloc, "", true)?,
    )
}

#[test]
fn convert_writes_clauses(rt: HostRuntime) -> Result<(), Fail> {
    let cases = [
        (
            "p knf 3 3\nk 1 1 2 3 0\nk 3 1 2 3 0\nk 2 1 2 3 0\n",
            "p cnf 5 9\n1 2 3 0\n1 0\n2 0\n3 0\n1 4 0\n2 5 0\n-4 5 0\n2 -4 0\n3 -5 0\n",
        ),
        (
            "p knf 4 1\nq 4 2 1 2 3 0\n",
            "p cnf 6 5\n-4 1 5 0\n-4 2 6 0\n-4 -5 6 0\n-4 2 -5 0\n-4 3 -6 0\n",
        ),
        (
            "p knf 2 2\nq 1 1 2 0\nq -1 3 2 0\n",
            "p cnf 2 2\n-1 2 0\n1 0\n",
        ),
        (
            "c a file\np cnf 3  2\n1 -2\n3 0 -1 0\n%\n0\n",
            "p cnf 3 2\n1 -2 3 0\n-1 0\n",
        ),
        ("p cnf 1000000 0\n", "p cnf 1000000 0\n"),
        ("p cnf 1000001 0\n", "c refused line 1 cause 3\n"),
        ("p cnf 1 10000001\n", "c refused line 1 cause 4\n"),
        (
            "c a file\np cnf 3  3\n1 -2\n3 0 -1 0\n%\n0\n",
            "c refused line 5 cause 5\n",
        ),
        ("", "c refused line 0 cause 1\n"),
        ("p knf 2\n", "c refused line 1 cause 2\n"),
        ("p cnf 2 1\n3 0\n", "c refused line 2 cause 6\n"),
        ("p knf 2 1\nk 1000001 1 0\n", "c refused line 2 cause 7\n"),
        ("p knf 2 1\nk 2 1 -1 2 0\n", "c refused line 2 cause 8\n"),
        ("p cnf 2 1\n1 0 2 0\n", "c refused line 2 cause 9\n"),
        ("p cnf 2 1\n1 2\n", "c refused line 2 cause 10\n"),
        ("p cnf 2 2\n1 2 0\n", "c refused line 2 cause 11\n"),
        ("p knf 2 1\nq 1 1 -1 2 0\n", "c refused line 2 cause 8\n"),
        ("p cnf 2 1\nq 1 1 2 0\n", "c refused line 2 cause 5\n"),
        ("p knf 2 1\nq 0 1 2 0\n", "c refused line 2 cause 5\n"),
        ("p knf 2 1\nq 3 1 2 0\n", "c refused line 2 cause 6\n"),
        ("p knf 2 1\nq 1 1000001 2 0\n", "c refused line 2 cause 7\n"),
    ];
    for (formula, want) in cases {
        let seen = converted(rt.alloc(), formula)?;
        assert_eq!(rt; seen.text.as_slice(), want.as_bytes(), "{formula}");
        assert_eq!(rt; seen.proof.len(), 0);
    }
    Ok(())
}

/// Appends a klause over the variables from the first on, so many.
fn push_klause(
    alloc: Global,
    text: &mut String,
    bound: u64,
    first: u64,
    count: u64,
    positive: bool,
) -> Result<(), AllocError> {
    text.push_str(&format!(in alloc; "k {bound}")?)?;
    for offset in 0..count {
        let variable = first.saturating_add(offset);
        let sign = if positive { "" } else { "-" };
        text.push_str(&format!(in alloc; " {sign}{variable}")?)?;
    }
    text.push_str(" 0\n")
}

/// Appends klauses which say of five rows of 12 variables that exactly 3 are true in each.
fn push_rows(alloc: Global, text: &mut String) -> Result<(), AllocError> {
    for row in 0..5 {
        push_klause(alloc, text, 9, 12 * row + 1, 12, false)?;
        push_klause(alloc, text, 3, 12 * row + 1, 12, true)?;
    }
    Ok(())
}

#[test]
fn convert_numbers_its_counters(rt: HostRuntime) -> Result<(), Fail> {
    let alloc = rt.alloc();
    let pigeons = converted(alloc, PIGEONS)?;
    assert_eq!(rt; pigeons.text.starts_with(b"p cnf 21 28\n"), true);
    let mut rows = String::new(alloc);
    rows.push_str("p knf 60 10\n")?;
    push_rows(alloc, &mut rows)?;
    let counted = converted(alloc, &rows)?;
    assert_eq!(rt; counted.answer, Answer::Done);
    assert_eq!(rt; counted.text.starts_with(b"p cnf 720 1370\n"), true);
    let mut wide = String::new(alloc);
    wide.push_str("p knf 7000 1\n")?;
    push_klause(alloc, &mut wide, 3500, 1, 7000, true)?;
    let refused = converted(alloc, &wide)?;
    assert_eq!(rt;
        refused.text.as_slice(),
        b"c refused line 0 cause 12\n".as_slice()
    );
    assert_eq!(rt; refused.answer.status(), 1);
    Ok(())
}

fn extracted(alloc: Global, formula: &[u8]) -> Result<Seen, AllocError> {
    let formula = MemSource::new(Vec::from_slice(alloc, formula)?, 3, Vec::new(alloc));
    run_on(alloc, &["extract", "F"], formula, source(alloc, "", true)?)
}

#[test]
fn extract_writes_hidden_counts(rt: HostRuntime) -> Result<(), Fail> {
    let cases = [
        (
            "p cnf 5 6\n1 2 3 0\n-1 4 0\n-4 5 0\n-2 5 0\n-2 -4 0\n-3 -5 0\n",
            "c group 4 5\np knf 5 2\n1 2 3 0\nk 2 -1 -2 -3 0\n",
            0,
        ),
        (
            "p cnf 3 5\n-1 -2 0\n-1 -3 0\n-2 -1 0\n-2 -3 0\n1 2 3 0\n",
            "p knf 3 2\n1 2 3 0\nk 2 -1 -2 -3 0\n",
            0,
        ),
        (
            "p knf 5 7\n1 2 3 0\n-1 4 0\n-4 5 0\n-2 5 0\n-2 -4 0\n-3 -5 0\nq 4 1 5 0\n",
            "p knf 5 5\n1 2 3 0\n-1 4 0\n-3 -5 0\nq 4 1 5 0\nk 2 -2 -4 5 0\n",
            0,
        ),
        ("p cnf 2 1\n1 -1 2 2 0\n", "p knf 2 1\n1 -1 2 2 0\n", 0),
        ("p knf 2 1\nk 2 1 -1 2 0\n", "c refused line 2 cause 8\n", 1),
    ];
    for (formula, want, status) in cases {
        let seen = extracted(rt.alloc(), formula.as_bytes())?;
        assert_eq!(rt; seen.text.as_slice(), want.as_bytes(), "{formula}");
        assert_eq!(rt; seen.answer.status(), status, "{formula}");
    }
    Ok(())
}

/// Appends the line of a group, whose variables are so many from the first on.
fn push_group(alloc: Global, text: &mut String, first: u64, count: u64) -> Result<(), AllocError> {
    text.push_str("c group")?;
    for offset in 0..count {
        let variable = first.saturating_add(offset);
        text.push_str(&format!(in alloc; " {variable}")?)?;
    }
    text.push_str("\n")
}

#[test]
fn extract_undoes_what_convert_does(rt: HostRuntime) -> Result<(), Fail> {
    let alloc = rt.alloc();
    let clauses = converted(alloc, PIGEONS)?;
    let pigeons = extracted(alloc, &clauses.text)?;
    assert_eq!(rt;
        pigeons.text.as_slice(),
        b"c group 7 8 9 10 11 12 13 14 15 16 17 18 19 20 21\np knf 21 3\n1 2 3 0\n4 5 6 0\nk 5 -1 -2 -3 -4 -5 -6 0\n".as_slice()
    );
    let mut rows = String::new(alloc);
    rows.push_str("p knf 60 10\n")?;
    push_rows(alloc, &mut rows)?;
    let mut want = String::new(alloc);
    for row in 0..5 {
        push_group(alloc, &mut want, 132 * row + 61, 33)?;
        push_group(alloc, &mut want, 132 * row + 94, 99)?;
    }
    want.push_str("p knf 720 10\n")?;
    push_rows(alloc, &mut want)?;
    let clauses = converted(alloc, &rows)?;
    let seen = extracted(alloc, &clauses.text)?;
    assert_eq!(rt; seen.text.as_slice(), want.as_bytes());
    Ok(())
}
