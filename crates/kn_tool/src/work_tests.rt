//! `work` through `run`, over sources and sinks in memory.
ghost use Rattle.std.specs.Prelude.{◌≤◌};

use crate::{Answer, Which, names, run};
use kn_bytes::{GrowSink, MemSink, MemSource, Sink};
use kn_extract::extract;
use kn_format::write_cnf;
use kn_gen::{blocks_are_counted, make_formula};
use std::alloc::{AllocError, Global};
use std::test::Fail;

/// What a run answered and wrote to standard output.
#[derive(Drop)]
struct Seen {
    answer: Answer,
    text: Vec<u8>,
}

fn words_of(alloc: Global, words: &[&str]) -> Result<Vec<Vec<u8>>, AllocError> {
    let mut list = Vec::new(alloc);
    for word in words {
        list.push(Vec::from_slice(alloc, word.as_bytes())?)?;
    }
    Ok(list)
}

fn source(alloc: Global, text: &[u8]) -> Result<MemSource, AllocError> {
    Ok(MemSource::new(Vec::from_slice(alloc, text)?, 4096, Vec::new(alloc)))
}

/// A source that fails at its first call.
fn broken(alloc: Global) -> Result<MemSource, AllocError> {
    let mut failing = Vec::new(alloc);
    failing.push(1)?;
    Ok(MemSource::new(Vec::new(alloc), 1, failing))
}

/// A run with these words, and sources that fail where they are asked.
fn run_alone<P: Sink>(alloc: Global, words: &[&str], proof: &mut P) -> Result<Seen, AllocError> {
    let list = words_of(alloc, words)?;
    let mut out = GrowSink::new(alloc);
    let answer = run(
        alloc,
        &list,
        &mut broken(alloc)?,
        &mut broken(alloc)?,
        &mut out,
        proof,
    );
    let text = Vec::from_slice(alloc, out.written())?;
    Ok(Seen { answer, text })
}

/// Whether a text is accepted as a proof of the generated formula, as its clauses are written.
fn is_proved(alloc: Global, blocks: u32, proof: &[u8]) -> Result<bool, AllocError>
    requires first { 1 ≤ blocks }
    requires last { blocks ≤ 200 }
{
    let text = write_cnf(alloc, &make_formula(alloc, blocks)?)?;
    let list = words_of(alloc, &["check", "F", "P"])?;
    let answer = run(
        alloc,
        &list,
        &mut source(alloc, &text)?,
        &mut source(alloc, proof)?,
        &mut GrowSink::new(alloc),
        &mut GrowSink::new(alloc),
    );
    Ok(answer == Answer::Verified)
}

#[test]
fn work_refutes_one_block(rt: HostRuntime) -> Result<(), Fail> {
    let alloc = rt.alloc();
    let mut proof = GrowSink::new(alloc);
    let seen = run_alone(alloc, &["work", "1"], &mut proof)?;
    assert_eq!(rt;
        seen.text.as_slice(),
        b"c blocks 1\nc variables 57\nc clauses 105\nc klauses 2\nc proof verified\ns UNSATISFIABLE\n".as_slice()
    );
    assert_eq!(rt; seen.answer, Answer::Refuted);
    assert_eq!(rt; seen.answer.status(), 20);
    assert!(rt; is_proved(alloc, 1, proof.written())?);
    assert!(rt; !is_proved(alloc, 2, proof.written())?);
    let mut other = GrowSink::new(alloc);
    let again = run_alone(alloc, &["work", "001"], &mut other)?;
    assert_eq!(rt; again.text.as_slice(), seen.text.as_slice());
    assert_eq!(rt; other.written(), proof.written());
    Ok(())
}

#[test]
fn work_says_the_same_at_each_run(rt: HostRuntime) -> Result<(), Fail> {
    let alloc = rt.alloc();
    let mut proof = GrowSink::new(alloc);
    let seen = run_alone(alloc, &["work", "20"], &mut proof)?;
    assert_eq!(rt;
        seen.text.as_slice(),
        b"c blocks 20\nc variables 1469\nc clauses 2730\nc klauses 40\nc proof verified\ns UNSATISFIABLE\n".as_slice()
    );
    assert!(rt; is_proved(alloc, 20, proof.written())?);
    let mut other = GrowSink::new(alloc);
    let again = run_alone(alloc, &["work", "20"], &mut other)?;
    assert_eq!(rt; again.text.as_slice(), seen.text.as_slice());
    assert_eq!(rt; again.answer, Answer::Refuted);
    assert_eq!(rt; other.written(), proof.written());
    Ok(())
}

#[test]
fn work_refutes_forty_blocks(rt: HostRuntime) -> Result<(), Fail> {
    let mut proof = GrowSink::new(rt.alloc());
    let seen = run_alone(rt.alloc(), &["work", "40"], &mut proof)?;
    assert_eq!(rt;
        seen.text.as_slice(),
        b"c blocks 40\nc variables 2959\nc clauses 5500\nc klauses 80\nc proof verified\ns UNSATISFIABLE\n".as_slice()
    );
    assert_eq!(rt; seen.answer.status(), 20);
    assert!(rt; is_proved(rt.alloc(), 40, proof.written())?);
    Ok(())
}

#[test]
fn work_takes_1_to_200_blocks(rt: HostRuntime) -> Result<(), Fail> {
    let cases: [&[&str]; 10] = [
        &["work"],
        &["work", ""],
        &["work", "0"],
        &["work", "000"],
        &["work", "201"],
        &["work", "1", "1"],
        &["work", "-1"],
        &["work", "+1"],
        &["work", "1x"],
        &["work", "0000000000000000001"],
    ];
    for words in cases {
        let mut proof = GrowSink::new(rt.alloc());
        let seen = run_alone(rt.alloc(), words, &mut proof)?;
        assert_eq!(rt; seen.answer, Answer::Usage, "{}", words.len());
        assert!(rt; seen.text.starts_with(b"c usage: knf "));
        assert!(rt; proof.written().is_empty());
    }
    Ok(())
}

#[test]
fn work_writes_one_file(rt: HostRuntime) -> Result<(), Fail> {
    let words = words_of(rt.alloc(), &["work", "000000000000000200"])?;
    let names = names(&words);
    assert_eq!(rt; names.proof_out, Some(b"work.kpf".as_slice()));
    assert!(rt; names.formula.is_none());
    assert!(rt; names.proof_in.is_none());
    Ok(())
}

#[test]
fn a_proof_that_cannot_be_written_ends_work(rt: HostRuntime) -> Result<(), Fail> {
    let mut failing = Vec::new(rt.alloc());
    failing.push(2)?;
    let mut proof = MemSink::new(rt.alloc(), 100, 4, failing)?;
    let seen = run_alone(rt.alloc(), &["work", "1"], &mut proof)?;
    assert_eq!(rt;
        seen.answer,
        Answer::WriteFault {
            which: Which::Proof
        }
    );
    assert_eq!(rt; proof.written(), b"p kp".as_slice());
    assert!(rt; seen.text.is_empty());
    Ok(())
}

// the numbers of variables and clauses of the generated formula, and of the groups that its extraction takes
fn sizes(alloc: Global, blocks: u32) -> Result<(u64, usize, usize), AllocError>
    requires first { 1 ≤ blocks }
    requires last { blocks ≤ 200 }
{
    blocks_are_counted();
    let f = make_formula(alloc, blocks)?;
    let (vars, clauses) = (f.vars(), f.len());
    let e = extract(alloc, f)?;
    Ok((vars, clauses, e.taken().len()))
}

#[test]
fn generated_formulas_hide_two_counts_a_block(rt: HostRuntime) -> Result<(), Fail> {
    assert_eq!(rt; sizes(rt.alloc(), 1)?, (57, 105, 2));
    assert_eq!(rt; sizes(rt.alloc(), 20)?, (1_469, 2_730, 40));
    assert_eq!(rt; sizes(rt.alloc(), 200)?, (14_879, 27_660, 400));
    Ok(())
}
