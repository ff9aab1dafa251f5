//! Each call of each object fails in turn.
use super::{PAIRS, Seen, run_into};
use crate::{Answer, Which};
use kn_bytes::{MemSink, MemSource};
use std::alloc::{AllocError, Global};
use std::test::Fail;

/// More calls than any object has.
const MANY_CALLS: u64 = 2000;

/// An object of a run.
#[derive(Clone, Copy, Debug, PartialEq, Eq)]
enum Object {
    Formula,
    ProofIn,
    Out,
    ProofOut,
}

/// Which call of which object fails; each object moves so many bytes in a call.
#[derive(Clone, Copy, Debug)]
struct Disturbance {
    step: usize,
    object: Object,
    call: u64,
}

/// The numbers of the calls of an object that fail: one, or none.
fn failing(alloc: Global, d: &Disturbance, object: Object) -> Result<Vec<u64>, AllocError> {
    let mut calls = Vec::new(alloc);
    if d.object == object {
        calls.push(d.call)?;
    }
    Ok(calls)
}

/// A run of a command on a file, and on a proof where it reads one.
fn disturbed(
    alloc: Global,
    word: &str,
    formula: &str,
    proof: &str,
    d: &Disturbance,
) -> Result<Seen, AllocError> {
    let step = d.step.max(1);
    let formula = Vec::from_slice(alloc, formula.as_bytes())?;
    let proof = Vec::from_slice(alloc, proof.as_bytes())?;
    run_into(
        alloc,
        &[word, "F", "P"],
        MemSource::new(formula, step, failing(alloc, d, Object::Formula)?),
        MemSource::new(proof, step, failing(alloc, d, Object::ProofIn)?),
        MemSink::new(alloc, 4000, step, failing(alloc, d, Object::Out)?)?,
        MemSink::new(alloc, 4000, step, failing(alloc, d, Object::ProofOut)?)?,
    )
}

/// Whether a run tells the fault of an object, and its sinks have prefixes of what a run without a fault wrote.
fn is_told(object: Object, seen: &Seen, whole: &Seen) -> bool {
    match object {
        Object::Formula => {
            let which = Which::Formula;
            seen.answer == Answer::ReadFault { which } && seen.proof.is_empty()
        }
        Object::ProofIn => {
            let which = Which::Proof;
            seen.answer == Answer::ReadFault { which } && seen.proof.is_empty()
        }
        Object::Out => {
            let which = Which::Out;
            seen.answer == Answer::WriteFault { which }
                && whole.text.starts_with(&seen.text)
                && seen.proof.as_slice() == whole.proof.as_slice()
        }
        Object::ProofOut => {
            let which = Which::Proof;
            seen.answer == Answer::WriteFault { which }
                && seen.text.is_empty()
                && whole.proof.starts_with(&seen.proof)
        }
    }
}

/// How many calls of an object can fail: each is told, and behind them the run is one without a fault. `None` where
/// one is not told.
fn told_faults(
    alloc: Global,
    word: &str,
    formula: &str,
    proof: &str,
    step: usize,
    object: Object,
) -> Result<Option<u64>, AllocError> {
    let quiet = Disturbance {
        step,
        object,
        call: 0,
    };
    let whole = disturbed(alloc, word, formula, proof, &quiet)?;
    for call in 1..=MANY_CALLS {
        let d = Disturbance { step, object, call };
        let seen = disturbed(alloc, word, formula, proof, &d)?;
        if seen.answer == whole.answer {
            let same = seen.text.as_slice() == whole.text.as_slice()
                && seen.proof.as_slice() == whole.proof.as_slice();
            return Ok(if same { Some(call - 1) } else { None });
        }
        if !is_told(object, &seen, &whole) {
            return Ok(None);
        }
    }
    Ok(None)
}

#[test]
fn each_fault_is_told(rt: HostRuntime) -> Result<(), Fail> {
    let counted = "p cnf 5 6\n1 2 3 0\n-1 4 0\n-4 5 0\n-2 5 0\n-2 -4 0\n-3 -5 0\n";
    let proof =
        "p kpf 3 6\nd 3 F T\nd 2 F 4\nd 2 4 T\nd 1 5 6\nr -1 7 0 1 2 10 14 21 0\nr 7 0 23 22 18 17 3 10 0\nk 2 -1 -2 -3 0 7 24\nr 1 0 4 5 25 0\nr 0 26 25 6 0\n";
    let cases = [
        ("check", PAIRS, proof, Object::Formula, true),
        ("check", PAIRS, proof, Object::ProofIn, true),
        ("check", PAIRS, proof, Object::Out, true),
        ("check", PAIRS, proof, Object::ProofOut, false),
        ("solve", counted, "", Object::Formula, true),
        ("solve", counted, "", Object::ProofIn, false),
        ("solve", counted, "", Object::Out, true),
        ("solve", counted, "", Object::ProofOut, true),
    ];
    for (word, formula, proof, object, is_used) in cases {
        for step in [1, 3, 4096] {
            let faults = told_faults(rt.alloc(), word, formula, proof, step, object)?;
            assert!(rt; faults.is_some(), "{word} {step}");
            assert_eq!(rt; faults == Some(0), !is_used, "{word} {step}");
        }
    }
    Ok(())
}
