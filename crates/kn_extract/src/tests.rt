//! Groups with their places, each answer to a seed, and the limits on groups, over formulas that stand in texts.
use super::*;
use crate::storing::stored;
use kn_format::{ReadError, read_formula};
use kn_guess::{NoGuess, aux_guess};
use kn_logic::NoMemory;
use kn_text::push_number;
use kn_verdict::{Verdict, verdict};
use std::alloc::Global;
use std::test::Fail;

// three variables of which at most one is true, by a counter over 4 and 5, and three more, by pairs
const COUNTS: &str =
    "p cnf 8 9\n1 2 3 0\n-1 4 0\n-4 5 0\n-2 5 0\n-2 -4 0\n-3 -5 0\n-6 -7 0\n-6 -8 0\n-8 -7 0\n";

const LEFT: &str = "c group 4 5\np knf 8 3\n1 2 3 0\nk 2 -1 -2 -3 0\nk 2 -6 -7 -8 0\n";

// the extraction of the formula that a text spells
fn extracted(alloc: Global, text: &str) -> Result<Extraction, ReadError> {
    let f = read_formula(alloc, text.as_bytes())?;
    Ok(extract(alloc, f)?)
}

#[test]
fn groups_are_taken_with_their_places(rt: HostRuntime) -> Result<(), Fail> {
    let Ok(e) = extracted(rt.alloc(), COUNTS) else {
        return Err("no extraction".into());
    };
    let text = extraction_text(rt.alloc(), &e)?;
    assert_eq!(rt; text.as_slice(), LEFT.as_bytes());
    assert!(rt; e.original().len() == 9 && e.formula().len() == 3);
    let [counter, pairs] = e.taken() else {
        return Err("not two groups".into());
    };
    assert!(rt; counter.places() == [1, 2, 3, 4, 5].as_slice() && counter.klause().bound() == 2);
    assert!(rt; counter.elimination().is_some() && counter.group().aux() == [4, 5].as_slice());
    assert!(rt; pairs.places() == [6, 7, 8].as_slice() && pairs.klause().bound() == 2);
    assert!(rt; pairs.elimination().is_none() && pairs.group().aux().is_empty());
    Ok(())
}

// what comes of a seed
#[derive(Clone, Copy, Debug, PartialEq, Eq)]
enum Answer {
    NoSeed,
    TooMany,
    SmallBorder,
    WideBorder,
    TwoSides { var: u64 },
    Count { bound: u64 },
    OutOfRange { bound: u64 },
    NoCount { bound: u64 },
    Wide { stage: u64 },
}

// the answer to a seed of the formula that a text spells; an error as well where the formula has no such variable
fn answer_to(alloc: Global, text: &[u8], seed: u64) -> Result<Answer, ReadError> {
    let f = read_formula(alloc, text)?;
    let store = stored(alloc, &f)?;
    if seed == 0 || seed > store.vars() {
        return Err(ReadError::Memory);
    }
    match aux_guess(alloc, &store, seed) {
        Ok(guess) => Ok(told(verdict(alloc, guess.group())?)),
        Err(why) => refusal(why),
    }
}

fn told(answer: Verdict) -> Answer {
    match answer {
        Verdict::Klause { bound, .. } => Answer::Count { bound },
        Verdict::OutOfRange { bound } => Answer::OutOfRange { bound },
        Verdict::NotCardinal { bound, .. } => Answer::NoCount { bound },
        Verdict::Wide { stage, .. } => Answer::Wide { stage },
    }
}

fn refusal(why: NoGuess) -> Result<Answer, ReadError> {
    match why {
        NoGuess::NotSeed => Ok(Answer::NoSeed),
        NoGuess::TooMany => Ok(Answer::TooMany),
        NoGuess::SmallBorder => Ok(Answer::SmallBorder),
        NoGuess::TooWideBorder => Ok(Answer::WideBorder),
        NoGuess::TwoSided { var } => Ok(Answer::TwoSides { var }),
        NoGuess::Memory => Err(ReadError::Memory),
    }
}

// three variables of which at most one is true, by a counter over 4 and 5
const HIDDEN: &str = "p cnf 5 6\n1 2 3 0\n-1 4 0\n-4 5 0\n-2 5 0\n-2 -4 0\n-3 -5 0\n";

// the same, and a klause with a guard
const GUARDED: &str = "p knf 5 7\n1 2 3 0\n-1 4 0\n-4 5 0\n-2 5 0\n-2 -4 0\n-3 -5 0\nq 4 1 5 0\n";

// four pigeons in three holes, the holes by counters
const PIGEONS: &str = "p cnf 21 28\n1 2 3 0\n4 5 6 0\n7 8 9 0\n10 11 12 0\n\
    -1 13 0\n-4 14 0\n-13 14 0\n-4 -13 0\n-7 15 0\n-14 15 0\n-7 -14 0\n-10 -15 0\n\
    -2 16 0\n-5 17 0\n-16 17 0\n-5 -16 0\n-8 18 0\n-17 18 0\n-8 -17 0\n-11 -18 0\n\
    -3 19 0\n-6 20 0\n-19 20 0\n-6 -19 0\n-9 21 0\n-20 21 0\n-9 -20 0\n-12 -21 0\n";

// one clause for each pair of variables, and one more; a function of the first ten clauses is wide
const WIDE: &str = "p cnf 21 11\n21 1 11 0\n21 2 12 0\n21 3 13 0\n21 4 14 0\n21 5 15 0\n\
    21 6 16 0\n21 7 17 0\n21 8 18 0\n21 9 19 0\n21 10 20 0\n-21 1 0\n";

#[test]
fn a_seed_has_one_of_nine_answers(rt: HostRuntime) -> Result<(), Fail> {
    let small = Answer::SmallBorder;
    let cases = [
        ("p cnf 2 1\n1 2 0\n", 1, Answer::NoSeed),
        (HIDDEN, 1, small),
        (HIDDEN, 2, small),
        (HIDDEN, 3, small),
        (HIDDEN, 4, Answer::Count { bound: 2 }),
        (HIDDEN, 5, Answer::NoCount { bound: 2 }),
        (PIGEONS, 1, small),
        (PIGEONS, 2, small),
        (PIGEONS, 3, small),
        (PIGEONS, 4, Answer::OutOfRange { bound: 3 }),
        (PIGEONS, 5, Answer::TwoSides { var: 4 }),
        (PIGEONS, 6, Answer::TwoSides { var: 4 }),
        (PIGEONS, 7, Answer::Count { bound: 5 }),
        (GUARDED, 1, small),
        (GUARDED, 2, Answer::TwoSides { var: 5 }),
        (GUARDED, 3, Answer::OutOfRange { bound: 1 }),
        (GUARDED, 4, Answer::NoSeed),
        (GUARDED, 5, Answer::NoSeed),
        (
            "p cnf 4 4\n1 4 0\n2 4 0\n3 4 0\n-3 -4 0\n",
            4,
            Answer::TwoSides { var: 3 },
        ),
        (
            "p cnf 4 2\n1 2 4 0\n3 -4 0\n",
            4,
            Answer::OutOfRange { bound: 1 },
        ),
        (
            "p cnf 4 3\n1 4 0\n2 4 0\n3 -4 0\n",
            4,
            Answer::NoCount { bound: 2 },
        ),
        (WIDE, 21, Answer::Wide { stage: 9 }),
    ];
    for (text, seed, want) in cases {
        let Ok(got) = answer_to(rt.alloc(), text.as_bytes(), seed) else {
            return Err("no answer".into());
        };
        assert!(rt; got == want, "seed {seed}");
    }
    Ok(())
}

// each variable from 1 to 299 implies the next
fn chain(alloc: Global) -> Result<Vec<u8>, NoMemory> {
    let mut text = Vec::from_slice(alloc, b"p cnf 300 299\n")?;
    for k in 1..300u64 {
        text.push(b'-')?;
        push_number(&mut text, k)?;
        text.push(b' ')?;
        push_number(&mut text, k + 1)?;
        text.extend_from_slice(b" 0\n")?;
    }
    Ok(text)
}

// a clause of the variable 130 with each from 1 to 129, its negation with 2
fn star(alloc: Global) -> Result<Vec<u8>, NoMemory> {
    let mut text = Vec::from_slice(alloc, b"p cnf 130 129\n")?;
    for k in 1..130u64 {
        if k == 2 {
            text.push(b'-')?;
        }
        text.extend_from_slice(b"130 ")?;
        push_number(&mut text, k)?;
        text.extend_from_slice(b" 0\n")?;
    }
    Ok(text)
}

#[test]
fn large_groups_are_refused(rt: HostRuntime) -> Result<(), Fail> {
    let cases = [
        (chain(rt.alloc())?, 2, Answer::TooMany),
        (star(rt.alloc())?, 130, Answer::WideBorder),
    ];
    for (text, seed, want) in cases {
        let Ok(got) = answer_to(rt.alloc(), &text, seed) else {
            return Err("no answer".into());
        };
        assert!(rt; got == want, "seed {seed}");
    }
    Ok(())
}

#[test]
fn small_files_are_extracted(rt: HostRuntime) -> Result<(), Fail> {
    let cases = [
        (HIDDEN, "c group 4 5\np knf 5 2\n1 2 3 0\nk 2 -1 -2 -3 0\n"),
        (
            GUARDED,
            "p knf 5 5\n1 2 3 0\n-1 4 0\n-3 -5 0\nq 4 1 5 0\nk 2 -2 -4 5 0\n",
        ),
        (
            PIGEONS,
            "c group 7 8 9 10 11 12 13 14 15 16 17 18 19 20 21\n\
             p knf 21 3\n1 2 3 0\n4 5 6 0\nk 5 -1 -2 -3 -4 -5 -6 0\n",
        ),
    ];
    for (text, want) in cases {
        let Ok(e) = extracted(rt.alloc(), text) else {
            return Err("no extraction".into());
        };
        let written = extraction_text(rt.alloc(), &e)?;
        assert_eq!(rt; written.as_slice(), want.as_bytes());
    }
    Ok(())
}
