//! Proofs that searches write, read back: each learned clause is new at its place, as plain counting over all lists of
//! literals has it.
use crate::Outcome;
use crate::tests::small::{VALUATIONS, formula, has_model, is_closed, value};
use crate::tests::{searched, sink};
use kn_lines::{Line, read_line};
use kn_logic::{Constraint, Formula, Lit, NoMemory};
use kn_text::first_line;
use std::alloc::Global;
use std::test::Fail;

/// How many learned clauses a proof has, and whether each line is read and each learned clause is new.
#[derive(Drop)]
pub struct Newness {
    pub learned: u64,
    pub holds: bool,
}

/// Reads a proof of a formula, and tests each learned clause against what is live before it.
pub fn read_back(alloc: Global, f: &Formula, text: &[u8]) -> Result<Newness, NoMemory> {
    let mut live = Vec::new(alloc);
    for c in f.constraints() {
        live.push(Some(c.copy()?))?;
    }
    let mut found = Newness {
        learned: 0,
        holds: true,
    };
    let mut rest = text;
    while let Some((line, behind)) = first_line(rest) {
        match read_line(alloc, line) {
            Ok(Some(line)) => take(&mut live, &mut found, &line)?,
            Ok(None) => {}
            Err(_) => found.holds = false,
        }
        rest = behind;
    }
    Ok(found)
}

// goes on by a line
fn take(
    live: &mut Vec<Option<Constraint>>,
    found: &mut Newness,
    line: &Line,
) -> Result<(), NoMemory> {
    match line {
        Line::Learned { clause, .. } => {
            found.learned = found.learned.saturating_add(1);
            found.holds = found.holds && is_new(live, clause.lits());
            live.push(Some(clause.copy()?))?;
        }
        Line::Lemma { clause, .. } => live.push(Some(clause.copy()?))?,
        Line::Delete { ids } => forget(live, ids.ids()),
        Line::Header { .. } => {}
        _ => found.holds = false,
    }
    Ok(())
}

fn forget(live: &mut [Option<Constraint>], ids: &[u64]) {
    for id in ids {
        let place = (*id as usize).saturating_sub(1);
        if let Some(slot) = live.get_mut(place) {
            *slot = None;
        }
    }
}

// whether a clause is new for what is live: no variable twice, and a closed list makes each literal false but one,
// which has no value
fn is_new(live: &[Option<Constraint>], lits: &[Lit]) -> bool {
    if !are_different(lits) {
        return false;
    }
    for valuation in 0..VALUATIONS {
        if leaves_one(valuation, lits) && is_closed(valuation, live) {
            return true;
        }
    }
    false
}

fn leaves_one(valuation: u64, lits: &[Lit]) -> bool {
    let mut unset: u64 = 0;
    for lit in lits {
        match value(valuation, *lit) {
            Some(true) => return false,
            Some(false) => {}
            None => unset = unset.saturating_add(1),
        }
    }
    unset == 1
}

fn are_different(lits: &[Lit]) -> bool {
    for lit in lits {
        if places_of(lits, lit.var()) > 1 {
            return false;
        }
    }
    true
}

fn places_of(lits: &[Lit], var: u64) -> u64 {
    let mut count: u64 = 0;
    for lit in lits {
        if lit.var() == var {
            count = count.saturating_add(1);
        }
    }
    count
}

#[test]
fn learned_clauses_are_new(rt: HostRuntime) -> Result<(), Fail> {
    let alloc = rt.alloc();
    let mut learned: u64 = 0;
    let mut models: u64 = 0;
    for seed in 0..24 {
        let f = formula(alloc, seed, 23)?;
        let mut sink = sink(alloc, &[])?;
        let answer = searched(alloc, &f, 243, seed % 3, &mut sink);
        let is_model = matches!(answer, Ok(Outcome::Model(_)));
        assert!(rt; is_model || matches!(answer, Ok(Outcome::Refuted)));
        assert_eq!(rt; is_model, has_model(&f));
        let found = read_back(alloc, &f, sink.written())?;
        assert!(rt; found.holds, "{}", seed);
        learned = learned.saturating_add(found.learned);
        models = models.saturating_add(is_model as u64);
    }
    assert_eq!(rt; (learned, models), (32, 7));
    Ok(())
}
