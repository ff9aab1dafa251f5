//! The values that the models of a small count get back.
use super::*;
use kn_extract::{Extraction, extract};
use kn_format::{ReadError, read_formula};
use kn_logic::{Assignment, NoMemory, satisfies};
use std::alloc::Global;
use std::test::Fail;

// exactly one of 1, 2 and 3 is true: at most one by the variables 4 and 5
const COUNTER: &str = "p cnf 5 6\n1 2 3 0\n-1 4 0\n-4 5 0\n-2 5 0\n-2 -4 0\n-3 -5 0\n";

// the extraction of the formula that a text spells
fn extracted(alloc: Global, text: &str) -> Result<Extraction, ReadError> {
    let f = read_formula(alloc, text.as_bytes())?;
    Ok(extract(alloc, f)?)
}

// The model of what remains in which this one of 1, 2 and 3 is true, rebuilt from these values of the others; `None`
// where it is no model.
fn rebuilt(
    alloc: Global,
    e: &Extraction,
    one: u64,
    others: bool,
) -> Result<Option<Assignment>, NoMemory> {
    let mut m = Assignment::new(alloc, e.formula().vars(), others)?;
    for var in 1..4 {
        if m.vars() < var {
            return Ok(None);
        }
        m.set(var, var == one);
    }
    if m.vars() < e.formula().vars() {
        return Ok(None);
    }
    if !satisfies(e.formula(), &m) {
        return Ok(None);
    }
    rebuild(e, &mut m);
    Ok(Some(m))
}

#[test]
fn auxiliary_variables_get_their_values(rt: HostRuntime) -> Result<(), Fail> {
    let Ok(e) = extracted(rt.alloc(), COUNTER) else {
        return Err("no extraction".into());
    };
    let cases = [
        (1, [true, false, false, true, true]),
        (2, [false, true, false, false, true]),
        (3, [false, false, true, false, false]),
    ];
    for (one, want) in cases {
        for others in [false, true] {
            let Some(m) = rebuilt(rt.alloc(), &e, one, others)? else {
                return Err("no model of what remains".into());
            };
            assert!(rt; m.values() == want.as_slice(), "{} {}", one, others);
            assert!(rt; e.original().vars() <= m.vars() && satisfies(e.original(), &m));
        }
    }
    Ok(())
}
