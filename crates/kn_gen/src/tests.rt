//! The numbers of generated formulas, and the first clauses of the smallest.
ghost use Rattle.std.specs.Prelude.{◌≤◌};

use super::*;
use kn_logic::{Constraint, Formula, NoMemory};
use std::alloc::Global;
use std::test::Fail;

// the numbers of variables and of clauses
fn sizes(alloc: Global, blocks: u32) -> Result<(u64, usize), NoMemory>
    requires first { 1 ≤ blocks }
    requires last { blocks ≤ 200 }
{
    let f = make_formula(alloc, blocks)?;
    Ok((f.vars(), f.len()))
}

// whether the constraint is the clause of these literals, written as numbers with a sign
fn is_clause_of(c: &Constraint, want: &[i32]) -> bool {
    if !c.is_clause() || c.lits().len() != want.len() {
        return false;
    }
    for (lit, number) in c.lits().iter().zip(want) {
        if lit.var() != number.unsigned_abs() as u64 || lit.is_positive() != (*number > 0) {
            return false;
        }
    }
    true
}

// whether the clause at this place has these literals
fn has_clause(f: &Formula, place: usize, want: &[i32]) -> bool {
    match f.get(place) {
        Some(c) => is_clause_of(c, want),
        None => false,
    }
}

#[test]
fn formulas_have_the_stated_sizes(rt: HostRuntime) -> Result<(), Fail> {
    assert_eq!(rt; sizes(rt.alloc(), 1)?, (57, 105));
    assert_eq!(rt; sizes(rt.alloc(), 20)?, (1_469, 2_730));
    assert_eq!(rt; sizes(rt.alloc(), 40)?, (2_959, 5_500));
    assert_eq!(rt; sizes(rt.alloc(), 200)?, (14_879, 27_660));
    Ok(())
}

#[test]
fn blocks_stand_in_their_order(rt: HostRuntime) -> Result<(), Fail> {
    let f = make_formula(rt.alloc(), 2)?;
    // at most 4 of the first block, by a counter whose variables stand behind the 16 of both blocks
    assert!(rt; has_clause(&f, 0, &[-1, 17]));
    assert!(rt; has_clause(&f, 1, &[-18]));
    // the link is the last clause
    assert!(rt; f.len() > 0);
    assert!(rt; has_clause(&f, f.len() - 1, &[1, -9]));
    Ok(())
}
