//! Constraints that come and go, and ids that leave in any order, so that each side of a list of ids moves.
ghost use Rattle.std.specs.Prelude.{◌≡◌, ◌∷◌, [], IfOk};
ghost use Rattle.kn_logic.specs.Constraints.{clause};

use super::*;
use kn_logic::{Constraint, Lit, NoMemory};
use std::alloc::Global;
use std::test::Fail;

fn pair(alloc: Global, a: Lit, b: Lit) -> Result<Constraint, NoMemory>
    ensures { IfOk result (λ c. c ≡ clause (a ∷ b ∷ [])) }
{
    Ok(Constraint::new(1, Vec::from_slice(alloc, &[a, b])?))
}

#[test]
fn constraints_come_and_go(rt: HostRuntime) -> Result<(), Fail> {
    let mut s = Store::new(rt.alloc(), 4)?;
    assert!(rt; s.live() == 0 && s.vars() == 4);
    assert!(rt; s.add(pair(rt.alloc(), Lit::new(1, true), Lit::new(2, false))?)? == 1);
    let lits = Vec::from_slice(rt.alloc(), &[Lit::new(1, true), Lit::new(3, true)])?;
    assert!(rt; s.add(Constraint::guarded(Lit::new(4, false), 2, lits))? == 2);
    assert!(rt; s.add(pair(rt.alloc(), Lit::new(3, true), Lit::new(3, true))?)? == 3);
    assert!(rt; s.live() == 3 && s.with_variable(1) == [1, 2].as_slice());
    assert!(rt; s.with_variable(3) == [2, 3].as_slice() && s.with_variable(4) == [2].as_slice());
    assert!(rt; s.remove(2) && !s.remove(2) && !s.remove(0) && !s.remove(4));
    assert!(rt; s.live() == 2 && s.get(2).is_none() && s.with_variable(4).is_empty());
    let Some(c) = s.get(3) else {
        return Err("the last constraint".into());
    };
    assert!(rt; c.lits() == [Lit::new(3, true), Lit::new(3, true)].as_slice());
    assert!(rt; s.add(pair(rt.alloc(), Lit::new(1, true), Lit::new(4, true))?)? == 4);
    assert!(rt; s.with_variable(1) == [1, 4].as_slice() && s.with_variable(4) == [4].as_slice());
    Ok(())
}

fn filled(alloc: Global, n: u32) -> Result<Store, NoMemory>
    ensures { IfOk result (λ s. s.vars ≡ 2) }
{
    let mut s = Store::new(alloc, 2)?;
    for _ in 0..n {
        s.add(pair(alloc, Lit::new(1, true), Lit::new(2, true))?)?;
    }
    Ok(s)
}

#[test]
fn ids_leave_in_any_order(rt: HostRuntime) -> Result<(), Fail> {
    let mut s = filled(rt.alloc(), 8)?;
    let steps: [(u64, &[u64]); 5] = [
        (1, &[2, 3, 4, 5, 6, 7, 8]),
        (3, &[2, 4, 5, 6, 7, 8]),
        (7, &[2, 4, 5, 6, 8]),
        (5, &[2, 4, 6, 8]),
        (8, &[2, 4, 6]),
    ];
    for (id, left) in steps {
        assert!(rt; s.remove(id) && s.with_variable(2) == left);
    }
    Ok(())
}
