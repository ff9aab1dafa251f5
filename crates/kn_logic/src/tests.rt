//! Calls on each type: klauses with and without a guard at different bounds, copies, formulas, models and groups.
ghost use Rattle.std.specs.Prelude.{◌≡◌, ◌∷◌, [], length, IfOk};
ghost use Rattle.kn_logic.specs.Literals.{IsKnown, AreKnown};
ghost use Rattle.kn_logic.specs.Constraints.{clause, Fits};

use super::*;
use std::alloc::Global;
use std::test::Fail;

// 1 and 3 true, 2 false
fn values(alloc: Global) -> Result<Assignment, NoMemory>
    ensures { IfOk result (λ m. length m ≡ 3) }
{
    let mut m = Assignment::new(alloc, 3, true)?;
    m.set(2, false);
    Ok(m)
}

fn klause_holds(alloc: Global, bound: u64, lits: &[Lit], m: &Assignment) -> Result<bool, NoMemory>
    requires { AreKnown (length m.now) lits.now }
{
    let lits = Vec::from_slice(alloc, lits)?;
    Ok(holds(&Constraint::new(bound, lits), m))
}

fn guarded_holds(alloc: Global, guard: Lit, lits: &[Lit], m: &Assignment) -> Result<bool, NoMemory>
    requires guard { IsKnown (length m.now) guard }
    requires lits { AreKnown (length m.now) lits.now }
{
    let lits = Vec::from_slice(alloc, lits)?;
    Ok(holds(&Constraint::guarded(guard, 2, lits), m))
}

#[test]
fn assignments_give_values(rt: HostRuntime) -> Result<(), Fail> {
    let m = values(rt.alloc())?;
    assert!(rt; m.values() == [true, false, true].as_slice());
    assert!(rt; m.vars() == 3 && m.value(1) && !m.value(2));
    Ok(())
}

#[test]
fn constraints_hold(rt: HostRuntime) -> Result<(), Fail> {
    let m = values(rt.alloc())?;
    let lits = [Lit::new(1, true), Lit::new(2, true), Lit::new(3, true)];
    let doubled = [Lit::new(3, true), Lit::new(3, true), Lit::new(1, false)];
    for (bound, want) in [(0, true), (1, true), (2, true), (3, false), (4, false)] {
        assert_eq!(rt;
            klause_holds(rt.alloc(), bound, &lits, &m)?,
            want,
            "bound {bound}"
        );
        assert_eq!(rt;
            klause_holds(rt.alloc(), bound, &doubled, &m)?,
            want,
            "bound {bound}"
        );
    }
    let few = [Lit::new(1, true), Lit::new(2, true), Lit::new(3, false)];
    assert!(rt; !guarded_holds(rt.alloc(), Lit::new(1, true), &few, &m)?);
    assert!(rt; guarded_holds(rt.alloc(), Lit::new(2, true), &few, &m)?);
    assert!(rt; guarded_holds(rt.alloc(), Lit::new(1, true), &lits, &m)?);
    Ok(())
}

// at least two of 1, 2 and -3
fn two_of_three(alloc: Global) -> Result<Constraint, NoMemory>
    ensures { IfOk result (Fits 3) }
{
    let lits = [Lit::new(1, true), Lit::new(2, true), Lit::new(3, false)];
    Ok(Constraint::new(2, Vec::from_slice(alloc, &lits)?))
}

// whether this is, literal by literal, the constraint of `two_of_three`
fn is_two_of_three(c: &Constraint) -> bool {
    let lits = [Lit::new(1, true), Lit::new(2, true), Lit::new(3, false)];
    c.guard().is_none() && c.bound() == 2 && c.lits() == lits.as_slice()
}

#[test]
fn constraints_are_copied(rt: HostRuntime) -> Result<(), Fail> {
    let c = two_of_three(rt.alloc())?;
    assert!(rt; is_two_of_three(&c.copy()?) && !c.is_clause());
    let lits = Vec::from_slice(rt.alloc(), &[Lit::new(2, true).negated()])?;
    let guarded = Constraint::guarded(Lit::new(1, true), 1, lits).copy()?;
    assert!(rt; guarded.guard() == Some(Lit::new(1, true)) && !guarded.is_clause());
    assert!(rt; guarded.lits() == [Lit::new(2, false)].as_slice());
    Ok(())
}

#[test]
fn formulas_keep_constraints(rt: HostRuntime) -> Result<(), Fail> {
    let mut f = Formula::new(rt.alloc(), 3);
    f.push(two_of_three(rt.alloc())?)?;
    let f = f.copy()?;
    assert!(rt; f.vars() == 3 && f.len() == 1);
    assert!(rt; f.get(0).is_some_and(is_two_of_three) && f.get(1).is_none());
    Ok(())
}

#[test]
fn models_satisfy(rt: HostRuntime) -> Result<(), Fail> {
    let mut f = Formula::new(rt.alloc(), 3);
    f.push(two_of_three(rt.alloc())?)?;
    let mut m = Assignment::new(rt.alloc(), 3, true)?;
    assert!(rt; satisfies(&f, &m));
    m.set(2, false);
    assert!(rt; !satisfies(&f, &m));
    assert!(rt; !satisfies(&f, &Assignment::new(rt.alloc(), 4, true)?));
    Ok(())
}

// the clause of two literals
fn pair(alloc: Global, a: Lit, b: Lit) -> Result<Constraint, NoMemory>
    ensures { IfOk result (λ c. c ≡ clause (a ∷ b ∷ [])) }
{
    Ok(Constraint::new(1, Vec::from_slice(alloc, &[a, b])?))
}

// that at most one of 1, 2 and 3 is true, by the auxiliary variables 4 and 5
fn at_most_one(alloc: Global) -> Result<Group, NoMemory> {
    let aux = Vec::from_slice(alloc, &[4, 5])?;
    let border = [Lit::new(1, false), Lit::new(2, false), Lit::new(3, false)];
    let border = Vec::from_slice(alloc, &border)?;
    let taken = vec![in alloc;
        pair(alloc, Lit::new(1, false), Lit::new(4, true))?,
        pair(alloc, Lit::new(4, false), Lit::new(5, true))?,
        pair(alloc, Lit::new(2, false), Lit::new(5, true))?,
        pair(alloc, Lit::new(2, false), Lit::new(4, false))?,
        pair(alloc, Lit::new(3, false), Lit::new(5, false))?,
    ]?;
    Ok(Group::new(aux, taken, border))
}

#[test]
fn groups_keep_clauses(rt: HostRuntime) -> Result<(), Fail> {
    let g = at_most_one(rt.alloc())?;
    assert!(rt; g.aux() == [4, 5].as_slice() && g.taken().len() == 5 && g.border().len() == 3);
    Ok(())
}
