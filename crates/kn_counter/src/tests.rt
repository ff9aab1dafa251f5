//! The clauses of small counts, the models of counts of up to five literals before and after, and a grid's cells.
ghost use Rattle.std.specs.Prelude.{◌≡◌, ◌≤◌, ◌<◌, ◌+◌, ◌^◌, length, IfOk, OnOk};
ghost use Rattle.kn_logic.specs.Literals.{AreKnown, AreDifferent};
ghost use Rattle.kn_logic.specs.Constraints.{Fits};

use super::*;
use kn_logic::{Assignment, Constraint, Formula, Lit, NoMemory, satisfies};
use std::alloc::Global;
use std::test::Fail;

// whether the constraint is the clause of these literals, written as numbers with a sign
fn is_clause_of(c: &Constraint, want: &[i32]) -> bool {
    if !c.is_clause() || c.lits().len() != want.len() {
        return false;
    }
    for (lit, number) in c.lits().iter().zip(want) {
        if lit.var() != number.unsigned_abs() as u64 || lit.is_positive() != (*number > 0) {
            return false;
        }
    }
    true
}

// whether the formula has so many variables, and these clauses
fn is_formula_of(f: &Formula, vars: u64, want: &[&[i32]]) -> bool {
    if f.vars() != vars || f.len() != want.len() {
        return false;
    }
    for (c, lits) in f.constraints().iter().zip(want) {
        if !is_clause_of(c, lits) {
            return false;
        }
    }
    true
}

// at least so many of 1, 2 and 3
fn of_three(alloc: Global, bound: u64) -> Result<Constraint, NoMemory>
    ensures { IfOk result (Fits 3) }
{
    let lits = [Lit::new(1, true), Lit::new(2, true), Lit::new(3, true)];
    Ok(Constraint::new(bound, Vec::from_slice(alloc, &lits)?))
}

#[test]
fn counts_become_clauses(rt: HostRuntime) -> Result<(), Fail> {
    let mut f = Formula::new(rt.alloc(), 3);
    f.push(of_three(rt.alloc(), 1)?)?;
    f.push(of_three(rt.alloc(), 3)?)?;
    f.push(of_three(rt.alloc(), 2)?)?;
    let Ok(g) = counted(rt.alloc(), &f) else {
        return Err("memory".into());
    };
    let want: [&[i32]; 9] = [
        &[1, 2, 3],
        &[1],
        &[2],
        &[3],
        &[1, 4],
        &[2, 5],
        &[-4, 5],
        &[2, -4],
        &[3, -5],
    ];
    assert!(rt; is_formula_of(&g, 5, &want));
    Ok(())
}

#[test]
fn guarded_counts_become_clauses(rt: HostRuntime) -> Result<(), Fail> {
    let lits = [Lit::new(1, true), Lit::new(2, true), Lit::new(3, true)];
    let lits = Vec::from_slice(rt.alloc(), &lits)?;
    let mut f = Formula::new(rt.alloc(), 4);
    f.push(Constraint::guarded(Lit::new(4, true), 2, lits))?;
    let Ok(g) = counted(rt.alloc(), &f) else {
        return Err("memory".into());
    };
    let want: [&[i32]; 5] = [
        &[-4, 1, 5],
        &[-4, 2, 6],
        &[-4, -5, 6],
        &[-4, 2, -5],
        &[-4, 3, -6],
    ];
    assert!(rt; is_formula_of(&g, 6, &want));
    Ok(())
}

#[test]
fn guarded_ends_become_clauses(rt: HostRuntime) -> Result<(), Fail> {
    let one = vec![in rt.alloc(); Lit::new(2, true)]?;
    let again = vec![in rt.alloc(); Lit::new(2, true)]?;
    let mut f = Formula::new(rt.alloc(), 2);
    f.push(Constraint::guarded(Lit::new(1, true), 1, one))?;
    f.push(Constraint::guarded(Lit::new(1, false), 3, again))?;
    let Ok(g) = counted(rt.alloc(), &f) else {
        return Err("memory".into());
    };
    let want: [&[i32]; 2] = [&[-1, 2], &[1]];
    assert!(rt; is_formula_of(&g, 2, &want));
    Ok(())
}

// the literals of the variables from 1 to n, negated up to a variable
fn numbered(alloc: Global, n: u64, negated: u64) -> Result<Vec<Lit>, NoMemory>
    ensures { IfOk result (λ lits. AreKnown n lits.items × AreDifferent lits.items) }
{
    let mut lits = Vec::new(alloc);
    for place in 0..n {
        lits.push(Lit::new(place + 1, place >= negated))?;
    }
    Ok(lits)
}

// at least so many of the literals from 1 to n
fn count(alloc: Global, bound: u64, n: u64) -> Result<Formula, NoMemory>
    ensures { IfOk result (λ f. (f.vars ≡ n) × (length f.constraints ≡ 1)) }
{
    let mut f = Formula::new(alloc, n);
    f.push(Constraint::new(bound, numbered(alloc, n, n / 2)?))?;
    Ok(f)
}

// the same under the variable behind them
fn guarded_count(alloc: Global, bound: u64, n: u64) -> Result<Formula, NoMemory>
    requires { n < 2 ^ 63 }
    ensures { IfOk result (λ f. (f.vars ≡ n + 1) × (length f.constraints ≡ 1)) }
{
    let mut f = Formula::new(alloc, n + 1);
    let lits = numbered(alloc, n, n / 2)?;
    f.push(Constraint::guarded(Lit::new(n + 1, true), bound, lits))?;
    Ok(f)
}

#[test]
fn large_counts_are_refused(rt: HostRuntime) -> Result<(), Fail> {
    let f = count(rt.alloc(), 3500, 7000)?;
    let Err(e) = counted(rt.alloc(), &f) else {
        return Err("too many variables".into());
    };
    assert_eq!(rt; e, CountError::TooLarge { vars: 24_503_500 });
    Ok(())
}

// gives the variables behind `before` the values that are the bits of a number, the lowest first
fn set_bits(m: &mut Assignment, before: u64, bits: u64)
    ensures { length m.new ≡ length m.old }
{
    let mut rest = bits;
    for place in before..m.vars() {
        m.set(place + 1, rest % 2 == 1);
        rest /= 2;
    }
}

// whether values that are the bits of a number satisfy the formula
fn is_model(alloc: Global, f: &Formula, bits: u64) -> Result<bool, NoMemory> {
    let mut m = Assignment::new(alloc, f.vars(), false)?;
    set_bits(&mut m, 0, bits);
    Ok(satisfies(f, &m))
}

// whether they do with some values for the variables behind these
fn is_model_cut(alloc: Global, g: &Formula, vars: u64, bits: u64) -> Result<bool, NoMemory>
    requires { g.now.vars < vars + 13 }
{
    let mut m = Assignment::new(alloc, g.vars(), false)?;
    set_bits(&mut m, 0, bits);
    for more in 0..1u64 << g.vars().saturating_sub(vars) {
        set_bits(&mut m, vars, more);
        if satisfies(g, &m) {
            return Ok(true);
        }
    }
    Ok(false)
}

// whether the clauses have the formula's models, where they need at most twelve further variables
fn keeps_models(alloc: Global, f: &Formula) -> Result<bool, CountError>
    requires vars { f.now.vars ≤ 6 }
    requires constraints { length f.now.constraints ≡ 1 }
{
    let g = counted(alloc, f)?;
    if g.vars() >= f.vars() + 13 {
        return Ok(false);
    }
    for bits in 0..1u64 << f.vars() {
        if is_model(alloc, f, bits)? != is_model_cut(alloc, &g, f.vars(), bits)? {
            return Ok(false);
        }
    }
    Ok(true)
}

#[test]
fn models_are_kept(rt: HostRuntime) -> Result<(), Fail> {
    for n in 0..6u64 {
        for bound in 0..n + 2 {
            let f = count(rt.alloc(), bound, n)?;
            assert_eq!(rt; keeps_models(rt.alloc(), &f), Ok(true), "{bound} of {n}");
            let f = guarded_count(rt.alloc(), bound, n)?;
            assert_eq!(rt; keeps_models(rt.alloc(), &f), Ok(true), "{bound} of {n}");
        }
    }
    Ok(())
}

#[test]
fn cells_have_kinds(rt: HostRuntime) -> Result<(), Fail> {
    let rows = [
        (1, 0, Cell::True),
        (1, 3, Cell::Inner),
        (1, 4, Cell::False),
        (3, 1, Cell::Inner),
        (3, 2, Cell::False),
        (4, 0, Cell::True),
        (4, 1, Cell::False),
    ];
    for (i, j, want) in rows {
        assert_eq!(rt; grid_cell(3, i, j), want, "node ({i}, {j})");
    }
    Ok(())
}
