//! A formula in clauses: a clause stays as it is, and of a klause the literals that are false are counted, since a
//! sequential counter says "at most".
ghost use Rattle.std.specs.Prelude.{◌≡◌, ◌≤◌, ◌<◌, ◌+◌, ◌-◌, ◌^◌, ◌++◌, Bool, true, List, length, take, min, IfOk, IfErr, OnOk};
ghost use Rattle.std.specs.List.{AllByRecursion};
ghost use Rattle.kn_logic.specs.Literals.{AreKnown};
ghost use Rattle.kn_logic.specs.Constraints.{is_clause, IsWithin, Fits};
ghost use Rattle.kn_logic.specs.Formulas.{Satisfies};
ghost use Rattle.kn_counter.specs.Counters.{further_of, further, all_further, bound_clauses, clauses_of, all_clauses, counted, most_counted};
ghost use Rattle.kn_counter.specs.Rows.{with_more, with_clauses};
ghost use Rattle.kn_counter.specs.Sizes.{IfTooLarge};

use crate::CountError;
use crate::clauses::{negations, push_clause, push_units};
use crate::row::Row;
use crate::rows::push_counter;
use crate::sizes::{further_vars, needed_vars};
use kn_logic::{Constraint, Formula, Lit, NoMemory};
use std::alloc::Global;

/// The most variables that a formula of clauses may have.
pub const MAX_COUNTED: u64 = 10_000_000;

/// The formula in clauses alone, over its variables and further ones behind them. It has the same models:
/// each model of the formula, with some values for the further variables, is one of the clauses, and each
/// model of the clauses, cut to the formula's variables, is one of the formula. The formula has at most
/// 1,000,000 variables and 10,000,000 constraints. An error exactly where the clauses need more variables
/// than `MAX_COUNTED`, which is found before the first is made, or where memory is short. The time is in
/// proportion to the literals that are read and written.
pub fn counted(alloc: Global, f: &Formula) -> Result<Formula, CountError>
    requires vars { f.now.vars ≤ 1000000 }
    requires constraints { length f.now.constraints ≤ 10000000 }
    ensures clauses { IfOk result (λ g. g ≡ counted f.now) }
    ensures within { IfOk result (λ g. g.vars ≤ most_counted) }
    ensures all { IfOk result (λ g. AllByRecursion (λ c. is_clause c ≡ true) g.constraints) }
    ensures extended { IfOk result (λ g. (values : List Bool) → Satisfies values f.now → (more : List Bool) × Satisfies (values ++ more) g) }
    ensures cut { IfOk result (λ g. (values : List Bool) → Satisfies values g → Satisfies (take f.now.vars values) f.now) }
    ensures large { IfErr result (λ e. IfTooLarge e (λ vars. (most_counted < (counted f.now).vars) × (vars ≡ min (counted f.now).vars (2 ^ 64 - 1)))) }
{
    let vars = needed_vars(f);
    if vars > MAX_COUNTED {
        return Err(CountError::TooLarge { vars });
    }
    let mut out = Formula::new(alloc, vars);
    push_all(alloc, &mut out, f.vars(), f.constraints())?;
    Ok(out)
}

/// Adds the clauses of all constraints of a formula over so many variables.
fn push_all(
    alloc: Global,
    out: &mut Formula,
    vars: u64,
    constraints: &[Constraint],
) -> Result<(), NoMemory>
    requires vars { out.old.vars < 2 ^ 63 }
    requires fit { AllByRecursion (Fits vars) constraints.now }
    requires room { vars + all_further constraints.now ≤ out.old.vars }
    ensures { OnOk result (out.new ≡ with_more out.old (all_clauses vars constraints.now)) }
{
    let mut base = vars;
    for c in constraints {
        push_constraint(alloc, out, base, c)?;
        base += further_vars(c);
    }
    Ok(())
}

/// Adds the clauses of a constraint, whose further variables are the ones behind `base`. Where there is a
/// guard, its negation is the head of each.
fn push_constraint(
    alloc: Global,
    out: &mut Formula,
    base: u64,
    c: &Constraint,
) -> Result<(), NoMemory>
    requires vars { out.old.vars < 2 ^ 63 }
    requires within { IsWithin out.old.vars c.now }
    requires room { base + further c.now ≤ out.old.vars }
    ensures { OnOk result (out.new ≡ with_more out.old (clauses_of base c.now)) }
{
    match c.guard() {
        Some(guard) => push_bound(alloc, out, &[guard.negated()], base, c.bound(), c.lits()),
        None => push_bound(alloc, out, &[], base, c.bound(), c.lits()),
    }
}

/// Adds the clauses for "at least `bound` of these literals", each behind the literals of `front`. A bound
/// above 1 and below their number is said of their negations: at most n - `bound` of them are true.
fn push_bound(
    alloc: Global,
    out: &mut Formula,
    front: &[Lit],
    base: u64,
    bound: u64,
    lits: &[Lit],
) -> Result<(), NoMemory>
    requires vars { out.old.vars < 2 ^ 63 }
    requires front { AreKnown out.old.vars front.now }
    requires lits { AreKnown out.old.vars lits.now }
    requires room { base + further_of bound (length lits.now) ≤ out.old.vars }
    ensures { OnOk result (out.new ≡ with_clauses front.now out.old (bound_clauses base bound lits.now)) }
{
    let n = lits.len() as u64;
    if bound == 1 {
        return push_clause(alloc, out, front, lits);
    }
    if bound == 0 {
        return Ok(());
    }
    if n < bound {
        return push_clause(alloc, out, front, &[]);
    }
    if bound == n {
        return push_units(alloc, out, front, lits);
    }
    let negations = negations(alloc, lits)?;
    let first = Row {
        start: base,
        k: n - bound,
    };
    push_counter(alloc, out, front, first, &negations)
}
