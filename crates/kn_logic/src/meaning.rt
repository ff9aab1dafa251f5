//! The meaning of constraints and formulas, computed, for whoever holds a model against a formula, as tests do.
ghost use Rattle.std.specs.Prelude.{◌≡◌, ◌≤◌, ◌↔◌, length, IsTrue, IfSome};
ghost use Rattle.std.specs.List.{AllByRecursion};
ghost use Rattle.kn_logic.specs.Literals.{IsKnown, AreKnown};
ghost use Rattle.kn_logic.specs.Assignments.{is_true, true_places};
ghost use Rattle.kn_logic.specs.Constraints.{IsOff, IsWithin, Fits, Holds};
ghost use Rattle.kn_logic.specs.Formulas.{Satisfies};

use crate::{Assignment, Constraint, Formula, Lit};

/// Whether the constraint holds: at least as many of its places as its bound have a true literal, or it
/// has a guard, which is false. The assignment has all its variables.
pub fn holds(c: &Constraint, m: &Assignment) -> bool
    requires { IsWithin (length m.now) c.now }
    ensures { IsTrue result ↔ Holds m.now c.now }
{
    count_true(c.lits(), m) >= c.bound() || is_off(c.guard(), m)
}

/// Whether the assignment is a model of the formula: it has exactly its variables, and each constraint
/// holds. It may have more variables than the formula, and is no model then, but never fewer.
pub fn satisfies(f: &Formula, m: &Assignment) -> bool
    requires { f.now.vars ≤ length m.now }
    ensures { IsTrue result ↔ Satisfies m.now f.now }
{
    m.vars() == f.vars() && all_hold(f.constraints(), m)
}

fn all_hold(constraints: &[Constraint], m: &Assignment) -> bool
    requires { AllByRecursion (Fits (length m.now)) constraints.now }
    ensures { IsTrue result ↔ AllByRecursion (Holds m.now) constraints.now }
{
    for c in constraints {
        if !holds(c, m) {
            return false;
        }
    }
    true
}

fn count_true(lits: &[Lit], m: &Assignment) -> u64
    requires { AreKnown (length m.now) lits.now }
    ensures { result ≡ true_places m.now lits.now }
{
    let mut count = 0;
    for lit in lits {
        if is_lit_true(*lit, m) {
            count += 1;
        }
    }
    count
}

fn is_off(guard: Option<Lit>, m: &Assignment) -> bool
    requires { IfSome guard (IsKnown (length m.now)) }
    ensures { IsTrue result ↔ IsOff m.now guard }
{
    match guard {
        Some(lit) => !is_lit_true(lit, m),
        None => false,
    }
}

fn is_lit_true(lit: Lit, m: &Assignment) -> bool
    requires { IsKnown (length m.now) lit }
    ensures { result ≡ is_true m.now lit }
{
    m.value(lit.var()) == lit.is_positive()
}
