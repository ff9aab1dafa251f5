//! What a constraint is under a trail, by counting all its places.
ghost use Rattle.std.specs.Prelude.{◌≡◌, ◌≤◌, ◌↔◌, IsTrue, true};
ghost use Rattle.kn_logic.specs.Propagation.{open_places};
ghost use Rattle.kn_watch.specs.Trails.{literals, IsTrail};
ghost use Rattle.kn_watch.specs.Watches.{true_in, IsSatisfied};
ghost use Rattle.kn_kinds.specs.Kinds.{is_undecided, IsSurveyed};

use kn_logic::{Constraint, Lit};
use kn_watch::{Trail, Visit};

// what a constraint is; `Moved`, with the number 0, where it is nothing else
pub(crate) fn survey(c: &Constraint, trail: &Trail) -> Visit
    ensures means { IsSurveyed (literals trail.now.made) c.now result }
    ensures kept { IsTrail trail.now }
{
    // its readers hand out what a trail keeps
    let _ = trail.len();
    if is_satisfied(c, trail) {
        return Visit::Satisfied;
    }
    let left = count_open(c.lits(), trail);
    if left > c.bound() {
        return Visit::Moved { place: 0 };
    }
    if is_undecided(c.guard(), trail) {
        return survey_undecided(c, left, trail);
    }
    if left < c.bound() {
        Visit::Conflict
    } else {
        Visit::Forces
    }
}

// what a constraint is whose guard has no value, and of whose literals so many are not false
fn survey_undecided(c: &Constraint, left: u64, trail: &Trail) -> Visit
    requires unsatisfied { IsSatisfied (literals trail.now.made) c.now → ⊥ }
    requires left { left ≡ open_places (literals trail.now.made) c.now.lits }
    requires few { left ≤ c.now.bound }
    requires undecided { is_undecided (literals trail.now.made) c.now.guard ≡ true }
    ensures { IsSurveyed (literals trail.now.made) c.now result }
{
    let _ = trail;
    if left < c.bound() {
        Visit::Forces
    } else {
        Visit::Moved { place: 0 }
    }
}

// whether as many literals as the bound are true, or the guard is false
fn is_satisfied(c: &Constraint, trail: &Trail) -> bool
    ensures { IsTrue result ↔ IsSatisfied (literals trail.now.made) c.now }
{
    if let Some(guard) = c.guard() {
        if !trail.is_open(guard) {
            return true;
        }
    }
    count_true(c.lits(), trail) >= c.bound()
}

// whether there is a guard without a value
fn is_undecided(guard: Option<Lit>, trail: &Trail) -> bool
    ensures { result ≡ is_undecided (literals trail.now.made) guard }
{
    match guard {
        Some(guard) => trail.is_unset(guard),
        None => false,
    }
}

// at how many places the literal is not false
fn count_open(lits: &[Lit], trail: &Trail) -> u64
    ensures { result ≡ open_places (literals trail.now.made) lits.now }
{
    let mut count = 0;
    for lit in lits {
        if trail.is_open(*lit) {
            count += 1;
        }
    }
    count
}

// at how many places the literal is true
fn count_true(lits: &[Lit], trail: &Trail) -> u64
    ensures { result ≡ true_in (literals trail.now.made) lits.now }
{
    let mut count = 0;
    for lit in lits {
        if trail.value(*lit) == Some(true) {
            count += 1;
        }
    }
    count
}
