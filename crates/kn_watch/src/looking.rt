//! What a trail makes of a constraint, by counting its places: which literals it forces, and whether it is in
//! conflict.
ghost use Rattle.std.specs.Prelude.{◌≡◌, ◌≤◌, ◌<◌, ◌↔◌, length, take, IsTrue};
ghost use Rattle.kn_logic.specs.Propagation.{open_places, has_unset};
ghost use Rattle.kn_watch.specs.Trails.{literals};
ghost use Rattle.kn_watch.specs.Watches.{listed, IsBinding, IsForced, IsConflicting, IsLook};

use crate::{Look, Trail, Watched};
use kn_logic::Lit;

/// Whether the literal at a place, which counts from 0, has to become true.
pub fn forced<W: Watched>(w: &W, place: usize, trail: &Trail) -> bool
    requires { place < length (listed (W.bounded w.now)) }
    ensures { IsTrue result ↔ IsForced (literals trail.now.made) (W.bounded w.now) place }
{
    if !trail.is_unset(w.lits()[place]) {
        return false;
    }
    let own = own_count(w);
    let left = count_open(w.lits(), own, trail);
    if place < own {
        left == w.bound() && is_binding(w, trail)
    } else {
        left < w.bound()
    }
}

/// Whether a constraint forces a literal, or is in conflict.
pub fn look<W: Watched>(w: &W, trail: &Trail) -> Look
    ensures { IsLook (literals trail.now.made) (W.bounded w.now) result }
{
    let lits = w.lits();
    let own = own_count(w);
    let left = count_open(lits, own, trail);
    if !is_binding(w, trail) {
        return look_at_guard(w, left, trail);
    }
    if left < w.bound() {
        Look::Conflict
    } else if left == w.bound() && has_unset(&lits[..own], trail) {
        Look::Forces
    } else {
        Look::Quiet
    }
}

/// Whether fewer literals than the bound are not false, and no guard forbids that.
pub fn is_conflicting<W: Watched>(w: &W, trail: &Trail) -> bool
    ensures { IsTrue result ↔ IsConflicting (literals trail.now.made) (W.bounded w.now) }
{
    count_open(w.lits(), own_count(w), trail) < w.bound() && is_binding(w, trail)
}

// what is said of a constraint whose guard is not true, and of whose own literals so many are not false
fn look_at_guard<W: Watched>(w: &W, left: u64, trail: &Trail) -> Look
    requires left { left ≡ open_places (literals trail.now.made) (W.bounded w.now).lits }
    requires guard { IsBinding (literals trail.now.made) (W.bounded w.now).guard → ⊥ }
    ensures { IsLook (literals trail.now.made) (W.bounded w.now) result }
{
    let lits = w.lits();
    if left < w.bound() && trail.is_unset(lits[own_count(w)]) {
        Look::Forces
    } else {
        Look::Quiet
    }
}

// the number of literals without the guard's
fn own_count<W: Watched>(w: &W) -> usize
    ensures { result ≡ length (W.bounded w.now).lits }
{
    let count = w.lits().len();
    if w.guarded() { count - 1 } else { count }
}

// whether there is no guard, or it is true
fn is_binding<W: Watched>(w: &W, trail: &Trail) -> bool
    ensures { IsTrue result ↔ IsBinding (literals trail.now.made) (W.bounded w.now).guard }
{
    if !w.guarded() {
        return true;
    }
    let lits = w.lits();
    !trail.is_open(lits[lits.len() - 1])
}

// at how many of so many first places the literal is not false
fn count_open(lits: &[Lit], count: usize, trail: &Trail) -> u64
    requires { count ≤ length lits.now }
    ensures { result ≡ open_places (literals trail.now.made) (take count lits.now) }
{
    let mut found = 0;
    for place in 0..count {
        if trail.is_open(lits[place]) {
            found += 1;
        }
    }
    found
}

// whether some literal has no value
fn has_unset(lits: &[Lit], trail: &Trail) -> bool
    ensures { result ≡ has_unset (literals trail.now.made) lits.now }
{
    for lit in lits {
        if trail.is_unset(*lit) {
            return true;
        }
    }
    false
}
