//! Whether a constraint is a reason.
ghost use Rattle.std.specs.Prelude.{ℕ, ◌≡◌, true, false, Some, slice_get};
ghost use Rattle.kn_watch.specs.declared.trail.Made.{Made};
ghost use Rattle.kn_learn.specs.Lessons.{IsReason};
ghost use Rattle.kn_learn.specs.Analyses.{IsNotBy};

use crate::reading::reason_at;
use kn_logic::Lit;
use kn_propagate::Engine;
use kn_watch::{Trail, Watched};

/// Whether the constraint of an id is a reason on the trail.
pub fn is_locked<C: Watched, K: Watched>(engine: &Engine<C, K>, id: u64) -> bool
    ensures locked { result ≡ true → IsReason engine.now.trail.made id }
    ensures free { result ≡ false → (p : ℕ) (m : Made) → slice_get engine.now.trail.made p ≡ Some m → m.reason ≡ Some id → ⊥ }
{
    let Some(lits) = engine.lits_of(id) else {
        return false;
    };
    for lit in lits {
        if is_reason(engine.trail(), *lit, id) {
            return true;
        }
    }
    false
}

// whether the literal of this variable came by the id
fn is_reason(trail: &Trail, lit: Lit, id: u64) -> bool
    ensures yes { result ≡ true → IsReason trail.now.made id }
    ensures none { result ≡ false → IsNotBy trail.now.made id lit }
{
    let Some(place) = trail.place_of(lit.var()) else {
        return false;
    };
    match reason_at(trail, place) {
        Some(reason) => reason == id,
        None => false,
    }
}
