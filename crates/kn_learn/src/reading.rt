//! What is read of a trail by its places.
ghost use Rattle.std.specs.Prelude.{ℕ, ◌≡◌, ◌<◌, Some, IfSome, IfNone, length, slice_get};
ghost use Rattle.kn_logic.specs.Literals.{negated};
ghost use Rattle.kn_watch.specs.declared.trail.Made.{Made};
ghost use Rattle.kn_watch.specs.Trails.{IsTrail};

use kn_logic::Lit;
use kn_watch::Trail;

/// The literal of a place.
pub(crate) fn lit_at(trail: &Trail, place: usize) -> Lit
    requires { place < length trail.now.made }
    ensures { (m : Made) → slice_get trail.now.made place ≡ Some m → result ≡ m.lit }
{
    trail.at(place)
}

/// The level of a place.
pub(crate) fn level_at(trail: &Trail, place: usize) -> u64
    requires { place < length trail.now.made }
    ensures value { (m : Made) → slice_get trail.now.made place ≡ Some m → result ≡ m.level }
    ensures kept { IsTrail trail.now }
{
    trail.level_of(trail.at(place).var()).unwrap_or(0)
}

/// The reason of a place.
pub(crate) fn reason_at(trail: &Trail, place: usize) -> Option<u64>
    requires { place < length trail.now.made }
    ensures { (m : Made) → slice_get trail.now.made place ≡ Some m → result ≡ m.reason }
{
    trail.reason_of(trail.at(place).var())
}

/// Where a literal was made false, if that was before a place.
pub(crate) fn false_before(trail: &Trail, lit: Lit, before: usize) -> Option<usize>
    ensures some { IfSome result (λ p. (m : Made) × (p < before) × (slice_get trail.now.made p ≡ Some m) × (m.lit ≡ negated lit)) }
    ensures none { IfNone result ((q : ℕ) (m : Made) → q < before → slice_get trail.now.made q ≡ Some m → m.lit ≡ negated lit → ⊥) }
    ensures kept { IfSome result (λ p. IsTrail trail.now) }
{
    if trail.is_open(lit) {
        return None;
    }
    match trail.place_of(lit.var()) {
        Some(place) if place < before => Some(place),
        _ => None,
    }
}
