//! How late a literal became false: the order in which places are chosen to be watched.
ghost use Rattle.std.specs.Prelude.{◌≡◌, ◌≤◌, ◌<◌, ◌⊎◌, length};
ghost use Rattle.kn_watch.specs.Trails.{literals};
ghost use Rattle.kn_watch.specs.Watches.{lit_at};
ghost use Rattle.kn_kinds.specs.Latest.{rank};

use kn_logic::Lit;
use kn_watch::Trail;

// the place on the trail at which a literal became false; the number of all places where it is not false
pub(crate) fn rank(lit: Lit, trail: &Trail) -> usize
    ensures { result ≡ rank (literals trail.now.made) lit }
{
    if trail.is_open(lit) {
        return trail.len();
    }
    match trail.place_of(lit.var()) {
        Some(place) => place,
        None => trail.len(),
    }
}

// of two places that whose literal became false later, or is not false
pub(crate) fn later(lits: &[Lit], first: usize, second: usize, trail: &Trail) -> usize
    requires first { first < length lits.now }
    requires second { second < length lits.now }
    ensures one { (result ≡ first) ⊎ (result ≡ second) }
    ensures first { rank (literals trail.now.made) (lit_at lits.now first) ≤ rank (literals trail.now.made) (lit_at lits.now result) }
    ensures second { rank (literals trail.now.made) (lit_at lits.now second) ≤ rank (literals trail.now.made) (lit_at lits.now result) }
{
    if rank(lits[first], trail) < rank(lits[second], trail) {
        second
    } else {
        first
    }
}
