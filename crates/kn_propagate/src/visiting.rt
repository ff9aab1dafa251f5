//! The visit of one entry: its constraint turns to a literal that became false.
ghost use Rattle.std.specs.Prelude.{◌≡◌, ◌<◌, true, false, length, IsTrue};
ghost use Rattle.kn_logic.specs.Constraints.{IsWithin};
ghost use Rattle.kn_logic.specs.Propagation.{is_open};
ghost use Rattle.kn_watch.specs.Trails.{literals, IsTrail};
ghost use Rattle.kn_watch.specs.Watches.{listed, IsForcing, IsSatisfied, IsConflicting};
ghost use Rattle.kn_propagate.specs.Chains.{seen_as, at_slot, lit_of_spot, AreKept, IsKept, IsTurned, AreSame, IsGrown, AreForcedBy, AreReasoned, IsVisited};

use crate::chains::Spot;
use crate::slot::Slot;
use kn_watch::{Trail, Visit, Watched, forced, is_conflicting};

/// What the visit of an entry did.
#[derive(Clone, Copy, Debug)]
pub enum Effect {
    /// The constraint is satisfied.
    Stays,
    /// The watch went to this place.
    Moved(usize),
    /// Too few literals are left.
    Conflict,
}

/// Turns to a watched place whose literal is false.
fn turn<W: Watched>(slots: &mut Vec<Slot<W>>, spot: Spot, trail: &Trail) -> Visit
    requires owner { spot.owner < length slots.old.items }
    requires place { spot.place < length (listed (at_slot (seen_as W.bounded W.watches slots.old.items) spot.owner).c) }
    requires watched { (at_slot (seen_as W.bounded W.watches slots.old.items) spot.owner).watches spot.place ≡ true }
    requires is_false { is_open (literals trail.now.made) (lit_of_spot (seen_as W.bounded W.watches slots.old.items) spot) ≡ false }
    requires kept { IsKept trail.now.vars (at_slot (seen_as W.bounded W.watches slots.old.items) spot.owner) }
    ensures kept { IsKept trail.now.vars (at_slot (seen_as W.bounded W.watches slots.new.items) spot.owner) }
    ensures turned { IsTurned (literals trail.now.made) (seen_as W.bounded W.watches slots.old.items) (seen_as W.bounded W.watches slots.new.items) spot result }
{
    slots[spot.owner].watch.turned_false(spot.place, trail)
}

/// Makes all that a constraint forces true, and tells whether it is satisfied then; else too few literals are
/// left.
pub fn push_forced<W: Watched>(w: &W, id: u64, trail: &mut Trail) -> bool
    requires trail { IsTrail trail.old }
    requires known { IsWithin trail.old.vars (W.bounded w.now) }
    requires forces { IsForcing (literals trail.old.made) (W.bounded w.now) }
    ensures present { IsGrown trail.old trail.new }
    ensures reasons { AreForcedBy id (W.bounded w.now) trail.old.made trail.new.made }
    ensures satisfied { IsTrue result → IsSatisfied (literals trail.new.made) (W.bounded w.now) }
    ensures conflict { result ≡ false → IsConflicting (literals trail.new.made) (W.bounded w.now) }
{
    for place in 0..w.lits().len() {
        if forced(w, place, trail) {
            let lit = w.lits()[place];
            trail.push(lit, Some(id));
        }
    }
    !is_conflicting(w, trail)
}

/// Visits an entry whose literal is false.
pub fn visit<W: Watched>(slots: &mut Vec<Slot<W>>, spot: Spot, trail: &mut Trail) -> Effect
    requires owner { spot.owner < length slots.old.items }
    requires place { spot.place < length (listed (at_slot (seen_as W.bounded W.watches slots.old.items) spot.owner).c) }
    requires watched { (at_slot (seen_as W.bounded W.watches slots.old.items) spot.owner).watches spot.place ≡ true }
    requires is_false { is_open (literals trail.old.made) (lit_of_spot (seen_as W.bounded W.watches slots.old.items) spot) ≡ false }
    requires trail { IsTrail trail.old }
    requires kept { AreKept trail.old.vars (seen_as W.bounded W.watches slots.old.items) }
    ensures kept { AreKept trail.old.vars (seen_as W.bounded W.watches slots.new.items) }
    ensures same { AreSame (seen_as W.bounded W.watches slots.old.items) (seen_as W.bounded W.watches slots.new.items) }
    ensures present { IsGrown trail.old trail.new }
    ensures reasons { AreReasoned (seen_as W.bounded W.watches slots.old.items) trail.old.made trail.new.made }
    ensures visited { IsVisited trail.old trail.new (seen_as W.bounded W.watches slots.old.items) (seen_as W.bounded W.watches slots.new.items) spot result }
{
    match turn(slots, spot, trail) {
        Visit::Moved { place } => Effect::Moved(place),
        Visit::Satisfied => Effect::Stays,
        Visit::Conflict => Effect::Conflict,
        Visit::Forces => {
            let slot = &slots[spot.owner];
            let Some(id) = slot.id else { unreachable!() };
            if push_forced(&slot.watch, id, trail) {
                Effect::Stays
            } else {
                Effect::Conflict
            }
        }
    }
}
