//! Constraints that were added are looked at before anything is visited.
ghost use Rattle.std.specs.Prelude.{◌≡◌, ◌<◌, ℕ, true, false, length, IsTrue, IfSome, IfNone};
ghost use Rattle.kn_logic.specs.Propagation.{IsShort};
ghost use Rattle.kn_watch.specs.Trails.{literals, IsTrail};
ghost use Rattle.kn_watch.specs.Watches.{IsConflicting};
ghost use Rattle.kn_propagate.specs.Chains.{seen_as, at_slot, is_in, AreKept, IsGrown, AreReasoned, AreSettled};

use crate::slot::Slot;
use crate::visiting::push_forced;
use kn_watch::{Look, Trail, Watched, look};

/// Makes true what each constraint of the list forces. The slot of one in conflict, at which it stopped.
pub fn settle<W: Watched>(
    slots: &Vec<Slot<W>>,
    pending: &[usize],
    trail: &mut Trail,
) -> Option<usize>
    requires trail { IsTrail trail.old }
    requires kept { AreKept trail.old.vars (seen_as W.bounded W.watches slots.now.items) }
    requires due { (slot : ℕ) → is_in slot pending.now ≡ true → slot < length (seen_as W.bounded W.watches slots.now.items) }
    ensures present { IsGrown trail.old trail.new }
    ensures reasons { AreReasoned (seen_as W.bounded W.watches slots.now.items) trail.old.made trail.new.made }
    ensures settled { IfNone result (AreSettled (literals trail.old.made) (literals trail.new.made) (seen_as W.bounded W.watches slots.now.items) pending.now) }
    ensures conflict { IfSome result (λ owner. (owner < length slots.now.items) × IsConflicting (literals trail.new.made) (at_slot (seen_as W.bounded W.watches slots.now.items) owner).c) }
{
    for slot in pending {
        if !look_at(slots, *slot, trail) {
            return Some(*slot);
        }
    }
    None
}

// makes true what a constraint forces; false where too few of its literals are left
fn look_at<W: Watched>(slots: &Vec<Slot<W>>, owner: usize, trail: &mut Trail) -> bool
    requires owner { owner < length (seen_as W.bounded W.watches slots.now.items) }
    requires trail { IsTrail trail.old }
    requires kept { AreKept trail.old.vars (seen_as W.bounded W.watches slots.now.items) }
    ensures present { IsGrown trail.old trail.new }
    ensures reasons { AreReasoned (seen_as W.bounded W.watches slots.now.items) trail.old.made trail.new.made }
    ensures quiet { IsTrue result → IsShort (literals trail.new.made) (at_slot (seen_as W.bounded W.watches slots.now.items) owner).c → ⊥ }
    ensures conflict { result ≡ false → IsConflicting (literals trail.new.made) (at_slot (seen_as W.bounded W.watches slots.now.items) owner).c }
{
    let slot = &slots[owner];
    match look(&slot.watch, trail) {
        Look::Quiet => true,
        Look::Conflict => false,
        Look::Forces => {
            let Some(id) = slot.id else { unreachable!() };
            push_forced(&slot.watch, id, trail)
        }
    }
}
