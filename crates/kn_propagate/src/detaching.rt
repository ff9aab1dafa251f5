//! The entries of a constraint that is removed.
ghost use Rattle.std.specs.Prelude.{◌≡◌, ◌≤◌, ◌<◌, ◌+◌, ◌*◌, ◌^◌, length};
ghost use Rattle.kn_watch.specs.Watches.{listed};
ghost use Rattle.kn_propagate.specs.Chains.{seen_as, at_slot, cut, nobody, IsStill, AreSpare, AreWithin};

use crate::chains::{Chains, Spot};
use crate::slot::Slot;
use crate::walking::code_at;
use kn_watch::Watched;

/// Takes the entry of each watched place of a slot out of its chain.
pub fn detach<W: Watched>(slots: &Vec<Slot<W>>, chains: &mut Chains, owner: usize, vars: u64)
    requires owner { owner < length (seen_as W.bounded W.watches slots.now.items) }
    requires few { length (seen_as W.bounded W.watches slots.now.items) ≤ nobody }
    requires small { 2 * vars + 3 < 2 ^ 64 }
    requires sized { length chains.old.heads ≡ 2 * vars + 3 }
    requires within { AreWithin vars (seen_as W.bounded W.watches slots.now.items) }
    requires still { IsStill (seen_as W.bounded W.watches slots.now.items) chains.old }
    requires spare { AreSpare chains.old }
    ensures sized { length chains.new.heads ≡ 2 * vars + 3 }
    ensures still { IsStill (cut (seen_as W.bounded W.watches slots.now.items) owner 0) chains.new }
    ensures spare { AreSpare chains.new }
{
    let mut place = slots[owner].watch.lits().len();
    while place > 0 {
        place -= 1;
        detach_at(slots, chains, owner, place, vars);
    }
}

// takes the entry of a place of a slot out of its chain, if the place is watched
fn detach_at<W: Watched>(
    slots: &Vec<Slot<W>>,
    chains: &mut Chains,
    owner: usize,
    place: usize,
    vars: u64,
)
    requires owner { owner < length (seen_as W.bounded W.watches slots.now.items) }
    requires place { place < length (listed (at_slot (seen_as W.bounded W.watches slots.now.items) owner).c) }
    requires few { length (seen_as W.bounded W.watches slots.now.items) ≤ nobody }
    requires small { 2 * vars + 3 < 2 ^ 64 }
    requires sized { length chains.old.heads ≡ 2 * vars + 3 }
    requires within { AreWithin vars (seen_as W.bounded W.watches slots.now.items) }
    requires still { IsStill (cut (seen_as W.bounded W.watches slots.now.items) owner (place + 1)) chains.old }
    requires spare { AreSpare chains.old }
    ensures sized { length chains.new.heads ≡ 2 * vars + 3 }
    ensures still { IsStill (cut (seen_as W.bounded W.watches slots.now.items) owner place) chains.new }
    ensures spare { AreSpare chains.new }
{
    if !slots[owner].watch.watched(place) {
        return;
    }
    let chain = code_at(slots, owner, place);
    chains.release(chain, Spot { owner, place });
}
