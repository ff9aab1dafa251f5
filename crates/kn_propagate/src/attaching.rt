//! The entries of a new constraint.
ghost use Rattle.std.specs.Prelude.{◌≡◌, ◌≤◌, ◌<◌, ◌+◌, ◌*◌, ◌^◌, length};
ghost use Rattle.kn_watch.specs.Watches.{listed};
ghost use Rattle.kn_propagate.specs.Chains.{seen_as, at_slot, cut, nobody, IsStill, AreSpare, AreWithin};

use crate::chains::{Chains, Spot};
use crate::slot::Slot;
use crate::walking::code_at;
use kn_watch::Watched;

/// Gives each watched place of a slot an entry, for which there is room.
pub fn attach<W: Watched>(slots: &Vec<Slot<W>>, chains: &mut Chains, owner: usize, vars: u64)
    requires owner { owner < length (seen_as W.bounded W.watches slots.now.items) }
    requires few { length (seen_as W.bounded W.watches slots.now.items) ≤ nobody }
    requires small { 2 * vars + 3 < 2 ^ 64 }
    requires sized { length chains.old.heads ≡ 2 * vars + 3 }
    requires within { AreWithin vars (seen_as W.bounded W.watches slots.now.items) }
    requires still { IsStill (cut (seen_as W.bounded W.watches slots.now.items) owner 0) chains.old }
    requires spare { AreSpare chains.old }
    requires room { length chains.old.spots + length (listed (at_slot (seen_as W.bounded W.watches slots.now.items) owner).c) ≤ chains.old.room }
    ensures sized { length chains.new.heads ≡ 2 * vars + 3 }
    ensures still { IsStill (seen_as W.bounded W.watches slots.now.items) chains.new }
    ensures spare { AreSpare chains.new }
{
    let count = slots[owner].watch.lits().len();
    for place in 0..count {
        attach_at(slots, chains, owner, place, vars);
    }
}

// gives a place of a slot an entry, if it is watched
fn attach_at<W: Watched>(
    slots: &Vec<Slot<W>>,
    chains: &mut Chains,
    owner: usize,
    place: usize,
    vars: u64,
)
    requires owner { owner < length (seen_as W.bounded W.watches slots.now.items) }
    requires place { place < length (listed (at_slot (seen_as W.bounded W.watches slots.now.items) owner).c) }
    requires few { length (seen_as W.bounded W.watches slots.now.items) ≤ nobody }
    requires small { 2 * vars + 3 < 2 ^ 64 }
    requires sized { length chains.old.heads ≡ 2 * vars + 3 }
    requires within { AreWithin vars (seen_as W.bounded W.watches slots.now.items) }
    requires still { IsStill (cut (seen_as W.bounded W.watches slots.now.items) owner place) chains.old }
    requires spare { AreSpare chains.old }
    requires room { length chains.old.spots < chains.old.room }
    ensures sized { length chains.new.heads ≡ 2 * vars + 3 }
    ensures still { IsStill (cut (seen_as W.bounded W.watches slots.now.items) owner (place + 1)) chains.new }
    ensures spare { AreSpare chains.new }
    ensures long { length chains.new.spots ≤ length chains.old.spots + 1 }
    ensures room { chains.old.room ≤ chains.new.room }
{
    if !slots[owner].watch.watched(place) {
        return;
    }
    let chain = code_at(slots, owner, place);
    let entry = chains.unused();
    chains.lay_at(chain, entry, Spot { owner, place });
}
