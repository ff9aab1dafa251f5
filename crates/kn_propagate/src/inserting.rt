//! A new constraint in a free slot.
ghost use Rattle.std.specs.Prelude.{◌≡◌, ◌≤◌, ◌<◌, ◌+◌, ◌++◌, ◌∷◌, [], None, ℕ, length, vec_len, vec_capacity};
ghost use Rattle.kn_logic.specs.Constraints.{IsWithin};
ghost use Rattle.kn_logic.specs.Propagation.{IsShort};
ghost use Rattle.kn_watch.specs.Trails.{literals, below};
ghost use Rattle.kn_watch.specs.Watches.{listed};
ghost use Rattle.kn_propagate.specs.Chains.{seen_as, at_slot};
ghost use Rattle.kn_propagate.specs.Wholes.{IsTabled, IsFilled};

use crate::attaching::attach;
use crate::chains::Chains;
use crate::slot::Slot;
use kn_watch::{Trail, Visit, Watched};

/// Puts a constraint into a free slot: its first watches are chosen, each watched place gets an entry, and where
/// it forces a literal or is in conflict, the next propagation is to look at it. There is room for all of this.
pub fn insert<W: Watched>(
    slots: &mut Vec<Slot<W>>,
    chains: &mut Chains,
    pending: &mut Vec<usize>,
    trail: &Trail,
    visited: usize,
    owner: usize,
    id: u64,
    watch: W,
)
    requires tabled { IsTabled trail.now (seen_as W.bounded W.watches slots.old.items) chains.old visited pending.old.items }
    requires within { IsWithin trail.now.vars (W.bounded watch) }
    requires waits { (k : ℕ) → k < trail.now.level → IsShort (literals (below (k + 1) trail.now.made)) (W.bounded watch) → ⊥ }
    requires owner { owner < length (seen_as W.bounded W.watches slots.old.items) }
    requires free { (at_slot (seen_as W.bounded W.watches slots.old.items) owner).id ≡ None }
    requires room { length chains.old.spots + length (listed (W.bounded watch)) ≤ chains.old.room }
    requires due { vec_len pending.old < vec_capacity pending.old }
    ensures tabled { IsTabled trail.now (seen_as W.bounded W.watches slots.new.items) chains.new visited pending.new.items }
    ensures added { IsFilled (seen_as W.bounded W.watches slots.old.items) (seen_as W.bounded W.watches slots.new.items) owner id (W.bounded watch) }
{
    let _ = visited;
    let mut watch = watch;
    let visit = watch.first_watches(trail);
    slots[owner] = Slot {
        id: Some(id),
        watch,
    };
    attach(slots, chains, owner, trail.vars());
    match visit {
        Visit::Moved { .. } => {}
        Visit::Satisfied => {}
        Visit::Forces => due(pending, owner),
        Visit::Conflict => due(pending, owner),
    }
}

// one slot more to be looked at, for which there is room
fn due(pending: &mut Vec<usize>, owner: usize)
    requires { vec_len pending.old < vec_capacity pending.old }
    ensures { pending.new.items ≡ pending.old.items ++ owner ∷ [] }
{
    let Ok(()) = pending.push(owner) else {
        unreachable!()
    };
}
