//! Propagation: each literal that became true is visited once, by a walk along the chain of its negation.
ghost use Rattle.std.specs.Prelude.{◌≡◌, ◌≤◌, ◌<◌, ◌+◌, ◌*◌, ◌^◌, length, slice_index_or, IfSome, IfNone, take};
ghost use Rattle.kn_logic.specs.Literals.{negated};
ghost use Rattle.kn_watch.specs.Trails.{literals, lit_of};
ghost use Rattle.kn_watch.specs.Watches.{listed, lit_at, IsConflicting};
ghost use Rattle.kn_propagate.specs.Chains.{seen_as, at_slot, code, AreKept, IsWalking, IsStopped, AreSame, IsGrown, AreReasoned, AreSpared, IsFresh, IsIdle, hand_of};

use crate::chains::{Chains, Spot, code};
use crate::slot::Slot;
use crate::visiting::{Effect, visit};
use kn_watch::{Trail, Watched};

/// The number of the chain of the literal at a place.
pub fn code_at<W: Watched>(slots: &Vec<Slot<W>>, owner: usize, place: usize) -> usize
    requires owner { owner < length slots.now.items }
    requires place { place < length (listed (at_slot (seen_as W.bounded W.watches slots.now.items) owner).c) }
    requires small { 2 * (lit_at (listed (at_slot (seen_as W.bounded W.watches slots.now.items) owner).c) place).variable + 2 < 2 ^ 64 }
    ensures { result ≡ code (lit_at (listed (at_slot (seen_as W.bounded W.watches slots.now.items) owner).c) place) }
{
    let lits = slots[owner].watch.lits();
    code(lits[place])
}

/// Walks along what the hand holds of the chain of a literal that became false. The owner of the entry at which
/// the walk stopped, if it met a conflict.
fn walk<W: Watched>(
    slots: &mut Vec<Slot<W>>,
    chains: &mut Chains,
    trail: &mut Trail,
    visited: usize,
) -> Option<usize>
    requires small { 2 * trail.old.vars + 3 < 2 ^ 64 }
    requires sized { length chains.old.heads ≡ 2 * trail.old.vars + 3 }
    requires visited { visited < length trail.old.made }
    requires kept { AreKept trail.old.vars (seen_as W.bounded W.watches slots.old.items) }
    requires fresh { IsFresh trail.old visited }
    requires walking { IsWalking trail.old.made (take visited (literals trail.old.made)) (seen_as W.bounded W.watches slots.old.items) chains.old.spots chains.old.nexts chains.old.heads (code (negated (lit_of trail.old.made visited))) }
    ensures kept { AreKept trail.old.vars (seen_as W.bounded W.watches slots.new.items) }
    ensures same { AreSame (seen_as W.bounded W.watches slots.old.items) (seen_as W.bounded W.watches slots.new.items) }
    ensures present { IsGrown trail.old trail.new }
    ensures reasons { AreReasoned (seen_as W.bounded W.watches slots.old.items) trail.old.made trail.new.made }
    ensures spared { AreSpared (length (seen_as W.bounded W.watches slots.old.items)) chains.old chains.new }
    ensures sized { length chains.new.heads ≡ 2 * trail.old.vars + 3 }
    ensures done { IfNone result (IsStopped trail.new.made (take (visited + 1) (literals trail.new.made)) (seen_as W.bounded W.watches slots.new.items) chains.new.spots chains.new.nexts chains.new.heads (code (negated (lit_of trail.old.made visited)))) }
    ensures empty { IfNone result (slice_index_or chains.new.heads (hand_of chains.new.heads) 0 ≡ 0) }
    ensures stopped { IfSome result (λ owner. IsStopped trail.new.made (take visited (literals trail.new.made)) (seen_as W.bounded W.watches slots.new.items) chains.new.spots chains.new.nexts chains.new.heads (code (negated (lit_of trail.old.made visited)))) }
    ensures conflict { IfSome result (λ owner. (owner < length slots.new.items) × IsConflicting (literals trail.new.made) (at_slot (seen_as W.bounded W.watches slots.new.items) owner).c) }
{
    let from = code(trail.at(visited).negated());
    while let Some(entry) = chains.draw() {
        let spot = chains.spot(entry);
        match visit(slots, spot, trail) {
            Effect::Stays => chains.lay(from, entry),
            Effect::Moved(place) => {
                let to = code_at(slots, spot.owner, place);
                chains.lay_at(
                    to,
                    entry,
                    Spot {
                        owner: spot.owner,
                        place,
                    },
                );
            }
            Effect::Conflict => {
                chains.lay(from, entry);
                return Some(spot.owner);
            }
        }
    }
    None
}

/// Puts what the hand holds back into its chain.
fn restore<W: Watched>(
    slots: &Vec<Slot<W>>,
    chains: &mut Chains,
    trail: &Trail,
    visited: usize,
    from: usize,
)
    requires from { from < hand_of chains.old.heads }
    requires stopped { IsStopped trail.now.made (take visited (literals trail.now.made)) (seen_as W.bounded W.watches slots.now.items) chains.old.spots chains.old.nexts chains.old.heads from }
    ensures idle { IsIdle trail.now.made (take visited (literals trail.now.made)) (seen_as W.bounded W.watches slots.now.items) chains.new.spots chains.new.nexts chains.new.heads }
    ensures sized { length chains.new.heads ≡ length chains.old.heads }
    ensures spared { AreSpared (length (seen_as W.bounded W.watches slots.now.items)) chains.old chains.new }
{
    while let Some(entry) = chains.draw() {
        chains.lay(from, entry);
    }
}

/// Visits each literal that was not visited yet. The slot of a constraint in conflict, at which it stopped.
pub fn propagate<W: Watched>(
    slots: &mut Vec<Slot<W>>,
    chains: &mut Chains,
    trail: &mut Trail,
    visited: &mut usize,
) -> Option<usize>
    requires small { 2 * trail.old.vars + 3 < 2 ^ 64 }
    requires sized { length chains.old.heads ≡ 2 * trail.old.vars + 3 }
    requires visited { visited.old ≤ length trail.old.made }
    requires kept { AreKept trail.old.vars (seen_as W.bounded W.watches slots.old.items) }
    requires fresh { IsFresh trail.old visited.old }
    requires idle { IsIdle trail.old.made (take visited.old (literals trail.old.made)) (seen_as W.bounded W.watches slots.old.items) chains.old.spots chains.old.nexts chains.old.heads }
    ensures sized { length chains.new.heads ≡ 2 * trail.old.vars + 3 }
    ensures kept { AreKept trail.old.vars (seen_as W.bounded W.watches slots.new.items) }
    ensures same { AreSame (seen_as W.bounded W.watches slots.old.items) (seen_as W.bounded W.watches slots.new.items) }
    ensures present { IsGrown trail.old trail.new }
    ensures reasons { AreReasoned (seen_as W.bounded W.watches slots.old.items) trail.old.made trail.new.made }
    ensures spared { AreSpared (length (seen_as W.bounded W.watches slots.old.items)) chains.old chains.new }
    ensures visited { visited.new ≤ length trail.new.made }
    ensures fresh { IsFresh trail.new visited.new }
    ensures idle { IsIdle trail.new.made (take visited.new (literals trail.new.made)) (seen_as W.bounded W.watches slots.new.items) chains.new.spots chains.new.nexts chains.new.heads }
    ensures all { IfNone result (length trail.new.made ≤ visited.new) }
    ensures conflict { IfSome result (λ owner. (owner < length slots.new.items) × IsConflicting (literals trail.new.made) (at_slot (seen_as W.bounded W.watches slots.new.items) owner).c) }
{
    while *visited < trail.len() {
        let from = code(trail.at(*visited).negated());
        chains.lift(from);
        if let Some(owner) = walk(slots, chains, trail, *visited) {
            restore(slots, chains, trail, *visited, from);
            return Some(owner);
        }
        *visited += 1;
    }
    None
}
