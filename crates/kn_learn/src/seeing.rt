//! What a constraint rests on is marked as needed.
ghost use Rattle.std.specs.Prelude.{ℕ, List, ◌≡◌, ◌<◌, ◌≤◌, ◌+◌, length, false, Some, OnOk, slice_get};
ghost use Rattle.kn_logic.specs.Constraints.{Bounded};
ghost use Rattle.kn_watch.specs.Trails.{Trailed};
ghost use Rattle.kn_watch.specs.Watches.{listed};
ghost use Rattle.kn_propagate.specs.Engines.{Live};
ghost use Rattle.kn_learn.specs.declared.marks.Mark.TheVariants.{Explained};
ghost use Rattle.kn_learn.specs.Marking.{mark_at, is_needed};
ghost use Rattle.kn_learn.specs.Analyses.{IsNeeded, AreNeeded, IsNeededFor, IsLower, IsTop, IsWalking, Grows, IsLeft};

use crate::NoMemory;
use crate::analysis::{Analysis, Walk};
use crate::marks::Mark;
use crate::reading::{false_before, level_at, lit_at};
use kn_logic::Lit;
use kn_watch::Trail;

/// Marks as needed what made the literals of a constraint false before a place.
pub(crate) fn see_all(
    trail: &Trail,
    a: &mut Analysis,
    lits: &[Lit],
    before: usize,
) -> Result<(), NoMemory>
    ensures walking { OnOk result ((live : List Live) (p : ℕ) (left : List ℕ) → IsWalking trail.now live p left a.old.walk → before ≤ p + 1 → IsLeft a.old.walk before left → IsWalking trail.now live p left a.new.walk) }
    ensures needed { OnOk result ((c : Bounded) → lits.now ≡ listed c → AreNeeded trail.now.made a.new.walk.marks c before) }
    ensures grows { OnOk result (Grows before a.old.walk a.new.walk) }
{
    for lit in lits {
        see_false(trail, a, *lit, before)?;
    }
    Ok(())
}

// marks as needed what made a literal false before a place
fn see_false(trail: &Trail, a: &mut Analysis, lit: Lit, before: usize) -> Result<(), NoMemory>
    ensures walking { OnOk result ((live : List Live) (p : ℕ) (left : List ℕ) → IsWalking trail.now live p left a.old.walk → before ≤ p + 1 → IsLeft a.old.walk before left → IsWalking trail.now live p left a.new.walk) }
    ensures needed { OnOk result (IsNeededFor trail.now.made a.new.walk.marks before lit) }
    ensures grows { OnOk result (Grows before a.old.walk a.new.walk) }
{
    let Some(place) = false_before(trail, lit, before) else {
        return Ok(());
    };
    see(trail, a, place)
}

// marks a place as needed
fn see(trail: &Trail, a: &mut Analysis, place: usize) -> Result<(), NoMemory>
    requires { place < length trail.now.made }
    ensures walking { OnOk result ((live : List Live) (p : ℕ) (left : List ℕ) → IsWalking trail.now live p left a.old.walk → place ≤ p → IsLeft a.old.walk (place + 1) left → IsWalking trail.now live p left a.new.walk) }
    ensures needed { OnOk result (IsNeeded a.new.walk.marks place) }
    ensures grows { OnOk result (Grows (place + 1) a.old.walk a.new.walk) }
{
    match a.walk.marks.at(place) {
        Mark::Seen | Mark::Pending => Ok(()),
        Mark::Explained => await_reason(&mut a.walk, place),
        Mark::Unseen | Mark::Failed => meet(trail, a, place),
    }
}

// marks as needed a place that is explained: its reason is to be derived
fn await_reason(walk: &mut Walk, place: usize) -> Result<(), NoMemory>
    requires { mark_at walk.old.marks place ≡ Explained }
    ensures walking { OnOk result ((t : Trailed) (live : List Live) (p : ℕ) (left : List ℕ) → IsWalking t live p left walk.old → IsLeft walk.old (place + 1) left → IsWalking t live p left walk.new) }
    ensures needed { OnOk result (IsNeeded walk.new.marks place) }
    ensures grows { OnOk result (Grows (place + 1) walk.old walk.new) }
{
    walk.marks.set(place, Mark::Pending)
}

// marks as needed a place that was not
fn meet(trail: &Trail, a: &mut Analysis, place: usize) -> Result<(), NoMemory>
    requires place { place < length trail.now.made }
    requires unseen { is_needed (mark_at a.old.walk.marks place) ≡ false }
    ensures walking { OnOk result ((live : List Live) (p : ℕ) (left : List ℕ) → IsWalking trail.now live p left a.old.walk → place ≤ p → IsWalking trail.now live p left a.new.walk) }
    ensures needed { OnOk result (IsNeeded a.new.walk.marks place) }
    ensures grows { OnOk result (Grows (place + 1) a.old.walk a.new.walk) }
{
    let level = level_at(trail, place);
    list(&mut a.seen, lit_at(trail, place).var(), level)?;
    if level < trail.level() {
        a.levels |= level_bit(level);
        return keep(trail, &mut a.walk, place);
    }
    await_place(trail, &mut a.walk, place)
}

// lists the variable of a literal above level 0
fn list(seen: &mut Vec<u64>, var: u64, level: u64) -> Result<(), NoMemory> {
    if level == 0 {
        return Ok(());
    }
    seen.push(var)?;
    Ok(())
}

// a place of a lower level goes into the clause, unless the others explain it
fn keep(trail: &Trail, walk: &mut Walk, place: usize) -> Result<(), NoMemory>
    requires unseen { is_needed (mark_at walk.old.marks place) ≡ false }
    requires lower { IsLower trail.now place }
    ensures walking { OnOk result ((live : List Live) (p : ℕ) (left : List ℕ) → IsWalking trail.now live p left walk.old → IsWalking trail.now live p left walk.new) }
    ensures needed { OnOk result (IsNeeded walk.new.marks place) }
    ensures grows { OnOk result (Grows (place + 1) walk.old walk.new) }
{
    walk.kept.push(place)?;
    walk.marks.set(place, Mark::Seen)
}

// the walk is still to come by a place of the present level
fn await_place(trail: &Trail, walk: &mut Walk, place: usize) -> Result<(), NoMemory>
    requires unseen { is_needed (mark_at walk.old.marks place) ≡ false }
    requires top { IsTop trail.now place }
    ensures walking { OnOk result ((live : List Live) (p : ℕ) (left : List ℕ) → IsWalking trail.now live p left walk.old → place ≤ p → IsWalking trail.now live p left walk.new) }
    ensures needed { OnOk result (IsNeeded walk.new.marks place) }
    ensures grows { OnOk result (Grows (place + 1) walk.old walk.new) }
{
    walk.lowest = walk.lowest.min(place);
    walk.marks.set(place, Mark::Seen)
}

/// The bit of a level among those of an analysis.
pub(crate) fn level_bit(level: u64) -> u64 {
    1 << (level % 64)
}
