//! Marks on the places of a list: choosing those to watch, and finding another.
ghost use Rattle.std.specs.Prelude.{ℕ, ◌≡◌, ◌≤◌, ◌<◌, ◌+◌, min, false, true, length, replicate, IfSome, IfNone};
ghost use Rattle.kn_logic.specs.Propagation.{is_open};
ghost use Rattle.kn_watch.specs.Trails.{literals};
ghost use Rattle.kn_watch.specs.Watches.{lit_at, count_watched};
ghost use Rattle.kn_kinds.specs.Latest.{rank, AreLatest};
ghost use Rattle.kn_kinds.specs.Kinds.{marked_place, AreFalseUnmarked};

use crate::rank::later;
use kn_logic::Lit;
use kn_watch::Trail;

// the number of places to watch: one more than the bound, or all
pub(crate) fn watch_count(bound: u64, count: usize) -> usize
    ensures { result ≡ min (bound + 1) count }
{
    if bound < count as u64 {
        bound as usize + 1
    } else {
        count
    }
}

// marks so many places and no others: those that are not false, and then those that became false last
pub(crate) fn choose(lits: &[Lit], marks: &mut [bool], wanted: usize, trail: &Trail)
    requires long { length marks.old ≡ length lits.now }
    requires wanted { wanted ≤ length lits.now }
    ensures long { length marks.new ≡ length lits.now }
    ensures count { count_watched (marked_place marks.new) 0 (length lits.now) ≡ wanted }
    ensures latest { AreLatest (literals trail.now.made) lits.now (marked_place marks.new) }
{
    marks.fill(false);
    let mut count = mark_open(lits, marks, wanted, trail);
    while count < wanted {
        mark_latest(lits, marks, trail);
        count += 1;
    }
}

// marks the first places whose literals are not false, at most so many, and returns how many
fn mark_open(lits: &[Lit], marks: &mut [bool], wanted: usize, trail: &Trail) -> usize
    requires { marks.old ≡ replicate (length lits.now) false }
    ensures long { length marks.new ≡ length lits.now }
    ensures most { result ≤ wanted }
    ensures count { count_watched (marked_place marks.new) 0 (length lits.now) ≡ result }
    ensures open_ { (place : ℕ) → place < length lits.now → marked_place marks.new place ≡ true → is_open (literals trail.now.made) (lit_at lits.now place) ≡ true }
{
    let mut count = 0;
    for place in 0..lits.len() {
        if count == wanted {
            return count;
        }
        if trail.is_open(lits[place]) {
            marks[place] = true;
            count += 1;
        }
    }
    count
}

// marks one more place: the one that became false last of those without a mark
fn mark_latest(lits: &[Lit], marks: &mut [bool], trail: &Trail)
    requires long { length marks.old ≡ length lits.now }
    requires fewer { count_watched (marked_place marks.old) 0 (length lits.now) < length lits.now }
    requires latest { AreLatest (literals trail.now.made) lits.now (marked_place marks.old) }
    ensures long { length marks.new ≡ length lits.now }
    ensures count { count_watched (marked_place marks.new) 0 (length lits.now) ≡ count_watched (marked_place marks.old) 0 (length lits.now) + 1 }
    ensures latest { AreLatest (literals trail.now.made) lits.now (marked_place marks.new) }
{
    let Some(first) = first_unmarked(marks) else {
        unreachable!()
    };
    let place = latest_unmarked(lits, marks, first, trail);
    marks[place] = true;
}

// the first place without a mark
fn first_unmarked(marks: &[bool]) -> Option<usize>
    ensures some { IfSome result (λ first. (first < length marks.now) × (marked_place marks.now first ≡ false)) }
    ensures before { IfSome result (λ first. (place : ℕ) → place < first → marked_place marks.now place ≡ true) }
    ensures none { IfNone result ((place : ℕ) → place < length marks.now → marked_place marks.now place ≡ true) }
{
    for place in 0..marks.len() {
        if !marks[place] {
            return Some(place);
        }
    }
    None
}

// the place without a mark that became false last, or is not false
fn latest_unmarked(lits: &[Lit], marks: &[bool], first: usize, trail: &Trail) -> usize
    requires long { length marks.now ≡ length lits.now }
    requires first { (first < length lits.now) × (marked_place marks.now first ≡ false) }
    requires before { (place : ℕ) → place < first → marked_place marks.now place ≡ true }
    ensures within { result < length lits.now }
    ensures unmarked { marked_place marks.now result ≡ false }
    ensures latest { (place : ℕ) → place < length lits.now → marked_place marks.now place ≡ false → rank (literals trail.now.made) (lit_at lits.now place) ≤ rank (literals trail.now.made) (lit_at lits.now result) }
{
    let mut latest = first;
    for place in first..lits.len() {
        if !marks[place] {
            latest = later(lits, latest, place, trail);
        }
    }
    latest
}

// a place without a mark whose literal is not false, looked for from this place on and then from the start
pub(crate) fn next_unmarked(
    lits: &[Lit],
    marks: &[bool],
    hand: usize,
    trail: &Trail,
) -> Option<usize>
    requires long { length marks.now ≡ length lits.now }
    requires hand { hand ≤ length lits.now }
    ensures some { IfSome result (λ to. (to < length lits.now) × (marked_place marks.now to ≡ false) × (is_open (literals trail.now.made) (lit_at lits.now to) ≡ true)) }
    ensures none { IfNone result (AreFalseUnmarked (literals trail.now.made) lits.now marks.now) }
{
    match unmarked_in(lits, marks, hand, lits.len(), trail) {
        Some(to) => Some(to),
        None => unmarked_in(lits, marks, 0, hand, trail),
    }
}

// the first of the places from one on and before another that has no mark and whose literal is not false
fn unmarked_in(
    lits: &[Lit],
    marks: &[bool],
    from: usize,
    end: usize,
    trail: &Trail,
) -> Option<usize>
    requires long { length marks.now ≡ length lits.now }
    requires end { end ≤ length lits.now }
    ensures some { IfSome result (λ to. (to < length lits.now) × (marked_place marks.now to ≡ false) × (is_open (literals trail.now.made) (lit_at lits.now to) ≡ true)) }
    ensures none { IfNone result ((place : ℕ) → from ≤ place → place < end → marked_place marks.now place ≡ false → is_open (literals trail.now.made) (lit_at lits.now place) ≡ false) }
{
    for place in from..end {
        if !marks[place] && trail.is_open(lits[place]) {
            return Some(place);
        }
    }
    None
}
