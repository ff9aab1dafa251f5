//! A clause that watches two of its places, and keeps their literals beside them.
ghost use Rattle.std.specs.Prelude.{ℕ, ◌≡◌, ◌≢◌, ◌≤◌, ◌<◌, ◌==◌, ◌||◌, Bool, true, false, length, max, Some, None, IfSome, IfNone, slice_get};
ghost use Rattle.std.specs.Option.{is_some};
ghost use Rattle.kn_logic.specs.Constraints.{is_clause};
ghost use Rattle.kn_logic.specs.Propagation.{is_open};
ghost use Rattle.kn_watch.specs.Trails.{literals};
ghost use Rattle.kn_watch.specs.Watches.{listed, lit_at, HasWatches, IsTurn, IsStart};
ghost use Rattle.kn_watch.specs.Quiet.{quiet_law};
ghost use Rattle.kn_kinds.specs.Latest.{rank, AreLatest};
ghost use Rattle.kn_kinds.specs.Kinds.{either_place, value_of, last_visit, ArePlaces};

use crate::rank::later;
use crate::survey::survey;
use kn_logic::{Constraint, Lit};
use kn_watch::{Trail, Visit, Watched};

/// A clause that watches two of its places; where there are fewer, all of them.
#[derive(Debug, Drop)]
pub struct ClauseWatch {
    clause: Constraint,
    first: usize,
    second: usize,
    first_lit: Option<Lit>,
    second_lit: Option<Lit>,
    ghost is_clause: { is_clause clause ≡ true },
    ghost places: { ArePlaces first second clause.lits },
    ghost lits: { (first_lit ≡ slice_get clause.lits first) × (second_lit ≡ slice_get clause.lits second) },
}

impl ClauseWatch {
    // the watched place beside this one, and its literal
    fn other_watch(&self, place: usize) -> (usize, Option<Lit>)
        requires { either_place self.now.first self.now.second place ≡ true }
        ensures places { ArePlaces place result.0 self.now.clause.lits }
        ensures lit { result.1 ≡ slice_get self.now.clause.lits result.0 }
        ensures both { (at : ℕ) → either_place self.now.first self.now.second at ≡ either_place place result.0 at }
    {
        if place == self.first {
            (self.second, self.second_lit)
        } else {
            (self.first, self.first_lit)
        }
    }

    /// Watches the first two places of a clause.
    pub fn new(clause: Constraint) -> ClauseWatch
        requires { is_clause clause ≡ true }
        ensures { result.clause ≡ clause }
    {
        let first_lit = lit_of(clause.lits(), 0);
        let second_lit = lit_of(clause.lits(), 1);
        ClauseWatch {
            clause,
            first: 0,
            second: 1,
            first_lit,
            second_lit,
        }
    }
}

impl Watched for ClauseWatch {
    ghost bounded = { λ w. w.clause };

    ghost watches = { λ w. either_place w.first w.second };

    ghost quiet = { λ w. quiet_law w.clause (either_place w.first w.second) };

    fn bound(&self) -> u64 {
        self.clause.bound()
    }

    fn guarded(&self) -> bool {
        false
    }

    fn lits(&self) -> &[Lit] {
        self.clause.lits()
    }

    fn watched(&self, place: usize) -> bool {
        place == self.first || place == self.second
    }

    fn first_watches(&mut self, trail: &Trail) -> Visit {
        let (first, second) = two_latest(self.clause.lits(), trail);
        let first_lit = lit_of(self.clause.lits(), first);
        let second_lit = lit_of(self.clause.lits(), second);
        self.first = first;
        self.second = second;
        self.first_lit = first_lit;
        self.second_lit = second_lit;
        survey(&self.clause, trail)
    }

    fn turned_false(&mut self, place: usize, trail: &Trail) -> Visit {
        let (other, other_lit) = self.other_watch(place);
        let last = last_visit(&other_lit, trail);
        if let Visit::Satisfied = last {
            return Visit::Satisfied;
        }
        match next_open(self.clause.lits(), place, other, trail) {
            Some(to) => {
                let to_lit = lit_of(self.clause.lits(), to);
                self.first = other;
                self.first_lit = other_lit;
                self.second = to;
                self.second_lit = to_lit;
                Visit::Moved { place: to }
            }
            None => last,
        }
    }
}

// the literal at a place; `None` where the list ends before it
fn lit_of(lits: &[Lit], place: usize) -> Option<Lit>
    ensures { result ≡ slice_get lits.now place }
{
    match lits.get(place) {
        Some(lit) => Some(*lit),
        None => None,
    }
}

// what a visit finds where each literal of a clause but this one is false
fn last_visit(lit: &Option<Lit>, trail: &Trail) -> Visit
    ensures { result ≡ last_visit (value_of (literals trail.now.made) lit.now) }
{
    match lit {
        Some(lit) => visit_of(trail.value(*lit)),
        None => Visit::Conflict,
    }
}

// what a visit finds where the last literal has this value
fn visit_of(value: Option<bool>) -> Visit
    ensures { result ≡ last_visit value }
{
    match value {
        Some(true) => Visit::Satisfied,
        Some(false) => Visit::Conflict,
        None => Visit::Forces,
    }
}

// a place but these two whose literal is not false, looked for behind the first and then from the start
fn next_open(lits: &[Lit], place: usize, other: usize, trail: &Trail) -> Option<usize>
    requires { place < length lits.now }
    ensures some { IfSome result (λ to. (to < length lits.now) × (to ≢ place) × (to ≢ other) × (is_open (literals trail.now.made) (lit_at lits.now to) ≡ true)) }
    ensures none { IfNone result ((at : ℕ) → at < length lits.now → at ≢ place → at ≢ other → is_open (literals trail.now.made) (lit_at lits.now at) ≡ false) }
{
    match open_in(lits, place + 1, lits.len(), other, trail) {
        Some(to) => Some(to),
        None => open_in(lits, 0, place, other, trail),
    }
}

// the first of the places from one on and before another whose literal is not false, but for one place
fn open_in(lits: &[Lit], from: usize, end: usize, other: usize, trail: &Trail) -> Option<usize>
    requires { end ≤ length lits.now }
    ensures some { IfSome result (λ to. (from ≤ to) × (to < end) × (to ≢ other) × (is_open (literals trail.now.made) (lit_at lits.now to) ≡ true)) }
    ensures none { IfNone result ((place : ℕ) → from ≤ place → place < end → place ≢ other → is_open (literals trail.now.made) (lit_at lits.now place) ≡ false) }
{
    for place in from..end {
        if place != other && trail.is_open(lits[place]) {
            return Some(place);
        }
    }
    None
}

// the two places that became false last, or are not false
fn two_latest(lits: &[Lit], trail: &Trail) -> (usize, usize)
    ensures places { ArePlaces result.0 result.1 lits.now }
    ensures latest { AreLatest (literals trail.now.made) lits.now (either_place result.0 result.1) }
{
    if lits.len() < 2 {
        return (0, 1);
    }
    let first = latest_but(lits, lits.len(), trail);
    (first, latest_but(lits, first, trail))
}

// the place that became false last, or is not false, of all but one
fn latest_but(lits: &[Lit], skipped: usize, trail: &Trail) -> usize
    requires { 2 ≤ length lits.now }
    ensures within { result < length lits.now }
    ensures other { result ≢ skipped }
    ensures latest { (place : ℕ) → place < length lits.now → place ≢ skipped → rank (literals trail.now.made) (lit_at lits.now place) ≤ rank (literals trail.now.made) (lit_at lits.now result) }
{
    let mut latest = if skipped == 0 { 1 } else { 0 };
    for place in 0..lits.len() {
        if place != skipped {
            latest = later(lits, latest, place, trail);
        }
    }
    latest
}
