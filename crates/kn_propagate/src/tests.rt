//! The engine against plain counting, over kinds that count all places at each visit.
ghost use Rattle.std.specs.Prelude.{◌≡◌, ◌≤◌, ◌<◌, ◌+◌, if◌then◌else◌, ℕ, length, true, false, Some, None, IsTrue, IfOk, slice_get};
ghost use Rattle.std.specs.Option.{is_some};
ghost use Rattle.kn_logic.specs.Literals.{IsKnown, AreKnown, names};
ghost use Rattle.kn_logic.specs.Constraints.{IsWithin};
ghost use Rattle.kn_logic.specs.Propagation.{is_open, open_places, IsShort};
ghost use Rattle.kn_watch.specs.declared.trail.Made.{Made};
ghost use Rattle.kn_watch.specs.Trails.{literals, below};
ghost use Rattle.kn_watch.specs.Watches.{listed, lit_at, HasWatches, IsStart, IsTurn};
ghost use Rattle.kn_watch.specs.Quiet.{quiet_law};
ghost use Rattle.kn_propagate.specs.Engines.{live_in, IsNoReason};

mod load;

use super::*;
use kn_kinds::{CardWatch, ClauseWatch, GuardWatch, KlauseWatch};
use kn_logic::{Constraint, Lit};
use kn_watch::{Look, Trail, Visit, Watched};
use std::alloc::Global;
use std::cell::Cell;
use std::test::Fail;

/// How often constraints were called, and how often one answered what counting does not say; and how often
/// something was closed, in conflict, added above level 0 and removed.
#[derive(Drop)]
struct Tally {
    calls: Cell<u64>,
    wrong: Cell<u64>,
    closed: Cell<u64>,
    conflicts: Cell<u64>,
    late: Cell<u64>,
    removed: Cell<u64>,
}

impl Tally {
    fn new() -> Tally {
        Tally {
            calls: Cell::new(0),
            wrong: Cell::new(0),
            closed: Cell::new(0),
            conflicts: Cell::new(0),
            late: Cell::new(0),
            removed: Cell::new(0),
        }
    }

    fn called(&self) {
        one_more(&self.calls);
    }

    // counts all places at a visit
    fn check<W: Watched>(&self, w: &W, trail: &Trail, answer: Visit) {
        let fits = match answer {
            Visit::Satisfied => is_satisfied(w, trail),
            Visit::Forces => counted(w, trail) == Look::Forces,
            Visit::Conflict => counted(w, trail) == Look::Conflict,
            Visit::Moved { .. } => true,
        };
        if !fits {
            one_more(&self.wrong);
        }
    }

    // whether each thing happened often
    fn is_rich(&self) -> bool {
        let least = self.closed.get().min(self.conflicts.get());
        least.min(self.late.get()).min(self.removed.get()) >= 100
    }
}

// counts one more
fn one_more(cell: &Cell<u64>) {
    cell.set(cell.get().saturating_add(1));
}

/// A constraint of another kind whose calls are counted, and which counts all its places at each visit.
#[derive(Drop)]
struct Counting<'a, W: Watched> {
    inner: W,
    tally: &'a Tally,
}

impl<'a, W: Watched> Watched for Counting<'a, W> {
    ghost bounded = { λ w. W.bounded w.inner };

    ghost watches = { λ w. W.watches w.inner };

    ghost quiet = { λ w. quiet_law (W.bounded w.inner) (W.watches w.inner) };

    fn bound(&self) -> u64 {
        self.tally.called();
        self.inner.bound()
    }

    fn guarded(&self) -> bool {
        self.tally.called();
        self.inner.guarded()
    }

    fn lits(&self) -> &[Lit] {
        self.tally.called();
        self.inner.lits()
    }

    fn watched(&self, place: usize) -> bool {
        self.tally.called();
        self.inner.watched(place)
    }

    fn first_watches(&mut self, trail: &Trail) -> Visit {
        self.tally.called();
        let answer = self.inner.first_watches(trail);
        self.tally.check(&self.inner, trail, answer);
        answer
    }

    fn turned_false(&mut self, place: usize, trail: &Trail) -> Visit {
        self.tally.called();
        let answer = self.inner.turned_false(place, trail);
        self.tally.check(&self.inner, trail, answer);
        answer
    }
}

// at how many of some literals the trail has this value
fn count(lits: &[Lit], value: Option<bool>, trail: &Trail) -> u64 {
    let mut count: u64 = 0;
    for lit in lits {
        if trail.value(*lit) == value {
            count = count.saturating_add(1);
        }
    }
    count
}

// the literals of a constraint without that of the guard, and that one
fn parts<W: Watched>(w: &W) -> (&[Lit], &[Lit]) {
    let lits = w.lits();
    let own = if w.guarded() {
        lits.len().saturating_sub(1)
    } else {
        lits.len()
    };
    match lits.split_at_checked(own) {
        Some(parts) => parts,
        None => (&[], &[]),
    }
}

// whether so many literals as the bound are true, or the guard is false
fn is_satisfied<W: Watched>(w: &W, trail: &Trail) -> bool {
    let (own, guard) = parts(w);
    count(own, Some(true), trail) >= w.bound() || count(guard, Some(true), trail) > 0
}

// whether a constraint forces a literal or is in conflict, by counting
fn counted<W: Watched>(w: &W, trail: &Trail) -> Look {
    let (own, guard) = parts(w);
    let loose = count(own, None, trail);
    let left = count(own, Some(true), trail).saturating_add(loose);
    if count(guard, Some(true), trail) > 0 {
        return Look::Quiet;
    }
    let undecided = count(guard, None, trail) > 0;
    if left < w.bound() {
        if undecided {
            Look::Forces
        } else {
            Look::Conflict
        }
    } else if left == w.bound() && loose > 0 && !undecided {
        Look::Forces
    } else {
        Look::Quiet
    }
}

// whether each literal is one of so many variables
fn are_known(lits: &[Lit], vars: u64) -> bool
    ensures { IsTrue result → AreKnown vars lits.now }
{
    for lit in lits {
        if lit.var() > vars {
            return false;
        }
    }
    true
}

// whether a literal was not false before the present level
fn was_open(trail: &Trail, lit: Lit) -> bool
    ensures { IsTrue result → (k : ℕ) → k < trail.now.level → is_open (literals (below (k + 1) trail.now.made)) lit ≡ true }
{
    if trail.is_open(lit) {
        return true;
    }
    match trail.level_of(lit.var()) {
        Some(level) => level == trail.level(),
        None => false,
    }
}

// what a literal counts
fn weight(is_open: bool) -> u64
    ensures { result ≡ if is_open then 1 else 0 }
{
    if is_open { 1 } else { 0 }
}

// how many of some literals were not false before the present level
fn count_open(trail: &Trail, lits: &[Lit]) -> u64
    ensures { (k : ℕ) → k < trail.now.level → result ≤ open_places (literals (below (k + 1) trail.now.made)) lits.now }
{
    let mut count = 0;
    for lit in lits {
        count += weight(was_open(trail, *lit));
    }
    count
}

// whether a constraint may be added under an id
fn may_add<C: Watched, K: Watched, W: Watched>(engine: &Engine<C, K>, w: &W, id: u64) -> bool
    ensures fresh { IsTrue result → live_in engine.now.live id ≡ None }
    ensures within { IsTrue result → IsWithin engine.now.trail.vars (W.bounded w.now) }
    ensures waits { IsTrue result → (k : ℕ) → k < engine.now.trail.level → IsShort (literals (below (k + 1) engine.now.trail.made)) (W.bounded w.now) → ⊥ }
{
    if engine.lits_of(id).is_some() || !are_known(w.lits(), engine.vars()) {
        return false;
    }
    let trail = engine.trail();
    trail.level() == 0 || count_open(trail, w.lits()) > w.bound()
}

// whether the literal at a place of the trail was forced by the constraint of an id
fn was_forced(trail: &Trail, place: usize, id: u64) -> bool
    requires { place < length trail.now.made }
    ensures { result ≡ false → (m : Made) → slice_get trail.now.made place ≡ Some m → m.reason ≡ Some id → ⊥ }
{
    match trail.reason_of(trail.at(place).var()) {
        Some(reason) => reason == id,
        None => false,
    }
}

// whether a literal of the trail was forced by the constraint of an id
fn is_reason(trail: &Trail, id: u64) -> bool
    ensures { result ≡ false → IsNoReason trail.now.made id }
{
    for place in 0..trail.len() {
        if was_forced(trail, place, id) {
            return true;
        }
    }
    false
}

// whether a literal is one of the trail's variables, and without a value
fn is_free(trail: &Trail, lit: Lit) -> bool
    ensures known { IsTrue result → IsKnown trail.now.vars lit }
    ensures unset { IsTrue result → names (literals trail.now.made) lit.variable ≡ false }
{
    if lit.var() > trail.vars() {
        return false;
    }
    trail.place_of(lit.var()).is_none()
}

/// Numbers in an order without a pattern.
#[derive(Drop)]
struct Dice {
    state: u64,
}

impl Dice {
    // a number below this one; 0 where that is 0
    fn below(&mut self, sides: u64) -> u64 {
        self.state = self
            .state
            .wrapping_mul(6364136223846793005)
            .wrapping_add(1442695040888963407);
        if sides == 0 {
            0
        } else {
            (self.state >> 33) % sides
        }
    }

    // a literal of one of five variables
    fn lit(&mut self) -> Lit {
        let var = self.below(5).saturating_add(1);
        Lit::new(var, self.below(2) == 0)
    }

    // a clause, a klause or a klause with a guard, of up to four literals and with a bound up to their number and
    // one more
    fn constraint(&mut self, alloc: Global) -> Result<Constraint, NoMemory> {
        let mut lits = Vec::new(alloc);
        for _ in 0..self.below(5) {
            lits.push(self.lit())?;
        }
        let bound = self.below((lits.len() as u64).saturating_add(2));
        match self.below(4) {
            0 => Ok(Constraint::new(bound, lits)),
            1 => Ok(Constraint::guarded(self.lit(), bound, lits)),
            _ => Ok(Constraint::new(1, lits)),
        }
    }
}

/// A live constraint by the tests' own account.
#[derive(Drop)]
struct Known {
    id: u64,
    constraint: Constraint,
}

/// An engine, and what the tests know of it.
#[derive(Drop)]
struct Trial<'a> {
    engine: Engine<Counting<'a, ClauseWatch>, Counting<'a, CardWatch>>,
    live: Vec<Known>,
    next: u64,
    tally: &'a Tally,
}

impl<'a> Trial<'a> {
    fn new(alloc: Global, tally: &'a Tally) -> Result<Trial<'a>, NoMemory> {
        Ok(Trial {
            engine: Engine::new(alloc, 5)?,
            live: Vec::new(alloc),
            next: 1,
            tally,
        })
    }

    // adds a constraint under a new id, if it may be added
    fn add(&mut self, alloc: Global, constraint: Constraint) -> Result<(), NoMemory> {
        let id = self.next;
        let copy = constraint.copy()?;
        let tally = self.tally;
        if copy.is_clause() {
            let inner = ClauseWatch::new(copy);
            let w = Counting { inner, tally };
            if !may_add(&self.engine, &w, id) {
                return Ok(());
            }
            self.engine.add_clause(w, id)?;
        } else {
            let inner = card(alloc, copy)?;
            let w = Counting { inner, tally };
            if !may_add(&self.engine, &w, id) {
                return Ok(());
            }
            self.engine.add_klause(w, id)?;
        }
        if self.engine.trail().level() > 0 {
            one_more(&tally.late);
        }
        self.live.push(Known { id, constraint })?;
        self.next = self.next.saturating_add(1);
        Ok(())
    }

    // removes a constraint that is no reason; whether the engine answers right
    fn remove(&mut self, at: usize) -> bool {
        let absent = self.next;
        if is_reason(self.engine.trail(), absent) || self.engine.remove(absent) {
            return false;
        }
        let Some(known) = self.live.get(at) else {
            return true;
        };
        let id = known.id;
        if is_reason(self.engine.trail(), id) {
            return true;
        }
        self.live.swap_remove(at);
        one_more(&self.tally.removed);
        self.engine.remove(id) && self.engine.lits_of(id).is_none()
    }

    // makes all true that is forced, and then perhaps a literal; whether plain counting comes to the same
    fn advance(&mut self, alloc: Global, lit: Lit) -> Result<bool, NoMemory> {
        let mut plain = copy_of(alloc, self.engine.trail())?;
        let closed = close(&self.live, &mut plain);
        match self.engine.propagate() {
            Step::Closed => {
                one_more(&self.tally.closed);
                let same = are_same(self.engine.trail(), &plain);
                if is_free(self.engine.trail(), lit) {
                    self.engine.assume(lit);
                }
                Ok(closed && same)
            }
            Step::Conflict { id } => {
                one_more(&self.tally.conflicts);
                Ok(!closed && is_violated(&self.live, id, self.engine.trail()))
            }
        }
    }
}

// a klause, with or without a guard, as it is watched
fn card(alloc: Global, klause: Constraint) -> Result<CardWatch, NoMemory> {
    if klause.guard().is_some() {
        Ok(CardWatch::Guard(GuardWatch::new(alloc, klause)?))
    } else {
        Ok(CardWatch::Klause(KlauseWatch::new(alloc, klause)?))
    }
}

// makes a literal without a value true
fn put(trail: &mut Trail, lit: Lit) {
    if is_free(trail, lit) {
        trail.push(lit, None);
    }
}

// the literals of a trail once more
fn copy_of(alloc: Global, trail: &Trail) -> Result<Trail, NoMemory> {
    let mut copy = Trail::new(alloc, trail.vars())?;
    for place in 0..trail.len() {
        put(&mut copy, trail.at(place));
    }
    Ok(copy)
}

// whether two trails give each variable the same value
fn are_same(a: &Trail, b: &Trail) -> bool {
    for below in 0..a.vars() {
        let lit = Lit::new(below.saturating_add(1), true);
        if a.value(lit) != b.value(lit) {
            return false;
        }
    }
    true
}

// whether a guard is true, or there is none; none where it has no value
fn binds(constraint: &Constraint, trail: &Trail) -> Option<bool> {
    match constraint.guard() {
        Some(guard) => trail.value(guard),
        None => Some(true),
    }
}

// makes true what a constraint forces, by counting; false where it is in conflict
fn force(constraint: &Constraint, trail: &mut Trail) -> bool {
    let lits = constraint.lits();
    let left = count(lits, Some(true), trail).saturating_add(count(lits, None, trail));
    match (binds(constraint, trail), constraint.guard()) {
        (Some(false), _) => true,
        (None, Some(guard)) => {
            if left < constraint.bound() {
                put(trail, guard.negated());
            }
            true
        }
        _ => {
            if left == constraint.bound() {
                for lit in lits {
                    put(trail, *lit);
                }
            }
            left >= constraint.bound()
        }
    }
}

// makes true what some constraints force, again and again; false where one is in conflict
fn close(live: &[Known], trail: &mut Trail) -> bool {
    for _ in 0..7 {
        for known in live {
            if !force(&known.constraint, trail) {
                return false;
            }
        }
    }
    true
}

// whether the constraint of an id has too few literals left, and no guard or a true one
fn is_violated(live: &[Known], id: u64, trail: &Trail) -> bool {
    for known in live {
        if known.id == id {
            let lits = known.constraint.lits();
            let left = count(lits, Some(true), trail).saturating_add(count(lits, None, trail));
            return left < known.constraint.bound() && binds(&known.constraint, trail) == Some(true);
        }
    }
    false
}

#[test]
fn what_is_not_watched_costs_no_calls(rt: HostRuntime) -> Result<(), Fail> {
    let tally = Tally::new();
    let mut engine = Engine::<Counting<ClauseWatch>, Counting<CardWatch>>::new(rt.alloc(), 2001)?;
    for round in 1..1001 {
        let even: u64 = 2 * round;
        let lits = vec![in rt.alloc();
            Lit::new(even, true),
            Lit::new(even + 1, true),
            Lit::new(1, true),
        ]?;
        let inner = ClauseWatch::new(Constraint::new(1, lits));
        let w = Counting {
            inner,
            tally: &tally,
        };
        assert!(rt; may_add(&engine, &w, round), "{}", round);
        engine.add_clause(w, round)?;
    }
    assert_eq!(rt; engine.propagate(), Step::Closed);
    tally.calls.set(0);
    let lit = Lit::new(1, false);
    assert!(rt; is_free(engine.trail(), lit));
    engine.assume(lit);
    assert_eq!(rt; engine.propagate(), Step::Closed);
    assert!(rt; tally.calls.get() < 1000, "{}", tally.calls.get());
    Ok(())
}

#[test]
fn propagation_is_plain_counting(rt: HostRuntime) -> Result<(), Fail> {
    let tally = Tally::new();
    let mut dice = Dice { state: 4 };
    for round in 0..150 {
        let mut trial = Trial::new(rt.alloc(), &tally)?;
        for _ in 0..25 {
            match dice.below(8) {
                0 => {
                    let level = dice.below(4).min(trial.engine.trail().level());
                    trial.engine.back_to(level);
                }
                1 => {
                    let at = dice.below(9) as usize;
                    assert!(rt; trial.remove(at), "{}", round);
                }
                2 | 3 | 4 => trial.add(rt.alloc(), dice.constraint(rt.alloc())?)?,
                _ => {
                    let right = trial.advance(rt.alloc(), dice.lit())?;
                    assert!(rt; right, "{}", round);
                }
            }
        }
    }
    assert_eq!(rt; (tally.wrong.get(), tally.is_rich()), (0, true));
    Ok(())
}

// a constraint on literals by their numbers: those of variables, and negative ones of negations
fn at_least(alloc: Global, bound: u64, numbers: &[i64]) -> Result<Constraint, NoMemory> {
    let mut lits = Vec::new(alloc);
    for number in numbers {
        lits.push(Lit::new(number.unsigned_abs().max(1), *number > 0))?;
    }
    Ok(Constraint::new(bound, lits))
}

// makes a literal true, and all that it forces; none where it has a value, or something is in conflict before
fn decide(trial: &mut Trial, lit: Lit) -> Option<Step> {
    let engine = &mut trial.engine;
    if engine.propagate() != Step::Closed || !is_free(engine.trail(), lit) {
        return None;
    }
    engine.assume(lit);
    Some(engine.propagate())
}

// removes a constraint; whether the engine answers right, and the first variable then leads to this step
fn leads_to(trial: &mut Trial, id: u64, step: Step) -> bool {
    let engine = &mut trial.engine;
    let known = engine.lits_of(id).is_some();
    if is_reason(engine.trail(), id) || engine.remove(id) != known {
        return false;
    }
    let right = decide(trial, Lit::new(1, true)) == Some(step);
    trial.engine.back_to(0);
    right
}

// an engine with a few constraints: the first variable makes the third one fail
fn small<'a>(alloc: Global, tally: &'a Tally) -> Result<Trial<'a>, NoMemory> {
    let mut trial = Trial::new(alloc, tally)?;
    trial.add(alloc, at_least(alloc, 1, &[-1, 2])?)?;
    trial.add(alloc, at_least(alloc, 2, &[-2, 3, 4])?)?;
    trial.add(alloc, at_least(alloc, 1, &[-3, -4])?)?;
    Ok(trial)
}

// whether a live constraint has this id, and the literals of these numbers
fn lists(alloc: Global, trial: &Trial, id: u64, numbers: &[i64]) -> Result<bool, NoMemory> {
    let want = at_least(alloc, 0, numbers)?;
    match trial.engine.lits_of(id) {
        Some(lits) => Ok(lits == want.lits()),
        None => Ok(false),
    }
}

#[test]
fn each_call_answers(rt: HostRuntime) -> Result<(), Fail> {
    let tally = Tally::new();
    let mut trial = small(rt.alloc(), &tally)?;
    assert_eq!(rt; (trial.engine.vars(), trial.engine.trail().vars()), (5, 5));
    assert!(rt; lists(rt.alloc(), &trial, 2, &[-2, 3, 4])?);
    assert!(rt; leads_to(&mut trial, 4, Step::Conflict { id: 3 }));
    assert!(rt; leads_to(&mut trial, 3, Step::Closed));
    assert!(rt; trial.engine.lits_of(3).is_none());
    assert_eq!(rt; trial.engine.trail().len(), 0);
    Ok(())
}

#[test]
fn going_back_keeps_the_lower_levels(rt: HostRuntime) -> Result<(), Fail> {
    let tally = Tally::new();
    let mut trial = small(rt.alloc(), &tally)?;
    assert_eq!(rt; decide(&mut trial, Lit::new(5, true)), Some(Step::Closed));
    assert_eq!(rt; decide(&mut trial, Lit::new(2, false)), Some(Step::Closed));
    let trail = trial.engine.trail();
    assert_eq!(rt;
        (trail.level_of(5), trail.level_of(2), trail.level_of(1)),
        (Some(1), Some(2), Some(2))
    );
    assert_eq!(rt;
        (trail.reason_of(5), trail.reason_of(2), trail.reason_of(1)),
        (None, None, Some(1))
    );
    let level = trail.level().min(1);
    trial.engine.back_to(level);
    let trail = trial.engine.trail();
    assert_eq!(rt; (trail.len(), trail.level()), (1, 1));
    assert_eq!(rt; trail.value(Lit::new(5, true)), Some(true));
    assert_eq!(rt; trial.engine.propagate(), Step::Closed);
    Ok(())
}

// removes the constraint after which so many were added; whether it was there
fn remove_old(trial: &mut Trial, younger: u64) -> bool {
    let id = trial.next.saturating_sub(1).saturating_sub(younger);
    !is_reason(trial.engine.trail(), id) && trial.engine.remove(id)
}

#[test]
fn what_was_removed_leaves_its_room(rt: HostRuntime) -> Result<(), Fail> {
    let tally = Tally::new();
    let mut trial = small(rt.alloc(), &tally)?;
    for round in 0..100 {
        trial.add(rt.alloc(), at_least(rt.alloc(), 1, &[-1, 2, 5])?)?;
        trial.add(rt.alloc(), at_least(rt.alloc(), 2, &[-2, 3, 4])?)?;
        assert!(rt; remove_old(&mut trial, 4), "{}", round);
        assert!(rt; remove_old(&mut trial, 3), "{}", round);
    }
    assert_eq!(rt; trial.engine.room(), (5, 13));
    Ok(())
}
