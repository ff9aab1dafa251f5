//! Forgetting: learned clauses are deleted in the log and taken out of the engine, so that the others are looked at
//! sooner.
ghost use Rattle.std.specs.Prelude.{ℕ, List, [], ◌∷◌, ◌++◌, ◌≡◌, ◌≤◌, ◌<◌, ◌+◌, length, true, false, IfOk, IfErr, OnOk, IsErrOf};
ghost use Rattle.std.specs.List.{AllByRecursion};
ghost use Rattle.kn_bytes.specs.Outside.{Rose};
ghost use Rattle.kn_lines.specs.declared.line.Line.TheVariants.{Delete};
ghost use Rattle.kn_log.specs.Logs.{Logs, IsReadable};
ghost use Rattle.kn_propagate.specs.Engines.{Live, IsNoReason};
ghost use Rattle.kn_search.specs.Mirrors.{Mirrors};
ghost use Rattle.kn_search.specs.Searches.{LogsPart, LogsPartNot, AreOnce, contains, removed_all, IsLiveLearned, AreHeld, AreKept, IsSplit};

use kn_bytes::Sink;
use kn_kinds::ClauseWatch;
use kn_learn::is_locked;
use kn_lines::Ids;
use kn_log::{Log, LogError};
use kn_logic::NoMemory;
use kn_propagate::Engine;
use kn_watch::Watched;
use std::alloc::Global;

/// A clause of so many literals is never forgotten.
const SHORT: usize = 2;

/// The clauses that a search has learned and not forgotten: their ids, the oldest first, and how often it has forgotten
/// some.
#[derive(Debug, Drop)]
pub struct Held {
    pub ids: Vec<u64>,
    pub deletions: u64,
    // how many are held at least when it is tried again
    due: usize,
}

impl Held {
    /// None yet.
    pub fn new(alloc: Global) -> Held
        ensures ids { result.ids.items ≡ [] }
        ensures deletions { result.deletions ≡ 0 }
    {
        Held {
            ids: Vec::new(alloc),
            deletions: 0,
            due: 0,
        }
    }

    /// Holds one more.
    pub fn push(&mut self, id: u64) -> Result<(), NoMemory>
        ensures ids { OnOk result (self.new.ids.items ≡ self.old.ids.items ++ id ∷ []) }
        ensures deletions { self.new.deletions ≡ self.old.deletions }
    {
        self.ids.push(id)?;
        Ok(())
    }

    /// Whether it is time to forget: as many are held as are kept at least, and one more for each time before.
    fn is_due(&self, forget: u64) -> bool
        ensures some { result ≡ true → 1 ≤ forget }
        ensures enough { result ≡ true → forget + self.now.deletions ≤ length self.now.ids.items }
    {
        let count = self.ids.len() as u64;
        if forget == 0 || count < forget || self.ids.len() < self.due {
            return false;
        }
        self.deletions <= count - forget
    }
}

/// Ids to forget, and the rest.
#[derive(Debug, Drop)]
struct Parts {
    out: Vec<u64>,
    rest: Vec<u64>,
}

/// The longer half of some clauses: all that are longer than a limit, and so many that are just as long.
#[derive(Debug, Drop)]
struct Half {
    limit: usize,
    spare: usize,
}

/// Forgets the longer half of the clauses that are no reasons and not short, where enough are held: they are deleted by
/// one line of the log, and removed from the engine.
pub fn forget_some<K: Watched, S: Sink>(
    alloc: Global,
    engine: &mut Engine<ClauseWatch, K>,
    log: &mut Log,
    sink: &mut S,
    held: &mut Held,
    forget: u64,
) -> Result<(), LogError>
    requires mirrors { Mirrors engine.old.live log.old.state.given }
    requires held { AreHeld log.old.state.given held.old.ids.items }
    requires whole { log.old.failed ≡ false }
    ensures vars { OnOk result (engine.new.trail.vars ≡ engine.old.trail.vars) }
    ensures mirrors { OnOk result (Mirrors engine.new.live log.new.state.given) }
    ensures held { OnOk result (AreHeld log.new.state.given held.new.ids.items) }
    ensures kept { OnOk result ((first : List Live) → AreKept first engine.old.live held.old.ids.items → AreKept first engine.new.live held.new.ids.items) }
    ensures logs { OnOk result ((vars : ℕ) → (more : ℕ) × (held.new.deletions ≡ held.old.deletions + more) × LogsPart vars forget held.old.deletions 0 more log.old log.new (S.written sink.old) (S.written sink.new)) }
    ensures error { IfErr result (λ e. (vars : ℕ) → LogsPartNot vars forget held.old.deletions 0 log.old log.new (S.written sink.old) (S.written sink.new) e) }
    ensures later { S.faults sink.old ≤ S.faults sink.new }
    ensures fault { IsErrOf result LogError.Fault → Rose (S.faults sink.old) (S.faults sink.new) }
{
    if !held.is_due(forget) {
        return Ok(());
    }
    let parts = split(alloc, engine, log, &held.ids)?;
    held.due = parts.rest.len() + parts.rest.len() / 4;
    if parts.out.is_empty() {
        return Ok(());
    }
    delete(alloc, log, sink, &parts.out)?;
    remove_all(engine, &parts.out);
    held.ids = parts.rest;
    held.deletions += 1;
    Ok(())
}

/// Deletes ids by one line.
fn delete<S: Sink>(alloc: Global, log: &mut Log, sink: &mut S, ids: &[u64]) -> Result<(), LogError>
    requires learned { AllByRecursion (IsLiveLearned log.old.state.given) ids.now }
    requires once { AreOnce ids.now }
    requires whole { log.old.failed ≡ false }
    ensures logs { Logs (Delete ids.now) log.old log.new (S.written sink.old) (S.written sink.new) result }
    ensures spelled { IsReadable result (Delete ids.now) }
    ensures later { S.faults sink.old ≤ S.faults sink.new }
    ensures fault { IsErrOf result LogError.Fault → Rose (S.faults sink.old) (S.faults sink.new) }
{
    let copy = Vec::from_slice(alloc, ids)?;
    log.delete(Ids::new(copy), sink)
}

/// Removes the constraints of ids from the engine.
fn remove_all<K: Watched>(engine: &mut Engine<ClauseWatch, K>, ids: &[u64])
    requires { AllByRecursion (IsNoReason engine.old.trail.made) ids.now }
    ensures trail { engine.new.trail ≡ engine.old.trail }
    ensures live { engine.new.live ≡ removed_all ids.now engine.old.live }
{
    for id in ids {
        engine.remove(*id);
    }
}

/// Splits ids into the longer half of those that may be forgotten, and the rest.
fn split<K: Watched>(
    alloc: Global,
    engine: &Engine<ClauseWatch, K>,
    log: &Log,
    ids: &[u64],
) -> Result<Parts, NoMemory>
    requires { AreOnce ids.now }
    ensures { IfOk result (λ s. IsSplit engine.now.trail.made ids.now s.out.items s.rest.items) }
{
    let mut half = longer_half(alloc, engine, log, ids)?;
    let mut parts = Parts {
        out: Vec::new(alloc),
        rest: Vec::new(alloc),
    };
    for id in ids {
        sort_out(engine, log, &mut half, &mut parts, *id)?;
    }
    Ok(parts)
}

/// Puts an id to those to forget, or to the rest.
fn sort_out<K: Watched>(
    engine: &Engine<ClauseWatch, K>,
    log: &Log,
    half: &mut Half,
    parts: &mut Parts,
    id: u64,
) -> Result<(), NoMemory>
    ensures { OnOk result ((ids : List ℕ) → contains ids id ≡ false → IsSplit engine.now.trail.made ids parts.old.out.items parts.old.rest.items → IsSplit engine.now.trail.made (ids ++ id ∷ []) parts.new.out.items parts.new.rest.items) }
{
    if half.takes(free_len(engine, log, id)) {
        parts.out.push(id)?;
        return Ok(());
    }
    parts.rest.push(id)?;
    Ok(())
}

impl Half {
    /// Whether a clause of so many literals is in the longer half.
    fn takes(&mut self, len: usize) -> bool
        ensures { result ≡ true → 1 ≤ len }
    {
        if len == 0 || len < self.limit {
            return false;
        }
        if len > self.limit {
            return true;
        }
        if self.spare == 0 {
            return false;
        }
        self.spare -= 1;
        true
    }
}

/// The longer half of the clauses that may be forgotten.
fn longer_half<K: Watched>(
    alloc: Global,
    engine: &Engine<ClauseWatch, K>,
    log: &Log,
    ids: &[u64],
) -> Result<Half, NoMemory> {
    let mut lens = Vec::new(alloc);
    for id in ids {
        let len = free_len(engine, log, *id);
        if len > 0 {
            lens.push(len)?;
        }
    }
    lens.sort_unstable();
    Ok(upper_half(&lens))
}

/// The upper half of numbers in their order.
fn upper_half(lens: &[usize]) -> Half {
    let half = lens.len() / 2;
    let Some(limit) = lens.get(lens.len() - half) else {
        return Half {
            limit: usize::MAX,
            spare: 0,
        };
    };
    let mut spare = half;
    for len in lens {
        if *len > *limit {
            spare = spare.saturating_sub(1);
        }
    }
    Half {
        limit: *limit,
        spare,
    }
}

/// The number of literals of a clause that may be forgotten; 0 where it is short, or a reason on the trail.
fn free_len<K: Watched>(engine: &Engine<ClauseWatch, K>, log: &Log, id: u64) -> usize
    ensures { 1 ≤ result → IsNoReason engine.now.trail.made id }
{
    let Some(c) = log.live(id) else {
        return 0;
    };
    let len = c.lits().len();
    if len <= SHORT || is_locked(engine, id) {
        return 0;
    }
    len
}
