//! The analysis on engines of a few constraints, whose conflicts were worked out by hand.
ghost use Rattle.std.specs.Prelude.{◌≡◌, ◌≤◌, Some, IfOk};
ghost use Rattle.kn_logic.specs.Literals.{IsKnown, AreKnown};
ghost use Rattle.kn_logic.specs.Constraints.{IsWithin};
ghost use Rattle.kn_propagate.specs.declared.step.Step.TheVariants.{Conflict};

use super::*;
use kn_kinds::{CardWatch, ClauseWatch, GuardWatch, KlauseWatch};
use kn_logic::{Constraint, Lit};
use kn_propagate::{Engine, Step};
use kn_watch::Watched;
use std::alloc::Global;
use std::test::Fail;

type Small = Engine<ClauseWatch, CardWatch>;

/// A conflict and what it teaches. Literals stand as numbers, and 0 where there is none.
#[derive(Drop)]
struct Case {
    /// The constraints, whose ids count from 1: each a bound, a guard and three literals.
    rows: [[i64; 5]; 4],
    /// The literals that are assumed, one after the other.
    assumed: [i64; 3],
    /// The learned clause.
    lits: [i64; 3],
    /// The level to go back to.
    level: u64,
    /// The hints.
    hints: [u64; 5],
    /// The variables whose activity is raised.
    seen: [u64; 5],
    /// Which constraints are reasons.
    locked: [bool; 4],
}

// the literal of a number, of a variable from 1 to 4
fn lit_of(number: i64) -> Lit
    ensures { IsKnown 4 result }
{
    Lit::new(number.unsigned_abs().clamp(1, 4), number > 0)
}

// the literals of the numbers that are not 0
fn lits_of(alloc: Global, numbers: &[i64]) -> Result<Vec<Lit>, NoMemory>
    ensures { IfOk result (λ lits. AreKnown 4 lits.items) }
{
    let mut lits = Vec::new(alloc);
    for number in numbers {
        if *number != 0 {
            lits.push(lit_of(*number))?;
        }
    }
    Ok(lits)
}

// the constraint of a bound, a guard and three literals
fn constraint_of(alloc: Global, row: &[i64; 5]) -> Result<Constraint, NoMemory>
    ensures { IfOk result (IsWithin 4) }
{
    let bound = row[0].unsigned_abs();
    let lits = lits_of(alloc, &row[2..])?;
    if row[1] == 0 {
        return Ok(Constraint::new(bound, lits));
    }
    Ok(Constraint::guarded(lit_of(row[1]), bound, lits))
}

// a klause as it is watched
fn watch_of(alloc: Global, c: Constraint) -> Result<CardWatch, NoMemory>
    ensures { IfOk result (λ w. ⟦<CardWatch as Watched>⟧.bounded w ≡ c) }
{
    if c.guard().is_some() {
        return Ok(CardWatch::Guard(GuardWatch::new(alloc, c)?));
    }
    Ok(CardWatch::Klause(KlauseWatch::new(alloc, c)?))
}

// adds a constraint under an id that is free, at level 0
fn add(alloc: Global, engine: &mut Small, c: Constraint, id: u64) -> Result<(), NoMemory>
    requires { IsWithin 4 c }
{
    if engine.vars() != 4 || engine.lits_of(id).is_some() || engine.trail().level() > 0 {
        return Ok(());
    }
    if c.is_clause() {
        return engine.add_clause(ClauseWatch::new(c), id);
    }
    engine.add_klause(watch_of(alloc, c)?, id)
}

// an engine with the constraints of these rows
fn engine_of(alloc: Global, rows: &[[i64; 5]; 4]) -> Result<Small, NoMemory> {
    let mut engine = Small::new(alloc, 4)?;
    let mut id: u64 = 0;
    for row in rows {
        let c = constraint_of(alloc, row)?;
        id = id.saturating_add(1);
        add(alloc, &mut engine, c, id)?;
    }
    Ok(engine)
}

// propagates, and then assumes a literal, where that is possible
fn assume(engine: &mut Small, lit: Lit)
    requires { IsKnown 4 lit }
{
    let open = engine.propagate() == Step::Closed;
    if open && engine.vars() == 4 && engine.trail().place_of(lit.var()).is_none() {
        engine.assume(lit);
    }
}

// assumes the literals of the numbers that are not 0
fn assume_all(engine: &mut Small, numbers: &[i64]) {
    for number in numbers {
        if *number != 0 {
            assume(engine, lit_of(*number));
        }
    }
}

// the first five numbers; 0 for those that are not there
fn first_five(numbers: &[u64]) -> [u64; 5] {
    [0, 1, 2, 3, 4].map(|at| numbers.get(at).copied().unwrap_or(0))
}

// whether the clause of a case was learned, with its level and its hints
fn is_learned(alloc: Global, learned: Learned, case: &Case) -> Result<bool, NoMemory> {
    if learned.level() != case.level {
        return Ok(false);
    }
    let wanted = lits_of(alloc, &case.lits)?;
    let (lits, hints) = learned.into_parts();
    Ok(lits == wanted && first_five(&hints) == case.hints)
}

// whether a conflict above level 0 teaches what a case says, with new tables and with old ones
fn teaches(
    alloc: Global,
    a: &mut Analysis,
    engine: &Small,
    conflict: u64,
    case: &Case,
) -> Result<bool, NoMemory>
    requires level { 1 ≤ engine.now.trail.level }
    requires conflict { engine.now.last ≡ Some (Conflict conflict) }
{
    let alone = learn(alloc, engine, conflict)?;
    let kept = learn_with(a, engine, conflict)?;
    let same = is_learned(alloc, alone, case)? && is_learned(alloc, kept, case)?;
    Ok(same && first_five(a.seen()) == case.seen)
}

// whether the next conflict teaches what a case says; the hints alone where nothing was assumed
fn conflict_teaches(
    alloc: Global,
    a: &mut Analysis,
    engine: &mut Small,
    case: &Case,
) -> Result<bool, NoMemory> {
    let Step::Conflict { id } = engine.propagate() else {
        return Ok(false);
    };
    if engine.trail().level() > 0 {
        return teaches(alloc, a, engine, id, case);
    }
    let hints = root_hints(alloc, engine, id)?;
    Ok(first_five(&hints) == case.hints)
}

// whether the reasons are those of a case
fn are_locked(engine: &Small, case: &Case) -> bool {
    let locked = [1, 2, 3, 4].map(|id| is_locked(engine, id));
    locked == case.locked && !is_locked(engine, 9)
}

// whether all is as a case says
fn is_right(alloc: Global, a: &mut Analysis, case: &Case) -> Result<bool, NoMemory> {
    let mut engine = engine_of(alloc, &case.rows)?;
    assume_all(&mut engine, &case.assumed);
    let right = conflict_teaches(alloc, a, &mut engine, case)?;
    Ok(right && are_locked(&engine, case))
}

// the conflicts
fn cases() -> [Case; 8] {
    [
        // a klause that forces two literals is one hint, and the point is not the decision
        Case {
            rows: [
                [1, 0, -1, 2, 0],
                [2, 0, -2, 3, 4],
                [1, 0, -3, -4, 0],
                [0, 0, 0, 0, 0],
            ],
            assumed: [1, 0, 0],
            lits: [-2, 0, 0],
            level: 0,
            hints: [2, 3, 0, 0, 0],
            seen: [3, 4, 2, 0, 0],
            locked: [true, true, false, false],
        },
        // 2 is left out, since 1 implies it
        Case {
            rows: [
                [1, 0, -1, 2, 0],
                [1, 0, -1, -3, 4],
                [1, 0, -2, -3, -4],
                [0, 0, 0, 0, 0],
            ],
            assumed: [1, 3, 0],
            lits: [-3, -1, 0],
            level: 1,
            hints: [1, 3, 2, 0, 0],
            seen: [1, 3, 4, 2, 0],
            locked: [true, false, true, false],
        },
        // 1 is left out, since it came at level 0, and its reason is a hint
        Case {
            rows: [
                [1, 0, 1, 0, 0],
                [1, 0, -1, -2, 3],
                [1, 0, -1, -3, 4],
                [1, 0, -3, -4, 0],
            ],
            assumed: [2, 0, 0],
            lits: [-3, 0, 0],
            level: 0,
            hints: [1, 4, 3, 0, 0],
            seen: [3, 4, 0, 0, 0],
            locked: [true, true, false, true],
        },
        // the guard 1 is one of what the reason rests on
        Case {
            rows: [
                [2, 1, 2, 3, 4],
                [1, 0, -2, -3, 0],
                [0, 0, 0, 0, 0],
                [0, 0, 0, 0, 0],
            ],
            assumed: [-4, 1, 0],
            lits: [-1, 4, 0],
            level: 1,
            hints: [1, 2, 0, 0, 0],
            seen: [2, 3, 4, 1, 0],
            locked: [true, false, false, false],
        },
        // a klause is in conflict, and the point is the decision
        Case {
            rows: [
                [1, 0, -1, -2, 0],
                [1, 0, -1, -3, 0],
                [2, 0, 2, 3, 4],
                [0, 0, 0, 0, 0],
            ],
            assumed: [1, 0, 0],
            lits: [-1, 0, 0],
            level: 0,
            hints: [2, 1, 3, 0, 0],
            seen: [2, 3, 1, 0, 0],
            locked: [true, true, false, false],
        },
        // the others came at levels 1 and 2
        Case {
            rows: [
                [1, 0, -1, -3, 4],
                [1, 0, -2, -3, -4],
                [0, 0, 0, 0, 0],
                [0, 0, 0, 0, 0],
            ],
            assumed: [1, 2, 3],
            lits: [-3, -1, -2],
            level: 2,
            hints: [2, 1, 0, 0, 0],
            seen: [1, 3, 4, 2, 0],
            locked: [false, true, false, false],
        },
        // 1 is seen, since the reason of 2 rests on it
        Case {
            rows: [
                [1, 0, -1, 2, 0],
                [1, 0, -2, -3, 4],
                [1, 0, -2, -3, -4],
                [0, 0, 0, 0, 0],
            ],
            assumed: [1, 3, 0],
            lits: [-3, -2, 0],
            level: 1,
            hints: [3, 2, 0, 0, 0],
            seen: [2, 3, 4, 1, 0],
            locked: [true, false, true, false],
        },
        // nothing is assumed
        Case {
            rows: [
                [1, 0, 1, 0, 0],
                [1, 0, -1, 2, 0],
                [1, 0, 3, 0, 0],
                [1, 0, -1, -2, 0],
            ],
            assumed: [0, 0, 0],
            lits: [0, 0, 0],
            level: 0,
            hints: [1, 4, 2, 0, 0],
            seen: [0, 0, 0, 0, 0],
            locked: [true, false, true, true],
        },
    ]
}

#[test]
fn conflicts_teach(rt: HostRuntime) -> Result<(), Fail> {
    let mut a = Analysis::new(rt.alloc());
    for case in cases() {
        assert!(rt; is_right(rt.alloc(), &mut a, &case)?, "{:?}", case.rows);
    }
    Ok(())
}
