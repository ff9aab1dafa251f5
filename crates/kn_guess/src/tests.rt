//! Seeds and starts of small stores: counters, pigeons in holes, guards, and groups at the limits of a guess.
ghost use Rattle.std.specs.Prelude.{◌≡◌, ◌≤◌, ◌+◌, length, IfOk};
ghost use Rattle.kn_logic.specs.Constraints.{Fits};

use super::*;
use kn_logic::{Constraint, Lit, NoMemory};
use kn_store::Store;
use std::alloc::Global;
use std::test::Fail;

// a clause of at most three literals; 0 stands for none
type Row = [i64; 3];

fn clause_of(alloc: Global, vars: u64, row: &Row) -> Result<Constraint, NoMemory>
    ensures { IfOk result (Fits vars) }
{
    let mut lits = Vec::new(alloc);
    for number in row {
        let var = number.unsigned_abs();
        if 1 <= var && var <= vars {
            lits.push(Lit::new(var, *number > 0))?;
        }
    }
    Ok(Constraint::new(1, lits))
}

fn filled(alloc: Global, vars: u64, rows: &[Row]) -> Result<Store, NoMemory>
    ensures vars { IfOk result (λ s. s.vars ≡ vars) }
    ensures added { IfOk result (λ s. s.added ≡ length rows.now) }
{
    let mut s = Store::new(alloc, vars)?;
    for row in rows {
        s.add(clause_of(alloc, vars, row)?)?;
    }
    Ok(s)
}

// the numbers of auxiliary variables and of border literals, or why the seed has no guess
fn sizes(alloc: Global, s: &Store, seed: u64) -> Result<(usize, usize), NoGuess>
    requires first { 1 ≤ seed }
{
    if seed > s.vars() {
        return Err(NoGuess::NotSeed);
    }
    let g = aux_guess(alloc, s, seed)?;
    Ok((g.group().aux().len(), g.group().border().len()))
}

// the number of border literals of a start, 0 where it has no guess
fn joined(alloc: Global, s: &Store, start: u64) -> Result<usize, NoMemory> {
    let g = pair_guess(alloc, s, start)?;
    Ok(match g {
        Some(g) => g.group().border().len(),
        None => 0,
    })
}

// three variables of which at most one is true, by a counter over 4 and 5, and a clause over them
const HIDDEN: [Row; 6] = [
    [1, 2, 3],
    [-1, 4, 0],
    [-4, 5, 0],
    [-2, 5, 0],
    [-2, -4, 0],
    [-3, -5, 0],
];

// four pigeons in three holes, the holes by counters
const PIGEONS: [Row; 28] = [
    [1, 2, 3],
    [4, 5, 6],
    [7, 8, 9],
    [10, 11, 12],
    [-1, 13, 0],
    [-4, 14, 0],
    [-13, 14, 0],
    [-4, -13, 0],
    [-7, 15, 0],
    [-14, 15, 0],
    [-7, -14, 0],
    [-10, -15, 0],
    [-2, 16, 0],
    [-5, 17, 0],
    [-16, 17, 0],
    [-5, -16, 0],
    [-8, 18, 0],
    [-17, 18, 0],
    [-8, -17, 0],
    [-11, -18, 0],
    [-3, 19, 0],
    [-6, 20, 0],
    [-19, 20, 0],
    [-6, -19, 0],
    [-9, 21, 0],
    [-20, 21, 0],
    [-9, -20, 0],
    [-12, -21, 0],
];

#[test]
fn seeds_are_guessed_or_refused(rt: HostRuntime) -> Result<(), Fail> {
    let small = Err(NoGuess::SmallBorder);
    let hidden = filled(rt.alloc(), 5, &HIDDEN)?;
    let cases = [
        (1, small),
        (2, small),
        (3, small),
        (4, Ok((2, 3))),
        (5, Ok((1, 3))),
    ];
    for (seed, want) in cases {
        assert!(rt; sizes(rt.alloc(), &hidden, seed) == want, "hidden {seed}");
    }
    let pigeons = filled(rt.alloc(), 21, &PIGEONS)?;
    let two = Err(NoGuess::TwoSided { var: 4 });
    let cases = [
        (1, small),
        (2, small),
        (3, small),
        (4, Ok((18, 3))),
        (5, two),
        (6, two),
        (7, Ok((15, 6))),
    ];
    for (seed, want) in cases {
        assert!(rt; sizes(rt.alloc(), &pigeons, seed) == want, "pigeon {seed}");
    }
    Ok(())
}

#[test]
fn hidden_count_is_guessed(rt: HostRuntime) -> Result<(), Fail> {
    let s = filled(rt.alloc(), 5, &HIDDEN)?;
    let mut seeds = Seeds::new(rt.alloc(), &s)?;
    let Ok(g) = seeds.guess(rt.alloc(), &s, 4) else {
        return Err("no guess".into());
    };
    let border = [Lit::new(1, false), Lit::new(2, false), Lit::new(3, false)];
    assert!(rt; g.group().aux() == [4, 5].as_slice() && g.group().border() == border.as_slice());
    assert!(rt; g.ids() == [2, 3, 4, 5, 6].as_slice() && g.group().taken().len() == 5);
    assert!(rt; seeds.guess(rt.alloc(), &s, 5).is_ok());
    seeds.took(g.group());
    Ok(())
}

#[test]
fn guards_are_in_klauses(rt: HostRuntime) -> Result<(), Fail> {
    let mut s = filled(rt.alloc(), 5, &HIDDEN)?;
    s.add(Constraint::guarded(
        Lit::new(4, true),
        1,
        vec![in rt.alloc(); Lit::new(5, true)]?,
    ))?;
    let cases = [
        (1, Err(NoGuess::SmallBorder)),
        (2, Err(NoGuess::TwoSided { var: 5 })),
        (3, Ok((1, 3))),
        (4, Err(NoGuess::NotSeed)),
        (5, Err(NoGuess::NotSeed)),
    ];
    for (seed, want) in cases {
        assert!(rt; sizes(rt.alloc(), &s, seed) == want, "seed {seed}");
    }
    Ok(())
}

// `members` variables from 4 on, each in a clause with the next, and three variables at the border
fn chain(alloc: Global, members: u16) -> Result<Store, NoMemory>
    ensures { IfOk result (λ s. s.vars ≡ members + 3) }
{
    let mut rows = Vec::from_slice(alloc, &[[4, 1, 0], [5, 2, 0], [6, 3, 0]])?;
    for k in 1..members {
        rows.push([-i64::from(k) - 3, i64::from(k) + 4, 0])?;
    }
    filled(alloc, u64::from(members) + 3, &rows)
}

// two members, and the first one in a clause with each of so many earlier variables
fn star(alloc: Global, border: u16) -> Result<Store, NoMemory>
    ensures { IfOk result (λ s. s.vars ≡ border + 2) }
{
    let seed = i64::from(border) + 1;
    let mut rows = Vec::from_slice(alloc, &[[-seed, seed + 1, 0]])?;
    for k in 0..border {
        rows.push([i64::from(k) + 1, seed, 0])?;
    }
    filled(alloc, u64::from(border) + 2, &rows)
}

// each two of so many variables in a clause
fn clique(alloc: Global, size: u16) -> Result<Store, NoMemory>
    ensures { IfOk result (λ s. s.vars ≡ size) }
{
    let mut rows = Vec::new(alloc);
    for i in 1..size {
        for j in i..size {
            rows.push([i64::from(i), i64::from(j) + 1, 0])?;
        }
    }
    filled(alloc, u64::from(size), &rows)
}

#[test]
fn guesses_keep_their_limits(rt: HostRuntime) -> Result<(), Fail> {
    for (members, want) in [(256, Ok((256, 3))), (257, Err(NoGuess::TooMany))] {
        let s = chain(rt.alloc(), members)?;
        assert!(rt; sizes(rt.alloc(), &s, 4) == want, "members {members}");
    }
    let cases = [
        (2, Err(NoGuess::SmallBorder)),
        (3, Ok((2, 3))),
        (128, Ok((2, 128))),
        (129, Err(NoGuess::TooWideBorder)),
    ];
    for (border, want) in cases {
        let s = star(rt.alloc(), border)?;
        assert!(rt;
            sizes(rt.alloc(), &s, u64::from(border) + 1) == want,
            "border {border}"
        );
    }
    for (size, want) in [(2, 0), (3, 3), (256, 256), (257, 256)] {
        let s = clique(rt.alloc(), size)?;
        assert!(rt; joined(rt.alloc(), &s, 1)? == want, "clique {size}");
    }
    Ok(())
}

#[test]
fn starts_are_guessed(rt: HostRuntime) -> Result<(), Fail> {
    let rows = [
        [-1, -2, 0],
        [-1, -3, 0],
        [-2, -1, 0],
        [-2, -3, 0],
        [1, 2, 3],
    ];
    let s = filled(rt.alloc(), 3, &rows)?;
    let pairs = Pairs::new(rt.alloc(), &s)?;
    let Some(g) = pairs.guess(rt.alloc(), &s, 2)? else {
        return Err("no guess".into());
    };
    let border = [Lit::new(1, false), Lit::new(2, false), Lit::new(3, false)];
    assert!(rt; g.group().aux().is_empty() && g.group().border() == border.as_slice());
    assert!(rt; g.ids() == [1, 2, 3, 4].as_slice() && g.group().taken().len() == 4);
    for start in [0, 5, 6] {
        assert!(rt;
            pairs.guess(rt.alloc(), &s, start)?.is_none(),
            "start {start}"
        );
    }
    Ok(())
}
