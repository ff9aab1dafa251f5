//! Propagation under decisions by chance, to be measured: each test fills an engine and makes literals true until they
//! are so many; the test of the same name and `_alone` only fills it.

use super::*;

/// What an engine is filled with: clauses of three literals, and constraints of more literals and one bound.
#[derive(Drop)]
struct Load {
    vars: u64,
    short: u64,
    long: u64,
    lits: u64,
    bound: u64,
}

impl Load {
    // clauses of three literals, and longer ones
    fn clauses(vars: u64, short: u64, long: u64, lits: u64) -> Load {
        Load {
            vars,
            short,
            long,
            lits,
            bound: 1,
        }
    }

    // klauses of which half the literals are to be true
    fn klauses(long: u64, lits: u64) -> Load {
        Load {
            vars: 2000,
            short: 0,
            long,
            lits,
            bound: lits / 2,
        }
    }
}

// so many literals of so many variables, and a bound
fn draw(
    alloc: Global,
    dice: &mut Dice,
    vars: u64,
    bound: u64,
    lits: u64,
) -> Result<Constraint, NoMemory> {
    let mut drawn = Vec::new(alloc);
    for _ in 0..lits {
        let var = dice.below(vars).saturating_add(1);
        drawn.push(Lit::new(var, dice.below(2) == 0))?;
    }
    Ok(Constraint::new(bound, drawn))
}

// adds a constraint under an id, if it may be added
fn add(
    alloc: Global,
    engine: &mut Engine<ClauseWatch, CardWatch>,
    constraint: Constraint,
    id: u64,
) -> Result<(), NoMemory> {
    if constraint.is_clause() {
        let w = ClauseWatch::new(constraint);
        if may_add(engine, &w, id) {
            engine.add_clause(w, id)?;
        }
    } else {
        let w = card(alloc, constraint)?;
        if may_add(engine, &w, id) {
            engine.add_klause(w, id)?;
        }
    }
    Ok(())
}

// an engine with a load
fn fill(
    alloc: Global,
    dice: &mut Dice,
    load: &Load,
) -> Result<Engine<ClauseWatch, CardWatch>, NoMemory> {
    let mut engine = Engine::new(alloc, load.vars)?;
    for id in 0..load.short {
        let clause = draw(alloc, dice, load.vars, 1, 3)?;
        add(alloc, &mut engine, clause, id)?;
    }
    for more in 0..load.long {
        let constraint = draw(alloc, dice, load.vars, load.bound, load.lits)?;
        add(
            alloc,
            &mut engine,
            constraint,
            load.short.saturating_add(more),
        )?;
    }
    Ok(engine)
}

// a literal by chance, of a variable without a value where there is one
fn free_lit(dice: &mut Dice, trail: &Trail) -> Lit {
    let vars = trail.vars();
    let mut before = dice.below(vars);
    for _ in 0..vars {
        let var = before.saturating_add(1);
        if trail.place_of(var).is_none() {
            return Lit::new(var, dice.below(2) == 0);
        }
        before = if var < vars { var } else { 0 };
    }
    Lit::new(1, true)
}

// makes literals true until they are so many, from level 0 again after each conflict
fn run(engine: &mut Engine<ClauseWatch, CardWatch>, dice: &mut Dice, wanted: usize) -> usize {
    let mut made: usize = 0;
    for _ in 0..wanted.saturating_mul(2) {
        if made >= wanted {
            return made;
        }
        let before = engine.trail().len();
        let step = engine.propagate();
        made = made.saturating_add(engine.trail().len().saturating_sub(before));
        let lit = free_lit(dice, engine.trail());
        match step {
            Step::Closed if is_free(engine.trail(), lit) => {
                engine.assume(lit);
                made = made.saturating_add(1);
            }
            _ => engine.back_to(0),
        }
    }
    made
}

// fills an engine and makes so many literals true; whether it came to them
fn bears(alloc: Global, load: Load, wanted: usize) -> Result<bool, NoMemory> {
    let mut dice = Dice { state: 5 };
    let mut engine = fill(alloc, &mut dice, &load)?;
    Ok(run(&mut engine, &mut dice, wanted) >= wanted)
}

#[test]
fn clauses_of_250_variables_alone(rt: HostRuntime) -> Result<(), Fail> {
    assert!(rt; bears(rt.alloc(), Load::clauses(250, 1065, 3000, 10), 0)?);
    Ok(())
}

#[test]
fn clauses_of_250_variables(rt: HostRuntime) -> Result<(), Fail> {
    assert!(rt; bears(rt.alloc(), Load::clauses(250, 1065, 3000, 10), 2000000)?);
    Ok(())
}

#[test]
fn clauses_of_2000_variables_alone(rt: HostRuntime) -> Result<(), Fail> {
    assert!(rt; bears(rt.alloc(), Load::clauses(2000, 8520, 8000, 15), 0)?);
    Ok(())
}

#[test]
fn clauses_of_2000_variables(rt: HostRuntime) -> Result<(), Fail> {
    assert!(rt; bears(rt.alloc(), Load::clauses(2000, 8520, 8000, 15), 1000000)?);
    Ok(())
}

#[test]
fn clauses_of_20000_variables_alone(rt: HostRuntime) -> Result<(), Fail> {
    assert!(rt; bears(rt.alloc(), Load::clauses(20000, 85200, 40000, 20), 0)?);
    Ok(())
}

#[test]
fn clauses_of_20000_variables(rt: HostRuntime) -> Result<(), Fail> {
    assert!(rt; bears(rt.alloc(), Load::clauses(20000, 85200, 40000, 20), 500000)?);
    Ok(())
}

#[test]
fn klauses_of_10_literals_alone(rt: HostRuntime) -> Result<(), Fail> {
    assert!(rt; bears(rt.alloc(), Load::klauses(4000, 10), 0)?);
    Ok(())
}

#[test]
fn klauses_of_10_literals(rt: HostRuntime) -> Result<(), Fail> {
    assert!(rt; bears(rt.alloc(), Load::klauses(4000, 10), 1000000)?);
    Ok(())
}

#[test]
fn klauses_of_100_literals_alone(rt: HostRuntime) -> Result<(), Fail> {
    assert!(rt; bears(rt.alloc(), Load::klauses(400, 100), 0)?);
    Ok(())
}

#[test]
fn klauses_of_100_literals(rt: HostRuntime) -> Result<(), Fail> {
    assert!(rt; bears(rt.alloc(), Load::klauses(400, 100), 1000000)?);
    Ok(())
}

#[test]
fn klauses_of_1000_literals_alone(rt: HostRuntime) -> Result<(), Fail> {
    assert!(rt; bears(rt.alloc(), Load::klauses(40, 1000), 0)?);
    Ok(())
}

#[test]
fn klauses_of_1000_literals(rt: HostRuntime) -> Result<(), Fail> {
    assert!(rt; bears(rt.alloc(), Load::klauses(40, 1000), 1000000)?);
    Ok(())
}
