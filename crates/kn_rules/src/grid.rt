//! Whether definitions spell the grid of a count, by a walk over its levels: of paths through it there are too many.
ghost use Rattle.std.specs.Prelude.{◌≡◌, ◌≤◌, ◌<◌, ◌-◌, ◌&&◌, ◌∷◌, ℕ, Option, IfOk, if◌then◌else◌, false};
ghost use Rattle.kn_logic.specs.Literals.{is_same};
ghost use Rattle.kn_rules.specs.Grids.{stands_for, is_root};
ghost use Rattle.kn_rules.specs.Demands.{arm_of, all_stand, all_go_on};
ghost use Rattle.kn_rules.specs.States.{looked_up};
ghost use Rattle.kn_rules.specs.declared.definition.Definition.{Definition};

use crate::definitions::Definitions;
use crate::demands::Demands;
use kn_counter::{Cell, grid_cell};
use kn_lines::Arm;
use kn_logic::{Lit, NoMemory};
use std::alloc::Global;

/// Whether a variable stands for the root of the grid of "at least `bound` of these literals". Goes down the
/// grid a literal at a time, with the variables that have to stand for nodes of the level, each once: a second
/// count for one of them is a failure. So where the literals have different variables each definition is looked
/// at once, whether the root stands or not.
pub fn is_root(
    alloc: Global,
    definitions: &Definitions,
    lits: &[Lit],
    bound: u64,
    root: u64,
) -> Result<bool, NoMemory>
    ensures { IfOk result (λ yes. yes ≡ is_root (looked_up definitions.now) lits.now bound root) }
{
    let mut level = Demands::new(alloc);
    level.add(root, bound)?;
    let mut left = lits;
    while let Some((lit, rest)) = left.split_first() {
        match behind(alloc, definitions, *lit, rest, &level)? {
            Some(next) => level = next,
            None => return Ok(false),
        }
        left = rest;
    }
    Ok(level.len() == 0)
}

/// What the demands of a literal's level ask of the level behind it; `None` only where one of them fails.
fn behind(
    alloc: Global,
    definitions: &Definitions,
    lit: Lit,
    rest: &[Lit],
    level: &Demands,
) -> Result<Option<Demands>, NoMemory>
    ensures { IfOk result (λ next. all_go_on (looked_up definitions.now) rest.now next ≡ all_stand (looked_up definitions.now) (lit ∷ rest.now) level.now) }
{
    let mut next = Demands::new(alloc);
    for place in 0..level.len() {
        let Some((variable, count)) = level.get(place) else {
            unreachable!()
        };
        if !add_arms(definitions, lit, rest, variable, count, &mut next)? {
            return Ok(None);
        }
    }
    Ok(Some(next))
}

/// Adds what it takes that the variable stands for the node of the literal with this count. `false` where
/// it cannot.
fn add_arms(
    definitions: &Definitions,
    lit: Lit,
    rest: &[Lit],
    variable: u64,
    count: u64,
    next: &mut Demands,
) -> Result<bool, NoMemory>
    ensures { IfOk result (λ yes. (if yes then all_stand (looked_up definitions.now) rest.now next.new else false) ≡ (all_stand (looked_up definitions.now) rest.now next.old && stands_for (looked_up definitions.now) (lit ∷ rest.now) count (arm_of variable))) }
{
    let Cell::Inner = grid_cell(rest.len() as u64 + 1, 1, count) else {
        return Ok(false)
    };
    let Some(d) = definitions.get(variable) else {
        return Ok(false)
    };
    if is_same(d.test, lit) {
        return add_both(next, rest, &d.high, &d.low, count);
    }
    if is_same(d.test, lit.negated()) {
        return add_both(next, rest, &d.low, &d.high, count);
    }
    Ok(false)
}

/// Adds that one arm stands for the node with one less, and the other for the node with the count; `false`
/// where they cannot.
fn add_both(
    next: &mut Demands,
    rest: &[Lit],
    less: &Arm,
    same: &Arm,
    count: u64,
) -> Result<bool, NoMemory>
    requires { 1 ≤ count }
    ensures { IfOk result (λ yes. (definition : ℕ → Option Definition) → (if yes then all_stand definition rest.now next.new else false) ≡ (all_stand definition rest.now next.old && (stands_for definition rest.now (count - 1) less.now && stands_for definition rest.now count same.now))) }
{
    if !add(next, rest, less, count - 1)? {
        return Ok(false);
    }
    add(next, rest, same, count)
}

/// Adds that an arm stands for the node with this count; `false` where it cannot.
fn add(next: &mut Demands, rest: &[Lit], arm: &Arm, count: u64) -> Result<bool, NoMemory>
    ensures { IfOk result (λ yes. (definition : ℕ → Option Definition) → (if yes then all_stand definition rest.now next.new else false) ≡ (all_stand definition rest.now next.old && stands_for definition rest.now count arm.now)) }
{
    match arm {
        Arm::True => Ok(matches!(grid_cell(rest.len() as u64, 1, count), Cell::True)),
        Arm::False => Ok(matches!(grid_cell(rest.len() as u64, 1, count), Cell::False)),
        Arm::Lit(lit) => {
            if !lit.is_positive() {
                return Ok(false);
            }
            next.add(lit.var(), count)
        }
    }
}

/// Whether two literals are one.
fn is_same(a: Lit, b: Lit) -> bool
    ensures { result ≡ is_same a b }
{
    a.var() == b.var() && a.is_positive() == b.is_positive()
}
