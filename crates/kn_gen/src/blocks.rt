//! The blocks as klauses, in their order, and then the clauses that link them.
ghost use Rattle.std.specs.Prelude.{◌≡◌, ◌≤◌, ◌<◌, ◌+◌, ◌-◌, ◌*◌, ◌++◌, ◌∷◌, [], map, IfOk, OnOk};
ghost use Rattle.kn_logic.specs.Literals.{negated};
ghost use Rattle.kn_gen.specs.Blocks.{literals_from, block, at_most, at_least, block_klauses, blocks, link, links, block_formula};

use kn_logic::{Constraint, Formula, Lit, NoMemory};
use std::alloc::Global;

/// So many blocks, from 1 to 200, as klauses.
pub fn block_formula(alloc: Global, count: u64) -> Result<Formula, NoMemory>
    requires first { 1 ≤ count }
    requires last { count ≤ 200 }
    ensures { IfOk result (λ f. f ≡ block_formula count) }
{
    let mut f = Formula::new(alloc, 8 * count);
    push_blocks(alloc, &mut f, count)?;
    push_links(alloc, &mut f, count)?;
    Ok(f)
}

/// Adds the klauses of all blocks.
fn push_blocks(alloc: Global, f: &mut Formula, count: u64) -> Result<(), NoMemory>
    requires last { count ≤ 200 }
    requires vars { f.old.vars ≡ 8 * count }
    ensures { OnOk result (f.new ≡ record f.old { constraints = f.old.constraints ++ blocks count count }) }
{
    for before in 0..count {
        push_block(alloc, f, count, before + 1)?;
    }
    Ok(())
}

/// Adds the two klauses of a block.
fn push_block(alloc: Global, f: &mut Formula, count: u64, t: u64) -> Result<(), NoMemory>
    requires first { 1 ≤ t }
    requires last { t ≤ count }
    requires count { count ≤ 200 }
    requires vars { f.old.vars ≡ 8 * count }
    ensures { OnOk result (f.new ≡ record f.old { constraints = f.old.constraints ++ block_klauses count t }) }
{
    let lits = literals_from(alloc, 8 * t - 7)?;
    let negations = negations(alloc, &lits)?;
    f.push(Constraint::new(8 - at_most(count, t), negations))?;
    f.push(Constraint::new(at_least(count, t), lits))?;
    Ok(())
}

/// Adds the clause behind each block but the last.
fn push_links(alloc: Global, f: &mut Formula, count: u64) -> Result<(), NoMemory>
    requires first { 1 ≤ count }
    requires last { count ≤ 200 }
    requires vars { f.old.vars ≡ 8 * count }
    ensures { OnOk result (f.new ≡ record f.old { constraints = f.old.constraints ++ links (count - 1) }) }
{
    for before in 0..count - 1 {
        push_link(alloc, f, before + 1)?;
    }
    Ok(())
}

/// Adds the clause behind a block.
fn push_link(alloc: Global, f: &mut Formula, t: u64) -> Result<(), NoMemory>
    requires first { 1 ≤ t }
    requires last { t < 200 }
    requires vars { 8 * (t + 1) ≤ f.old.vars }
    ensures { OnOk result (f.new ≡ record f.old { constraints = f.old.constraints ++ link t ∷ [] }) }
{
    let lits = [Lit::new(8 * t - 7, true), Lit::new(8 * t + 1, false)];
    f.push(Constraint::new(1, Vec::from_slice(alloc, &lits)?))
}

/// The positive literals of eight variables, from this one on.
fn literals_from(alloc: Global, first: u64) -> Result<Vec<Lit>, NoMemory>
    requires counted { 1 ≤ first }
    requires last { first ≤ 1600 }
    ensures { IfOk result (λ lits. lits.items ≡ literals_from first 8) }
{
    let mut lits = Vec::new(alloc);
    for place in 0..8 {
        lits.push(Lit::new(first + place, true))?;
    }
    Ok(lits)
}

/// The negations of literals, in their order.
fn negations(alloc: Global, lits: &[Lit]) -> Result<Vec<Lit>, NoMemory>
    ensures { IfOk result (λ all. all.items ≡ map negated lits.now) }
{
    let mut all = Vec::with_capacity(alloc, lits.len())?;
    for lit in lits {
        all.push(lit.negated())?;
    }
    Ok(all)
}

/// How many of block `t` are true at most.
fn at_most(count: u64, t: u64) -> u64
    ensures value { result ≡ at_most count t }
    ensures within { result ≤ 8 }
{
    if t == count { 3 } else { 3 + t % 3 }
}

/// How many of block `t` are true at least.
fn at_least(count: u64, t: u64) -> u64
    ensures { result ≡ at_least count t }
{
    if t == count { 4 } else { 2 + t % 2 }
}
