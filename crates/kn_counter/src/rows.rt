//! The clauses of a sequential counter, row by row: variable j of a row is true where j of the literals so far are.
ghost use Rattle.std.specs.Prelude.{◌≡◌, ◌≤◌, ◌<◌, ◌+◌, ◌-◌, ◌*◌, ◌^◌, ◌∷◌, [], false, length, OnOk};
ghost use Rattle.std.specs.List.{flat_map};
ghost use Rattle.kn_logic.specs.Literals.{IsKnown, AreKnown};
ghost use Rattle.kn_counter.specs.Counters.{counting, counter};
ghost use Rattle.kn_counter.specs.Rows.{first_at, carried_at, overflow_at, middle_at, row_at, rows_at, with_clauses};

use crate::clauses::push_clause;
use crate::row::Row;
use kn_logic::{Formula, Lit, NoMemory};
use std::alloc::Global;

/// Adds the counter for at most `first.k` of these literals; `first` is the row of the first of them. The
/// literals of `front` stand at the head of each clause, here and below.
pub fn push_counter(
    alloc: Global,
    out: &mut Formula,
    front: &[Lit],
    first: Row,
    lits: &[Lit],
) -> Result<(), NoMemory>
    requires vars { out.old.vars < 2 ^ 63 }
    requires front { AreKnown out.old.vars front.now }
    requires lits { AreKnown out.old.vars lits.now }
    requires count { (1 ≤ first.k) × (2 ≤ length lits.now) }
    requires room { first.start + (length lits.now - 1) * first.k ≤ out.old.vars }
    ensures { OnOk result (out.new ≡ with_clauses front.now out.old (counter first.start first.k lits.now)) }
{
    let Some((x, rest)) = lits.split_first() else {
        unreachable!()
    };
    push_first(alloc, out, front, first, *x)?;
    push_rows(alloc, out, front, first, rest)
}

/// Adds the clauses of the first literal, whose row is `own`.
fn push_first(
    alloc: Global,
    out: &mut Formula,
    front: &[Lit],
    own: Row,
    x: Lit,
) -> Result<(), NoMemory>
    requires vars { out.old.vars < 2 ^ 63 }
    requires front { AreKnown out.old.vars front.now }
    requires x { IsKnown out.old.vars x }
    requires count { 1 ≤ own.k }
    requires room { own.start + own.k ≤ out.old.vars }
    ensures { OnOk result (out.new ≡ with_clauses front.now out.old (first_at own.start own.k x)) }
{
    push_clause(alloc, out, front, &[x.negated(), own.lit(1)])?;
    for j in 2..=own.k {
        push_clause(alloc, out, front, &[own.lit(j).negated()])?;
    }
    Ok(())
}

/// Adds the clauses of the literals behind the first, whose row is `first`.
fn push_rows(
    alloc: Global,
    out: &mut Formula,
    front: &[Lit],
    first: Row,
    lits: &[Lit],
) -> Result<(), NoMemory>
    requires vars { out.old.vars < 2 ^ 63 }
    requires front { AreKnown out.old.vars front.now }
    requires lits { AreKnown out.old.vars lits.now }
    requires count { 1 ≤ first.k }
    requires room { first.start + length lits.now * first.k ≤ out.old.vars }
    ensures { OnOk result (out.new ≡ with_clauses front.now out.old (rows_at first.start first.k lits.now)) }
{
    let mut above = first;
    let mut rest = lits;
    while let Some((x, behind)) = rest.split_first() {
        push_row(alloc, out, front, above, *x, behind.is_empty())?;
        above = above.next();
        rest = behind;
    }
    Ok(())
}

/// Adds the clauses of a literal behind the first; `above` is the row of the literal before it. The last
/// literal has no row of its own.
fn push_row(
    alloc: Global,
    out: &mut Formula,
    front: &[Lit],
    above: Row,
    x: Lit,
    is_last: bool,
) -> Result<(), NoMemory>
    requires vars { out.old.vars < 2 ^ 63 }
    requires front { AreKnown out.old.vars front.now }
    requires x { IsKnown out.old.vars x }
    requires count { 1 ≤ above.k }
    requires above { above.start + above.k ≤ out.old.vars }
    requires own { is_last ≡ false → above.start + above.k + above.k ≤ out.old.vars }
    ensures { OnOk result (out.new ≡ with_clauses front.now out.old (row_at above.start above.k x is_last)) }
{
    if is_last {
        return push_overflow(alloc, out, front, above, x);
    }
    push_middle(alloc, out, front, above, x)
}

/// Adds the clauses of a literal that has a row of its own, behind the row `above`.
fn push_middle(
    alloc: Global,
    out: &mut Formula,
    front: &[Lit],
    above: Row,
    x: Lit,
) -> Result<(), NoMemory>
    requires vars { out.old.vars < 2 ^ 63 }
    requires front { AreKnown out.old.vars front.now }
    requires x { IsKnown out.old.vars x }
    requires count { 1 ≤ above.k }
    requires room { above.start + above.k + above.k ≤ out.old.vars }
    ensures { OnOk result (out.new ≡ with_clauses front.now out.old (middle_at above.start above.k x)) }
{
    let own = above.next();
    push_clause(alloc, out, front, &[x.negated(), own.lit(1)])?;
    push_clause(alloc, out, front, &[above.lit(1).negated(), own.lit(1)])?;
    push_carried(alloc, out, front, above, x)?;
    push_overflow(alloc, out, front, above, x)?;
    Ok(())
}

/// Adds the clauses by which the second and all later variables of a row follow from the row above it.
fn push_carried(
    alloc: Global,
    out: &mut Formula,
    front: &[Lit],
    above: Row,
    x: Lit,
) -> Result<(), NoMemory>
    requires vars { out.old.vars < 2 ^ 63 }
    requires front { AreKnown out.old.vars front.now }
    requires x { IsKnown out.old.vars x }
    requires room { above.start + above.k + above.k ≤ out.old.vars }
    ensures { OnOk result (out.new ≡ with_clauses front.now out.old (flat_map (carried_at above.start above.k x) (counting 2 (above.k - 1)))) }
{
    for j in 2..=above.k {
        push_step(alloc, out, front, above, x, j)?;
    }
    Ok(())
}

/// Adds the clauses by which the j-th variable of a row follows from the row above it.
fn push_step(
    alloc: Global,
    out: &mut Formula,
    front: &[Lit],
    above: Row,
    x: Lit,
    j: u64,
) -> Result<(), NoMemory>
    requires vars { out.old.vars < 2 ^ 63 }
    requires front { AreKnown out.old.vars front.now }
    requires x { IsKnown out.old.vars x }
    requires place { (2 ≤ j) × (j ≤ above.k) }
    requires room { above.start + above.k + above.k ≤ out.old.vars }
    ensures { OnOk result (out.new ≡ with_clauses front.now out.old (carried_at above.start above.k x j)) }
{
    let own = above.next().lit(j);
    let one_less = above.lit(j - 1);
    push_clause(alloc, out, front, &[x.negated(), one_less.negated(), own])?;
    push_clause(alloc, out, front, &[above.lit(j).negated(), own])
}

/// Adds the clause that a literal is not one more than k true ones.
fn push_overflow(
    alloc: Global,
    out: &mut Formula,
    front: &[Lit],
    above: Row,
    x: Lit,
) -> Result<(), NoMemory>
    requires vars { out.old.vars < 2 ^ 63 }
    requires front { AreKnown out.old.vars front.now }
    requires x { IsKnown out.old.vars x }
    requires count { 1 ≤ above.k }
    requires room { above.start + above.k ≤ out.old.vars }
    ensures { OnOk result (out.new ≡ with_clauses front.now out.old (overflow_at above.start above.k x ∷ [])) }
{
    let full = above.lit(above.k);
    push_clause(alloc, out, front, &[x.negated(), full.negated()])
}
