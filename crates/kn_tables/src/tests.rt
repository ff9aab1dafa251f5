//! Each call on tables of none to 12 variables, in one word and in many, against plain lists of truth values.
ghost use Rattle.std.specs.Prelude.{◌≡◌, ◌≤◌, ◌<◌, ◌^◌, true, false, IsTrue};
ghost use Rattle.kn_tables.specs.Tables.{AreBelow};

use super::*;
use std::alloc::{AllocError, Global};
use std::test::Fail;

// the literal of a variable
fn is(var: u8) -> TableLit
    ensures { result ≡ record { var = var; positive = true } }
{
    TableLit {
        var,
        positive: true,
    }
}

// its negation
fn not(var: u8) -> TableLit
    ensures { result ≡ record { var = var; positive = false } }
{
    TableLit {
        var,
        positive: false,
    }
}

// the number of indices of a table
fn size(n: u8) -> u16
    requires { n ≤ 12 }
    ensures { result ≡ 2 ^ n }
{
    1 << n
}

// the values of a table as a list
fn listed(alloc: Global, table: &Table, n: u8) -> Result<Vec<bool>, AllocError>
    requires few { n ≤ 12 }
    requires vars { table.now.vars ≡ n }
{
    let mut values = Vec::new(alloc);
    for index in 0..size(n) {
        values.push(table.at(index))?;
    }
    Ok(values)
}

// how many of the literals are true at an index
fn true_among(lits: &[TableLit], index: u16) -> usize {
    lits.iter()
        .filter(|lit| (index >> (lit.var % 16) & 1 == 1) == lit.positive)
        .count()
}

// "at least so many of these" as a list
fn list_of(alloc: Global, n: u8, lits: &[TableLit], bound: usize) -> Result<Vec<bool>, AllocError>
    requires { n ≤ 12 }
{
    let mut values = Vec::new(alloc);
    for index in 0..size(n) {
        values.push(bound <= true_among(lits, index))?;
    }
    Ok(values)
}

// "for some value of a variable" as a list
fn list_for_some(alloc: Global, values: &[bool], var: u8) -> Result<Vec<bool>, AllocError>
    requires { var < 12 }
{
    let mut joined = Vec::new(alloc);
    for index in 0..values.len() {
        let high = values.get(index | 1 << var).copied();
        let low = values.get(index & !(1 << var)).copied();
        joined.push(high == Some(true) || low == Some(true))?;
    }
    Ok(joined)
}

// whether tables are made as lists are
fn are_made(alloc: Global, n: u8, lits: &[TableLit], bound: u64) -> Result<bool, AllocError>
    requires few { n ≤ 12 }
    requires lits { AreBelow n lits.now }
{
    let all = listed(alloc, &Table::constant(n, true), n)?;
    let none = listed(alloc, &Table::constant(n, false), n)?;
    let clause = listed(alloc, &Table::of_clause(n, lits), n)?;
    let count = listed(alloc, &Table::at_least(n, lits, bound), n)?;
    Ok(
        all == list_of(alloc, n, &[], 0)?
            && none == list_of(alloc, n, &[], 1)?
            && clause == list_of(alloc, n, lits, 1)?
            && count == list_of(alloc, n, lits, bound as usize)?,
    )
}

// whether the clause and the count are joined as lists are
fn are_joined(alloc: Global, n: u8, lits: &[TableLit], bound: u64) -> Result<bool, AllocError>
    requires few { n ≤ 12 }
    requires lits { AreBelow n lits.now }
{
    let clause = list_of(alloc, n, lits, 1)?;
    let count = list_of(alloc, n, lits, bound as usize)?;
    let mut both = Table::of_clause(n, lits);
    both.and(&Table::at_least(n, lits, bound));
    let mut either = Table::of_clause(n, lits);
    either.or(&Table::at_least(n, lits, bound));
    let pairs = clause.iter().zip(&count);
    let all = listed(alloc, &both, n)?
        .iter()
        .zip(pairs)
        .all(|(x, (a, b))| *x == (*a && *b));
    let pairs = clause.iter().zip(&count);
    let some = listed(alloc, &either, n)?
        .iter()
        .zip(pairs)
        .all(|(x, (a, b))| *x == (*a || *b));
    Ok(all && some)
}

// whether each variable of the count is quantified as in a list
fn are_quantified(alloc: Global, n: u8, lits: &[TableLit], bound: u64) -> Result<bool, AllocError>
    requires few { n ≤ 12 }
    requires lits { AreBelow n lits.now }
{
    let count = list_of(alloc, n, lits, bound as usize)?;
    for var in 0..n {
        let mut table = Table::at_least(n, lits, bound);
        table.exists(var);
        if listed(alloc, &table, n)? != list_for_some(alloc, &count, var)? {
            return Ok(false);
        }
    }
    Ok(true)
}

// whether the first index at which the clause and the count differ is that of their lists
fn are_compared(alloc: Global, n: u8, lits: &[TableLit], bound: u64) -> Result<bool, AllocError>
    requires few { n ≤ 12 }
    requires lits { AreBelow n lits.now }
{
    let clause = list_of(alloc, n, lits, 1)?;
    let count = list_of(alloc, n, lits, bound as usize)?;
    let first = clause.iter().zip(&count).position(|(a, b)| a != b);
    let told = Table::of_clause(n, lits).first_difference(&Table::at_least(n, lits, bound));
    Ok(told.map(|index| index as usize) == first)
}

// each call on tables over n variables against lists
fn agrees(alloc: Global, n: u8, lits: &[TableLit], bound: u64) -> Result<bool, AllocError>
    requires few { n ≤ 12 }
    requires lits { AreBelow n lits.now }
{
    Ok(
        are_made(alloc, n, lits, bound)?
            && are_joined(alloc, n, lits, bound)?
            && are_quantified(alloc, n, lits, bound)?
            && are_compared(alloc, n, lits, bound)?,
    )
}

#[test]
fn a_clause_of_two(rt: HostRuntime) -> Result<(), Fail> {
    let clause = Table::of_clause(2, &[is(0), not(1)]);
    assert_eq!(rt;
        listed(rt.alloc(), &clause, 2)?.as_slice(),
        [true, true, false, true].as_slice()
    );
    Ok(())
}

// whether the literals are of variables below n
fn are_below(n: u8, lits: &[TableLit]) -> bool
    ensures { IsTrue result → AreBelow n lits.now }
{
    for lit in lits {
        if lit.var >= n {
            return false;
        }
    }
    true
}

#[test]
fn tables_are_lists(rt: HostRuntime) -> Result<(), Fail> {
    let cases: [(u8, &[TableLit], u64); 11] = [
        (0, &[], 0),
        (0, &[], 1),
        (5, &[is(4), not(2), is(0)], 2),
        (5, &[is(1), is(1), not(3), not(4)], 3),
        (5, &[is(3)], 1),
        (6, &[not(5), is(3), is(2), not(0)], 3),
        (7, &[is(6), not(5), is(1), is(0)], 2),
        (7, &[is(6), is(6), not(6)], 2),
        (
            12,
            &[is(11), not(9), is(8), not(7), is(6), is(5), not(2), is(0)],
            5,
        ),
        (12, &[not(11), not(10)], 1),
        (2, &[is(0), is(1), not(1)], 13),
    ];
    for (n, lits, bound) in cases {
        let agree = n <= 12 && are_below(n, lits) && agrees(rt.alloc(), n, lits, bound)?;
        assert!(rt; agree, "{n}, {bound}");
    }
    Ok(())
}
