//! Groups of at most 12 variables by their truth tables: most guesses are small, and a table is made in less time than
//! a diagram.
ghost use Rattle.std.specs.Prelude.{◌≡◌, ◌≤◌, ◌<◌, ◌+◌, ◌^◌, ℕ, length, map, IfOk};
ghost use Rattle.std.specs.List.{AllByRecursion, range_with_len};
ghost use Rattle.kn_logic.specs.Groups.{IsGroup};
ghost use Rattle.kn_diagram.specs.Diagrams.{depth_in};
ghost use Rattle.kn_tables.specs.Indices.{has_bit};
ghost use Rattle.kn_tables.specs.Tables.{IsTable};
ghost use Rattle.kn_verdict.specs.Cardinals.{IsOnlyBound};
ghost use Rattle.kn_verdict.specs.Numbered.{variables_of, numbered, AreAmong, conjunction, Tells, index_of, first_values, IsSaid};

use kn_logic::{Assignment, Constraint, Group, Lit, NoMemory};
use kn_tables::{Table, TableLit};
use std::alloc::Global;

/// The most variables, auxiliary and border together, of a group that a table decides.
pub const FEW: usize = 12;

/// What the clauses of a group say of its border.
#[derive(Drop)]
pub enum Said {
    /// "At least `bound` of the border literals".
    Count { bound: u64 },

    /// No count. `bound` is the only one possible, and `values` are values of the border's variables,
    /// ascending, at which the clauses and that bound differ.
    Unlike { bound: u64, values: Assignment },
}

/// What the clauses of a group of few variables say of its border, by its table.
pub fn said_by_table(alloc: Global, group: &Group) -> Result<Said, NoMemory>
    requires { length group.now.aux + length group.now.border ≤ FEW }
    ensures { IfOk result (IsSaid group.now) }
{
    let variables = variables_of(alloc, group)?;
    let table = table_of(alloc, group, &variables)?;
    let bound = only_bound(&table, group);
    let lits = numbered(alloc, &variables, group.border())?;
    let count = Table::at_least(variables.len() as u8, &lits, bound);
    match table.first_difference(&count) {
        None => Ok(Said::Count { bound }),
        Some(index) => Ok(Said::Unlike {
            bound,
            values: values_at(alloc, index, group.border().len())?,
        }),
    }
}

// The variables in the order of their numbers.
fn variables_of(alloc: Global, group: &Group) -> Result<Vec<u64>, NoMemory>
    ensures { IfOk result (λ out. out.items ≡ variables_of group.now) }
{
    let border = group.border();
    let aux = group.aux();
    let mut variables = Vec::with_capacity(alloc, border.len())?;
    for lit in border {
        variables.push(lit.var())?;
    }
    variables.extend_from_slice(aux)?;
    Ok(variables)
}

// The table of "some values of the auxiliary variables satisfy all clauses".
fn table_of(alloc: Global, group: &Group, variables: &[u64]) -> Result<Table, NoMemory>
    requires few { length group.now.aux + length group.now.border ≤ FEW }
    requires variables { variables.now ≡ variables_of group.now }
    ensures { IfOk result (Tells group.now group.now.aux) }
{
    let mut table = conjunction(alloc, variables, group.taken())?;
    for var in group.border().len()..variables.len() {
        table.exists(var as u8);
    }
    Ok(table)
}

// The table of all clauses.
fn conjunction(alloc: Global, variables: &[u64], taken: &[Constraint]) -> Result<Table, NoMemory>
    requires few { length variables.now ≤ FEW }
    requires among { AllByRecursion (λ c. AreAmong variables.now c.lits) taken.now }
    ensures { IfOk result (IsTable (length variables.now) (conjunction variables.now taken.now)) }
{
    let n = variables.len() as u8;
    let mut table = Table::constant(n, true);
    for c in taken {
        let lits = numbered(alloc, variables, c.lits())?;
        table.and(&Table::of_clause(n, &lits));
    }
    Ok(table)
}

// The literals, their variables by number.
fn numbered(alloc: Global, variables: &[u64], lits: &[Lit]) -> Result<Vec<TableLit>, NoMemory>
    requires { length variables.now ≤ FEW }
    ensures { IfOk result (λ out. out.items ≡ map (numbered variables.now) lits.now) }
{
    let mut out = Vec::with_capacity(alloc, lits.len())?;
    for lit in lits {
        out.push(TableLit {
            var: place_of(variables, lit.var()),
            positive: lit.is_positive(),
        })?;
    }
    Ok(out)
}

// The number of a variable, and the number of all where it has none.
fn place_of(variables: &[u64], variable: u64) -> u8
    requires { length variables.now ≤ FEW }
    ensures { result ≡ depth_in variables.now variable }
{
    for (place, other) in variables.iter().enumerate() {
        if variable == *other {
            return place as u8;
        }
    }
    variables.len() as u8
}

// The only bound that the group can have.
fn only_bound(table: &Table, group: &Group) -> u64
    requires few { length group.now.aux + length group.now.border ≤ FEW }
    requires table { Tells group.now group.now.aux table.now }
    ensures { IsOnlyBound group.now result }
{
    let n = group.border().len();
    for first in 0..n + 1 {
        if table.at(first_index(group.border(), first)) {
            return first as u64;
        }
    }
    n as u64 + 1
}

// The index at which exactly the first literals of the border, so many, are true.
fn first_index(border: &[Lit], first: usize) -> u16
    requires { length border.now ≤ FEW }
    ensures { result ≡ index_of (first_values border.now first) }
{
    let mut index = 0;
    for behind in 0..border.len() {
        let place = border.len() - 1 - behind;
        let positive = border[place].is_positive();
        let value = if place < first { positive } else { !positive };
        index = 2 * index + u16::from(value);
    }
    index
}

// The values that an index gives the first variables, so many.
fn values_at(alloc: Global, index: u16, n: usize) -> Result<Assignment, NoMemory>
    requires { n ≤ FEW }
    ensures { IfOk result (λ values. values ≡ map (has_bit index) (range_with_len 0 n)) }
{
    let mut values = Assignment::new(alloc, n as u64, false)?;
    for place in 0..n {
        values.set(place as u64 + 1, (index >> place) & 1 == 1);
    }
    Ok(values)
}
