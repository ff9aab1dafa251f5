//! From a group to its verdict. A small one is decided by its truth table; else its clauses are eliminated, and two numbers of
//! each node of the result tell whether it is a count.
ghost use Rattle.std.specs.Prelude.{◌≡◌, ◌≤◌, ◌+◌, length, IfOk};
ghost use Rattle.kn_quant.specs.Eliminations.{IsEliminationOf};
ghost use Rattle.kn_verdict.specs.Cardinals.{IsCardinal, IsNarrow};
ghost use Rattle.kn_verdict.specs.Verdicts.{IsVerdict, IsInRange};
ghost use Rattle.kn_verdict.specs.Numbers.{IsAtBorder, AreMeasured, IsMeasured};

use crate::Verdict;
use crate::few::{FEW, Said, said_by_table};
use crate::fewest::Fewest;
use crate::measure::measure;
use crate::measures::Measures;
use crate::walk::only_bound;
use crate::witness::witness;
use kn_diagram::Node;
use kn_logic::{Assignment, Group, NoMemory};
use kn_quant::{Elimination, QuantError, eliminate};
use std::alloc::{AllocError, Global};

/// The verdict on a group with 3 to 128 border literals and at most 256 auxiliary variables: what its
/// clauses say of its border. An error where memory is short.
pub fn verdict(alloc: Global, group: &Group) -> Result<Verdict, NoMemory>
    requires border { (3 ≤ length group.now.border) × (length group.now.border ≤ 128) }
    requires aux { length group.now.aux ≤ 256 }
    ensures { IfOk result (IsVerdict group.now) }
{
    if group.aux().len() + group.border().len() <= FEW {
        return of_few(alloc, group);
    }
    match eliminate(alloc, group) {
        Ok(elimination) => decide(alloc, group, elimination),
        Err(QuantError::Wide { stage, level }) => Ok(Verdict::Wide { stage, level }),
        Err(QuantError::Memory) => Err(AllocError),
    }
}

// The verdict on a group of few variables: its table tells it, and diagrams are made for a klause alone.
fn of_few(alloc: Global, group: &Group) -> Result<Verdict, NoMemory>
    requires border { 3 ≤ length group.now.border }
    requires few { length group.now.aux + length group.now.border ≤ FEW }
    ensures { IfOk result (IsVerdict group.now) }
{
    let n = group.border().len() as u64;
    match said_by_table(alloc, group)? {
        Said::Count { bound } => {
            if bound < 2 || n <= bound {
                Ok(Verdict::OutOfRange { bound })
            } else {
                klause(alloc, group, bound)
            }
        }
        Said::Unlike { bound, values } => Ok(Verdict::NotCardinal { bound, values }),
    }
}

// The verdict on a group that is known to count, with a bound in range: it is eliminated.
fn klause(alloc: Global, group: &Group, bound: u64) -> Result<Verdict, NoMemory>
    requires cardinal { IsCardinal group.now bound }
    requires range { IsInRange group.now bound }
    ensures { IfOk result (IsVerdict group.now) }
{
    match eliminate(alloc, group) {
        Ok(elimination) => Ok(Verdict::Klause { bound, elimination }),
        Err(QuantError::Wide { stage, level }) => Ok(Verdict::Wide { stage, level }),
        Err(QuantError::Memory) => Err(AllocError),
    }
}

// The verdict on a group that was eliminated.
fn decide(alloc: Global, group: &Group, elimination: Elimination) -> Result<Verdict, NoMemory>
    requires border { (3 ≤ length group.now.border) × (length group.now.border ≤ 128) }
    requires elimination { IsEliminationOf group.now elimination }
    requires narrow { IsNarrow group.now }
    ensures { IfOk result (IsVerdict group.now) }
{
    let n = group.border().len() as u64;
    let mut noted = Measures::new(alloc);
    let numbers = measure(
        elimination.diagrams(),
        group,
        root_of(group, &elimination),
        &mut noted,
    )?;
    if numbers.holding + numbers.failing <= n {
        return unlike(alloc, group, &elimination, &mut noted, numbers);
    }
    let bound = numbers.holding;
    if 2 <= bound && bound < n {
        Ok(Verdict::Klause { bound, elimination })
    } else {
        Ok(Verdict::OutOfRange { bound })
    }
}

// The verdict on a group whose clauses are no count, by the numbers of the result.
fn unlike(
    alloc: Global,
    group: &Group,
    elimination: &Elimination,
    noted: &mut Measures,
    numbers: Fewest,
) -> Result<Verdict, NoMemory>
    requires border { length group.now.border ≤ 128 }
    requires elimination { IsEliminationOf group.now elimination.now }
    requires narrow { IsNarrow group.now }
    requires noted { AreMeasured group.now elimination.now.table noted.old }
    requires measured { IsMeasured group.now elimination.now.table elimination.now.result numbers }
    requires less { numbers.holding + numbers.failing ≤ length group.now.border }
    ensures { IfOk result (IsVerdict group.now) }
{
    let d = elimination.diagrams();
    let root = root_of(group, elimination);
    let bound = only_bound(d, group, root);
    let values = witness(alloc, d, group, root, noted, numbers.holding < bound)?;
    Ok(Verdict::NotCardinal {
        bound,
        values: assignment_of(alloc, &values)?,
    })
}

// The node of the result, whose variable is one of the border.
fn root_of(group: &Group, elimination: &Elimination) -> Node
    requires { IsEliminationOf group.now elimination.now }
    ensures value { result ≡ elimination.now.result }
    ensures node { IsAtBorder group.now elimination.now.table result }
{
    let root = elimination.result();
    let depth = elimination.diagrams().depth(root);
    prove!(group.aux().len() <= depth);
    root
}

// The assignment of these values.
fn assignment_of(alloc: Global, values: &[bool]) -> Result<Assignment, NoMemory>
    ensures { IfOk result (λ m. m ≡ values.now) }
{
    let mut assignment = Assignment::new(alloc, values.len() as u64, false)?;
    for (place, value) in values.iter().enumerate() {
        assignment.set(place as u64 + 1, *value);
    }
    Ok(assignment)
}
