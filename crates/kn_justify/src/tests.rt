//! The lines of small groups: texts, which the checker reads again.
ghost use Rattle.std.specs.Prelude.{◌≡◌, ◌≤◌, ◌++◌, ◌∷◌, [], length, take, IfOk, OnOk};
ghost use Rattle.kn_logic.specs.Literals.{IsKnown};
ghost use Rattle.kn_logic.specs.Constraints.{clause};
ghost use Rattle.kn_logic.specs.Groups.{IsGroup};

mod eliminations;
mod pairs;

use kn_logic::{Constraint, Formula, Group, Lit, NoMemory};
use kn_rules::Checked;
use std::alloc::Global;

// Adds the clause of two literals.
fn add(alloc: Global, f: &mut Formula, a: Lit, b: Lit) -> Result<(), NoMemory>
    requires first { IsKnown f.old.vars a }
    requires second { IsKnown f.old.vars b }
    ensures { OnOk result (f.new ≡ record { vars = f.old.vars; constraints = f.old.constraints ++ clause (a ∷ b ∷ []) ∷ [] }) }
{
    f.push(Constraint::new(1, Vec::from_slice(alloc, &[a, b])?))
}

// The group of the first clauses of a formula.
fn first_clauses(
    alloc: Global,
    f: &Formula,
    size: usize,
    aux: &[u64],
    border: &[Lit],
) -> Result<Group, NoMemory>
    requires size { size ≤ length f.now.constraints }
    requires group { IsGroup (record { aux = aux.now; taken = take size f.now.constraints; border = border.now }) }
    ensures { IfOk result (λ g. g ≡ record { aux = aux.now; taken = take size f.now.constraints; border = border.now }) }
{
    let mut taken = Vec::new(alloc);
    for place in 0..size {
        let Some(c) = f.get(place) else {
            unreachable!()
        };
        taken.push(c.copy()?)?;
    }
    let aux = Vec::from_slice(alloc, aux)?;
    let border = Vec::from_slice(alloc, border)?;
    Ok(Group::new(aux, taken, border))
}

// What the checker tells of a text of so many lines, all of which step.
fn steps_to(line: u64) -> Checked {
    Checked::NotVerified { line, why: 9 }
}
