//! Adding clauses behind a front, which is the negated guard or nothing: one code for klauses with and without one.
ghost use Rattle.std.specs.Prelude.{◌≡◌, ◌∷◌, [], map, IfOk, OnOk};
ghost use Rattle.kn_logic.specs.Literals.{AreKnown, negated};
ghost use Rattle.kn_counter.specs.Rows.{with_clauses};

use kn_logic::{Constraint, Formula, Lit, NoMemory};
use std::alloc::Global;

/// Adds a clause: the literals of `front`, and these behind them.
pub fn push_clause(
    alloc: Global,
    out: &mut Formula,
    front: &[Lit],
    lits: &[Lit],
) -> Result<(), NoMemory>
    requires front { AreKnown out.old.vars front.now }
    requires lits { AreKnown out.old.vars lits.now }
    ensures { OnOk result (out.new ≡ with_clauses front.now out.old (lits.now ∷ [])) }
{
    let mut all = Vec::from_slice(alloc, front)?;
    all.extend_from_slice(lits)?;
    out.push(Constraint::new(1, all))?;
    Ok(())
}

/// Adds a clause for each of these literals.
pub fn push_units(
    alloc: Global,
    out: &mut Formula,
    front: &[Lit],
    lits: &[Lit],
) -> Result<(), NoMemory>
    requires front { AreKnown out.old.vars front.now }
    requires lits { AreKnown out.old.vars lits.now }
    ensures { OnOk result (out.new ≡ with_clauses front.now out.old (map (λ l. l ∷ []) lits.now)) }
{
    for lit in lits {
        push_clause(alloc, out, front, &[*lit])?;
    }
    Ok(())
}

/// The negations of these literals.
pub fn negations(alloc: Global, lits: &[Lit]) -> Result<Vec<Lit>, NoMemory>
    ensures { IfOk result (λ all. all.items ≡ map negated lits.now) }
{
    let mut all = Vec::with_capacity(alloc, lits.len())?;
    for lit in lits {
        all.push(lit.negated())?;
    }
    Ok(all)
}
