//! A constraint from a list of literals, and whether one is a unit clause, for the lines that name a root.
ghost use Rattle.std.specs.Prelude.{◌≡◌, IfOk};
ghost use Rattle.kn_logic.specs.Constraints.{klause};
ghost use Rattle.kn_rules.specs.Steps.{is_unit};

use crate::live::Live;
use kn_logic::{Constraint, Lit, NoMemory};
use std::alloc::Global;

/// At least `bound` of these literals; the clause of them where the bound is 1.
pub fn constraint_of(alloc: Global, bound: u64, lits: &[Lit]) -> Result<Constraint, NoMemory>
    ensures { IfOk result (λ c. c ≡ klause bound lits.now) }
{
    Ok(Constraint::new(bound, Vec::from_slice(alloc, lits)?))
}

/// Whether a constraint is the clause of this variable alone.
pub fn is_unit(c: &Live, variable: u64) -> bool
    ensures { result ≡ is_unit c.now variable }
{
    if !c.is_clause() {
        return false;
    }
    match c.lits() {
        [lit] => lit.var() == variable && lit.is_positive(),
        _ => false,
    }
}
