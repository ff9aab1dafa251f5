//! The extraction from first to last. Seeds are tried before starts: the binary clauses of a counter are taken with
//! it, before a pair group could have them.
ghost use Rattle.std.specs.Prelude.{◌≡◌, ◌≤◌, length, IfOk};
ghost use Rattle.kn_format.specs.Grammar.{most_constraints};
ghost use Rattle.kn_extract.specs.Kept.{IsExtracted};

use crate::Extraction;
use crate::seeds::try_seeds;
use crate::starts::try_starts;
use crate::storing::{remainder, stored};
use crate::taking::added;
use kn_logic::{Formula, NoMemory};
use std::alloc::Global;

/// The extraction of a formula with at most 10,000,000 constraints. Each variable is tried as a seed, and then each
/// binary clause that is left as a start; a group that counts is taken, and its klause comes at the end. An error
/// where memory is short; the formula is given up then.
pub fn extract(alloc: Global, f: Formula) -> Result<Extraction, NoMemory>
    requires { length f.constraints ≤ most_constraints }
    ensures original { IfOk result (λ e. e.original ≡ f) }
    ensures extracted { IfOk result IsExtracted }
{
    let constraints = f.len();
    let mut store = stored(alloc, &f)?;
    let mut taken = Vec::new(alloc);
    try_seeds(alloc, &mut store, &mut taken, constraints)?;
    try_starts(alloc, &mut store, &mut taken, constraints)?;
    let formula = remainder(alloc, &store, added(constraints, &taken))?;
    Ok(Extraction::new(f, formula, taken))
}
