// Whether a group counts.
ghost use Rattle.std.specs.Prelude.{ℕ, ◌≤◌, length, IfOk, IfSome, IfNone};
ghost use Rattle.kn_extract.specs.Taking.{Counts, IsCounted};

use kn_logic::{Group, NoMemory};
use kn_quant::Elimination;
use kn_verdict::{Verdict, a_verdict_is_exact, verdict};
use std::alloc::Global;

// At least so many of a group's border literals, and the elimination that shows it.
#[derive(Drop)]
pub(crate) struct Count {
    pub(crate) bound: u64,
    pub(crate) elimination: Elimination,
}

// The count that a group is, with a bound in range; `None` exactly where it is none.
pub(crate) fn count_of(alloc: Global, group: &Group) -> Result<Option<Count>, NoMemory>
    requires border { (3 ≤ length group.now.border) × (length group.now.border ≤ 128) }
    requires aux { length group.now.aux ≤ 256 }
    ensures some { IfOk result (λ o. IfSome o (IsCounted group.now)) }
    ensures none { IfOk result (λ o. IfNone o ((bound : ℕ) → Counts group.now bound → ⊥)) }
{
    a_verdict_is_exact();
    let _border = group.border();
    match verdict(alloc, group)? {
        Verdict::Klause { bound, elimination } => Ok(Some(Count { bound, elimination })),
        _ => Ok(None),
    }
}
