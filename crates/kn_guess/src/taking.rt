// The clauses that a group takes.
ghost use Rattle.std.specs.Prelude.{ℕ, ◌≡◌, ◌≤◌, length, IfOk};
ghost use Rattle.std.specs.List.{AllByRecursion};
ghost use Rattle.std.specs.List.Sorted.{IsStrictlyIncreasing};
ghost use Rattle.kn_logic.specs.Groups.{is_among};
ghost use Rattle.kn_guess.specs.Seen.{found, ids_with};

use kn_logic::{Constraint, NoMemory};
use kn_store::Store;
use std::alloc::Global;

// The numbers ascending, each once.
pub(crate) fn ascending(numbers: Vec<u64>) -> Vec<u64>
    ensures ascending { IsStrictlyIncreasing result.items }
    ensures same { (x : ℕ) → is_among result.items x ≡ is_among numbers.items x }
    ensures short { length result.items ≤ length numbers.items }
{
    let mut all = numbers;
    all.sort_unstable();
    all.dedup();
    all
}

// The ids of the constraints that name one of the variables, ascending.
pub(crate) fn ids_with(
    alloc: Global,
    store: &Store,
    variables: &[u64],
) -> Result<Vec<u64>, NoMemory>
    requires { AllByRecursion (λ x. (1 ≤ x) × (x ≤ store.now.vars)) variables.now }
    ensures { IfOk result (λ ids. ids.items ≡ ids_with store.now.live variables.now) }
{
    let mut ids = Vec::new(alloc);
    for var in variables {
        ids.extend_from_slice(store.with_variable(*var))?;
    }
    Ok(ids)
}

// The constraints of these ids.
pub(crate) fn found(alloc: Global, store: &Store, ids: &[u64]) -> Result<Vec<Constraint>, NoMemory>
    ensures { IfOk result (λ cs. cs.items ≡ found store.now.live ids.now) }
{
    let mut all = Vec::with_capacity(alloc, ids.len())?;
    for id in ids {
        if let Some(c) = store.get(*id) {
            all.push(c.copy()?)?;
        }
    }
    Ok(all)
}
