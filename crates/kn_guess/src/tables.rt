// The ids of the constraints that name each variable, and the variables of each id, as they are at first.
ghost use Rattle.std.specs.Prelude.{ℕ, ◌≡◌, ◌≤◌, ◌<◌, ◌-◌, ◌==◌, ◌&&◌, ◌||◌, true, length, IfOk, OnOk};
ghost use Rattle.std.specs.List.{AllByRecursion};
ghost use Rattle.kn_logic.specs.Groups.{is_among};
ghost use Rattle.kn_store.specs.Stores.{IsStored, ids_of, naming};
ghost use Rattle.kn_guess.specs.Walks.{kept};

use crate::numbers::Numbers;
use kn_logic::NoMemory;
use kn_store::Store;
use std::alloc::Global;

// For each variable, that of variable 1 first, the ids of the constraints that name it.
pub(crate) fn entries(alloc: Global, store: &Store) -> Result<Vec<Numbers>, NoMemory>
    ensures stored { OnOk result (IsStored store.now) }
    ensures long { IfOk result (λ entries. length entries.items ≡ store.now.vars) }
    ensures ids { IfOk result (λ entries. (x : ℕ) → 1 ≤ x → x ≤ store.now.vars → kept entries.items (x - 1) ≡ ids_of (naming x store.now.live)) }
{
    let mut entries = Vec::new(alloc);
    for place in 0..store.vars() {
        entries.push(Numbers::from_slice(alloc, store.with_variable(place + 1))?)?;
    }
    Ok(entries)
}

// For each id, that of id 0 first, the variables that its constraint names.
pub(crate) fn members(alloc: Global, store: &Store) -> Result<Vec<Numbers>, NoMemory>
    ensures placed { IfOk result (λ members. (x : ℕ) → 1 ≤ x → x ≤ store.now.vars → AllByRecursion (λ k. k < length members.items) (ids_of (naming x store.now.live))) }
    ensures named { IfOk result (λ members. (k x : ℕ) → 1 ≤ x → x ≤ store.now.vars → is_among (kept members.items k) x ≡ is_among (ids_of (naming x store.now.live)) k) }
    ensures known { IfOk result (λ members. (k x : ℕ) → is_among (kept members.items k) x ≡ true → (1 ≤ x) × (x ≤ store.now.vars)) }
{
    let mut members = Vec::new(alloc);
    for place in 0..store.vars() {
        enter(
            alloc,
            &mut members,
            store.with_variable(place + 1),
            place + 1,
        )?;
    }
    Ok(members)
}

// The variable comes to the lists of these ids.
fn enter(alloc: Global, members: &mut Vec<Numbers>, ids: &[u64], var: u64) -> Result<(), NoMemory>
    ensures more { OnOk result (length members.old.items ≤ length members.new.items) }
    ensures placed { OnOk result (AllByRecursion (λ k. k < length members.new.items) ids.now) }
    ensures among { OnOk result ((k x : ℕ) → is_among (kept members.new.items k) x ≡ (is_among (kept members.old.items k) x || (is_among ids.now k && (var == x)))) }
{
    for id in ids {
        let place = *id as usize;
        lengthen(alloc, members, place)?;
        members[place].push(var)?;
    }
    Ok(())
}

// Empty lists come at the end until there is one at the place.
fn lengthen(alloc: Global, members: &mut Vec<Numbers>, place: usize) -> Result<(), NoMemory>
    ensures more { OnOk result (length members.old.items ≤ length members.new.items) }
    ensures placed { OnOk result (place < length members.new.items) }
    ensures same { OnOk result ((k : ℕ) → kept members.new.items k ≡ kept members.old.items k) }
{
    while members.len() <= place {
        members.push(Numbers::new(alloc))?;
    }
    Ok(())
}
