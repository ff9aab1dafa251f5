// A list of ids for each variable, that of variable 1 first.
ghost use Rattle.std.specs.Prelude.{◌≡◌, ◌≤◌, [], ◌∷◌, ℕ, length, take, replicate, option_to_list, IfOk, IfSome, OnOk, OnErr, slice_index_or};
ghost use Rattle.std.specs.List.{AllByRecursion};
ghost use Rattle.kn_logic.specs.Literals.{IsKnown, AreKnown};
ghost use Rattle.kn_logic.specs.Constraints.{named, IsWithin};
ghost use Rattle.kn_store.specs.Kept.{with_id, without_id, changed};

use crate::ids::Ids;
use kn_logic::{Constraint, Lit, NoMemory};
use std::alloc::Global;

pub(crate) fn lists(alloc: Global, vars: u64) -> Result<Vec<Ids>, NoMemory>
    ensures { IfOk result (λ lists. lists.items ≡ replicate vars []) }
{
    let mut lists = Vec::new(alloc);
    for _ in 0..vars {
        lists.push(Ids::new(alloc))?;
    }
    Ok(lists)
}

// The id comes to the list of each variable that the constraint names.
pub(crate) fn enter(lists: &mut [Ids], id: u64, c: &Constraint) -> Result<(), NoMemory>
    requires within { IsWithin (length lists.old) c.now }
    requires last { (k : ℕ) → AllByRecursion (λ i. i ≤ id) (slice_index_or lists.old k []) }
    ensures ok { OnOk result (lists.new ≡ changed (with_id id) lists.old (named c.now)) }
    ensures err { OnErr result ((k : ℕ) × (lists.new ≡ changed (with_id id) lists.old (take k (named c.now)))) }
{
    enter_guard(lists, id, c.guard())?;
    enter_all(lists, id, c.lits())
}

fn enter_guard(lists: &mut [Ids], id: u64, guard: Option<Lit>) -> Result<(), NoMemory>
    requires known { IfSome guard (IsKnown (length lists.old)) }
    requires last { (k : ℕ) → AllByRecursion (λ i. i ≤ id) (slice_index_or lists.old k []) }
    ensures ok { OnOk result (lists.new ≡ changed (with_id id) lists.old (option_to_list guard)) }
    ensures err { OnErr result ((k : ℕ) × (lists.new ≡ changed (with_id id) lists.old (take k (option_to_list guard)))) }
    ensures last { (k : ℕ) → AllByRecursion (λ i. i ≤ id) (slice_index_or lists.new k []) }
{
    match guard {
        Some(guard) => enter_all(lists, id, &[guard]),
        None => Ok(()),
    }
}

fn enter_all(lists: &mut [Ids], id: u64, lits: &[Lit]) -> Result<(), NoMemory>
    requires known { AreKnown (length lists.old) lits.now }
    requires last { (k : ℕ) → AllByRecursion (λ i. i ≤ id) (slice_index_or lists.old k []) }
    ensures ok { OnOk result (lists.new ≡ changed (with_id id) lists.old lits.now) }
    ensures err { OnErr result ((k : ℕ) × (lists.new ≡ changed (with_id id) lists.old (take k lits.now))) }
    ensures last { (k : ℕ) → AllByRecursion (λ i. i ≤ id) (slice_index_or lists.new k []) }
{
    for lit in lits {
        lists[lit.var() as usize - 1].enter(id)?;
    }
    Ok(())
}

// The id leaves the list of each variable that the constraint names.
pub(crate) fn leave(lists: &mut [Ids], id: u64, c: &Constraint)
    requires { IsWithin (length lists.old) c.now }
    ensures { lists.new ≡ changed (without_id id) lists.old (named c.now) }
{
    if let Some(guard) = c.guard() {
        leave_all(lists, id, &[guard]);
    }
    leave_all(lists, id, c.lits());
}

fn leave_all(lists: &mut [Ids], id: u64, lits: &[Lit])
    requires { AreKnown (length lists.old) lits.now }
    ensures { lists.new ≡ changed (without_id id) lists.old lits.now }
{
    for lit in lits {
        lists[lit.var() as usize - 1].leave(id);
    }
}
