// The variables at the border of a set are gathered from the constraints of its members, up to one more than a limit.
ghost use Rattle.std.specs.Prelude.{ℕ, ◌≡◌, ◌≤◌, [], Option, IfOk, OnOk};
ghost use Rattle.std.specs.List.{AllByRecursion};
ghost use Rattle.kn_guess.specs.Gathering.{with_lits, with_ids, with_members, outside_key};

use crate::flag_set::FlagSet;
use crate::var_set::VarSet;
use kn_logic::{Lit, NoMemory};
use kn_store::Store;
use std::alloc::Global;

/// The greatest number of border variables.
pub(crate) const MOST_BORDER: usize = 128;

// Variables outside a set, in one polarity.
#[derive(Drop)]
struct Outside<'a> {
    set: &'a FlagSet,
    positive: bool,
}

impl Outside<'_> {
    fn pick(&self, lit: Lit) -> Option<u64>
        ensures { result ≡ outside_key self.now.set.now self.now.positive lit }
    {
        if lit.is_positive() == self.positive && !self.set.contains(lit.var()) {
            return Some(lit.var());
        }
        None
    }
}

// The variables outside the set that stand in one polarity in the constraints of its members.
pub(crate) fn side(
    alloc: Global,
    store: &Store,
    set: &FlagSet,
    members: &[u64],
    positive: bool,
) -> Result<VarSet, NoMemory>
    requires { AllByRecursion (λ x. (1 ≤ x) × (x ≤ store.now.vars)) members.now }
    ensures { IfOk result (λ side. side ≡ with_members 128 (outside_key set.now positive) store.now.live [] members.now) }
{
    let mut side = VarSet::new(alloc);
    let outside = Outside { set, positive };
    for member in members {
        add_ids(
            &mut side,
            MOST_BORDER,
            &outside,
            store,
            store.with_variable(*member),
        )?;
    }
    Ok(side)
}

fn add_ids(
    set: &mut VarSet,
    limit: usize,
    outside: &Outside,
    store: &Store,
    ids: &[u64],
) -> Result<(), NoMemory>
    ensures { OnOk result (set.new ≡ with_ids limit (outside_key outside.now.set.now outside.now.positive) store.now.live set.old ids.now) }
{
    for id in ids {
        if set.len() > limit {
            return Ok(());
        }
        if let Some(c) = store.get(*id) {
            add_lits(set, limit, outside, c.lits())?;
        }
    }
    Ok(())
}

fn add_lits(set: &mut VarSet, limit: usize, outside: &Outside, lits: &[Lit]) -> Result<(), NoMemory>
    ensures { OnOk result (set.new ≡ with_lits limit (outside_key outside.now.set.now outside.now.positive) set.old lits.now) }
{
    for lit in lits {
        if set.len() > limit {
            return Ok(());
        }
        if let Some(var) = outside.pick(*lit) {
            set.insert(var)?;
        }
    }
    Ok(())
}
