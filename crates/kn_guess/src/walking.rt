// The neighbours of a variable are found by walking the clauses that are kept for it; what can give no new
// neighbour any more leaves the tables on the way.
ghost use Rattle.std.specs.Prelude.{ℕ, ◌≡◌, ◌≤◌, ◌<◌, ◌&&◌, not, nat_eq, true, false, if◌then◌else◌, List, length, IfOk, OnOk};
ghost use Rattle.std.specs.List.{AllByRecursion};
ghost use Rattle.indexmap.specs.IndexSet.{insert_key};
ghost use Rattle.kn_logic.specs.Groups.{is_among};
ghost use Rattle.kn_guess.specs.Walks.{is_later, is_near, Thins, AllThin, Grows, HasAll, IsWithin};

use crate::flag_set::FlagSet;
use crate::growing::MOST_AUX;
use crate::numbers::Numbers;
use kn_logic::NoMemory;

// Variables later than the seed that stand in no klause.
#[derive(Drop)]
pub(crate) struct Later<'a> {
    pub(crate) seed: u64,
    pub(crate) free: &'a [bool],
}

impl Later<'_> {
    fn is_later(&self, var: u64) -> bool
        ensures { result ≡ is_later self.now.seed self.now.free.now var }
    {
        self.seed < var && self.free.get(var as usize - 1).copied().unwrap_or(false)
    }
}

// The later variables in the clauses of these ids join a set, until it has more members than its limit. `met` is
// room for those that the walk has met.
pub(crate) fn walk(
    ids: &mut Numbers,
    members: &mut Vec<Numbers>,
    set: &mut FlagSet,
    met: &mut FlagSet,
    later: &Later,
) -> Result<(), NoMemory>
    requires placed { AllByRecursion (λ k. k < length members.old.items) ids.old }
    requires few { length set.old ≤ 256 }
    ensures ids { IsWithin ids.new ids.old }
    ensures members { AllThin (is_later later.now.seed later.now.free.now) members.old.items members.new.items }
    ensures kept { (v : ℕ) → is_later later.now.seed later.now.free.now v ≡ true → is_near members.old.items ids.old v ≡ true → is_near members.new.items ids.new v ≡ true }
    ensures set { OnOk result (Grows (λ v. is_later later.now.seed later.now.free.now v && is_near members.old.items ids.old v) set.old set.new) }
    ensures all { OnOk result (HasAll (λ v. is_later later.now.seed later.now.free.now v && is_near members.old.items ids.old v) set.new) }
{
    met.clear();
    let mut at = ids.len();
    while at > 0 {
        at -= 1;
        let id = ids.at(at) as usize;
        let found = meet(&mut members[id], met, set, later)?;
        if set.len() > MOST_AUX {
            return Ok(());
        }
        if found {
            continue;
        }
        ids.drop_at(at);
    }
    Ok(())
}

// The later variables of one clause join; whether this walk has not met all of them before.
fn meet(
    vars: &mut Numbers,
    met: &mut FlagSet,
    set: &mut FlagSet,
    later: &Later,
) -> Result<bool, NoMemory>
    requires few { length set.old ≤ 256 }
    requires within { IsWithin met.old set.old }
    ensures vars { Thins (is_later later.now.seed later.now.free.now) vars.old vars.new }
    ensures within { OnOk result (IsWithin met.new set.new) }
    ensures met { OnOk result (Grows (λ v. is_later later.now.seed later.now.free.now v && is_among vars.old v) met.old met.new) }
    ensures set { OnOk result (Grows (λ v. is_later later.now.seed later.now.free.now v && is_among vars.old v) set.old set.new) }
    ensures all { OnOk result (HasAll (λ v. is_later later.now.seed later.now.free.now v && is_among vars.old v) set.new) }
    ensures none { IfOk result (λ found. found ≡ false → (met.new ≡ met.old) × ((v : ℕ) → (is_later later.now.seed later.now.free.now v && is_among vars.old v) ≡ true → is_among met.old v ≡ true)) }
{
    let mut found = false;
    let mut at = vars.len();
    while at > 0 {
        at -= 1;
        let var = vars.at(at);
        if !later.is_later(var) {
            vars.drop_at(at);
            continue;
        }
        found = join(met, set, var)? | found;
        if set.len() > MOST_AUX {
            return Ok(true);
        }
    }
    Ok(found)
}

// A variable that was not met before joins both sets; whether it was not.
fn join(met: &mut FlagSet, set: &mut FlagSet, var: u64) -> Result<bool, NoMemory>
    ensures new { IfOk result (λ new. new ≡ not (is_among met.old var)) }
    ensures met { OnOk result (met.new ≡ insert_key nat_eq met.old var) }
    ensures set { OnOk result (set.new ≡ (if is_among met.old var then set.old else insert_key nat_eq set.old var)) }
{
    if met.contains(var) {
        return Ok(false);
    }
    met.insert(var)?;
    set.insert(var)?;
    Ok(true)
}
