// The least set of a seed is grown from it, member by member; it stops at one more than its limit.
ghost use Rattle.std.specs.Prelude.{◌≡◌, ◌≤◌, true, false, IfOk};
ghost use Rattle.kn_store.specs.Stores.{constraints_of};
ghost use Rattle.kn_guess.specs.Guesses.{is_seed};
ghost use Rattle.kn_guess.specs.Refusals.{IsTooMany};
ghost use Rattle.kn_guess.specs.Seen.{IsSeen};
ghost use Rattle.kn_guess.specs.Tables.{IsNear, IsLeastSet};

use crate::flag_set::FlagSet;
use crate::numbers::Numbers;
use crate::walking::{Later, walk};
use kn_logic::NoMemory;
use kn_store::Store;

/// The greatest number of auxiliary variables.
pub(crate) const MOST_AUX: usize = 256;

// The least set of a seed; false exactly where it has more members than its limit. `met` is room for a walk.
pub(crate) fn least(
    store: &Store,
    entries: &mut Vec<Numbers>,
    members: &mut Vec<Numbers>,
    set: &mut FlagSet,
    met: &mut FlagSet,
    later: &Later,
) -> Result<bool, NoMemory>
    requires first { 1 ≤ later.now.seed }
    requires last { later.now.seed ≤ store.now.vars }
    requires seen { IsSeen store.now later.now.free.now }
    requires seed { is_seed (constraints_of store.now.live) later.now.seed ≡ true }
    requires near { IsNear store.now later.now.seed entries.old.items members.old.items }
    ensures near { IsNear store.now later.now.seed entries.new.items members.new.items }
    ensures few { IfOk result (λ few. few ≡ true → IsLeastSet store.now later.now.seed set.new) }
    ensures many { IfOk result (λ few. few ≡ false → IsTooMany (constraints_of store.now.live) later.now.seed) }
{
    let _vars = store.vars();
    set.clear();
    set.insert(later.seed)?;
    let mut at = 0;
    while let Some(member) = set.get(at) {
        walk(&mut entries[member as usize - 1], members, set, met, later)?;
        if set.len() > MOST_AUX {
            return Ok(false);
        }
        at += 1;
    }
    Ok(true)
}
