// Seeds whose least set is known to have too many variables before it is grown: a chain of later variables leads on
// from them that is longer than the limit.
ghost use Rattle.std.specs.Prelude.{ℕ, ◌≡◌, ◌⊎◌, true, replicate, IfOk, slice_index};
ghost use Rattle.kn_logic.specs.Groups.{is_among};
ghost use Rattle.kn_store.specs.Stores.{constraints_of};
ghost use Rattle.kn_guess.specs.Deep.{IsOneOf};
ghost use Rattle.kn_guess.specs.Seen.{IsSeen};
ghost use Rattle.kn_guess.specs.Tables.{AreDeep};

use crate::flags::Flags;
use crate::growing::MOST_AUX;
use kn_logic::NoMemory;
use kn_store::Store;
use std::alloc::Global;

// For each variable, whether a chain of more than 256 leads on from it. `end` is above the ids of the store.
pub(crate) fn deep(
    alloc: Global,
    store: &Store,
    free: &Flags,
    end: usize,
) -> Result<Flags, NoMemory>
    requires { IsSeen store.now free.now }
    ensures { IfOk result (AreDeep (constraints_of store.now.live)) }
{
    let mut deep = Flags::down(alloc, store.vars())?;
    let mut best = nothing(alloc, end)?;
    for behind in 0..store.vars() {
        let var = store.vars() - behind;
        let ids = store.with_variable(var);
        let many = most(&best, ids).saturating_add(1);
        if many > MOST_AUX as u64 {
            deep.raise(var);
        }
        if free.is_up(var) {
            lift(&mut best, ids, many);
        }
    }
    Ok(deep)
}

// Flags that were lost come again where many sets were grown for nothing since they were made. As many as that
// cost no less than the flags do.
pub(crate) fn renew(
    alloc: Global,
    store: &Store,
    free: &Flags,
    end: usize,
    flags: &mut Flags,
    wasted: &mut u64,
) -> Result<(), NoMemory>
    requires free { IsSeen store.now free.now }
    requires flags { AreDeep (constraints_of store.now.live) flags.old }
    ensures { AreDeep (constraints_of store.now.live) flags.new }
{
    if flags.all().is_empty() && end as u64 / 128 < *wasted {
        *flags = deep(alloc, store, free, end)?;
        *wasted = 0;
    }
    Ok(())
}

// So many zeros.
fn nothing(alloc: Global, end: usize) -> Result<Vec<u64>, NoMemory>
    ensures { IfOk result (λ best. best.items ≡ replicate end 0) }
{
    Ok(vec![in alloc; 0; end]?)
}

// The greatest number of these ids.
fn most(best: &[u64], ids: &[u64]) -> u64
    ensures { IsOneOf best.now ids.now result }
{
    let mut most = 0;
    for id in ids {
        let many = number_of(best, *id);
        if many > most {
            most = many;
        }
    }
    most
}

fn number_of(best: &[u64], id: u64) -> u64
    ensures { result ≡ slice_index best.now id }
{
    best.get(id as usize).copied().unwrap_or(0)
}

// The numbers of these ids become at least so many.
fn lift(best: &mut Vec<u64>, ids: &[u64], many: u64)
    ensures { (id : ℕ) → (slice_index best.new.items id ≡ slice_index best.old.items id) ⊎ ((is_among ids.now id ≡ true) × (slice_index best.new.items id ≡ many)) }
{
    for id in ids {
        let place = *id as usize;
        if place < best.len() && best[place] < many {
            best[place] = many;
        }
    }
}
