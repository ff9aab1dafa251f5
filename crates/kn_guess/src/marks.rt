// Which variables some constraints mark, found in one pass over all constraints.
ghost use Rattle.std.specs.Prelude.{ℕ, ◌≡◌, ◌≤◌, ◌<◌, ◌-◌, not, true, false, length, replicate, IfOk, slice_index_or};
ghost use Rattle.std.specs.List.{AllByRecursion};
ghost use Rattle.kn_logic.specs.Literals.{AreKnown};
ghost use Rattle.kn_logic.specs.Constraints.{named, IsWithin};
ghost use Rattle.kn_store.specs.Stores.{constraints_of, ids_of, naming};
ghost use Rattle.kn_guess.specs.Guesses.{is_seed};
ghost use Rattle.kn_guess.specs.Seen.{IsSeen};
ghost use Rattle.kn_guess.specs.Flags.{marks, raised, AreMarked};

use crate::binary::is_binary;
use crate::flags::Flags;
use kn_logic::{Constraint, Lit, NoMemory};
use kn_store::Store;
use std::alloc::Global;

// Why a literal of a constraint marks its variable.
#[derive(Clone, Copy, Debug, PartialEq, Eq)]
pub(crate) enum Mark {
    Klause,
    Binary,
    Positive,
    Negative,
}

// For each variable, whether it stands in no klause.
pub(crate) fn free(alloc: Global, store: &Store, end: usize) -> Result<Flags, NoMemory>
    requires end { (x : ℕ) → 1 ≤ x → x ≤ store.now.vars → AllByRecursion (λ k. k < end) (ids_of (naming x store.now.live)) }
    ensures { IfOk result (IsSeen store.now) }
{
    let klause = marked(alloc, store, Mark::Klause, end)?;
    klause.turned(alloc)
}

// For each variable, whether it passes the test of a seed.
pub(crate) fn seeds(
    alloc: Global,
    store: &Store,
    free: &Flags,
    end: usize,
) -> Result<Flags, NoMemory>
    requires end { (x : ℕ) → 1 ≤ x → x ≤ store.now.vars → AllByRecursion (λ k. k < end) (ids_of (naming x store.now.live)) }
    requires free { IsSeen store.now free.now }
    ensures long { IfOk result (λ seeds. length seeds ≡ store.now.vars) }
    ensures tested { IfOk result (λ seeds. (x : ℕ) → 1 ≤ x → x ≤ store.now.vars → slice_index_or seeds (x - 1) false ≡ is_seed (constraints_of store.now.live) x) }
{
    let binary = marked(alloc, store, Mark::Binary, end)?;
    let positive = marked(alloc, store, Mark::Positive, end)?;
    let negative = marked(alloc, store, Mark::Negative, end)?;
    let mut seeds = Vec::new(alloc);
    for place in 0..store.vars() {
        let var = place + 1;
        let both = positive.is_up(var) & negative.is_up(var);
        seeds.push(free.is_up(var) & (binary.is_up(var) & both))?;
    }
    Ok(Flags::new(seeds))
}

// The flags of the variables that are marked. All ids of constraints that name one are below the end.
fn marked(alloc: Global, store: &Store, mark: Mark, end: usize) -> Result<Flags, NoMemory>
    requires end { (x : ℕ) → 1 ≤ x → x ≤ store.now.vars → AllByRecursion (λ k. k < end) (ids_of (naming x store.now.live)) }
    ensures { IfOk result (AreMarked mark store.now.vars (constraints_of store.now.live)) }
{
    let mut flags = Flags::down(alloc, store.vars())?;
    for id in 0..end {
        if let Some(c) = store.get(id as u64) {
            raise(&mut flags, mark, c);
        }
    }
    Ok(flags)
}

fn raise(flags: &mut Flags, mark: Mark, c: &Constraint)
    ensures { flags.new ≡ raised mark c.now flags.old (named c.now) }
{
    if let Some(guard) = c.guard() {
        raise_all(flags, mark, c, &[guard]);
    }
    raise_all(flags, mark, c, c.lits());
}

fn raise_all(flags: &mut Flags, mark: Mark, c: &Constraint, lits: &[Lit])
    ensures { flags.new ≡ raised mark c.now flags.old lits.now }
{
    for lit in lits {
        if marks(mark, c, *lit) {
            flags.raise(lit.var());
        }
    }
}

fn marks(mark: Mark, c: &Constraint, lit: Lit) -> bool
    ensures { result ≡ marks mark c.now lit }
{
    match mark {
        Mark::Klause => !c.is_clause(),
        Mark::Binary => is_binary(c),
        Mark::Positive => lit.is_positive(),
        Mark::Negative => !lit.is_positive(),
    }
}
