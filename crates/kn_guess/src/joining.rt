// The literals that join two, one after another.
ghost use Rattle.std.specs.Prelude.{◌≡◌, ◌≤◌, ◌⊎◌, true, length, IfOk};
ghost use Rattle.std.specs.List.Sorted.{IsStrictlyIncreasing};
ghost use Rattle.kn_logic.specs.Literals.{AreKnown};
ghost use Rattle.kn_logic.specs.Groups.{is_pair};
ghost use Rattle.kn_store.specs.Stores.{IsStored, constraints_of};
ghost use Rattle.kn_guess.specs.Guesses.{joined, candidates};
ghost use Rattle.kn_guess.specs.Tables.{ranks, IsPairTable};
ghost use Rattle.kn_guess.specs.Pairing.{AreLeft};

use crate::meeting::common;
use crate::partner::{Partner, Partners};
use crate::rows::row;
use kn_logic::{Lit, NoMemory};
use kn_store::Store;
use std::alloc::Global;

/// The greatest number of literals of a pair group.
const MOST_JOINED: usize = 256;

// The group of the two literals of a binary clause.
pub(crate) fn joined(
    alloc: Global,
    rows: &[Partners],
    store: &Store,
    first: &[Lit],
) -> Result<Vec<Lit>, NoMemory>
    requires table { IsPairTable store.now rows.now }
    requires known { AreKnown store.now.vars first.now }
    requires pair { is_pair first.now ≡ true }
    ensures { IfOk result (λ group. group.items ≡ joined (constraints_of store.now.live) first.now (candidates store.now.vars)) }
{
    let (few, many) = fewest_first(row(rows, first[0]), row(rows, first[1]));
    let mut group = Vec::from_slice(alloc, first)?;
    let mut rest = common(alloc, store, few, many)?;
    while let Some((next, behind)) = rest.split_first() {
        if group.len() >= MOST_JOINED {
            return Ok(group);
        }
        let lit = next.lit();
        group.push(lit)?;
        rest = common(alloc, store, behind, row(rows, lit))?;
    }
    Ok(group)
}

fn fewest_first<'a>(a: &'a [Partner], b: &'a [Partner]) -> (&'a [Partner], &'a [Partner])
    ensures { ((result.0.now ≡ a.now) × (result.1.now ≡ b.now)) ⊎ ((result.0.now ≡ b.now) × (result.1.now ≡ a.now)) }
{
    if a.len() <= b.len() { (a, b) } else { (b, a) }
}
