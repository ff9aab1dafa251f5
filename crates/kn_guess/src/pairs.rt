//! Guesses from a binary clause, a literal at a time. Each two of the literals stand in a clause, so at most one is
//! false: that such a group counts need not be asked.
ghost use Rattle.std.specs.Prelude.{◌≡◌, ◌≤◌, ◌<◌, ◌∷◌, [], false, true, length, map, IfOk, IfSome, IfNone, option_copied};
ghost use Rattle.kn_logic.specs.Constraints.{Bounded};
ghost use Rattle.kn_logic.specs.Groups.{IsPairGroup, is_binary};
ghost use Rattle.kn_store.specs.Stores.{Stored, IsStored, constraints_of, constraint_at};
ghost use Rattle.kn_guess.specs.Guesses.{joined, candidates, pair_group, IsPairGuess, IsNoPairGuess};
ghost use Rattle.kn_guess.specs.Tables.{PairTable, IsPairTable};

use crate::Guess;
use crate::binary::binary;
use crate::border::LEAST_BORDER;
use crate::covering::covered;
use crate::joining::joined;
use crate::partner::Partners;
use crate::rows::{empty_rows, enter_all};
use kn_logic::{Lit, NoMemory};
use kn_store::Store;
use std::alloc::Global;
use std::marker::Model;

/// The guess of a start, which is the id of a clause: its two literals, and those literals that join them,
/// variables ascending and the positive one first, each where it stands in a binary clause with every
/// literal that has come together, up to 256; and all binary clauses of two of them. `None` exactly where
/// the id is that of no binary clause that is left, or fewer than three literals come together.
pub fn pair_guess(alloc: Global, store: &Store, start: u64) -> Result<Option<Guess>, NoMemory>
    ensures guess { IfOk result (λ o. IfSome o (λ g. IsPairGuess store.now start g.group g.ids)) }
    ensures pairs { IfOk result (λ o. IfSome o (λ g. IsPairGroup g.group)) }
    ensures none { IfOk result (λ o. IfNone o (IsNoPairGuess store.now start)) }
{
    let pairs = Pairs::new(alloc, store)?;
    pairs.guess(alloc, store, start)
}

/// The pairs of literals that stand in binary clauses, made once from a store for all its starts. It stays
/// right while groups that it guessed are taken out of the store, and klauses come in their place.
#[derive(Debug, Drop)]
pub struct Pairs {
    rows: Vec<Partners>,
}

impl Model for Pairs {
    ghost use Rattle.kn_guess.specs.Tables.{PairTable};

    ghost Value = { PairTable };

    ghost view = { λ p. p.rows.items };
}

impl Pairs {
    /// The pairs of a store. An error where memory is short.
    pub fn new(alloc: Global, store: &Store) -> Result<Pairs, NoMemory>
        ensures { IfOk result (IsPairTable store.now) }
    {
        let vars = store.vars();
        let mut rows = empty_rows(alloc, vars)?;
        for place in 0..vars {
            enter_all(&mut rows, store, Lit::new(place + 1, true))?;
            enter_all(&mut rows, store, Lit::new(place + 1, false))?;
        }
        Ok(Pairs { rows })
    }

    /// The guess of a start, as `pair_guess` gives it, by the pairs of this store.
    pub fn guess(&self, alloc: Global, store: &Store, start: u64) -> Result<Option<Guess>, NoMemory>
        requires { IsPairTable store.now self.now }
        ensures guess { IfOk result (λ o. IfSome o (λ g. IsPairGuess store.now start g.group g.ids)) }
        ensures pairs { IfOk result (λ o. IfSome o (λ g. IsPairGroup g.group)) }
        ensures none { IfOk result (λ o. IfNone o (IsNoPairGuess store.now start)) }
    {
        let _vars = store.vars();
        let Some(first) = binary(store, start) else {
            return Ok(None);
        };
        let group = joined(alloc, &self.rows, store, first.lits())?;
        if group.len() < LEAST_BORDER {
            return Ok(None);
        }
        Ok(Some(covered(alloc, store, &group)?))
    }
}
