//! The store: constraints by id and ids by variable, two tables that change together or not at all.
ghost use Rattle.std.specs.Prelude.{◌≡◌, ◌≤◌, ◌<◌, ◌+◌, ◌^◌, ◌==◌, ◌++◌, ◌∷◌, [], not, false, filter, length, IfOk, OnOk, OnErr, option_copied};
ghost use Rattle.std.specs.Option.{is_some};
ghost use Rattle.kn_logic.specs.Constraints.{Fits};
ghost use Rattle.kn_store.specs.Stores.{Stored, IsStored, ids_of, naming, constraint_at};

use crate::ids::Ids;
use crate::{lists, slots};
use kn_logic::{Constraint, NoMemory};
use std::alloc::Global;
use std::marker::Model;

/// The constraints of a formula, each under an id. Ids count from 1 in the order in which constraints were
/// added, and an id whose constraint was removed is not given again.
#[derive(Debug, Drop)]
pub struct Store {
    vars: u64,
    live: usize,
    slots: Vec<Option<Constraint>>,
    lists: Vec<Ids>,
}

impl Model for Store {
    ghost use Rattle.std.specs.Prelude.{length};
    ghost use Rattle.kn_store.specs.Stores.{Stored};
    ghost use Rattle.kn_store.specs.Kept.{pairs_of, IsKept};

    ghost Value = { Stored };

    ghost view = { λ s. record { vars = s.vars; added = length s.slots.items; live = pairs_of 0 s.slots.items } };

    ghost invariant = { λ s. IsKept s.vars s.live s.slots.items s.lists.items };
}

impl Store {
    /// No constraint yet over the variables from 1 to `vars`. An error where memory is short.
    pub fn new(alloc: Global, vars: u64) -> Result<Store, NoMemory>
        ensures { IfOk result (λ s. s ≡ record { vars = vars; added = 0; live = [] }) }
    {
        Ok(Store {
            vars,
            live: 0,
            slots: Vec::new(alloc),
            lists: lists::lists(alloc, vars)?,
        })
    }

    /// Adds a constraint, and gives its id: the number of constraints ever added, this one counted. Its
    /// variables are from 1 to the number of variables, and a klause names none twice. Where memory is
    /// wanting, an error, and the store is as before.
    pub fn add(&mut self, c: Constraint) -> Result<u64, NoMemory>
        requires fits { Fits self.old.vars c }
        requires room { self.old.added + 1 < 2 ^ 64 }
        ensures id { IfOk result (λ id. id ≡ self.old.added + 1) }
        ensures ok { OnOk result (self.new ≡ record self.old { added = self.old.added + 1; live = self.old.live ++ record { id = self.old.added + 1; constraint = c } ∷ [] }) }
        ensures err { OnErr result (self.new ≡ self.old) }
    {
        let id = self.slots.len() as u64 + 1;
        self.slots.reserve(1)?;
        match lists::enter(&mut self.lists, id, &c) {
            Ok(()) => {
                self.slots.push_reserved(Some(c));
                self.live += 1;
                Ok(id)
            }
            Err(error) => {
                lists::leave(&mut self.lists, id, &c);
                Err(error)
            }
        }
    }

    /// Removes the constraint of an id; `false` exactly where none has it, and the store is as before then.
    pub fn remove(&mut self, id: u64) -> bool
        ensures live { result ≡ is_some (constraint_at self.old.live id) }
        ensures gone { self.new ≡ record self.old { live = filter (λ p. not (p.id == id)) self.old.live } }
        ensures none { result ≡ false → self.new ≡ self.old }
    {
        let Some(c) = slots::emptied(&mut self.slots, id) else {
            return false;
        };
        lists::leave(&mut self.lists, id, &c);
        self.live -= 1;
        true
    }

    /// The constraint of an id; `None` exactly where no constraint that is left has it.
    pub fn get(&self, id: u64) -> Option<&Constraint>
        ensures { option_copied result ≡ constraint_at self.now.live id }
    {
        slots::constraint(&self.slots, id)
    }

    /// The ids of the constraints that name the variable, their guards counted: ascending, each once. The
    /// variable is one from 1 to the number of variables.
    pub fn with_variable(&self, var: u64) -> &[u64]
        requires first { 1 ≤ var }
        requires last { var ≤ self.now.vars }
        ensures { result.now ≡ ids_of (naming var self.now.live) }
    {
        self.lists[var as usize - 1].ids()
    }

    /// The number of constraints that are left.
    pub fn live(&self) -> usize
        ensures value { result ≡ length self.now.live }
        ensures stored { IsStored self.now }
    {
        self.live
    }

    /// The number of variables.
    pub fn vars(&self) -> u64
        ensures value { result ≡ self.now.vars }
        ensures stored { IsStored self.now }
    {
        self.vars
    }
}
