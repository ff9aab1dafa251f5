//! The table of ids: constraints are found and given here, and the ids of a line are deleted together or not at all.
ghost use Rattle.std.specs.Prelude.{◌≡◌, ◌≤◌, ◌<◌, ◌+◌, ◌++◌, ◌∷◌, ◌^◌, [], map, length, vec_capacity, IfOk, OnOk, OnErr, IsOk, Ok, Some, option_copied, option_map, slice_get};
ghost use Rattle.kn_rules.specs.States.{Defined, from_file, live_at};
ghost use Rattle.kn_rules.specs.Steps.{deleted, by_definition, definition_clauses};
ghost use Rattle.kn_rules.specs.Entries.{Deletes, variable_of, given_of, derived};
ghost use Rattle.kn_rules.specs.Lent.{fours, kept_at};

use crate::definitions::Definitions;
use crate::deletion::{put_back, remove, take_out};
use crate::four::Four;
use crate::live::Live;
use crate::made::{Made, Place};
use crate::slot::Slot;
use crate::{Definition, Origin};
use kn_logic::{Constraint, NoMemory};
use std::alloc::Global;
use std::marker::Model;

/// What the ids stand for, that of id 1 first. The constraints of a definition are made from it where they are asked
/// for, so that it takes about a hundred bytes with its four ids.
#[derive(Debug, Drop)]
pub struct Entries {
    definitions: Definitions,
    slots: Vec<Slot>,
}

impl Model for Entries {
    ghost use Rattle.std.specs.Prelude.{map, length};
    ghost use Rattle.std.specs.List.{AllByRecursion};
    ghost use Rattle.kn_rules.specs.Entries.{Entered, given_of, IsSlotOf};

    ghost Value = { Entered };

    ghost view = { λ e. record { defined = e.definitions; given = map (given_of e.definitions) e.slots.items } };

    ghost invariant = { λ e. AllByRecursion (IsSlotOf (length e.definitions.list)) e.slots.items };
}

impl Entries {
    /// The constraints of a file, in their order, over so many variables.
    pub fn new(alloc: Global, vars: u64, constraints: &[Constraint]) -> Result<Entries, NoMemory>
        requires { vars ≤ 2 ^ 32 }
        ensures { IfOk result (λ e. e ≡ record { defined = record { base = vars; list = [] }; given = map from_file constraints.now }) }
    {
        let mut entries = Entries {
            definitions: Definitions::new(alloc, vars),
            slots: Vec::with_capacity(alloc, constraints.len())?,
        };
        for c in constraints {
            entries.push(Origin::File, c.copy()?)?;
        }
        Ok(entries)
    }

    /// The id that the next constraint gets; ids count from 1.
    pub fn next_id(&self) -> u64
        ensures { result ≡ length self.now.given + 1 }
    {
        self.slots.len() as u64 + 1
    }

    /// The definitions.
    pub fn definitions(&self) -> &Definitions
        ensures { result.now ≡ self.now.defined }
    {
        &self.definitions
    }

    /// The constraint of an id; `None` exactly where the id was not given or is deleted.
    pub fn find(&self, id: u64) -> Option<Live<'_>>
        ensures { result ≡ live_at self.now.given id }
    {
        if id == 0 {
            return None;
        }
        match self.slots.get(id as usize - 1) {
            Some(slot) => live_of(&self.definitions, slot),
            None => None,
        }
    }

    /// The same, lent by the one who keeps the constraints of the definitions too.
    pub fn lend<'a>(&'a self, kept: &'a [Four], id: u64) -> Option<&'a Constraint>
        requires { kept.now ≡ fours self.now.defined }
        ensures { option_copied result ≡ live_at self.now.given id }
    {
        if id == 0 {
            return None;
        }
        match self.slots.get(id as usize - 1) {
            Some(slot) => lent(slot, kept),
            None => None,
        }
    }

    /// Gives the next id to a constraint. Fails where memory is short, and nothing changes then.
    pub fn push(&mut self, origin: Origin, c: Constraint) -> Result<(), NoMemory>
        ensures ok { OnOk result (self.new ≡ record self.old { given = self.old.given ++ (record { origin = origin; live = Some c }) ∷ [] }) }
        ensures err { OnErr result (self.new ≡ self.old) }
    {
        let kept = Box::new(*self.slots.allocator(), c)?;
        self.slots.push(Slot::Kept(origin, kept))?;
        Ok(())
    }

    /// Defines the next variable, and gives the next four ids to what the definition says. Fails where memory is
    /// wanting, and nothing changes then.
    pub fn define(&mut self, d: &Definition) -> Result<(), NoMemory>
        ensures ok { OnOk result (self.new ≡ record { defined = record self.old.defined { list = self.old.defined.list ++ d.now ∷ [] }; given = self.old.given ++ map by_definition (definition_clauses (variable_of self.old.defined.base (length self.old.defined.list)) d.now.test d.now.high d.now.low) }) }
        ensures err { OnErr result (self.new ≡ self.old) }
    {
        let number = self.definitions.len();
        self.slots.reserve(4)?;
        self.definitions.push(d)?;
        push_derived(&mut self.slots, number);
        Ok(())
    }

    /// Deletes ids, each of which is live when its turn comes; where one is not, `false`, and nothing changes.
    pub fn delete(&mut self, ids: &[u64]) -> Result<bool, NoMemory>
        ensures { Deletes result (deleted self.old.given ids.now) self.old self.new }
    {
        let mut taken = Vec::with_capacity(*self.slots.allocator(), ids.len())?;
        if take_out(&mut self.slots, ids, &mut taken) {
            return Ok(true);
        }
        put_back(&mut self.slots, ids, taken);
        Ok(false)
    }

    /// The same of ids that are known to be live.
    pub fn discard(&mut self, ids: &[u64])
        requires { IsOk (deleted self.old.given ids.now) }
        ensures given { deleted self.old.given ids.now ≡ Ok self.new.given }
        ensures defined { self.new.defined ≡ self.old.defined }
    {
        remove(&mut self.slots, ids);
    }
}

fn live_of<'a>(definitions: &Definitions, slot: &'a Slot) -> Option<Live<'a>>
    ensures { result ≡ (given_of definitions.now slot.now).live }
{
    match slot {
        Slot::Kept(_, c) => Some(Live::kept(c)),
        Slot::Derived(place, number) => match definitions.at(*number) {
            Some((variable, d)) => Some(Live::made(Made::new(variable, &d, *place))),
            None => None,
        },
        Slot::Deleted(_) => None,
    }
}

fn lent<'a>(slot: &'a Slot, kept: &'a [Four]) -> Option<&'a Constraint>
    ensures { (d : Defined) → kept.now ≡ fours d → option_copied result ≡ (given_of d slot.now).live }
{
    match slot {
        Slot::Kept(_, c) => Some(c),
        Slot::Derived(place, number) => lent_four(kept, *place, *number),
        Slot::Deleted(_) => None,
    }
}

fn lent_four(kept: &[Four], place: Place, number: u64) -> Option<&Constraint>
    ensures { option_copied result ≡ option_map (λ four. kept_at four place) (slice_get kept.now number) }
{
    match kept.get(number as usize) {
        Some(four) => Some(four.at(place)),
        None => None,
    }
}

/// Four ids more, for the constraints of the definition with this number.
fn push_derived(slots: &mut Vec<Slot>, number: u64)
    requires { length slots.old.items + 4 ≤ vec_capacity slots.old }
    ensures { slots.new.items ≡ slots.old.items ++ derived number }
{
    push_one(slots, Slot::Derived(Place::High, number));
    push_one(slots, Slot::Derived(Place::Low, number));
    push_one(slots, Slot::Derived(Place::NotHigh, number));
    push_one(slots, Slot::Derived(Place::NotLow, number));
}

fn push_one(slots: &mut Vec<Slot>, slot: Slot)
    requires { length slots.old.items < vec_capacity slots.old }
    ensures items { slots.new.items ≡ slots.old.items ++ slot ∷ [] }
    ensures room { vec_capacity slots.old ≤ vec_capacity slots.new }
{
    let Ok(()) = slots.push(slot) else {
        unreachable!()
    };
}
