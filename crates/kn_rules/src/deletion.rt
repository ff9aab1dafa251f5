//! Deleting the ids of a line one after another, so that one named twice is a fault; the others are put back then.
ghost use Rattle.std.specs.Prelude.{◌≡◌, ◌≤◌, [], Ok, Err, true, false, IfSome, IfNone, IsOk, length, vec_capacity};
ghost use Rattle.kn_rules.specs.Causes.{not_live};
ghost use Rattle.kn_rules.specs.Restoring.{slot_at, without_slot, deleted_slots, put, restored};

use crate::slot::Slot;
use std::mem;

/// Takes the slots of the ids out, one after another, as far as each is live when its turn comes, and tells whether
/// all were.
pub fn take_out(slots: &mut [Slot], ids: &[u64], taken: &mut Vec<Slot>) -> bool
    requires empty { taken.old.items ≡ [] }
    requires room { length ids.now ≤ vec_capacity taken.old }
    ensures all { result ≡ true → deleted_slots slots.old ids.now ≡ Ok slots.new }
    ensures wrong { result ≡ false → deleted_slots slots.old ids.now ≡ Err not_live }
    ensures back { restored slots.new ids.now taken.new.items ≡ slots.old }
    ensures count { length taken.new.items ≤ length ids.now }
{
    for id in ids {
        let Some(slot) = take(slots, *id) else {
            return false
        };
        let Ok(()) = taken.push(slot) else {
            unreachable!()
        };
    }
    true
}

/// Deletes the ids, each of which is live when its turn comes.
pub fn remove(slots: &mut [Slot], ids: &[u64])
    requires { IsOk (deleted_slots slots.old ids.now) }
    ensures { deleted_slots slots.old ids.now ≡ Ok slots.new }
{
    for id in ids {
        let Some(_slot) = take(slots, *id) else {
            unreachable!()
        };
    }
}

/// Puts the slots back under the first of the ids.
pub fn put_back(slots: &mut [Slot], ids: &[u64], mut taken: Vec<Slot>)
    requires { length taken.items ≤ length ids.now }
    ensures { slots.new ≡ restored slots.old ids.now taken.items }
{
    while let Some(slot) = taken.pop() {
        put(slots, ids[taken.len()], slot);
    }
}

fn take(slots: &mut [Slot], id: u64) -> Option<Slot>
    ensures value { result ≡ slot_at slots.old id }
    ensures some { IfSome result (λ _. slots.new ≡ without_slot slots.old id (slot_at slots.old id)) }
    ensures none { IfNone result (slots.new ≡ slots.old) }
{
    if id == 0 || slots.len() < id as usize {
        return None;
    }
    let place = id as usize - 1;
    if let Slot::Deleted(_) = slots[place] {
        return None;
    }
    let origin = slots[place].origin();
    Some(mem::replace(&mut slots[place], Slot::Deleted(origin)))
}

fn put(slots: &mut [Slot], id: u64, slot: Slot)
    ensures { slots.new ≡ put slots.old id slot }
{
    if id == 0 || slots.len() < id as usize {
        return;
    }
    slots[id as usize - 1] = slot;
}
