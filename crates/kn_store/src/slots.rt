// Slots by id, that of id 1 first: each has the constraint of its id, until it is removed.
ghost use Rattle.std.specs.Prelude.{◌≡◌, ◌+◌, ◌==◌, not, filter, length, IfSome, IfNone, option_copied};
ghost use Rattle.kn_store.specs.Stores.{constraint_at};
ghost use Rattle.kn_store.specs.Kept.{pairs_of};

use kn_logic::Constraint;

pub(crate) fn constraint(slots: &[Option<Constraint>], id: u64) -> Option<&Constraint>
    ensures { option_copied result ≡ constraint_at (pairs_of 0 slots.now) id }
{
    if id == 0 || slots.len() < id as usize {
        return None;
    }
    slots[id as usize - 1].as_ref()
}

// The constraint that the slot of the id had; its slot is empty then.
pub(crate) fn emptied(slots: &mut [Option<Constraint>], id: u64) -> Option<Constraint>
    ensures value { result ≡ constraint_at (pairs_of 0 slots.old) id }
    ensures len { length slots.new ≡ length slots.old }
    ensures gone { pairs_of 0 slots.new ≡ filter (λ p. not (p.id == id)) (pairs_of 0 slots.old) }
    ensures count { IfSome result (λ _. length (pairs_of 0 slots.new) + 1 ≡ length (pairs_of 0 slots.old)) }
    ensures none { IfNone result (slots.new ≡ slots.old) }
{
    if id == 0 || slots.len() < id as usize {
        return None;
    }
    slots[id as usize - 1].take()
}
