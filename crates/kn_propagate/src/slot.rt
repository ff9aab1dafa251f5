//! The slots that hold the constraints of an engine, of two kinds.
ghost use Rattle.std.specs.Prelude.{◌≡◌, ◌<◌, ℕ, Bool, true, length, None, IfOk, IfSome, OnErr};
ghost use Rattle.std.specs.Option.{is_some};
ghost use Rattle.kn_logic.specs.Constraints.{Bounded, IsWithin};
ghost use Rattle.kn_logic.specs.Propagation.{is_open};
ghost use Rattle.kn_watch.specs.Trails.{literals};
ghost use Rattle.kn_watch.specs.Watches.{listed, lit_at, HasWatches, QuietLaw, IsTurn, IsStart};
ghost use Rattle.kn_watch.specs.Quiet.{quiet_law};
ghost use Rattle.kn_propagate.specs.declared.slot.Held.TheVariants.{Free};
ghost use Rattle.kn_propagate.specs.Chains.{seen_as, at_slot, held_bounded, held_watches};
ghost use Rattle.kn_propagate.specs.Wholes.{IsVacant};

use crate::NoMemory;
use kn_logic::Lit;
use kn_watch::{Trail, Visit, Watched};

/// A constraint with its id. A slot without one is free.
#[derive(Debug, Drop)]
pub struct Slot<W> {
    pub id: Option<u64>,
    pub watch: W,
}

/// A constraint of one of two kinds. What a free slot holds has no literals and asks for none.
#[derive(Debug, Drop)]
pub enum Held<C, K> {
    Clause(C),
    Klause(K),
    /// Names the free slot that is used after this one: its number plus 1, or 0 where there is none.
    Free { next: usize },
}

impl<C: Watched, K: Watched> Watched for Held<C, K> {
    ghost use Rattle.kn_propagate.specs.Chains.{held_bounded, held_watches};

    ghost bounded = { held_bounded C.bounded K.bounded };

    ghost watches = { held_watches C.watches K.watches };

    ghost quiet = { λ w. quiet_law (held_bounded C.bounded K.bounded w) (held_watches C.watches K.watches w) };

    fn bound(&self) -> u64 {
        match self {
            Held::Clause(c) => c.bound(),
            Held::Klause(k) => k.bound(),
            Held::Free { .. } => 0,
        }
    }

    fn guarded(&self) -> bool {
        match self {
            Held::Clause(c) => c.guarded(),
            Held::Klause(k) => k.guarded(),
            Held::Free { .. } => false,
        }
    }

    fn lits(&self) -> &[Lit] {
        match self {
            Held::Clause(c) => c.lits(),
            Held::Klause(k) => k.lits(),
            Held::Free { .. } => &[],
        }
    }

    fn watched(&self, place: usize) -> bool {
        match self {
            Held::Clause(c) => c.watched(place),
            Held::Klause(k) => k.watched(place),
            Held::Free { .. } => false,
        }
    }

    fn first_watches(&mut self, trail: &Trail) -> Visit {
        match self {
            Held::Clause(c) => c.first_watches(trail),
            Held::Klause(k) => k.first_watches(trail),
            Held::Free { .. } => Visit::Satisfied,
        }
    }

    fn turned_false(&mut self, place: usize, trail: &Trail) -> Visit {
        match self {
            Held::Clause(c) => c.turned_false(place, trail),
            Held::Klause(k) => k.turned_false(place, trail),
            Held::Free { .. } => unreachable!(),
        }
    }
}

/// A free slot: the first of those that held a constraint before, or else a new one.
pub fn vacant<C: Watched, K: Watched>(
    slots: &mut Vec<Slot<Held<C, K>>>,
    free: &mut usize,
) -> Result<usize, NoMemory>
    ensures ok { IfOk result (IsVacant (seen_as (held_bounded C.bounded K.bounded) (held_watches C.watches K.watches) slots.old.items) (seen_as (held_bounded C.bounded K.bounded) (held_watches C.watches K.watches) slots.new.items)) }
    ensures err { OnErr result (slots.new.items ≡ slots.old.items) }
{
    if let Some(owner) = first_free(slots, *free) {
        return Ok(owner);
    }
    let owner = slots.len();
    slots.push(Slot {
        id: None,
        watch: Held::Free { next: 0 },
    })?;
    *free = owner + 1;
    Ok(owner)
}

// the slot of this number less 1, if it is free
fn first_free<W: Watched>(slots: &Vec<Slot<W>>, free: usize) -> Option<usize>
    ensures { IfSome result (λ owner. (owner < length (seen_as W.bounded W.watches slots.now.items)) × ((at_slot (seen_as W.bounded W.watches slots.now.items) owner).id ≡ None)) }
{
    let owner = free.checked_sub(1)?;
    match slots.get(owner)?.id {
        Some(_) => None,
        None => Some(owner),
    }
}

/// The number of the free slot that is used after this one, plus 1; 0 where there is none.
pub fn after<C: Watched, K: Watched>(held: &Held<C, K>) -> usize
    ensures { (next : ℕ) → held.now ≡ Free next → result ≡ next }
{
    match held {
        Held::Free { next } => *next,
        Held::Clause(_) => 0,
        Held::Klause(_) => 0,
    }
}
