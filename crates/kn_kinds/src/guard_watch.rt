//! A klause with a guard that marks the places it watches: those of its literals and, last, that of the guard's
//! negation.
ghost use Rattle.std.specs.Prelude.{◌≡◌, ◌≤◌, ◌<◌, ℕ, Bool, true, false, length, None, IfOk};
ghost use Rattle.std.specs.Option.{is_some, IsSome};
ghost use Rattle.kn_logic.specs.Propagation.{is_open};
ghost use Rattle.kn_watch.specs.Trails.{literals};
ghost use Rattle.kn_watch.specs.Watches.{listed, lit_at, HasWatches, IsTurn, IsStart};
ghost use Rattle.kn_watch.specs.Quiet.{quiet_law};
ghost use Rattle.kn_kinds.specs.Kinds.{marked_place, AreMarks};

use crate::marks::{choose, next_unmarked, watch_count};
use crate::survey::survey;
use kn_logic::{Constraint, Lit};
use kn_watch::{NoMemory, Trail, Visit, Watched};
use std::alloc::Global;

/// A klause with a guard, which marks the places that it watches.
#[derive(Debug, Drop)]
pub struct GuardWatch {
    klause: Constraint,
    lits: Vec<Lit>,
    marks: Vec<bool>,
    hand: usize,
    ghost listed: { lits.items ≡ listed klause },
    ghost marked: { AreMarks lits.items marks.items hand },
}

impl GuardWatch {
    /// Watches no place of a klause with a guard yet. An error where memory is short.
    pub fn new(alloc: Global, klause: Constraint) -> Result<GuardWatch, NoMemory>
        requires { IsSome klause.guard }
        ensures { IfOk result (λ w. w.klause ≡ klause) }
    {
        let lits = listed(alloc, &klause)?;
        let marks = vec![in alloc; false; lits.len()]?;
        Ok(GuardWatch {
            klause,
            lits,
            marks,
            hand: 0,
        })
    }
}

impl Watched for GuardWatch {
    ghost bounded = { λ w. w.klause };

    ghost watches = { λ w. marked_place w.marks.items };

    ghost quiet = { λ w. quiet_law w.klause (marked_place w.marks.items) };

    fn bound(&self) -> u64 {
        self.klause.bound()
    }

    fn guarded(&self) -> bool {
        self.klause.guard().is_some()
    }

    fn lits(&self) -> &[Lit] {
        &self.lits
    }

    fn watched(&self, place: usize) -> bool {
        self.marks[place]
    }

    fn first_watches(&mut self, trail: &Trail) -> Visit {
        let wanted = watch_count(self.klause.bound(), self.lits.len());
        choose(&self.lits, &mut self.marks, wanted, trail);
        survey(&self.klause, trail)
    }

    fn turned_false(&mut self, place: usize, trail: &Trail) -> Visit {
        match next_unmarked(&self.lits, &self.marks, self.hand, trail) {
            Some(to) => {
                self.marks[place] = false;
                self.marks[to] = true;
                self.hand = to;
                Visit::Moved { place: to }
            }
            None => survey(&self.klause, trail),
        }
    }
}

// the literals and, last, the negation of the guard
fn listed(alloc: Global, klause: &Constraint) -> Result<Vec<Lit>, NoMemory>
    ensures { IfOk result (λ lits. lits.items ≡ listed klause.now) }
{
    let mut lits = Vec::from_slice(alloc, klause.lits())?;
    if let Some(guard) = klause.guard() {
        lits.push(guard.negated())?;
    }
    Ok(lits)
}
