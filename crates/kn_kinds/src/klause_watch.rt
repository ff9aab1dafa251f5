//! A klause without a guard that marks the places it watches.
ghost use Rattle.std.specs.Prelude.{◌≡◌, ◌≤◌, ◌<◌, ℕ, Bool, true, false, length, None, IfOk};
ghost use Rattle.std.specs.Option.{is_some, IsSome};
ghost use Rattle.kn_logic.specs.Propagation.{is_open};
ghost use Rattle.kn_watch.specs.Trails.{literals};
ghost use Rattle.kn_watch.specs.Watches.{listed, lit_at, HasWatches, IsTurn, IsStart};
ghost use Rattle.kn_watch.specs.Quiet.{quiet_law};
ghost use Rattle.kn_kinds.specs.Kinds.{marked_place, AreMarks};

use crate::marks::{choose, next_unmarked, watch_count};
use crate::survey::survey;
use kn_logic::{Constraint, Lit};
use kn_watch::{NoMemory, Trail, Visit, Watched};
use std::alloc::Global;

/// A klause without a guard, which marks the places that it watches.
#[derive(Debug, Drop)]
pub struct KlauseWatch {
    klause: Constraint,
    marks: Vec<bool>,
    hand: usize,
    ghost plain: { klause.guard ≡ None },
    ghost marked: { AreMarks klause.lits marks.items hand },
}

impl KlauseWatch {
    /// Watches no place of a klause yet. An error where memory is short.
    pub fn new(alloc: Global, klause: Constraint) -> Result<KlauseWatch, NoMemory>
        requires { klause.guard ≡ None }
        ensures { IfOk result (λ w. w.klause ≡ klause) }
    {
        let marks = vec![in alloc; false; klause.lits().len()]?;
        Ok(KlauseWatch {
            klause,
            marks,
            hand: 0,
        })
    }
}

impl Watched for KlauseWatch {
    ghost bounded = { λ w. w.klause };

    ghost watches = { λ w. marked_place w.marks.items };

    ghost quiet = { λ w. quiet_law w.klause (marked_place w.marks.items) };

    fn bound(&self) -> u64 {
        self.klause.bound()
    }

    fn guarded(&self) -> bool {
        false
    }

    fn lits(&self) -> &[Lit] {
        self.klause.lits()
    }

    fn watched(&self, place: usize) -> bool {
        self.marks[place]
    }

    fn first_watches(&mut self, trail: &Trail) -> Visit {
        let lits = self.klause.lits();
        let wanted = watch_count(self.klause.bound(), lits.len());
        choose(lits, &mut self.marks, wanted, trail);
        survey(&self.klause, trail)
    }

    fn turned_false(&mut self, place: usize, trail: &Trail) -> Visit {
        match next_unmarked(self.klause.lits(), &self.marks, self.hand, trail) {
            Some(to) => {
                self.marks[place] = false;
                self.marks[to] = true;
                self.hand = to;
                Visit::Moved { place: to }
            }
            None => survey(&self.klause, trail),
        }
    }
}
