//! Klauses of both kinds as one kind, so that an engine of two kinds has clauses, klauses and guarded klauses.
ghost use Rattle.std.specs.Prelude.{◌≡◌, ◌<◌, ℕ, Bool, true, length};
ghost use Rattle.std.specs.Option.{is_some};
ghost use Rattle.kn_logic.specs.Propagation.{is_open};
ghost use Rattle.kn_watch.specs.Trails.{literals};
ghost use Rattle.kn_watch.specs.Watches.{listed, lit_at, HasWatches, IsTurn, IsStart};
ghost use Rattle.kn_watch.specs.Quiet.{quiet_law};
ghost use Rattle.kn_kinds.specs.Kinds.{marked_place};

use crate::{GuardWatch, KlauseWatch};
use kn_logic::Lit;
use kn_watch::{Trail, Visit, Watched};

/// A klause, with or without a guard.
#[derive(Debug, Drop)]
pub enum CardWatch {
    Klause(KlauseWatch),
    Guard(GuardWatch),
}

impl Watched for CardWatch {
    ghost use Rattle.kn_kinds.specs.declared.card_watch.CardWatch.TheVariants.{Klause, Guard};

    ghost bounded = { elim [ Klause w ↦ w.klause | Guard w ↦ w.klause ] };

    ghost watches = { elim [ Klause w ↦ marked_place w.marks.items | Guard w ↦ marked_place w.marks.items ] };

    ghost quiet = { elim [ Klause w ↦ quiet_law w.klause (marked_place w.marks.items) | Guard w ↦ quiet_law w.klause (marked_place w.marks.items) ] };

    fn bound(&self) -> u64 {
        match self {
            CardWatch::Klause(w) => w.bound(),
            CardWatch::Guard(w) => w.bound(),
        }
    }

    fn guarded(&self) -> bool {
        match self {
            CardWatch::Klause(w) => w.guarded(),
            CardWatch::Guard(w) => w.guarded(),
        }
    }

    fn lits(&self) -> &[Lit] {
        match self {
            CardWatch::Klause(w) => w.lits(),
            CardWatch::Guard(w) => w.lits(),
        }
    }

    fn watched(&self, place: usize) -> bool {
        match self {
            CardWatch::Klause(w) => w.watched(place),
            CardWatch::Guard(w) => w.watched(place),
        }
    }

    fn first_watches(&mut self, trail: &Trail) -> Visit {
        match self {
            CardWatch::Klause(w) => w.first_watches(trail),
            CardWatch::Guard(w) => w.first_watches(trail),
        }
    }

    fn turned_false(&mut self, place: usize, trail: &Trail) -> Visit {
        match self {
            CardWatch::Klause(w) => w.turned_false(place, trail),
            CardWatch::Guard(w) => w.turned_false(place, trail),
        }
    }
}
