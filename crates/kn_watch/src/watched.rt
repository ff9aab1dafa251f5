//! The trait of constraints that watch some of their places, and its laws.
ghost use Rattle.std.specs.Prelude.{◌≡◌, ◌≤◌, ◌<◌, ℕ, Bool, List, true, false, length};
ghost use Rattle.std.specs.Option.{is_some};
ghost use Rattle.kn_logic.specs.Literals.{Literal};
ghost use Rattle.kn_logic.specs.Constraints.{Bounded};
ghost use Rattle.kn_logic.specs.Propagation.{is_open, IsShort};
ghost use Rattle.kn_watch.specs.Trails.{literals};
ghost use Rattle.kn_watch.specs.Watches.{listed, lit_at, IsBroad, HasWatches, QuietLaw, NoneFalse, IsStart, IsTurn};

use crate::Trail;
use kn_logic::Lit;

/// What a visit found.
#[derive(Clone, Copy, Debug, PartialEq, Eq)]
pub enum Visit {
    /// The place that was handed in is watched no more, and this place is watched in its stead: it was not
    /// before, and its literal is not false. From `first_watches`: no watched literal is false, and none of
    /// the other answers holds; the number is then 0 and says nothing.
    Moved { place: usize },
    /// At least as many literals as the bound are true, or the guard is false.
    Satisfied,
    /// The literal at some place is forced.
    Forces,
    /// Fewer literals than the bound are not false, and no guard forbids that.
    Conflict,
}

/// What a constraint is under a trail.
#[derive(Clone, Copy, Debug, PartialEq, Eq)]
pub enum Look {
    /// Neither of the others.
    Quiet,
    /// The literal at some place is forced.
    Forces,
    /// Fewer literals than the bound are not false, and no guard forbids that.
    Conflict,
}

/// A constraint that watches some of its places, which count from 0. As many are watched as its bound and one
/// more, or all where there are fewer; so it need be looked at only where a watched literal becomes false.
pub trait Watched: Drop {
    /// The constraint.
    ghost bounded: { Self → Bounded };

    /// Whether a place is watched.
    ghost watches: { Self → ℕ → Bool };

    /// The bound.
    fn bound(&self) -> u64
        ensures { result ≡ (bounded self.now).bound };

    /// Whether there is a guard.
    fn guarded(&self) -> bool
        ensures { result ≡ is_some (bounded self.now).guard };

    /// The literals and, where there is a guard, its negation as the last.
    fn lits(&self) -> &[Lit]
        ensures { result.now ≡ listed (bounded self.now) };

    /// Whether a place is watched.
    fn watched(&self, place: usize) -> bool
        requires { place < length (listed (bounded self.now)) }
        ensures { result ≡ watches self.now place };

    /// Chooses the places to watch: those that are not false, and then those that became false last.
    fn first_watches(&mut self, trail: &Trail) -> Visit
        ensures same { bounded self.new ≡ bounded self.old }
        ensures watches { HasWatches (bounded self.new) (watches self.new) }
        ensures means { IsStart trail.now.made (bounded self.new) (watches self.new) result };

    /// Visits a watched place whose literal became false. Where its watch cannot move, no watch changes.
    fn turned_false(&mut self, place: usize, trail: &Trail) -> Visit
        requires within { place < length (listed (bounded self.old)) }
        requires watched { watches self.old place ≡ true }
        requires is_false { is_open (literals trail.now.made) (lit_at (listed (bounded self.old)) place) ≡ false }
        requires watches { HasWatches (bounded self.old) (watches self.old) }
        ensures same { bounded self.new ≡ bounded self.old }
        ensures watches { HasWatches (bounded self.new) (watches self.new) }
        ensures means { IsTurn (literals trail.now.made) (bounded self.new) (watches self.old) (watches self.new) place result };

    /// A constraint with more literals than its bound, none of whose watched literals is false, is not short.
    ghost quiet: { (w : Self) → QuietLaw (bounded w) (watches w) };
}
