//! The law on settled constraints, which follows from the law on quiet for every kind.
ghost use Rattle.std.specs.Prelude.{ℕ};
ghost use Rattle.kn_logic.specs.Propagation.{IsShort};
ghost use Rattle.kn_watch.specs.Trails.{Trailed, literals, below, IsTrail};
ghost use Rattle.kn_watch.specs.Watches.{IsBroad, HasWatches, IsSettled};

use crate::Watched;

/// A settled constraint is not short under the trail, nor under what going back to any level leaves of it.
/// The law is the contract: a call does nothing.
pub fn settled_is_quiet<W: Watched>()
    ensures now { (w : W) (t : Trailed) → IsTrail t → IsSettled t.made (W.bounded w) (W.watches w) → IsShort (literals t.made) (W.bounded w) → ⊥ }
    ensures back { (w : W) (t : Trailed) (level : ℕ) → IsTrail t → IsBroad (W.bounded w) → HasWatches (W.bounded w) (W.watches w) → IsSettled t.made (W.bounded w) (W.watches w) → IsShort (literals (below level t.made)) (W.bounded w) → ⊥ }
{}
