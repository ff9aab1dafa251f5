//! From one conflict to the next.
ghost use Rattle.std.specs.Prelude.{ℕ, ◌≡◌, ◌≤◌, ◌+◌, ◌-◌, ◌^◌, Some, true, IfSome, IfNone, IfOk, length};
ghost use Rattle.kn_logic.specs.Literals.{has, AreDifferent};
ghost use Rattle.kn_logic.specs.Propagation.{IsClosed};
ghost use Rattle.kn_watch.specs.Trails.{literals};
ghost use Rattle.kn_propagate.specs.declared.step.Step.TheVariants.{Conflict};
ghost use Rattle.kn_propagate.specs.Engines.{constraints, IsEngine};
ghost use Rattle.kn_search.specs.Deciding.{IsTotal, AreValuesOf};

use crate::decider::Decider;
use kn_kinds::ClauseWatch;
use kn_logic::{Assignment, Lit, NoMemory};
use kn_propagate::{Engine, Step};
use kn_watch::{Trail, Watched};
use std::alloc::Global;

/// Propagates and assumes literals up to a conflict, whose id this is; `None` where each variable has a value and none
/// of the constraints is violated.
pub fn dive<K: Watched>(engine: &mut Engine<ClauseWatch, K>, decider: &mut Decider) -> Option<u64>
    ensures vars { engine.new.trail.vars ≡ engine.old.trail.vars }
    ensures live { engine.new.live ≡ engine.old.live }
    ensures conflict { IfSome result (λ id. engine.new.last ≡ Some (Conflict id)) }
    ensures closed { IfNone result (IsClosed (literals engine.new.trail.made) (constraints engine.new.live)) }
    ensures total { IfNone result (IsTotal engine.new.trail) }
    ensures kept { IsEngine engine.new }
{
    loop {
        if let Step::Conflict { id } = engine.propagate() {
            return Some(id);
        }
        let lit = decider.choose(engine.trail())?;
        engine.assume(lit);
    }
}

/// The values that a trail gives to its variables; false where it gives none.
pub fn values_of(alloc: Global, trail: &Trail) -> Result<Assignment, NoMemory>
    ensures { IfOk result (AreValuesOf trail.now.vars (literals trail.now.made)) }
{
    let vars = trail.vars();
    let mut values = Assignment::new(alloc, vars, false)?;
    for place in 0..vars {
        values.set(place + 1, is_true(trail, place + 1));
    }
    Ok(values)
}

/// Whether a variable is true.
fn is_true(trail: &Trail, var: u64) -> bool
    requires { 1 ≤ var }
    ensures { result ≡ has (literals trail.now.made) (record { variable = var; positive = true }) }
{
    trail.value(Lit::new(var, true)) == Some(true)
}
