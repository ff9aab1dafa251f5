//! The groups of an extraction, from the first to the last.
ghost use Rattle.std.specs.Prelude.{◌≡◌, length, map};
ghost use Rattle.std.specs.List.{AllByRecursion};
ghost use Rattle.kn_logic.specs.Assignments.{value_of};
ghost use Rattle.kn_logic.specs.Formulas.{Satisfies};
ghost use Rattle.kn_quant.specs.Rebuilt.{rebuilt};
ghost use Rattle.kn_extract.specs.Extractions.{AgreeOff, listed};
ghost use Rattle.kn_extract.specs.Kept.{found_of};
ghost use Rattle.kn_extract.specs.Structure.{IsOver};
ghost use Rattle.kn_rebuild.specs.Rebuilding.{AreAlike, AreByRule, buckets_in};

use crate::variables::rebuild_buckets;
use kn_extract::{Extraction, Taken, groups_stand_apart, what_remains_is_known};
use kn_logic::Assignment;

/// Turns a model of the formula that remains of an extraction into one of the formula that it began with. Only
/// auxiliary variables of groups change. The groups are handled in order, and in each the buckets of its elimination
/// from the last to the first: the bucket's variable becomes true where its function holds with "true", and else false;
/// a variable without a bucket keeps its value. Takes no memory.
pub fn rebuild(e: &Extraction, m: &mut Assignment)
    requires model { Satisfies m.old e.now.formula }
    ensures model { Satisfies m.new e.now.original }
    ensures changed { AgreeOff (listed (map found_of e.now.taken)) m.old m.new }
    ensures rule { AllByRecursion (λ t. AreByRule m.new t.group) e.now.taken }
{
    groups_stand_apart();
    what_remains_is_known();
    for taken in e.taken() {
        rebuild_group(taken, m);
    }
}

fn rebuild_group(taken: &Taken, m: &mut Assignment)
    requires { IsOver (length m.old) taken.now.group }
    ensures long { length m.new ≡ length m.old }
    ensures alike { AreAlike (rebuilt (buckets_in taken.now.elimination) (value_of m.old)) (value_of m.new) }
{
    if let Some(elimination) = taken.elimination() {
        rebuild_buckets(elimination.diagrams(), elimination.buckets(), m);
    }
}
