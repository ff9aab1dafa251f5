//! The variables of one elimination: its buckets from the last to the first.
ghost use Rattle.std.specs.Prelude.{◌≡◌, ◌≤◌, ◌-◌, true, length, slice_set};
ghost use Rattle.std.specs.List.{AllByRecursion};
ghost use Rattle.kn_logic.specs.Assignments.{value_of};
ghost use Rattle.kn_diagram.specs.Diagrams.{IsNode, with_value, function_of};
ghost use Rattle.kn_quant.specs.Eliminations.{buckets_of};
ghost use Rattle.kn_quant.specs.Rebuilt.{rebuilt};
ghost use Rattle.kn_rebuild.specs.Rebuilding.{AreAlike, IsOrderWithin, IsBucketWithin};

use kn_diagram::Diagrams;
use kn_logic::Assignment;
use kn_quant::Bucket;

/// Gives the variables of these buckets their values, that of the last first. As deep as there are buckets, at most
/// 256.
pub(crate) fn rebuild_buckets(d: &Diagrams, buckets: &[Bucket], m: &mut Assignment)
    requires order { IsOrderWithin (length m.old) d.now }
    requires buckets { AllByRecursion (IsBucketWithin (length m.old) d.now) buckets.now }
    ensures long { length m.new ≡ length m.old }
    ensures alike { AreAlike (rebuilt (buckets_of d.now buckets.now) (value_of m.old)) (value_of m.new) }
{
    if let [first, rest @ ..] = buckets {
        rebuild_buckets(d, rest, m);
        rebuild_variable(d, *first, m);
        let _nodes = d.nodes();
    }
}

// The variable becomes true where the function holds with it true, and else false.
fn rebuild_variable(d: &Diagrams, bucket: Bucket, m: &mut Assignment)
    requires order { IsOrderWithin (length m.old) d.now }
    requires bucket { IsBucketWithin (length m.old) d.now bucket }
    ensures long { length m.new ≡ length m.old }
    ensures alike { AreAlike (with_value (value_of m.old) bucket.var (function_of d.now bucket.function (with_value (value_of m.old) bucket.var true))) (value_of m.new) }
{
    m.set(bucket.var, true);
    let holds = d.value(bucket.function, m);
    m.set(bucket.var, holds);
    let _nodes = d.nodes();
}
