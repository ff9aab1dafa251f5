//! Laws on results and on width, for those who make proofs of traces or bound the groups that can be wide.
ghost use Rattle.std.specs.Prelude.{ℕ, ◌≡◌, ◌<◌, ◌≤◌, Bool, Some, List, [], length};
ghost use Rattle.kn_diagram.specs.declared.trace.Met.{Met};
ghost use Rattle.kn_diagram.specs.Diagrams.{Table, IsTable, depth_of, high_at, low_at};
ghost use Rattle.kn_diagram.specs.Traces.{IsRight, AreExplained, found};
ghost use Rattle.kn_diagram.specs.Wide.{HangsOn, IsWide};

/// A law over the definitions, and no code: take a depth that is not below a pair of nodes and its result.
/// The result for the pair's two nodes for "true" at that depth is the result's node for "true" there, and
/// so for "false". The connective may be any.
pub fn results_have_their_halves()
    ensures high { (join : Bool → Bool → Bool) (d : Table) (u v w half depth : ℕ) → IsTable d → depth < length d.order
        → depth ≤ depth_of d u → depth ≤ depth_of d v → depth ≤ depth_of d w → IsRight join d (record { u = u; v = v; w = w })
        → IsRight join d (record { u = high_at d depth u; v = high_at d depth v; w = half }) → half ≡ high_at d depth w }
    ensures low { (join : Bool → Bool → Bool) (d : Table) (u v w half depth : ℕ) → IsTable d → depth < length d.order
        → depth ≤ depth_of d u → depth ≤ depth_of d v → depth ≤ depth_of d w → IsRight join d (record { u = u; v = v; w = w })
        → IsRight join d (record { u = low_at d depth u; v = low_at d depth v; w = half }) → half ≡ low_at d depth w }
{}

/// A law over the definitions, and no code: what is found in a trace for a pair is its result.
pub fn found_results_are_right()
    ensures { (join : Bool → Bool → Bool) (d : Table) (entries : List Met) (u v w : ℕ) → AreExplained join d [] entries → found entries u v ≡ Some w
        → IsRight join d (record { u = u; v = v; w = w }) }
{}

/// A law over the definitions, and no code: a function of at most 12 variables is wide nowhere.
pub fn few_variables_are_narrow()
    ensures { (order : List ℕ) (f : (ℕ → Bool) → Bool) → length order ≤ 12 → HangsOn order f → IsWide order f → ⊥ }
{}
