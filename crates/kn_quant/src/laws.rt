//! What holds of runs by their definition: a group has one, buckets rebuild the values, and small groups stay narrow.
ghost use Rattle.std.specs.Prelude.{ℕ, ◌≡◌, ◌+◌, ◌≤◌, Bool, true, List, length, map};
ghost use Rattle.std.specs.List.{AllByRecursion};
ghost use Rattle.kn_logic.specs.Groups.{Gathered, IsGroup};
ghost use Rattle.kn_quant.specs.Runs.{Function, Step, Runs, order_of, clause_function, AreNarrow, IsFirstWide, AgreeBut};
ghost use Rattle.kn_quant.specs.Rebuilt.{rebuilt};

/// A law over the definitions, and no code: pieces have one run. So a group that has a run without a wide
/// stage has no first wide stage.
pub fn a_group_has_one_run()
    ensures one { (ys : List ℕ) (pieces : List Function) (steps steps' : List Step) (buckets buckets' : List (ℕ × Function)) (f f' : Function)
        → Runs ys pieces steps buckets f → Runs ys pieces steps' buckets' f' → (steps ≡ steps') × (buckets ≡ buckets') × (f ≡ f') }
    ensures never { (g : Gathered) (steps : List Step) (buckets : List (ℕ × Function)) (f : Function) (stage level : ℕ)
        → Runs g.aux (map clause_function g.taken) steps buckets f → AreNarrow (order_of g) steps → IsFirstWide g stage level → ⊥ }
{}

/// A law over the definitions, and no code: where the result of a run is true, the values that its buckets
/// give make all pieces true. They change the variables that the run took, and no others.
pub fn rebuilt_values_hold()
    ensures hold { (ys : List ℕ) (pieces : List Function) (steps : List Step) (buckets : List (ℕ × Function)) (f : Function) (v : ℕ → Bool)
        → Runs ys pieces steps buckets f → f v ≡ true → AllByRecursion (λ p. p (rebuilt buckets v) ≡ true) pieces }
    ensures kept { (ys : List ℕ) (pieces : List Function) (steps : List Step) (buckets : List (ℕ × Function)) (f : Function) (v : ℕ → Bool)
        → Runs ys pieces steps buckets f → AgreeBut ys v (rebuilt buckets v) }
{}

/// A law over the definitions, and no code: a group of at most 12 variables, auxiliary and border together,
/// has no wide stage.
pub fn small_groups_are_narrow()
    ensures { (g : Gathered) (stage level : ℕ) → IsGroup g → length g.aux + length g.border ≤ 12 → IsFirstWide g stage level → ⊥ }
{}
