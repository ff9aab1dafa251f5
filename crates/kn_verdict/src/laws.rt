//! Verdicts are exact, as laws: a group has one possible bound, and the kind of answer is the one that fits it.
ghost use Rattle.std.specs.Prelude.{ℕ, ◌≡◌, ◌≤◌, ◌⊎◌, length};
ghost use Rattle.kn_logic.specs.Groups.{Gathered, IsGroup};
ghost use Rattle.kn_quant.specs.Runs.{IsFirstWide};
ghost use Rattle.kn_verdict.specs.declared.answer.Verdict.{Verdict};
ghost use Rattle.kn_verdict.specs.Cardinals.{IsCardinal, IsOnlyBound, IsNarrow};
ghost use Rattle.kn_verdict.specs.Verdicts.{IsInRange, IsVerdict, IsKlause, IsOutOfRange, IsNotCardinal, IsWideAnswer};

/// A law over the definitions, and no code: a group is cardinal with the only bound that is possible, or with
/// none; and there is one such bound.
pub fn a_group_has_one_bound()
    ensures cardinal { (g : Gathered) (bound : ℕ) → IsGroup g → IsCardinal g bound → IsOnlyBound g bound }
    ensures one { (g : Gathered) (a b : ℕ) → IsOnlyBound g a → IsOnlyBound g b → a ≡ b }
{}

/// A law over the definitions, and no code: each answer comes exactly where it should. A group with a wide
/// stage has no other verdict. One without is a klause exactly where it is cardinal with a bound in range,
/// out of range exactly where it is cardinal with another, and not cardinal exactly where it is so with none.
pub fn a_verdict_is_exact()
    ensures wide { (g : Gathered) (answer : Verdict) (stage level : ℕ) → IsVerdict g answer → IsFirstWide g stage level → IsWideAnswer answer }
    ensures klause { (g : Gathered) (answer : Verdict) (bound : ℕ) → IsGroup g → IsVerdict g answer → IsNarrow g → IsCardinal g bound → IsInRange g bound → IsKlause bound answer }
    ensures out { (g : Gathered) (answer : Verdict) (bound : ℕ) → IsGroup g → IsVerdict g answer → IsNarrow g → IsCardinal g bound → (bound ≤ 1) ⊎ (length g.border ≤ bound) → IsOutOfRange bound answer }
    ensures not { (g : Gathered) (answer : Verdict) → IsVerdict g answer → IsNarrow g → ((bound : ℕ) → IsCardinal g bound → ⊥) → IsNotCardinal answer }
    ensures unlike { (g : Gathered) (answer : Verdict) (bound : ℕ) → IsGroup g → IsVerdict g answer → IsNotCardinal answer → IsCardinal g bound → ⊥ }
{}
