//! What holds of the blocks, whatever makes them.
ghost use Rattle.std.specs.Prelude.{ℕ, ◌≡◌, ◌≤◌, ◌+◌, ◌-◌, ◌*◌, length};
ghost use Rattle.kn_logic.specs.Formulas.{IsFormula, IsUnsatisfiable};
ghost use Rattle.kn_gen.specs.Blocks.{block_formula, generated, all_columns};

/// A law over the definitions, and no code: any number of blocks from 1 on is a formula, and neither it nor
/// its clauses have a model.
pub fn blocks_have_no_model()
    ensures formula { (n : ℕ) → 1 ≤ n → IsFormula (block_formula n) }
    ensures blocks { (n : ℕ) → 1 ≤ n → IsUnsatisfiable (block_formula n) }
    ensures clauses { (n : ℕ) → 1 ≤ n → IsUnsatisfiable (generated n) }
{}

/// A law over the definitions, and no code: how many variables and clauses there are. Up to 200 blocks are within the
/// limits of a text.
pub fn blocks_are_counted()
    ensures variables { (n : ℕ) → (generated n).vars ≡ 8 * n + 7 * all_columns n n }
    ensures clauses { (n : ℕ) → length (generated n).constraints ≡ 13 * all_columns n n + 14 * n + (n - 1) }
    ensures few_variables { (n : ℕ) → n ≤ 200 → (generated n).vars ≤ 1000000 }
    ensures few_clauses { (n : ℕ) → n ≤ 200 → length (generated n).constraints ≤ 10000000 }
{}
