//! The generated formula: the blocks, turned into clauses.
ghost use Rattle.std.specs.Prelude.{◌≡◌, ◌≤◌, true, IfOk};
ghost use Rattle.std.specs.List.{AllByRecursion};
ghost use Rattle.kn_logic.specs.Constraints.{is_clause};
ghost use Rattle.kn_logic.specs.Formulas.{IsUnsatisfiable};
ghost use Rattle.kn_counter.specs.Sizes.{IfTooLarge};
ghost use Rattle.kn_gen.specs.Blocks.{generated};

use crate::blocks::block_formula;
use kn_counter::{CountError, counted};
use kn_logic::{Formula, NoMemory};
use std::alloc::{AllocError, Global};

/// The most blocks of a generated formula.
pub const MAX_BLOCKS: u32 = 200;

/// The formula of so many blocks, from 1 to 200, in clauses alone. It has no model. An error where memory is
/// wanting.
pub fn make_formula(alloc: Global, blocks: u32) -> Result<Formula, NoMemory>
    requires first { 1 ≤ blocks }
    requires last { blocks ≤ 200 }
    ensures formula { IfOk result (λ f. f ≡ generated blocks) }
    ensures clauses { IfOk result (λ f. AllByRecursion (λ c. is_clause c ≡ true) f.constraints) }
    ensures refuted { IfOk result (λ f. IsUnsatisfiable f) }
{
    let klauses = block_formula(alloc, blocks as u64)?;
    match counted(alloc, &klauses) {
        Ok(clauses) => Ok(clauses),
        Err(e) => Err(want_of_memory(e)),
    }
}

/// The error of a formula that is not too large.
fn want_of_memory(e: CountError) -> NoMemory
    requires { IfTooLarge e (λ vars. ⊥) }
{
    match e {
        CountError::Memory => AllocError,
        CountError::TooLarge { .. } => unreachable!(),
    }
}
