// What holds of guesses and refusals; these functions do nothing.
ghost use Rattle.std.specs.Prelude.{ℕ, ◌≡◌, ◌≤◌, List, length};
ghost use Rattle.kn_logic.specs.Constraints.{Bounded, klause};
ghost use Rattle.kn_logic.specs.Groups.{Gathered, IsPairGroup, is_covered};
ghost use Rattle.kn_store.specs.Stores.{Stored, IsStored, constraints_of};
ghost use Rattle.kn_guess.specs.declared.error.NoGuess.{NoGuess};
ghost use Rattle.kn_guess.specs.declared.error.NoGuess.TheVariants.{Memory};
ghost use Rattle.kn_guess.specs.Guesses.{IsSeedGuess, IsPairGuess, IsNoPairGuess};
ghost use Rattle.kn_guess.specs.Refusals.{IsRefused};
ghost use Rattle.kn_guess.specs.Tables.{PairTable, IsPairTable, replaced};

/// A seed is refused for one reason alone.
pub fn refusals_exclude_each_other()
    ensures { (cs : List Bounded) (seed : ℕ) (a b : NoGuess) → IsRefused cs seed a → IsRefused cs seed b → (a ≡ Memory → ⊥) → (b ≡ Memory → ⊥) → a ≡ b }
{}

/// A seed that is refused has no guess.
pub fn refused_seeds_have_no_guess()
    ensures { (s : Stored) (seed : ℕ) (why : NoGuess) (g : Gathered) (ids : List ℕ) → IsRefused (constraints_of s.live) seed why → (why ≡ Memory → ⊥) → IsSeedGuess s seed g ids → ⊥ }
{}

/// A start that is refused has no guess.
pub fn refused_starts_have_no_guess()
    ensures { (s : Stored) (start : ℕ) (g : Gathered) (ids : List ℕ) → IsNoPairGuess s start → IsPairGuess s start g ids → ⊥ }
{}

/// The guess of a start is a pair group: every two literals of its border stand in a clause that it takes.
pub fn pair_guesses_are_pair_groups()
    ensures { (s : Stored) (start : ℕ) (g : Gathered) (ids : List ℕ) → IsStored s → IsPairGuess s start g ids → IsPairGroup g }
{}

/// A table of pairs stays right where the guess of a start is taken, and a klause comes for it.
pub fn pairs_stay()
    ensures { (s : Stored) (start bound : ℕ) (g : Gathered) (ids : List ℕ) (table : PairTable) → IsStored s → IsPairTable s table → IsPairGuess s start g ids → 2 ≤ bound → IsPairTable (replaced s (is_covered g.border) (klause bound g.border)) table }
{}
