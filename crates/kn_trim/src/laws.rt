//! Why trimming is sound, as laws: a conflict needs its used hints alone, and what is left of a proof is a proof.
ghost use Rattle.std.specs.Prelude.{ℕ, ◌≡◌, List, true, map};
ghost use Rattle.kn_logic.specs.Literals.{Literal, negated};
ghost use Rattle.kn_logic.specs.Constraints.{Bounded};
ghost use Rattle.kn_logic.specs.Formulas.{Problem, IsFormula};
ghost use Rattle.kn_rules.specs.Steps.{is_conflict};
ghost use Rattle.kn_rules.specs.Proofs.{IsProof};
ghost use Rattle.kn_trim.specs.Used.{picked, used_marks};
ghost use Rattle.kn_trim.specs.Needed.{IsTrimmed};

/// A law over the definitions, and no code: a run that ends in conflict does so with its used hints alone.
pub fn used_hints_suffice()
    ensures { (lits : List Literal) (hints : List Bounded) → is_conflict lits hints ≡ true → is_conflict lits (picked (used_marks (map negated lits) hints) hints) ≡ true }
{}

/// A law over the definitions, and no code: the text of the needed lines of a proof is a proof.
pub fn trimmed_is_proof()
    ensures { (f : Problem) (bytes : List ℕ) (text : List ℕ) → IsFormula f → IsProof f bytes → IsTrimmed f bytes text → IsProof f text }
{}

/// A law over the definitions, and no code: each proof has a trimmed text, and but one.
pub fn one_trimmed()
    ensures has { (f : Problem) (bytes : List ℕ) → IsProof f bytes → (text : List ℕ) × IsTrimmed f bytes text }
    ensures one { (f : Problem) (bytes : List ℕ) (a : List ℕ) (b : List ℕ) → IsTrimmed f bytes a → IsTrimmed f bytes b → a ≡ b }
{}
