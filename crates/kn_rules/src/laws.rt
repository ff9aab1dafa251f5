//! Laws of the checker: an accepted proof refutes its formula, a text has one answer, and searches learn few clauses.
ghost use Rattle.std.specs.Prelude.{◌≡◌, ◌≤◌, ◌<◌, ◌+◌, ◌++◌, ◌∷◌, ◌^◌, ℕ, List, [], Option, Ok, Some, length, true, false};
ghost use Rattle.kn_logic.specs.Literals.{Literal};
ghost use Rattle.kn_logic.specs.Formulas.{Problem, IsFormula, IsUnsatisfiable};
ghost use Rattle.kn_lines.specs.declared.line.Arm.{Arm};
ghost use Rattle.kn_lines.specs.declared.line.Line.{Line};
ghost use Rattle.kn_lines.specs.declared.line.Line.TheVariants.{Define};
ghost use Rattle.kn_rules.specs.declared.definition.Definition.{Definition};
ghost use Rattle.kn_rules.specs.Grids.{stands_for};
ghost use Rattle.kn_rules.specs.Demands.{arm_of};
ghost use Rattle.kn_rules.specs.States.{ProofState, definition_of};
ghost use Rattle.kn_rules.specs.Steps.{step};
ghost use Rattle.kn_rules.specs.Stepping.{StepsBy, is_definition, deletions_in, learned_in};
ghost use Rattle.kn_rules.specs.Proofs.{IsProof, Fault, IsFirstWrong};
ghost use Rattle.kn_rules.specs.Searching.{learned_live, Allows, SearchesBy, HasNoLemma};

/// A law over the definitions, and no code: a formula that has a proof has no model. Its constraints are
/// over its own variables, as those of each `Formula` are: the numbers behind them are for defined ones.
pub fn proof_refutes()
    ensures { (f : Problem) (bytes : List ℕ) → IsFormula f → IsProof f bytes → IsUnsatisfiable f }
{}

/// A law over the definitions, and no code: no text is a proof and has a first fault, and none has two.
pub fn never_both()
    ensures both { (f : Problem) (bytes : List ℕ) (found : Fault) → IsProof f bytes → IsFirstWrong f bytes found → ⊥ }
    ensures one { (f : Problem) (bytes : List ℕ) (a : Fault) (b : Fault) → IsFirstWrong f bytes a → IsFirstWrong f bytes b → a ≡ b }
{}

/// A law over the definitions, and no code: a definition is that of the variable behind those that were known,
/// each other variable is defined as before, and no other line changes the variables and their definitions. So
/// there are never more definitions than variables.
pub fn definitions_are_kept()
    ensures new { (s : ProofState) (t : ProofState) (x : Literal) (high : Arm) (low : Arm) → length s.definitions ≤ s.vars →
        step s (Define x high low) ≡ Ok t → definition_of t (s.vars + 1) ≡ Some (record { test = x; high = high; low = low }) }
    ensures others { (s : ProofState) (t : ProofState) (x : Literal) (high : Arm) (low : Arm) (variable : ℕ) → length s.definitions ≤ s.vars →
        step s (Define x high low) ≡ Ok t → (variable ≡ s.vars + 1 → ⊥) → definition_of t variable ≡ definition_of s variable }
    ensures kept { (s : ProofState) (t : ProofState) (line : Line) → is_definition line ≡ false →
        step s line ≡ Ok t → (t.vars ≡ s.vars) × (t.definitions ≡ s.definitions) }
    ensures within { (s : ProofState) (t : ProofState) (line : Line) → length s.definitions ≤ s.vars →
        step s line ≡ Ok t → length t.definitions ≤ t.vars }
{}

/// A law over the definitions, and no code: a variable stands for one node of a level of a grid at most.
pub fn a_variable_has_one_count()
    ensures { (definition : ℕ → Option Definition) (lits : List Literal) (i : ℕ) (j : ℕ) (variable : ℕ) →
        stands_for definition lits i (arm_of variable) ≡ true → stands_for definition lits j (arm_of variable) ≡ true → i ≡ j }
{}

/// A law over the definitions, and no code: the lines of a search step, and a search that has not ended goes on
/// with lines that a search may log.
pub fn searches_go_on()
    ensures steps { (vars : ℕ) (forget : ℕ) (deletions : ℕ) (old : ProofState) (new : ProofState) (lines : List Line) →
        SearchesBy vars forget deletions old lines new → StepsBy old lines new }
    ensures line { (vars : ℕ) (forget : ℕ) (deletions : ℕ) (old : ProofState) (mid : ProofState) (new : ProofState) (lines : List Line) (line : Line) →
        HasNoLemma lines → SearchesBy vars forget deletions old lines mid → step mid line ≡ Ok new →
        Allows vars forget (deletions + deletions_in lines) mid line → SearchesBy vars forget deletions old (lines ++ line ∷ []) new }
    ensures more { (vars : ℕ) (forget : ℕ) (deletions : ℕ) (old : ProofState) (mid : ProofState) (new : ProofState) (a : List Line) (b : List Line) →
        HasNoLemma a → SearchesBy vars forget deletions old a mid → SearchesBy vars forget (deletions + deletions_in a) mid b new →
        SearchesBy vars forget deletions old (a ++ b) new }
{}

/// A law over the definitions, and no code: a search from a state without learned clauses learns fewer than 3 to the
/// power of the number of variables where it forgets nothing, and fewer than 9 to that power in any case.
pub fn searches_learn_few()
    ensures keeping { (vars : ℕ) (old : ProofState) (new : ProofState) (lines : List Line) →
        SearchesBy vars 0 0 old lines new → learned_live old.given ≡ [] → learned_in lines < 3 ^ vars }
    ensures forgetting { (vars : ℕ) (forget : ℕ) (old : ProofState) (new : ProofState) (lines : List Line) →
        SearchesBy vars forget 0 old lines new → learned_live old.given ≡ [] → learned_in lines < 9 ^ vars }
{}
