//! That solving ends, by what its proof looks like: learned clauses, forgotten ones counted, are fewer than a bound.
ghost use Rattle.std.specs.Prelude.{ℕ, ◌≡◌, ◌<◌, ◌^◌, List};
ghost use Rattle.kn_logic.specs.Formulas.{Problem};
ghost use Rattle.kn_lines.specs.declared.line.Line.{Line};
ghost use Rattle.kn_rules.specs.States.{ProofState};
ghost use Rattle.kn_rules.specs.Stepping.{learned_in};
ghost use Rattle.kn_extract.specs.Extractions.{Found};
ghost use Rattle.kn_solve.specs.Solutions.{IsSolverProof};

/// A law over the definitions, and no code: the opening of a solver's proof has no learned clause, and the search
/// behind it learns fewer than 3 to the power of the number of variables where it forgets nothing, and fewer than 9 to
/// that power in any case.
pub fn solver_proofs_learn_few()
    ensures opening { (f : Problem) (forget : ℕ) (found : List Found) (before : List Line) (body : List Line) (last : ProofState) →
        IsSolverProof f forget found before body last → learned_in before ≡ 0 }
    ensures keeping { (f : Problem) (found : List Found) (before : List Line) (body : List Line) (last : ProofState) →
        IsSolverProof f 0 found before body last → learned_in body < 3 ^ f.vars }
    ensures forgetting { (f : Problem) (forget : ℕ) (found : List Found) (before : List Line) (body : List Line) (last : ProofState) →
        IsSolverProof f forget found before body last → learned_in body < 9 ^ f.vars }
{}
