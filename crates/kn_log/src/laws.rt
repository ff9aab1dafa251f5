//! How lines come together: those of two calls as those of one, a broken line behind others, and all as a proof.
ghost use Rattle.std.specs.Prelude.{ℕ, ◌≡◌, ◌+◌, ◌<◌, ◌^◌, ◌∷◌, List, [], ◌++◌, length, Option, Ok, true, false};
ghost use Rattle.kn_bytes.specs.Outside.{Got, GotPrefix};
ghost use Rattle.kn_logic.specs.Formulas.{Problem};
ghost use Rattle.kn_lines.specs.declared.line.Line.{Line};
ghost use Rattle.kn_rules.specs.States.{ProofState, start};
ghost use Rattle.kn_rules.specs.Steps.{step};
ghost use Rattle.kn_rules.specs.Stepping.{StepsBy, learned_in};
ghost use Rattle.kn_rules.specs.Proofs.{Steps, IsProof};
ghost use Rattle.kn_log.specs.Logs.{Logged, header_of, line_bytes, IsSpelled};
ghost use Rattle.kn_log.specs.Written.{Adds, Breaks, AreSpelled, lines_bytes, learned_count};

/// A law over the definitions, and no code: a header and lines that step are read as they were written,
/// and once the clause without literals was given they are a proof.
pub fn written_proof_is_read()
    ensures steps { (f : Problem) (lines : List Line) (last : ProofState) → f.vars < 2 ^ 64 → length f.constraints < 2 ^ 64 →
        StepsBy (start f) lines last → AreSpelled lines → Steps f (lines_bytes (header_of f ∷ lines)) last }
    ensures proof { (f : Problem) (lines : List Line) (last : ProofState) → f.vars < 2 ^ 64 → length f.constraints < 2 ^ 64 →
        StepsBy (start f) lines last → AreSpelled lines → last.refuted ≡ true → IsProof f (lines_bytes (header_of f ∷ lines)) }
{}

/// A law over the definitions, and no code: as many lines of the text begin with `l` as were logged as
/// learned clauses. What was logged in two turns has the learned clauses of both.
pub fn learned_lines_are_counted()
    ensures written { (f : Problem) (lines : List Line) → f.vars < 2 ^ 64 → length f.constraints < 2 ^ 64 →
        AreSpelled lines → learned_count (lines_bytes (header_of f ∷ lines)) ≡ learned_in lines }
    ensures more { (a : List Line) (b : List Line) → learned_in (a ++ b) ≡ learned_in a + learned_in b }
{}

/// A law over the definitions, and no code: no line and one line are added, and what was added in two
/// turns was added in one.
pub fn adding_joins()
    ensures none { (old : Logged) (w : Option (List ℕ)) → old.failed ≡ false → Adds [] old old w w }
    ensures one { (line : Line) (old : Logged) (new : Logged) (w : Option (List ℕ)) (w' : Option (List ℕ)) →
        step old.state line ≡ Ok new.state → new.failed ≡ false → IsSpelled line → Got w w' (line_bytes line) → Adds (line ∷ []) old new w w' }
    ensures more { (a : List Line) (b : List Line) (old : Logged) (mid : Logged) (new : Logged) (w : Option (List ℕ)) (v : Option (List ℕ)) (u : Option (List ℕ)) →
        Adds a old mid w v → Adds b mid new v u → Adds (a ++ b) old new w u }
{}

/// A law over the definitions, and no code: a line that was not written whole is added behind none and behind
/// others, and the sink has got a prefix of all that was logged.
pub fn breaking_joins()
    ensures one { (line : Line) (old : Logged) (new : Logged) (w : Option (List ℕ)) (w' : Option (List ℕ)) →
        step old.state line ≡ Ok new.state → new.failed ≡ true → IsSpelled line → GotPrefix w w' (line_bytes line) → Breaks [] line old new w w' }
    ensures more { (a : List Line) (b : List Line) (last : Line) (old : Logged) (mid : Logged) (new : Logged) (w : Option (List ℕ)) (v : Option (List ℕ)) (u : Option (List ℕ)) →
        Adds a old mid w v → Breaks b last mid new v u → Breaks (a ++ b) last old new w u }
    ensures prefix { (lines : List Line) (last : Line) (old : Logged) (new : Logged) (w : Option (List ℕ)) (w' : Option (List ℕ)) →
        Breaks lines last old new w w' → GotPrefix w w' (lines_bytes (lines ++ last ∷ [])) }
{}
