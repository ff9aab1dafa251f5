//! Clauses instead of klauses change no model, by the definition of the clauses and whatever program makes them.
ghost use Rattle.std.specs.Prelude.{◌++◌, Bool, List, take};
ghost use Rattle.kn_logic.specs.Formulas.{Problem, IsFormula, Satisfies};
ghost use Rattle.kn_counter.specs.Counters.{counted};

/// A law over the definitions, and no code: each model of a formula, with values for the further
/// variables, is one of its clauses; and each model of its clauses, cut to the formula's variables, is one
/// of the formula.
pub fn counted_keeps_models()
    ensures extended { (f : Problem) (values : List Bool) → IsFormula f → Satisfies values f → (more : List Bool) × Satisfies (values ++ more) (counted f) }
    ensures cut { (f : Problem) (values : List Bool) → IsFormula f → Satisfies values (counted f) → Satisfies (take f.vars values) f }
{}
