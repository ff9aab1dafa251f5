//! What holds of an extraction by its definition, whatever code finds it, and so what any reader of one may rely on.
ghost use Rattle.std.specs.Prelude.{◌≡◌, Bool, List};
ghost use Rattle.std.specs.List.{AllByRecursion};
ghost use Rattle.kn_logic.specs.Constraints.{Holds};
ghost use Rattle.kn_logic.specs.Formulas.{Problem, IsFormula, Satisfies};
ghost use Rattle.kn_format.specs.Texts.{IsWithinLimits};
ghost use Rattle.kn_extract.specs.Extractions.{Found, klause_of, IsExtraction, AgreeOff, listed};
ghost use Rattle.kn_extract.specs.Structure.{IsRemainder, IsOwned, IsOver, Pairwise, TakesOthers, IsClear, StandApart, HoldTaken};

/// A law over the definitions, and no code: a formula has one extraction. There are no two, and it is not so that
/// there is none.
pub fn an_extraction_is_one()
    ensures groups { (f last last' : Problem) (a b : List Found) → IsExtraction f a last → IsExtraction f b last' → a ≡ b }
    ensures last { (f last last' : Problem) (a b : List Found) → IsExtraction f a last → IsExtraction f b last' → last ≡ last' }
    ensures some { (f : Problem) → ((last : Problem) (found : List Found) → IsExtraction f found last → ⊥) → ⊥ }
{}

/// A law over the definitions, and no code: each model of a formula is one of the formula that remains, and each model
/// of that becomes one of the formula by a change of auxiliary variables alone.
pub fn an_extraction_keeps_models()
    ensures onward { (f last : Problem) (found : List Found) (values : List Bool) → IsFormula f → IsExtraction f found last → Satisfies values f → Satisfies values last }
    ensures back { (f last : Problem) (found : List Found) (values : List Bool) → IsFormula f → IsExtraction f found last → Satisfies values last → (other : List Bool) × Satisfies other f × AgreeOff (listed found) values other }
{}

/// A law over the definitions, and no code: what remains is the constraints that no group took, and the klauses. It is
/// a formula, and within the limits of texts where the first formula is. Its models make the klauses true; and where
/// they make the clauses true that were taken, they are models of the formula.
pub fn what_remains_is_known()
    ensures remainder { (f last : Problem) (found : List Found) → IsFormula f → IsExtraction f found last → IsRemainder f found last }
    ensures formula { (f last : Problem) (found : List Found) → IsFormula f → IsExtraction f found last → IsFormula last }
    ensures limits { (f last : Problem) (found : List Found) → IsFormula f → IsExtraction f found last → IsWithinLimits f → IsWithinLimits last }
    ensures klauses { (f last : Problem) (found : List Found) (values : List Bool) → IsFormula f → IsExtraction f found last → Satisfies values last → AllByRecursion (λ x. Holds values (klause_of x)) found }
    ensures hold { (f last : Problem) (found : List Found) (values : List Bool) → IsFormula f → IsExtraction f found last → Satisfies values last → HoldTaken values found → Satisfies values f }
{}

/// A law over the definitions, and no code: the clauses of a group are those that the formula has under its ids, and no
/// clause is taken twice. Its variables are those of the formula, and its auxiliary variables stand in no constraint
/// that remains, and in no other group.
pub fn groups_stand_apart()
    ensures owned { (f last : Problem) (found : List Found) → IsFormula f → IsExtraction f found last → AllByRecursion (IsOwned f) found }
    ensures others { (f last : Problem) (found : List Found) → IsFormula f → IsExtraction f found last → Pairwise TakesOthers found }
    ensures clear { (f last : Problem) (found : List Found) → IsFormula f → IsExtraction f found last → AllByRecursion (λ x. AllByRecursion (IsClear x.group.aux) last.constraints) found }
    ensures over { (f last : Problem) (found : List Found) → IsFormula f → IsExtraction f found last → AllByRecursion (λ x. IsOver f.vars x.group) found }
    ensures apart { (f last : Problem) (found : List Found) → IsFormula f → IsExtraction f found last → Pairwise StandApart found }
{}
