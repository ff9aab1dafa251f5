//! No text has two meanings, and none both a meaning and a fault: what one reader takes, another cannot refuse.
ghost use Rattle.std.specs.Prelude.{ℕ, ◌≡◌, ◌≤◌, List, length};
ghost use Rattle.kn_logic.specs.Formulas.{Problem};
ghost use Rattle.kn_text.specs.Lines.{Line, lines_of};
ghost use Rattle.kn_format.specs.declared.error.Refusal.{Refusal};
ghost use Rattle.kn_format.specs.declared.header.Header.{Header};
ghost use Rattle.kn_format.specs.Grammar.{Spells, words_in};
ghost use Rattle.kn_format.specs.Faults.{IsFirstFault, refusal, bad_token, extra_constraint, unended, missing_constraint};
ghost use Rattle.kn_format.specs.FirstFaults.{HasHeader, HasGuards, IsFirstWrong, EndWithin, AreTooFew};

/// A text spells at most one formula, has at most one first fault, and never both.
pub fn a_text_has_one_reading()
    ensures formula { (bytes : List ℕ) (f g : Problem) → Spells bytes f → Spells bytes g → f ≡ g }
    ensures fault { (bytes : List ℕ) (a b : Refusal) → IsFirstFault bytes a → IsFirstFault bytes b → a ≡ b }
    ensures apart { (bytes : List ℕ) (f : Problem) (fault : Refusal) → Spells bytes f → IsFirstFault bytes fault → ⊥ }
{}

/// Where a text has a problem line that is well formed, its first fault is the first word with which the
/// words of the constraints begin those of no formula with this problem line; or there is no such word, and
/// the text ends within a constraint, or behind fewer constraints than the problem line says.
pub fn a_first_fault_leaves_no_formula()
    ensures header { (bytes : List ℕ) (fault : Refusal) → IsFirstFault bytes fault → bad_token ≤ fault.why → (h : Header) × (lines : List Line) × HasHeader bytes h lines }
    ensures causes { (bytes : List ℕ) (h : Header) (lines : List Line) (fault : Refusal) → HasHeader bytes h lines → IsFirstFault bytes fault →
        (bad_token ≤ fault.why) × (fault.why ≤ missing_constraint) }
    ensures word { (bytes : List ℕ) (h : Header) (lines : List Line) (fault : Refusal) → HasHeader bytes h lines → IsFirstFault bytes fault →
        fault.why ≤ extra_constraint → IsFirstWrong h lines fault.line }
    ensures within { (bytes : List ℕ) (h : Header) (lines : List Line) (fault : Refusal) → HasHeader bytes h lines → IsFirstFault bytes fault →
        fault.why ≡ unended → (fault.line ≡ length (lines_of bytes)) × EndWithin h (words_in lines) }
    ensures few { (bytes : List ℕ) (h : Header) (lines : List Line) (fault : Refusal) → HasHeader bytes h lines → IsFirstFault bytes fault →
        fault.why ≡ missing_constraint → (fault.line ≡ length (lines_of bytes)) × AreTooFew h (words_in lines) }
{}

/// Conversely, a text with a well formed problem line whose words leave no formula in one of these ways has
/// its first fault there.
pub fn what_leaves_no_formula_is_the_first_fault()
    ensures word { (bytes : List ℕ) (h : Header) (lines : List Line) (number : ℕ) → HasHeader bytes h lines → HasGuards h →
        IsFirstWrong h lines number → (why : ℕ) × (why ≤ extra_constraint) × IsFirstFault bytes (refusal number why) }
    ensures within { (bytes : List ℕ) (h : Header) (lines : List Line) → HasHeader bytes h lines → HasGuards h →
        EndWithin h (words_in lines) → IsFirstFault bytes (refusal (length (lines_of bytes)) unended) }
    ensures few { (bytes : List ℕ) (h : Header) (lines : List Line) → HasHeader bytes h lines →
        AreTooFew h (words_in lines) → IsFirstFault bytes (refusal (length (lines_of bytes)) missing_constraint) }
{}
