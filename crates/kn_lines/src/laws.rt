//! Reading undoes writing, and words spell at most one line: whoever logs a line knows what a checker will read.
ghost use Rattle.std.specs.Prelude.{ℕ, ◌≡◌, List, false};
ghost use Rattle.std.specs.List.{join_with_byte};
ghost use Rattle.kn_text.specs.Lines.{is_skipped, IsContent, IsPlainLine};
ghost use Rattle.kn_lines.specs.declared.line.Line.{Line};
ghost use Rattle.kn_lines.specs.Lines.{IsInRange, IsWellFormed, line_words, SpellsLine, SpellsWords};

/// A line is read as it was written, its words can stand in a text, and no reader skips it.
pub fn written_line_is_read()
    ensures read { (line : Line) → IsWellFormed line → IsInRange line → SpellsLine (join_with_byte 32 (line_words line)) line }
    ensures plain { (line : Line) → IsInRange line → IsPlainLine (line_words line) }
    ensures content { (line : Line) → IsContent (line_words line) }
{}

/// Words spell one line at most, and never one that is skipped. What they spell can be written.
pub fn one_spelling()
    ensures one { (words : List (List ℕ)) (a : Line) (b : Line) → SpellsWords words a → SpellsWords words b → a ≡ b }
    ensures kept { (words : List (List ℕ)) (line : Line) → SpellsWords words line → is_skipped words ≡ false }
    ensures formed { (words : List (List ℕ)) (line : Line) → SpellsWords words line → IsWellFormed line }
    ensures range { (words : List (List ℕ)) (line : Line) → SpellsWords words line → IsInRange line }
{}
