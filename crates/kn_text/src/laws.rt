//! That reading undoes writing, for lines, numbers and literals: what the contracts of whole texts above rest on.
ghost use Rattle.std.specs.Prelude.{ℕ, ◌≡◌, ◌+◌, ◌<◌, ◌^◌, ◌++◌, if◌then◌else◌, List, [], ◌∷◌, map, slice_index, true, false, decimal};
ghost use Rattle.std.specs.List.{AllByRecursion, flat_map, join_with_byte};
ghost use Rattle.kn_logic.specs.Literals.{Literal};
ghost use Rattle.kn_text.specs.Lines.{content_from, content_of, is_skipped, lines_of, line_text, numbered, unless_skipped, words_of, HasNoFeed, IsContent, IsPlain, IsPlainLine};
ghost use Rattle.kn_text.specs.Numbers.{is_end, literal_of, literal_word, number_of, IsDigit, IsWritable};

/// Lines of plain words are read as they were written: a line has the words that it was made of, and a
/// text the lines.
pub fn written_lines_are_read()
    ensures words { (words : List (List ℕ)) → IsPlainLine words → words_of (join_with_byte 32 words) ≡ words }
    ensures first { (words : List (List ℕ)) (rest : List ℕ) → IsPlainLine words →
        lines_of (line_text words ++ rest) ≡ join_with_byte 32 words ∷ lines_of rest }
    ensures lines { (lines : List (List (List ℕ))) → AllByRecursion IsPlainLine lines →
        lines_of (flat_map line_text lines) ≡ map (join_with_byte 32) lines }
    ensures all { (lines : List (List (List ℕ))) → AllByRecursion IsPlainLine lines →
        map words_of (lines_of (flat_map line_text lines)) ≡ lines }
{}

/// Written lines that are not skipped are the content of the text that they make, numbered from 1.
pub fn written_content_is_read()
    ensures first { (number : ℕ) (words : List (List ℕ)) (rest : List ℕ) → IsPlainLine words →
        content_from number (lines_of (line_text words ++ rest)) ≡ unless_skipped number words (content_from (number + 1) (lines_of rest)) }
    ensures all { (lines : List (List (List ℕ))) → AllByRecursion IsPlainLine lines → AllByRecursion IsContent lines →
        content_of (flat_map line_text lines) ≡ numbered 1 lines }
    ensures number { (n : ℕ) (words : List (List ℕ)) → n < 2 ^ 64 → IsContent (decimal n ∷ words) }
    ensures literal { (l : Literal) (words : List (List ℕ)) → l.variable < 2 ^ 64 → IsContent (literal_word l ∷ words) }
{}

/// What is read of a text is plain: no line holds a line feed, and the words of each line can be written
/// as a line again, from which the same words are read.
pub fn read_lines_are_plain()
    ensures lines { (text : List ℕ) → AllByRecursion HasNoFeed (lines_of text) }
    ensures line { (line : List ℕ) → HasNoFeed line → IsPlainLine (words_of line) }
    ensures all { (text : List ℕ) → AllByRecursion IsPlainLine (map words_of (lines_of text)) }
{}

/// A number of 64 bits is read as it was written, and its word can stand in a line.
pub fn written_numbers_are_read()
    ensures same { (n : ℕ) → n < 2 ^ 64 → number_of (decimal n) ≡ Some n }
    ensures plain { (n : ℕ) → n < 2 ^ 64 → IsPlain (decimal n) }
    ensures digits { (n : ℕ) → n < 2 ^ 64 → AllByRecursion IsDigit (decimal n) }
    ensures first { (n : ℕ) → n < 2 ^ 64 → IsDigit (slice_index (decimal n) 0) }
{}

/// A literal is read as it was written, and its word can stand in a line. The word of a positive literal
/// also spells a number, its variable; that of a negative one spells none.
pub fn written_literals_are_read()
    ensures same { (l : Literal) → IsWritable l → literal_of (literal_word l) ≡ Some l }
    ensures plain { (l : Literal) → l.variable < 2 ^ 64 → IsPlain (literal_word l) }
    ensures number { (l : Literal) → l.variable < 2 ^ 64 → number_of (literal_word l) ≡ (if l.positive then Some l.variable else None) }
    ensures lasting { (l : Literal) → IsWritable l → is_end (literal_word l) ≡ false }
{}

/// What a word can spell: a number of 64 bits, a literal of a variable from 1 on, or the end of a list,
/// which no literal is.
pub fn what_a_word_spells()
    ensures number { (word : List ℕ) (n : ℕ) → number_of word ≡ Some n → n < 2 ^ 64 }
    ensures literal { (word : List ℕ) (l : Literal) → literal_of word ≡ Some l → IsWritable l }
    ensures apart { (word : List ℕ) (l : Literal) → literal_of word ≡ Some l → is_end word ≡ false }
    ensures zero { is_end (48 ∷ []) ≡ true }
{}
