//! Cutting lines and words from the front of a text. Nothing is copied: what is cut and what is left are slices.
ghost use Rattle.std.specs.Prelude.{◌≡◌, ◌<◌, ◌≤◌, ◌==◌, List, [], ◌∷◌, not, length, IfNone, IfSome};
ghost use Rattle.std.specs.List.{prefix_len};
ghost use Rattle.kn_text.specs.Lines.{HasNoFeed, is_blank, is_skipped, lines_of, words_of};

use memchr::memchr;

/// The first line of a text, without its line feed, and what stands behind that line feed; none where the
/// text is empty.
pub fn first_line(text: &[u8]) -> Option<(&[u8], &[u8])>
    ensures none { IfNone result (text.now ≡ []) }
    ensures some { IfSome result (λ x. lines_of text.now ≡ x.0.now ∷ lines_of x.1.now) }
    ensures shorter { IfSome result (λ x. length x.1.now < length text.now) }
    ensures within { IfSome result (λ x. HasNoFeed x.0.now) }
{
    if text.is_empty() {
        return None;
    }
    let (line, behind) = text.split_at(line_len(text));
    if behind.is_empty() {
        return Some((line, behind));
    }
    let (_, rest) = behind.split_at(1);
    Some((line, rest))
}

/// The first word of a line, and what stands behind that word; none where the line has no words.
pub fn first_word(line: &[u8]) -> Option<(&[u8], &[u8])>
    ensures none { IfNone result (words_of line.now ≡ []) }
    ensures some { IfSome result (λ x. words_of line.now ≡ x.0.now ∷ words_of x.1.now) }
    ensures shorter { IfSome result (λ x. length x.1.now < length line.now) }
    ensures filled { IfSome result (λ x. 0 < length x.0.now) }
{
    let (_, front) = line.split_at(blanks(line));
    if front.is_empty() {
        return None;
    }
    Some(front.split_at(word_len(front)))
}

/// Whether a line is blank, or a comment: its first word begins with a `c`.
pub fn is_skipped(line: &[u8]) -> bool
    ensures { result ≡ is_skipped (words_of line.now) }
{
    match first_word(line) {
        Some((word, _)) => word.first() == Some(&b'c'),
        None => true,
    }
}

// The number of bytes before the first line feed, or in all where there is none.
fn line_len(text: &[u8]) -> usize
    ensures within { result ≤ length text.now }
    ensures value { result ≡ prefix_len (λ b. not (b == 10)) text.now }
{
    match memchr(b'\n', text) {
        Some(at) => at,
        None => text.len(),
    }
}

// Whether a byte stands between words.
fn blank(b: u8) -> bool
    ensures { result ≡ is_blank b }
{
    b == b' ' || b == b'\t' || b == b'\r'
}

// The number of blank bytes at the front of a line.
fn blanks(line: &[u8]) -> usize
    ensures within { result ≤ length line.now }
    ensures value { result ≡ prefix_len is_blank line.now }
{
    for (i, b) in line.iter().enumerate() {
        if !blank(*b) {
            return i;
        }
    }
    line.len()
}

// The number of bytes at the front of a line that are not blank.
fn word_len(line: &[u8]) -> usize
    ensures within { result ≤ length line.now }
    ensures value { result ≡ prefix_len (λ b. not (is_blank b)) line.now }
{
    for (i, b) in line.iter().enumerate() {
        if blank(*b) {
            return i;
        }
    }
    line.len()
}
