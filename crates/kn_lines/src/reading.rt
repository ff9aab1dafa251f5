//! Reading a line by its first word. Its form alone is judged: which ids are live is for the checker to know.
ghost use Rattle.std.specs.Prelude.{◌≡◌, [], true, false, Some, None, if◌then◌else◌, IfOk, IfSome, IfNone, IsErrOf};
ghost use Rattle.kn_text.specs.Lines.{is_skipped, words_of};
ghost use Rattle.kn_lines.specs.Lines.{SpellsLine, SpellsNone, IsWellFormed};
ghost use Rattle.kn_lines.specs.Reading.{literals_behind, ids_behind, if_last, header_of, arm_of, definition_of, derived_of, pair_of, klause_of, unfolding_of, delete_of, line_of};

use crate::{Arm, Ids, Line, LineError, NoMemory};
use kn_logic::{Constraint, Lit};
use kn_text::{first_word, is_end, is_skipped, literal, number};
use std::alloc::Global;

/// The line of a proof that these bytes spell, which hold no line feed; `None` where the line is skipped,
/// since it is blank or a comment. `Bad` where it is neither, `Memory` where memory is short.
pub fn read_line(alloc: Global, bytes: &[u8]) -> Result<Option<Line>, LineError>
    ensures spelled { IfOk result (λ read. IfSome read (λ line. SpellsLine bytes.now line)) }
    ensures formed { IfOk result (λ read. IfSome read (λ line. IsWellFormed line)) }
    ensures kept { IfOk result (λ read. IfSome read (λ _. is_skipped (words_of bytes.now) ≡ false)) }
    ensures skipped { IfOk result (λ read. IfNone read (is_skipped (words_of bytes.now) ≡ true)) }
    ensures bad { IsErrOf result LineError.Bad → SpellsNone bytes.now }
{
    if is_skipped(bytes) {
        return Ok(None);
    }
    match content(alloc, bytes)? {
        Some(line) => Ok(Some(line)),
        None => Err(LineError::Bad),
    }
}

// The line of a proof that the bytes spell, if they spell one.
fn content(alloc: Global, bytes: &[u8]) -> Result<Option<Line>, NoMemory>
    ensures { IfOk result (λ read. read ≡ line_of (words_of bytes.now)) }
{
    let Some((word, rest)) = first_word(bytes) else {
        return Ok(None);
    };
    if word == b"p".as_slice() {
        return Ok(header(rest));
    }
    if word == b"d".as_slice() {
        return Ok(definition(rest));
    }
    if word == b"r".as_slice() {
        return derived(alloc, false, rest);
    }
    if word == b"l".as_slice() {
        return derived(alloc, true, rest);
    }
    if word == b"k".as_slice() {
        return klause(alloc, rest);
    }
    if word == b"g".as_slice() {
        return Ok(unfolding(rest));
    }
    if word == b"x".as_slice() {
        return delete(alloc, rest);
    }
    Ok(None)
}

// The header of which these are the words behind the `p`.
fn header(bytes: &[u8]) -> Option<Line>
    ensures { result ≡ header_of (words_of bytes.now) }
{
    let (format, rest) = first_word(bytes)?;
    let (first, rest) = first_word(rest)?;
    let (second, rest) = first_word(rest)?;
    if first_word(rest).is_some() || format != b"kpf".as_slice() {
        return None;
    }
    let vars = number(first)?;
    let constraints = number(second)?;
    Some(Line::Header { vars, constraints })
}

// The definition of which these are the words behind the `d`.
fn definition(bytes: &[u8]) -> Option<Line>
    ensures { result ≡ definition_of (words_of bytes.now) }
{
    let (test, rest) = first_word(bytes)?;
    let (first, rest) = first_word(rest)?;
    let (second, rest) = first_word(rest)?;
    if first_word(rest).is_some() {
        return None;
    }
    let x = literal(test)?;
    let high = arm(first)?;
    let low = arm(second)?;
    Some(Line::Define { x, high, low })
}

// The arm that the word spells.
fn arm(word: &[u8]) -> Option<Arm>
    ensures { result ≡ arm_of word.now }
{
    if word == b"T".as_slice() {
        return Some(Arm::True);
    }
    if word == b"F".as_slice() {
        return Some(Arm::False);
    }
    Some(Arm::Lit(literal(word)?))
}

// The lemma, or the learned clause, of which these are the words behind the first.
fn derived(alloc: Global, learned: bool, bytes: &[u8]) -> Result<Option<Line>, NoMemory>
    ensures { IfOk result (λ read. read ≡ derived_of learned (words_of bytes.now)) }
{
    let mut lits = Vec::new(alloc);
    let Some(rest) = literals(&mut lits, bytes)? else {
        return Ok(None);
    };
    let Some(hints) = id_list(alloc, rest)? else {
        return Ok(None);
    };
    let clause = Constraint::new(1, lits);
    if learned {
        Ok(Some(Line::Learned { clause, hints }))
    } else {
        Ok(Some(Line::Lemma { clause, hints }))
    }
}

// The klause of which these are the words behind the `k`.
fn klause(alloc: Global, bytes: &[u8]) -> Result<Option<Line>, NoMemory>
    ensures { IfOk result (λ read. read ≡ klause_of (words_of bytes.now)) }
{
    let Some((word, rest)) = first_word(bytes) else {
        return Ok(None);
    };
    let Some(bound) = number(word) else {
        return Ok(None);
    };
    let mut lits = Vec::new(alloc);
    let Some(rest) = literals(&mut lits, rest)? else {
        return Ok(None);
    };
    let Some((root, unit)) = pair(rest) else {
        return Ok(None);
    };
    let klause = Constraint::new(bound, lits);
    Ok(Some(Line::Klause { klause, root, unit }))
}

// The unfolding of which these are the words behind the `g`.
fn unfolding(bytes: &[u8]) -> Option<Line>
    ensures { result ≡ unfolding_of (words_of bytes.now) }
{
    let (klause, root) = pair(bytes)?;
    Some(Line::Unfold { klause, root })
}

// Two numbers of at least 1, if these are the only words.
fn pair(bytes: &[u8]) -> Option<(u64, u64)>
    ensures { result ≡ pair_of (words_of bytes.now) }
{
    let (first, rest) = first_word(bytes)?;
    let (second, rest) = first_word(rest)?;
    if first_word(rest).is_some() {
        return None;
    }
    let a = number(first)?;
    let b = number(second)?;
    if a == 0 || b == 0 {
        return None;
    }
    Some((a, b))
}

// The deletion of which these are the words behind the first.
fn delete(alloc: Global, bytes: &[u8]) -> Result<Option<Line>, NoMemory>
    ensures { IfOk result (λ read. read ≡ delete_of (words_of bytes.now)) }
{
    let Some(ids) = id_list(alloc, bytes)? else {
        return Ok(None);
    };
    Ok(Some(Line::Delete { ids }))
}

// Appends the literals up to an end mark, and returns what stands behind that mark; none where a word is
// no literal, or no end mark comes.
fn literals<'a>(lits: &mut Vec<Lit>, bytes: &'a [u8]) -> Result<Option<&'a [u8]>, NoMemory>
    ensures some { IfOk result (λ read. IfSome read (λ rest. literals_behind lits.old.items (words_of bytes.entry.now) ≡ Some (lits.new.items, words_of rest.now))) }
    ensures none { IfOk result (λ read. IfNone read (literals_behind lits.old.items (words_of bytes.entry.now) ≡ None)) }
{
    let mut rest = bytes;
    while let Some((word, behind)) = first_word(rest) {
        let Some(lit) = literal(word) else {
            return Ok(if is_end(word) { Some(behind) } else { None });
        };
        lits.push(lit)?;
        rest = behind;
    }
    Ok(None)
}

// The ids up to an end mark; none where a word is no id, no end mark comes, or a word stands behind it.
fn id_list(alloc: Global, bytes: &[u8]) -> Result<Option<Ids>, NoMemory>
    ensures { IfOk result (λ read. read ≡ ids_behind [] (words_of bytes.now)) }
{
    let mut ids = Vec::new(alloc);
    let mut rest = bytes;
    while let Some((word, behind)) = first_word(rest) {
        let Some(id) = number(word) else {
            return Ok(None);
        };
        if id == 0 {
            return Ok(last_ids(ids, behind));
        }
        ids.push(id)?;
        rest = behind;
    }
    Ok(None)
}

// The ids, if no word stands behind them.
fn last_ids(ids: Vec<u64>, bytes: &[u8]) -> Option<Ids>
    ensures { result ≡ if_last ids.items (words_of bytes.now) }
{
    if first_word(bytes).is_some() {
        return None;
    }
    Some(Ids::new(ids))
}
