//! Numbers and literals as words. What needs more than 64 bits is no number at all, and never a smaller one.
ghost use Rattle.std.specs.Prelude.{◌≡◌, ◌<◌, ◌+◌, ◌++◌, decimal, length, vec_capacity, vec_len, OnErr, OnOk};
ghost use Rattle.kn_text.specs.Numbers.{is_end, literal_from, literal_of, literal_word, number_of};

use itoa::Buffer;
use kn_logic::{Lit, NoMemory};

/// The number that a word spells: from 0 to 2^64 - 1, in decimal digits alone, of which the first may be
/// zeros. None where the word spells none, or a larger one.
pub fn number(word: &[u8]) -> Option<u64>
    ensures { result ≡ number_of word.now }
{
    if word.is_empty() {
        return None;
    }
    let mut value: u64 = 0;
    for b in word {
        if !b.is_ascii_digit() {
            return None;
        }
        value = value.checked_mul(10)?.checked_add(u64::from(*b - b'0'))?;
    }
    Some(value)
}

/// The literal that a word spells: a number of at least 1, the variable, behind a `-` where the literal is
/// negative.
pub fn literal(word: &[u8]) -> Option<Lit>
    ensures { result ≡ literal_of word.now }
{
    match word {
        [b'-', digits @ ..] => literal_from(false, number(digits)?),
        _ => literal_from(true, number(word)?),
    }
}

/// Whether a word ends a list of literals: a number of value 0.
pub fn is_end(word: &[u8]) -> bool
    ensures { result ≡ is_end word.now }
{
    number(word) == Some(0)
}

// The literal of a variable, which is at least 1.
fn literal_from(positive: bool, variable: u64) -> Option<Lit>
    ensures { result ≡ literal_from positive variable }
{
    if variable == 0 {
        return None;
    }
    Some(Lit::new(variable, positive))
}

/// Appends a number in decimal digits. It fails only where `out` lacks room for them, and then leaves its
/// bytes as they were.
pub fn push_number(out: &mut Vec<u8>, n: u64) -> Result<(), NoMemory>
    ensures ok { OnOk result (out.new.items ≡ out.old.items ++ decimal n) }
    ensures err { OnErr result (out.new.items ≡ out.old.items) }
    ensures full { OnErr result (vec_capacity out.old < vec_len out.old + length (decimal n)) }
{
    let mut buffer = Buffer::new();
    out.extend_from_slice(buffer.format(n).as_bytes())
}

/// Appends the word of a literal: its variable in decimal digits, behind a `-` where it is negative. It
/// fails only where `out` lacks room for the word, and then leaves its bytes as they were.
pub fn push_literal(out: &mut Vec<u8>, lit: Lit) -> Result<(), NoMemory>
    ensures ok { OnOk result (out.new.items ≡ out.old.items ++ literal_word lit) }
    ensures err { OnErr result (out.new.items ≡ out.old.items) }
    ensures full { OnErr result (vec_capacity out.old < vec_len out.old + length (literal_word lit)) }
{
    if lit.is_positive() {
        return push_number(out, lit.var());
    }
    out.push(b'-')?;
    let pushed = push_number(out, lit.var());
    if pushed.is_err() {
        out.pop();
    }
    pushed
}
