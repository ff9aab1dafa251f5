//! The words of tables, 64 indices each: that of a clause or a count, and the first one in which two tables differ.
ghost use Rattle.std.specs.Prelude.{◌≡◌, ◌≢◌, ◌≤◌, ◌<◌, ◌+◌, ◌*◌, ◌^◌, ℕ, length, slice_index, count_by, nat_le, bit_and, bit_or};
ghost use Rattle.std.specs.List.{list_any};
ghost use Rattle.kn_tables.specs.Indices.{has_bit};
ghost use Rattle.kn_tables.specs.Tables.{AreBelow, is_true_at};
ghost use Rattle.kn_tables.specs.Words.{words_of, HasValues};

use crate::TableLit;
use crate::lanes::{LANES, are_same, load};

/// The values of the variables 0 to 5 at the 64 indices of a word.
const PATTERNS: [u64; 6] = [
    0xaaaa_aaaa_aaaa_aaaa,
    0xcccc_cccc_cccc_cccc,
    0xf0f0_f0f0_f0f0_f0f0,
    0xff00_ff00_ff00_ff00,
    0xffff_0000_ffff_0000,
    0xffff_ffff_0000_0000,
];

/// The number of words of a table over so many variables.
pub fn word_count(vars: u8) -> usize
    requires { vars ≤ 12 }
    ensures count { result ≡ words_of vars }
    ensures most { result ≤ 64 }
{
    if vars <= 6 { 1 } else { 1 << (vars - 6) }
}

/// The words of a table with the same value at each index.
pub fn filled(value: bool) -> [u64; 64]
    ensures { (k : ℕ) → k < 64 → HasValues (λ _. value) k (slice_index result k) }
{
    if value { [u64::MAX; 64] } else { [0; 64] }
}

/// The word at this place of the table of a clause.
pub fn clause_word(lits: &[TableLit], place: usize) -> u64
    requires place { place < 64 }
    requires below { AreBelow 12 lits.now }
    ensures { HasValues (λ i. list_any (is_true_at i) lits.now) place result }
{
    let mut word = 0;
    for lit in lits {
        word |= literal_word(*lit, place);
    }
    word
}

/// The word at this place of the table of a literal.
fn literal_word(lit: TableLit, place: usize) -> u64
    requires place { place < 64 }
    requires below { lit.var < 12 }
    ensures { HasValues (λ i. is_true_at i lit) place result }
{
    let word = variable_word(lit.var, place);
    if lit.positive { word } else { !word }
}

/// The word at this place of the table of a variable.
fn variable_word(var: u8, place: usize) -> u64
    requires place { place < 64 }
    requires below { var < 12 }
    ensures { HasValues (λ i. has_bit i var) place result }
{
    if var < 6 {
        PATTERNS[var as usize]
    } else if (place >> (var - 6)) & 1 == 1 {
        u64::MAX
    } else {
        0
    }
}

/// The word at this place of the table of "at least `bound` of these".
pub fn count_word(lits: &[TableLit], bound: u64, place: usize) -> u64
    requires place { place < 64 }
    requires below { AreBelow 12 lits.now }
    ensures { HasValues (λ i. nat_le bound (count_by (is_true_at i) lits.now)) place result }
{
    if bound <= 12 {
        low_word(lits, bound as usize, place)
    } else {
        high_word(lits, bound, place)
    }
}

/// The same for a low bound: all values of the word at once, for each number up to the bound.
fn low_word(lits: &[TableLit], bound: usize, place: usize) -> u64
    requires place { place < 64 }
    requires below { AreBelow 12 lits.now }
    requires low { bound ≤ 12 }
    ensures { HasValues (λ i. nat_le bound (count_by (is_true_at i) lits.now)) place result }
{
    let mut words = [0; 13];
    words[0] = u64::MAX;
    for lit in lits {
        let word = literal_word(*lit, place);
        count_in(&mut words, word, bound);
    }
    words[bound]
}

/// One literal more comes to the words of "at least" each number up to the bound.
fn count_in(words: &mut [u64], word: u64, bound: usize)
    requires { bound < length words.old }
    ensures long { length words.new ≡ length words.old }
    ensures first { slice_index words.new 0 ≡ slice_index words.old 0 }
    ensures more { (k : ℕ) → k < bound → slice_index words.new (k + 1) ≡ bit_or (slice_index words.old (k + 1)) (bit_and (slice_index words.old k) word) }
{
    for above in 0..bound {
        let number = bound - above;
        words[number] = words[number] | (words[number - 1] & word);
    }
}

/// The same for any bound, one value after another.
fn high_word(lits: &[TableLit], bound: u64, place: usize) -> u64
    requires place { place < 64 }
    requires below { AreBelow 12 lits.now }
    ensures { HasValues (λ i. nat_le bound (count_by (is_true_at i) lits.now)) place result }
{
    let mut word = 0;
    for bit in 0..64 {
        if bound <= true_count(lits, 64 * place + bit) {
            word |= 1 << bit;
        }
    }
    word
}

/// How many places of these literals have one that is true at an index.
fn true_count(lits: &[TableLit], index: usize) -> u64
    requires { AreBelow 12 lits.now }
    ensures { result ≡ count_by (is_true_at index) lits.now }
{
    let mut count = 0;
    for lit in lits {
        if is_true_at(*lit, index) {
            count += 1;
        }
    }
    count
}

/// Whether a literal is true at an index.
fn is_true_at(lit: TableLit, index: usize) -> bool
    requires { lit.var < 12 }
    ensures { result ≡ is_true_at index lit }
{
    ((index >> lit.var) & 1 == 1) == lit.positive
}

/// How many words two tables have in common, from the first, of so many.
pub fn equal_words(words: &[u64], other: &[u64], count: usize) -> usize
    requires words { count ≤ length words.now }
    requires other { count ≤ length other.now }
    ensures within { result ≤ count }
    ensures equal { (k : ℕ) → k < result → slice_index words.now k ≡ slice_index other.now k }
    ensures next { result < count → slice_index words.now result ≢ slice_index other.now result }
{
    for place in LANES * equal_blocks(words, other, count / LANES)..count {
        if words[place] != other[place] {
            return place;
        }
    }
    count
}

/// How many blocks of words two tables have in common, from the first, of so many.
fn equal_blocks(words: &[u64], other: &[u64], blocks: usize) -> usize
    requires words { LANES * blocks ≤ length words.now }
    requires other { LANES * blocks ≤ length other.now }
    ensures within { result ≤ blocks }
    ensures equal { (k : ℕ) → k < LANES * result → slice_index words.now k ≡ slice_index other.now k }
{
    for block in 0..blocks {
        let at = LANES * block;
        if !are_same(load(words, at), load(other, at)) {
            return block;
        }
    }
    blocks
}

/// The lowest bit at which two words differ.
pub fn first_unequal_bit(word: u64, other: u64) -> usize
    requires { word ≢ other }
    ensures within { result < 64 }
    ensures differs { has_bit word result ≢ has_bit other result }
    ensures before { (p : ℕ) → p < result → has_bit word p ≡ has_bit other p }
{
    (word ^ other).trailing_zeros() as usize
}
