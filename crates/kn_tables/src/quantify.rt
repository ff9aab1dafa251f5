//! "For some value of a variable": below variable 6 by masks and shifts within words, else by pairs of words.
ghost use Rattle.std.specs.Prelude.{◌≡◌, ◌≤◌, ◌<◌, ◌+◌, ◌*◌, ◌^◌, ◌||◌, ℕ, Bool, true, false, not, length, slice_index};
ghost use Rattle.kn_tables.specs.Indices.{has_bit, index_with};
ghost use Rattle.kn_tables.specs.Tables.{some_value_at};
ghost use Rattle.kn_tables.specs.Words.{folded, either};

use crate::join::Joining;
use crate::lanes::{LANES, fold_lanes, join_lanes, load, store};

/// The bits of a word at whose indices a variable from 0 to 5 is false.
const LOW_MASKS: [u64; 6] = [
    0x5555_5555_5555_5555,
    0x3333_3333_3333_3333,
    0x0f0f_0f0f_0f0f_0f0f,
    0x00ff_00ff_00ff_00ff,
    0x0000_ffff_0000_ffff,
    0x0000_0000_ffff_ffff,
];

/// Makes each of the first `count` words "for some value" of a variable from 0 to 5.
pub fn join_halves(words: &mut [u64], count: usize, var: u8)
    requires words { count ≤ length words.old }
    requires within { var < 6 }
    ensures { (k : ℕ) (p : ℕ) → k < count → p < 64 → has_bit (slice_index words.new k) p ≡ some_value_at var (has_bit (slice_index words.old k)) p }
{
    fold_words(words, count, low_mask(var), 1 << var);
}

/// The bits at whose indices a variable from 0 to 5 is false.
fn low_mask(var: u8) -> u64
    requires { var < 6 }
    ensures { (p : ℕ) → p < 64 → has_bit result p ≡ not (has_bit p var) }
{
    LOW_MASKS[var as usize]
}

/// Joins in each of the first `count` words the bits under the mask with those `shift` places above them,
/// and puts the result at both: in lanes, and one word at a time where fewer are left.
fn fold_words(words: &mut [u64], count: usize, mask: u64, shift: u32)
    requires words { count ≤ length words.old }
    requires shift { shift < 64 }
    ensures { (k : ℕ) → k < count → slice_index words.new k ≡ folded mask shift (slice_index words.old k) }
{
    let blocks = count / LANES;
    fold_blocks(words, blocks, mask, shift);
    for place in LANES * blocks..count {
        words[place] = fold_word(words[place], mask, shift);
    }
}

/// The same in as many blocks of words.
fn fold_blocks(words: &mut [u64], blocks: usize, mask: u64, shift: u32)
    requires words { LANES * blocks ≤ length words.old }
    requires shift { shift < 64 }
    ensures folded { (k : ℕ) → k < LANES * blocks → slice_index words.new k ≡ folded mask shift (slice_index words.old k) }
    ensures rest { (k : ℕ) → LANES * blocks ≤ k → slice_index words.new k ≡ slice_index words.old k }
{
    for block in 0..blocks {
        let at = LANES * block;
        let both = fold_lanes(load(words, at), mask, shift);
        store(words, at, both);
    }
}

/// Joins the bits under the mask with those `shift` places above them, and puts the result at both.
fn fold_word(word: u64, mask: u64, shift: u32) -> u64
    requires { shift < 64 }
    ensures { result ≡ folded mask shift word }
{
    let both = (word | (word >> shift)) & mask;
    both | (both << shift)
}

/// Makes of the words of a table before the first 2^n words of "for some value" of one of the n variables
/// that number its words, counted from 0.
pub fn join_partners(words: &mut [u64], before: &[u64], n: u8, var: u8)
    requires n { n ≤ 6 }
    requires words { 2 ^ n ≤ length words.old }
    requires before { 2 ^ n ≤ length before.now }
    requires var { var < n }
    ensures { (k : ℕ) → k < 2 ^ n → slice_index words.new k ≡ either (slice_index before.now) var k }
{
    let count = 1 << n;
    if var < 2 {
        partner_words(words, before, count, var);
    } else {
        partner_blocks(words, before, count / LANES, var);
    }
}

/// The same, one word at a time.
fn partner_words(words: &mut [u64], before: &[u64], count: usize, var: u8)
    requires most { count ≤ 64 }
    requires words { count ≤ length words.old }
    requires before { (k : ℕ) (value : Bool) → k < count → index_with k var value < length before.now }
    requires var { var < 6 }
    ensures { (k : ℕ) → k < count → slice_index words.new k ≡ either (slice_index before.now) var k }
{
    for place in 0..count {
        words[place] = before[with_bit(place, var)] | before[without_bit(place, var)];
    }
}

/// The same in blocks of words, at a variable that gives the words of a block one value.
fn partner_blocks(words: &mut [u64], before: &[u64], blocks: usize, var: u8)
    requires most { LANES * blocks ≤ 64 }
    requires words { LANES * blocks ≤ length words.old }
    requires before { (k : ℕ) (value : Bool) → k < LANES * blocks → index_with k var value < length before.now }
    requires var { (2 ≤ var) × (var < 6) }
    ensures { (k : ℕ) → k < LANES * blocks → slice_index words.new k ≡ either (slice_index before.now) var k }
{
    for block in 0..blocks {
        let at = LANES * block;
        let high = load(before, with_bit(at, var));
        let low = load(before, without_bit(at, var));
        store(words, at, join_lanes(high, low, Joining::Or));
    }
}

/// The place with this bit set.
fn with_bit(place: usize, bit: u8) -> usize
    requires place { place < 64 }
    requires bit { bit < 6 }
    ensures { result ≡ index_with place bit true }
{
    place | 1 << bit
}

/// The place with this bit cleared.
fn without_bit(place: usize, bit: u8) -> usize
    requires place { place < 64 }
    requires bit { bit < 6 }
    ensures { result ≡ index_with place bit false }
{
    place & !(1 << bit)
}
