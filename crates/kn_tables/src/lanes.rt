//! Four words at once: all vector code is here, and its contracts say what happens to each word.
ghost use Rattle.std.specs.Prelude.{◌≡◌, ◌≤◌, ◌<◌, ◌+◌, ℕ, length, slice_index, IsTrue};
ghost use Rattle.kn_tables.specs.Words.{joined, folded, HasLanes, IsBlock};

use crate::join::Joining;
use std::simd::prelude::*;

/// The number of words that are handled at once.
pub const LANES: usize = 4;

/// The words from a place on.
pub fn load(words: &[u64], at: usize) -> u64x4
    requires { at + LANES ≤ length words.now }
    ensures { HasLanes (λ i. slice_index words.now (at + i)) result }
{
    u64x4::from_slice(&words[at..])
}

/// Puts words at a place.
pub fn store(words: &mut [u64], at: usize, lanes: u64x4)
    requires { at + LANES ≤ length words.old }
    ensures { IsBlock at (λ i. slice_index lanes i) words.old words.new }
{
    lanes.copy_to_slice(&mut words[at..]);
}

/// Joins words.
pub fn join_lanes(lanes: u64x4, other: u64x4, how: Joining) -> u64x4
    ensures { HasLanes (λ i. joined how (slice_index lanes i) (slice_index other i)) result }
{
    match how {
        Joining::And => lanes & other,
        Joining::Or => lanes | other,
    }
}

/// Joins in each word the bits under the mask with those `shift` places above them, and puts the result at
/// both.
pub fn fold_lanes(lanes: u64x4, mask: u64, shift: u32) -> u64x4
    requires { shift < 64 }
    ensures { HasLanes (λ i. folded mask shift (slice_index lanes i)) result }
{
    let shifts = u64x4::splat(shift as u64);
    let both = (lanes | (lanes >> shifts)) & u64x4::splat(mask);
    both | (both << shifts)
}

/// Whether words are the same. No claim where they are not.
pub fn are_same(lanes: u64x4, other: u64x4) -> bool
    ensures { IsTrue result → (i : ℕ) → i < LANES → slice_index lanes i ≡ slice_index other i }
{
    lanes.simd_ne(other).to_bitmask() == 0
}
