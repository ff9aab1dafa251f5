//! "And" and "or" of two tables, word by word: no index matters here, so that lanes serve as well as single words.
ghost use Rattle.std.specs.Prelude.{◌≡◌, ◌≤◌, ◌<◌, ◌+◌, ◌*◌, ℕ, length, slice_index};
ghost use Rattle.kn_tables.specs.Words.{joined, AreJoined};

use crate::lanes::{LANES, join_lanes, load, store};

/// How two tables are joined.
#[derive(Clone, Copy, Debug, PartialEq, Eq)]
pub enum Joining {
    And,
    Or,
}

/// Joins the first `count` words of a table with those of another: in lanes, and one at a time where fewer
/// are left.
pub fn join(words: &mut [u64], other: &[u64], count: usize, how: Joining)
    requires words { count ≤ length words.old }
    requires other { count ≤ length other.now }
    ensures { AreJoined how count other.now words.old words.new }
{
    let blocks = count / LANES;
    join_blocks(words, other, blocks, how);
    for place in LANES * blocks..count {
        words[place] = join_word(words[place], other[place], how);
    }
}

/// Joins as many blocks of words with those of another table.
fn join_blocks(words: &mut [u64], other: &[u64], blocks: usize, how: Joining)
    requires words { LANES * blocks ≤ length words.old }
    requires other { LANES * blocks ≤ length other.now }
    ensures joined { AreJoined how (LANES * blocks) other.now words.old words.new }
    ensures rest { (k : ℕ) → LANES * blocks ≤ k → slice_index words.new k ≡ slice_index words.old k }
{
    for block in 0..blocks {
        let at = LANES * block;
        let both = join_lanes(load(words, at), load(other, at), how);
        store(words, at, both);
    }
}

/// Joins two words.
fn join_word(word: u64, other: u64, how: Joining) -> u64
    ensures { result ≡ joined how word other }
{
    match how {
        Joining::And => word & other,
        Joining::Or => word | other,
    }
}
