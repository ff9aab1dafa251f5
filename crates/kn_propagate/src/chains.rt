//! The entries of watched places, one for each, chained by the literal that stands there.
ghost use Rattle.std.specs.Prelude.{◌≡◌, ◌≢◌, ◌≤◌, ◌<◌, ◌+◌, ◌-◌, ◌*◌, ◌^◌, [], false, IfOk, IfSome, IfNone, IsTrue, OnOk, length, replicate, slice_index_or, slice_set};
ghost use Rattle.kn_propagate.specs.Chains.{code, spot_at, nobody, IsDrawn, AreSpare, IsUnused, hand_of, StandsIn, IsFound, heads_without, nexts_without, IsReleased};

use crate::NoMemory;
use kn_logic::Lit;
use std::alloc::{AllocError, Global};
use std::marker::Model;

/// A place of the constraint in a slot.
#[derive(Clone, Copy, Debug)]
pub struct Spot {
    pub owner: usize,
    pub place: usize,
}

/// A watched place, and the next entry of its chain: that entry's number plus 1, or 0 at the end.
#[derive(Clone, Copy, Debug)]
pub struct Entry {
    pub spot: Spot,
    pub next: usize,
}

/// An entry of a chain, and the one before it, if it is not the first.
#[derive(Clone, Copy, Debug)]
pub struct Found {
    pub before: Option<usize>,
    pub entry: usize,
}

/// Chains of entries: from the head of a chain on, each entry names the next. The chain of the last number is
/// the hand, which holds what is left of a chain that is walked. Entries that are not used stand in a
/// chain of their own.
#[derive(Debug, Drop)]
pub struct Chains {
    entries: Vec<Entry>,
    heads: Vec<usize>,
    spare: usize,
}

impl Model for Chains {
    ghost use Rattle.std.specs.Prelude.{map, vec_capacity};
    ghost use Rattle.kn_propagate.specs.Chains.{Chained};

    ghost Value = { Chained };

    ghost view = { λ c. record { spots = map (λ e. e.spot) c.entries.items; nexts = map (λ e. e.next) c.entries.items; heads = c.heads.items; spare = c.spare; room = vec_capacity c.entries } };
}

impl Chains {
    /// No entry, and for each literal over so many variables an empty chain. An error where memory is short.
    pub fn new(alloc: Global, vars: u64) -> Result<Chains, NoMemory>
        ensures small { IfOk result (λ c. 2 * vars + 3 < 2 ^ 64) }
        ensures value { IfOk result (λ c. c ≡ record { spots = []; nexts = []; heads = replicate (2 * vars + 3) 0; spare = 0; room = 0 }) }
    {
        let Some(count) = count_of(vars) else {
            return Err(AllocError);
        };
        Ok(Chains {
            entries: Vec::new(alloc),
            heads: vec![in alloc; 0; count]?,
            spare: 0,
        })
    }

    // how many entries there are, those that are not used counted
    #[cfg(test)]
    pub(crate) fn entry_count(&self) -> usize {
        self.entries.len()
    }

    /// The spot of an entry.
    pub fn spot(&self, entry: usize) -> Spot
        requires { entry < length self.now.spots }
        ensures { result ≡ spot_at self.now.spots entry }
    {
        self.entries[entry].spot
    }

    /// Puts an entry in front of a chain.
    pub fn lay(&mut self, chain: usize, entry: usize)
        requires chain { chain < length self.old.heads }
        requires entry { entry < length self.old.nexts }
        ensures nexts { self.new.nexts ≡ slice_set self.old.nexts entry (slice_index_or self.old.heads chain 0) }
        ensures heads { self.new.heads ≡ slice_set self.old.heads chain (entry + 1) }
        ensures spots { self.new.spots ≡ self.old.spots }
        ensures spare { self.new.spare ≡ self.old.spare }
    {
        self.entries[entry].next = self.heads[chain];
        self.heads[chain] = entry + 1;
    }

    /// Gives an entry another spot, and puts it in front of a chain.
    pub fn lay_at(&mut self, chain: usize, entry: usize, spot: Spot)
        requires chain { chain < length self.old.heads }
        requires entry { entry < length self.old.nexts }
        ensures nexts { self.new.nexts ≡ slice_set self.old.nexts entry (slice_index_or self.old.heads chain 0) }
        ensures heads { self.new.heads ≡ slice_set self.old.heads chain (entry + 1) }
        ensures spots { self.new.spots ≡ slice_set self.old.spots entry spot }
        ensures spare { self.new.spare ≡ self.old.spare }
        ensures room { self.new.room ≡ self.old.room }
    {
        let next = self.heads[chain];
        self.entries[entry] = Entry { spot, next };
        self.heads[chain] = entry + 1;
    }

    /// Takes room for so many new entries. Nothing changes where memory is short.
    pub fn reserve(&mut self, count: usize) -> Result<(), NoMemory>
        ensures same { self.new ≡ record self.old { room = self.new.room } }
        ensures room { OnOk result (length self.old.spots + count ≤ self.new.room) }
    {
        self.entries.reserve(count)?;
        Ok(())
    }

    /// An entry that is not used: the first of the spare ones, or a new one, for which there is room.
    pub fn unused(&mut self) -> usize
        requires room { length self.old.spots < self.old.room }
        requires spare { AreSpare self.old }
        ensures { IsUnused self.old self.new result }
    {
        if self.spare == 0 {
            return self.push();
        }
        let entry = self.spare - 1;
        self.spare = self.entries[entry].next;
        entry
    }

    // a new entry, for which there is room
    fn push(&mut self) -> usize
        requires room { length self.old.spots < self.old.room }
        requires spare { self.old.spare ≡ 0 }
        ensures { IsUnused self.old self.new result }
    {
        let entry = self.entries.len();
        let spot = Spot {
            owner: usize::MAX,
            place: 0,
        };
        let Ok(()) = self.entries.push(Entry { spot, next: 0 }) else {
            unreachable!()
        };
        entry
    }

    /// Takes the entry of a spot, which stands there, out of a chain: it is not used then.
    pub fn release(&mut self, chain: usize, spot: Spot)
        requires chain { chain < length self.old.heads }
        requires even { length self.old.nexts ≡ length self.old.spots }
        requires stands { StandsIn self.old chain spot }
        ensures { IsReleased self.old self.new chain spot }
    {
        let found = self.find(chain, spot);
        self.unlink(chain, &found);
        self.retire(found.entry);
    }

    // the entry of a spot in a chain in which it stands
    fn find(&self, chain: usize, spot: Spot) -> Found
        requires chain { chain < length self.now.heads }
        requires even { length self.now.nexts ≡ length self.now.spots }
        requires stands { StandsIn self.now chain spot }
        ensures { IsFound self.now chain spot result }
    {
        let mut before = None;
        let mut link = self.heads[chain];
        while link != 0 {
            let entry = link - 1;
            let at = self.entries[entry];
            if is_same(at.spot, spot) {
                return Found { before, entry };
            }
            before = Some(entry);
            link = at.next;
        }
        unreachable!()
    }

    // leaves an entry out of its chain
    fn unlink(&mut self, chain: usize, found: &Found)
        requires chain { chain < length self.old.heads }
        requires entry { found.now.entry < length self.old.nexts }
        requires before { IfSome found.now.before (λ e. e < length self.old.nexts) }
        ensures nexts { self.new.nexts ≡ nexts_without self.old found.now.before found.now.entry }
        ensures heads { self.new.heads ≡ heads_without self.old chain found.now.before found.now.entry }
        ensures spots { self.new.spots ≡ self.old.spots }
        ensures spare { self.new.spare ≡ self.old.spare }
        ensures room { self.new.room ≡ self.old.room }
    {
        let next = self.entries[found.entry].next;
        match found.before {
            Some(before) => self.entries[before].next = next,
            None => self.heads[chain] = next,
        }
    }

    // puts an entry, which no slot owns then, in front of those that are not used
    fn retire(&mut self, entry: usize)
        requires { entry < length self.old.nexts }
        ensures nexts { self.new.nexts ≡ slice_set self.old.nexts entry self.old.spare }
        ensures heads { self.new.heads ≡ self.old.heads }
        ensures spots { self.new.spots ≡ slice_set self.old.spots entry (record { owner = nobody; place = 0 }) }
        ensures spare { self.new.spare ≡ entry + 1 }
        ensures room { self.new.room ≡ self.old.room }
    {
        let spot = Spot {
            owner: usize::MAX,
            place: 0,
        };
        let next = self.spare;
        self.entries[entry] = Entry { spot, next };
        self.spare = entry + 1;
    }

    /// Takes the first entry out of the hand; `None` where the hand is empty.
    pub fn draw(&mut self) -> Option<usize>
        requires some { 0 < length self.old.heads }
        requires head { slice_index_or self.old.heads (hand_of self.old.heads) 0 ≤ length self.old.nexts }
        ensures nexts { self.new.nexts ≡ self.old.nexts }
        ensures drawn { IsDrawn self.old.nexts self.old.heads self.new.heads (hand_of self.old.heads) result }
        ensures spots { self.new.spots ≡ self.old.spots }
        ensures spare { self.new.spare ≡ self.old.spare }
    {
        let hand = self.heads.len() - 1;
        let head = self.heads[hand];
        if head == 0 {
            return None;
        }
        let entry = head - 1;
        self.heads[hand] = self.entries[entry].next;
        Some(entry)
    }

    /// Puts the chain of a number into the empty hand.
    pub fn lift(&mut self, from: usize)
        requires { from < hand_of self.old.heads }
        ensures nexts { self.new.nexts ≡ self.old.nexts }
        ensures heads { self.new.heads ≡ slice_set (slice_set self.old.heads (hand_of self.old.heads) (slice_index_or self.old.heads from 0)) from 0 }
        ensures spots { self.new.spots ≡ self.old.spots }
        ensures spare { self.new.spare ≡ self.old.spare }
    {
        let hand = self.heads.len() - 1;
        self.heads[hand] = self.heads[from];
        self.heads[from] = 0;
    }
}

// how many chains there are over so many variables: two of each, two that stay empty, and the hand
fn count_of(vars: u64) -> Option<usize>
    ensures some { IfSome result (λ count. (count ≡ 2 * vars + 3) × (count < 2 ^ 64)) }
    ensures none { IfNone result (2 ^ 64 ≤ 2 * vars + 3) }
{
    (vars as usize).checked_mul(2)?.checked_add(3)
}

// whether two spots are one
fn is_same(a: Spot, b: Spot) -> bool
    ensures same { IsTrue result → a ≡ b }
    ensures other { result ≡ false → a ≢ b }
{
    a.owner == b.owner && a.place == b.place
}

/// The number of a literal's chain.
pub fn code(lit: Lit) -> usize
    requires { 2 * lit.variable + 2 < 2 ^ 64 }
    ensures { result ≡ code lit }
{
    let sign = if lit.is_positive() { 0 } else { 1 };
    2 * lit.var() as usize + sign
}
