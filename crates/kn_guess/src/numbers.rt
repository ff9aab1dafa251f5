// Numbers from which any may leave, so that their order does not last.
ghost use Rattle.std.specs.Prelude.{ℕ, ◌≡◌, ◌<◌, ◌+◌, ◌||◌, ◌==◌, ◌++◌, ◌∷◌, [], length, drop, slice_index_or, IfOk, OnOk, OnErr};
ghost use Rattle.kn_logic.specs.Groups.{is_among};

use kn_logic::NoMemory;
use std::alloc::Global;
use std::marker::Model;

#[derive(Debug, Drop)]
pub(crate) struct Numbers {
    all: Vec<u64>,
}

impl Model for Numbers {
    ghost use Rattle.std.specs.Prelude.{ℕ, List};

    ghost Value = { List ℕ };

    ghost view = { λ n. n.all.items };
}

impl Numbers {
    pub(crate) fn new(alloc: Global) -> Numbers
        ensures { result ≡ [] }
    {
        Numbers {
            all: Vec::new(alloc),
        }
    }

    pub(crate) fn from_slice(alloc: Global, all: &[u64]) -> Result<Numbers, NoMemory>
        ensures { IfOk result (λ n. n ≡ all.now) }
    {
        Ok(Numbers {
            all: Vec::from_slice(alloc, all)?,
        })
    }

    pub(crate) fn len(&self) -> usize
        ensures { result ≡ length self.now }
    {
        self.all.len()
    }

    pub(crate) fn at(&self, place: usize) -> u64
        requires { place < length self.now }
        ensures { result ≡ slice_index_or self.now place 0 }
    {
        self.all[place]
    }

    pub(crate) fn push(&mut self, number: u64) -> Result<(), NoMemory>
        ensures ok { OnOk result (self.new ≡ self.old ++ number ∷ []) }
        ensures err { OnErr result (self.new ≡ self.old) }
    {
        self.all.push(number)?;
        Ok(())
    }

    // The number at a place leaves, and the last one comes there.
    pub(crate) fn drop_at(&mut self, place: usize)
        requires { place < length self.old }
        ensures among { (v : ℕ) → is_among self.old v ≡ (is_among self.new v || (slice_index_or self.old place 0 == v)) }
        ensures behind { (v : ℕ) → is_among (drop place self.new) v ≡ is_among (drop (place + 1) self.old) v }
        ensures len { length self.new + 1 ≡ length self.old }
    {
        self.all.swap_remove(place);
    }
}
