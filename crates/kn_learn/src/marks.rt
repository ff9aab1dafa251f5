//! Marks on the places of a trail. They are taken back by going over the places that were marked, so that an
//! analysis costs nothing for the places that it does not come by.
ghost use Rattle.std.specs.Prelude.{ℕ, ◌≡◌, ◌≤◌, ◌<◌, length, OnOk};
ghost use Rattle.kn_learn.specs.Marking.{mark_at, AreUnseen, IsMarked, AreTouched, is_seen, is_needed};

use crate::NoMemory;
use std::alloc::Global;
use std::marker::Model;

/// What an analysis knows of the literal at a place.
#[derive(Clone, Copy, Debug, PartialEq, Eq)]
pub enum Mark {
    /// Nothing.
    Unseen,
    /// The conflict rests on it.
    Seen,
    /// The conflict rests on it, and it is to be derived by its reason.
    Pending,
    /// It can be derived by its reason.
    Explained,
    /// It was not found to follow from others.
    Failed,
}

impl Mark {
    /// Whether the conflict rests on a literal with this mark, which is not to be derived.
    pub fn is_seen(self) -> bool
        ensures { result ≡ is_seen self }
    {
        match self {
            Mark::Seen => true,
            Mark::Unseen | Mark::Pending | Mark::Explained | Mark::Failed => false,
        }
    }

    /// Whether the conflict rests on a literal with this mark.
    pub fn is_needed(self) -> bool
        ensures { result ≡ is_needed self }
    {
        match self {
            Mark::Seen | Mark::Pending => true,
            Mark::Unseen | Mark::Explained | Mark::Failed => false,
        }
    }
}

/// A mark for each place, counted from 0, as far as the places go.
#[derive(Debug, Drop)]
pub struct Marks {
    marks: Vec<Mark>,
    touched: Vec<usize>,
}

impl Model for Marks {
    ghost use Rattle.std.specs.Prelude.{List};
    ghost use Rattle.kn_learn.specs.declared.marks.Mark.{Mark};
    ghost use Rattle.kn_learn.specs.Marking.{AreTouched};

    ghost Value = { List Mark };

    ghost view = { λ m. m.marks.items };

    ghost invariant = { λ m. AreTouched m.touched.items m.marks.items };
}

impl Marks {
    /// No place is marked.
    pub fn new(alloc: Global) -> Marks
        ensures { AreUnseen result }
    {
        Marks {
            marks: Vec::new(alloc),
            touched: Vec::new(alloc),
        }
    }

    /// The mark of a place.
    pub fn at(&self, place: usize) -> Mark
        ensures { result ≡ mark_at self.now place }
    {
        match self.marks.get(place) {
            Some(mark) => *mark,
            None => Mark::Unseen,
        }
    }

    /// Marks a place. An error where memory is short.
    pub fn set(&mut self, place: usize, mark: Mark) -> Result<(), NoMemory>
        ensures { OnOk result (IsMarked self.old place mark self.new) }
    {
        reach(&mut self.marks, place)?;
        self.touched.push(place)?;
        self.marks[place] = mark;
        Ok(())
    }

    /// Takes all marks back.
    pub fn clear(&mut self)
        ensures { AreUnseen self.new }
    {
        wipe(&mut self.marks, &self.touched);
        self.touched.clear();
    }
}

// makes the list long enough for a place
fn reach(marks: &mut Vec<Mark>, place: usize) -> Result<(), NoMemory>
    ensures long { OnOk result (place < length marks.new.items) }
    ensures longer { length marks.old.items ≤ length marks.new.items }
    ensures same { (q : ℕ) → mark_at marks.new.items q ≡ mark_at marks.old.items q }
{
    while marks.len() <= place {
        marks.push(Mark::Unseen)?;
    }
    Ok(())
}

// takes the marks of these places back
fn wipe(marks: &mut [Mark], touched: &[usize])
    requires { AreTouched touched.now marks.old }
    ensures { AreUnseen marks.new }
{
    for place in touched {
        marks[*place] = Mark::Unseen;
    }
}
