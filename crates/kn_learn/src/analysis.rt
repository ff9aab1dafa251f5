//! The tables of an analysis.
ghost use Rattle.kn_learn.specs.Analyses.{IsBlank};

use crate::marks::Marks;
use std::alloc::Global;

/// What a walk back over the trail, from a conflict, has come by.
#[derive(Debug, Drop)]
pub struct Walk {
    /// What is known of each place of the trail.
    pub marks: Marks,
    /// The places below the conflict's level on which it rests.
    pub kept: Vec<usize>,
    /// The places whose literals are derived by their reasons.
    pub derived: Vec<usize>,
    /// The places whose literals can be derived from those of others.
    pub explained: Vec<usize>,
    /// The lowest place of the conflict's level on which it rests.
    pub lowest: usize,
}

/// The tables of an analysis, which a search keeps from conflict to conflict. No call asks anything of what is
/// in them.
#[derive(Debug, Drop)]
pub struct Analysis {
    /// What was come by so far.
    pub(crate) walk: Walk,
    /// The levels of the kept places, each as the bit of its number modulo 64.
    pub(crate) levels: u64,
    /// How many more literals of level 0 may be explained for the sake of one.
    pub(crate) cone: u64,
    /// The places that stand in the clause behind the lowest one of the conflict's level.
    pub(crate) rest: Vec<usize>,
    /// The variables whose activity is to be raised.
    pub(crate) seen: Vec<u64>,
}

impl Analysis {
    /// Empty tables. They grow with the trails that they are used on.
    pub fn new(alloc: Global) -> Analysis {
        Analysis {
            walk: Walk {
                marks: Marks::new(alloc),
                kept: Vec::new(alloc),
                derived: Vec::new(alloc),
                explained: Vec::new(alloc),
                lowest: 0,
            },
            levels: 0,
            cone: 0,
            rest: Vec::new(alloc),
            seen: Vec::new(alloc),
        }
    }

    /// The variables that the last analysis came by, each once: those above level 0 on which the conflict rests,
    /// and those above level 0 on which the reasons of the learned clause's literals rest. They are the ones whose
    /// activity a search raises.
    pub fn seen(&self) -> &[u64] {
        &self.seen
    }

    /// Makes the tables empty, for a walk that begins at this place.
    pub(crate) fn clear(&mut self, last: usize)
        ensures { IsBlank last self.new.walk }
    {
        self.walk.marks.clear();
        self.walk.kept.clear();
        self.walk.derived.clear();
        self.walk.explained.clear();
        self.walk.lowest = last;
        self.levels = 0;
        self.seen.clear();
    }
}
