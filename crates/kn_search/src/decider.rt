//! Which literal is assumed next: that of the most active variable without a value, the way it had its value last.
ghost use Rattle.std.specs.Prelude.{◌≡◌, ◌≤◌, true, false, IfSome, IfNone};
ghost use Rattle.kn_logic.specs.Literals.{names};
ghost use Rattle.kn_watch.specs.Trails.{literals};
ghost use Rattle.kn_search.specs.Deciding.{IsFree, IsTotal, IsFreeVariable};

use crate::heap::Heap;
use kn_logic::{Lit, NoMemory};
use kn_watch::Trail;
use std::alloc::{AllocError, Global};

/// What a variable becomes more active by at first; from which increment on all activities are made smaller, and how
/// often they are halved then.
const FIRST_INCREMENT: u64 = 1 << 20;

const LARGE_INCREMENT: u64 = 1 << 52;

const HALVINGS: u32 = 32;

/// How many clauses a bound above 1 outweighs, for each of the bound, where a variable's first value is chosen.
const KLAUSE_WEIGHT: i64 = 1 << 20;

/// Chooses the literals that are assumed. Of its heap and its table nothing is promised, they serve to choose well: but
/// a literal that is chosen has no value, and none is chosen only where each variable has a value.
#[derive(Debug, Drop)]
pub struct Decider {
    heap: Heap,
    leanings: Vec<i64>,
    increment: u64,
}

impl Decider {
    /// For the variables from 1 to a number, none of them active, and all leaning to false. An error where memory is
    /// wanting.
    pub fn new(alloc: Global, vars: u64) -> Result<Decider, NoMemory> {
        let Some(count) = (vars as usize).checked_add(1) else {
            return Err(AllocError);
        };
        Ok(Decider {
            heap: Heap::new(alloc, vars)?,
            leanings: vec![in alloc; 0; count]?,
            increment: FIRST_INCREMENT,
        })
    }

    /// Takes notice of a constraint, before the first choice: variables that it names are more active, and they lean to
    /// what bounds above 1 ask for, or else to the sign that they have in more clauses.
    pub fn meet(&mut self, bound: u64, lits: &[Lit]) {
        let weight = weight_of(bound);
        for lit in lits {
            self.heap.raise(lit.var(), 1);
            self.lean(*lit, weight);
        }
    }

    /// Takes the variables from 1 to a number for those to choose of.
    pub fn open(&mut self, vars: u64) {
        for place in 0..vars {
            self.heap.insert(place + 1);
        }
    }

    /// A literal without a value: that of the most active variable. `None` exactly where each variable has a value.
    pub fn choose(&mut self, trail: &Trail) -> Option<Lit>
        ensures some { IfSome result (IsFree trail.now) }
        ensures none { IfNone result (IsTotal trail.now) }
    {
        let var = match self.take_active(trail) {
            Some(var) => var,
            None => first_free(trail)?,
        };
        Some(Lit::new(var, self.leans_to_true(var)))
    }

    /// Makes the variables more active.
    pub fn raise(&mut self, vars: &[u64]) {
        for var in vars {
            self.heap.raise(*var, self.increment);
        }
    }

    /// From now on variables become more active by more than before.
    pub fn decay(&mut self) {
        self.increment = self.increment.saturating_add(self.increment / 20);
        if self.increment >= LARGE_INCREMENT {
            self.heap.scale_down(HALVINGS);
            self.increment >>= HALVINGS;
        }
    }

    /// Takes notice of what loses its value when the trail goes back to a level.
    pub fn release(&mut self, trail: &Trail, level: u64) {
        for place in (0..trail.len()).rev() {
            let lit = trail.at(place);
            if trail.level_of(lit.var()).unwrap_or(0) <= level {
                return;
            }
            self.heap.insert(lit.var());
            self.keep_leaning(lit);
        }
    }

    // the most active variable without a value; `None` where the heap has none
    fn take_active(&mut self, trail: &Trail) -> Option<u64>
        ensures { IfSome result (IsFreeVariable trail.now) }
    {
        for _ in 0..self.heap.len() {
            let var = self.heap.pop()?;
            if is_free(trail, var) {
                return Some(var);
            }
        }
        None
    }

    fn leans_to_true(&self, var: u64) -> bool {
        match self.leanings.get(var as usize) {
            Some(leaning) => *leaning > 0,
            None => false,
        }
    }

    fn lean(&mut self, lit: Lit, weight: i64) {
        let Some(leaning) = self.leanings.get_mut(lit.var() as usize) else {
            return;
        };
        *leaning = if lit.is_positive() {
            leaning.saturating_add(weight)
        } else {
            leaning.saturating_sub(weight)
        };
    }

    fn keep_leaning(&mut self, lit: Lit) {
        if let Some(leaning) = self.leanings.get_mut(lit.var() as usize) {
            *leaning = if lit.is_positive() { 1 } else { 0 };
        }
    }
}

/// How much the variables of a constraint with this bound lean to it.
fn weight_of(bound: u64) -> i64 {
    let weight = i64::try_from(bound).unwrap_or(i64::MAX);
    if bound > 1 {
        weight.saturating_mul(KLAUSE_WEIGHT)
    } else {
        weight
    }
}

/// Whether a number is that of a variable without a value.
fn is_free(trail: &Trail, var: u64) -> bool
    ensures { result ≡ true → IsFreeVariable trail.now var }
{
    var >= 1 && var <= trail.vars() && !has_value(trail, var)
}

fn has_value(trail: &Trail, var: u64) -> bool
    ensures { result ≡ names (literals trail.now.made) var }
{
    match trail.place_of(var) {
        Some(_) => true,
        None => false,
    }
}

/// The first variable without a value; `None` where each has one.
fn first_free(trail: &Trail) -> Option<u64>
    ensures some { IfSome result (IsFreeVariable trail.now) }
    ensures none { IfNone result (IsTotal trail.now) }
{
    for place in 0..trail.vars() {
        if !has_value(trail, place + 1) {
            return Some(place + 1);
        }
    }
    None
}
