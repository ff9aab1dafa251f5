//! The trail: the literals that a search made true, in order, and what is known of each variable by them.
ghost use Rattle.std.specs.Prelude.{ℕ, ◌≡◌, ◌≤◌, ◌<◌, ◌+◌, ◌-◌, ◌^◌, ◌++◌, ◌∷◌, [], length, take, false, Some, IfOk, IfSome, IfNone, slice_get, option_map, option_and_then};
ghost use Rattle.kn_logic.specs.Literals.{IsKnown, AreKnown, AreDifferent, names};
ghost use Rattle.kn_logic.specs.Propagation.{is_open};
ghost use Rattle.kn_watch.specs.Watches.{is_unset};
ghost use Rattle.kn_watch.specs.Trails.{literals, below, value_in, lit_of, made_of, IsRising, IsTrail, IsFront};
ghost use Rattle.kn_watch.specs.Tables.{AreTables};

use crate::NoMemory;
use kn_logic::Lit;
use std::alloc::{AllocError, Global};
use std::marker::Model;

/// A literal of a trail, the level at which it became true, and the id of the constraint that forced it;
/// `None` where it was assumed.
#[derive(Clone, Copy, Debug)]
pub struct Made {
    pub lit: Lit,
    pub level: u64,
    pub reason: Option<u64>,
}

/// The literals that a search made true, in order, each with its level and reason. Variables count from 1,
/// levels and places from 0.
#[derive(Debug, Drop)]
pub struct Trail {
    vars: u64,
    level: u64,
    made: Vec<Made>,
    values: Vec<Option<bool>>,
    places: Vec<usize>,
}

impl Model for Trail {
    ghost use Rattle.std.specs.Prelude.{◌≤◌, vec_capacity};
    ghost use Rattle.kn_watch.specs.Trails.{Trailed, IsTrail};
    ghost use Rattle.kn_watch.specs.Tables.{AreTables};

    ghost Value = { Trailed };

    ghost view = { λ t. record { vars = t.vars; level = t.level; made = t.made.items } };

    ghost invariant = { λ t. IsTrail (record { vars = t.vars; level = t.level; made = t.made.items }) × (t.vars ≤ vec_capacity t.made) × AreTables t.vars t.made.items t.values.items t.places.items };
}

impl Trail {
    /// No literal, at level 0, with room for as many as there are variables. An error where memory is
    /// wanting.
    pub fn new(alloc: Global, vars: u64) -> Result<Trail, NoMemory>
        ensures { IfOk result (λ t. t ≡ record { vars = vars; level = 0; made = [] }) }
    {
        let Some(count) = (vars as usize).checked_add(1) else {
            return Err(AllocError);
        };
        Ok(Trail {
            vars,
            level: 0,
            made: Vec::with_capacity(alloc, vars as usize)?,
            values: vec![in alloc; None; count]?,
            places: vec![in alloc; 0; count]?,
        })
    }

    /// Whether the literal is true; `None` exactly where its variable has no value.
    pub fn value(&self, lit: Lit) -> Option<bool>
        ensures value { result ≡ value_in (literals self.now.made) lit }
        ensures kept { IsTrail self.now }
    {
        match self.sign_of(lit.var()) {
            Some(sign) => Some(sign == lit.is_positive()),
            None => None,
        }
    }

    /// Whether a literal is not false.
    pub fn is_open(&self, lit: Lit) -> bool
        ensures { result ≡ is_open (literals self.now.made) lit }
    {
        match self.value(lit) {
            Some(sign) => sign,
            None => true,
        }
    }

    /// Whether a literal has no value.
    pub fn is_unset(&self, lit: Lit) -> bool
        ensures { result ≡ is_unset (literals self.now.made) lit }
    {
        self.value(lit).is_none()
    }

    /// The level at which a variable got its value; `None` exactly where it has none.
    pub fn level_of(&self, var: u64) -> Option<u64>
        ensures level { result ≡ option_map (λ m. m.level) (made_of self.now.made var) }
        ensures kept { IsTrail self.now }
    {
        Some(self.entry_of(var)?.level)
    }

    /// The place of the literal of a variable, from 0; `None` exactly where the variable has no value.
    pub fn place_of(&self, var: u64) -> Option<usize>
        ensures some { IfSome result (λ place. IfSome (slice_get self.now.made place) (λ m. m.lit.variable ≡ var)) }
        ensures inside { IfSome result (λ place. place < length self.now.made) }
        ensures none { IfNone result (names (literals self.now.made) var ≡ false) }
        ensures kept { IsTrail self.now }
    {
        match self.sign_of(var) {
            Some(_) => Some(self.places[var as usize]),
            None => None,
        }
    }

    /// The id of the constraint that forced the value of a variable; `None` exactly where the variable has
    /// none, or where its literal was assumed.
    pub fn reason_of(&self, var: u64) -> Option<u64>
        ensures reason { result ≡ option_and_then (λ m. m.reason) (made_of self.now.made var) }
        ensures kept { IsTrail self.now }
    {
        self.entry_of(var)?.reason
    }

    /// The number of variables.
    pub fn vars(&self) -> u64
        ensures vars { result ≡ self.now.vars }
        ensures kept { IsTrail self.now }
    {
        self.vars
    }

    /// The present level, from 0.
    pub fn level(&self) -> u64
        ensures { result ≡ self.now.level }
    {
        self.level
    }

    /// The number of its literals.
    pub fn len(&self) -> usize
        ensures value { result ≡ length self.now.made }
        ensures kept { IsTrail self.now }
    {
        self.made.len()
    }

    /// The literal at a place, which counts from 0.
    pub fn at(&self, place: usize) -> Lit
        requires { place < length self.now.made }
        ensures { result ≡ lit_of self.now.made place }
    {
        self.made[place].lit
    }

    /// Makes a literal true at the present level.
    pub fn push(&mut self, lit: Lit, reason: Option<u64>)
        requires known { IsKnown self.old.vars lit }
        requires unset { names (literals self.old.made) lit.variable ≡ false }
        ensures made { self.new ≡ record self.old { made = self.old.made ++ (record { lit = lit; level = self.old.level; reason = reason }) ∷ [] } }
        ensures kept { IsTrail self.new }
    {
        let level = self.level;
        let place = self.made.len();
        let Ok(()) = self.made.push(Made { lit, level, reason }) else {
            unreachable!()
        };
        let var = lit.var() as usize;
        self.values[var] = Some(lit.is_positive());
        self.places[var] = place;
    }

    /// Goes back to a level: exactly the literals of higher levels lose their values.
    pub fn back_to(&mut self, level: u64)
        requires { level ≤ self.old.level }
        ensures made { self.new ≡ record self.old { level = level; made = below (level + 1) self.old.made } }
        ensures front { IsFront self.new.made self.old.made }
        ensures kept { IsTrail self.new }
    {
        let count = take_back(&self.made, &mut self.values, &self.places, self.vars, level);
        self.made.truncate(count);
        self.level = level;
    }

    /// The level goes up by one.
    pub fn raise(&mut self)
        requires { self.old.level < 2 ^ 64 - 1 }
        ensures { self.new ≡ record self.old { level = self.old.level + 1 } }
    {
        self.level += 1;
    }

    // the entry of a variable; `None` where it has no value
    fn entry_of(&self, var: u64) -> Option<Made>
        ensures entry { result ≡ made_of self.now.made var }
        ensures kept { IsTrail self.now }
    {
        match self.place_of(var) {
            Some(place) => Some(self.made[place]),
            None => None,
        }
    }

    // the sign of the literal of a variable; `None` where it has no value
    fn sign_of(&self, var: u64) -> Option<bool>
        ensures sign { result ≡ option_map (λ m. m.lit.positive) (made_of self.now.made var) }
        ensures kept { IsTrail self.now }
    {
        match self.values.get(var as usize) {
            Some(value) => *value,
            None => None,
        }
    }
}

// takes the values of the literals above a level back, from the last on; what is left is of so many places
fn take_back(
    made: &[Made],
    values: &mut [Option<bool>],
    places: &[usize],
    vars: u64,
    level: u64,
) -> usize
    requires known { AreKnown vars (literals made.now) }
    requires different { AreDifferent (literals made.now) }
    requires rising { (top : ℕ) × IsRising top made.now }
    requires tables { AreTables vars made.now values.old places.now }
    ensures below { take result made.now ≡ below (level + 1) made.now }
    ensures tables { AreTables vars (take result made.now) values.new places.now }
{
    let mut count = made.len();
    while count > 0 {
        let last = made[count - 1];
        if last.level <= level {
            return count;
        }
        count -= 1;
        values[last.lit.var() as usize] = None;
    }
    count
}
