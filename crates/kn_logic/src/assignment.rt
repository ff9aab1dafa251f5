//! Assignments give each variable a value, also one that no constraint names: a model is printed whole.
ghost use Rattle.std.specs.Prelude.{◌≡◌, ◌≤◌, ◌-◌, length, replicate, IfOk, slice_set};
ghost use Rattle.kn_logic.specs.Assignments.{value_of};

use crate::NoMemory;
use std::alloc::Global;
use std::marker::Model;

/// A truth value for each variable from 1 to a number.
#[derive(Debug, Drop)]
pub struct Assignment {
    values: Vec<bool>,
}

impl Model for Assignment {
    ghost use Rattle.std.specs.Prelude.{List, Bool};

    ghost Value = { List Bool };

    ghost view = { λ m. m.values.items };
}

impl Assignment {
    /// The same value for each variable from 1 to `vars`, which is any number from 0. An error where
    /// memory is short.
    pub fn new(alloc: Global, vars: u64, value: bool) -> Result<Assignment, NoMemory>
        ensures { IfOk result (λ m. m ≡ replicate vars value) }
    {
        Ok(Assignment {
            values: vec![in alloc; value; vars as usize]?,
        })
    }

    /// The number of variables.
    pub fn vars(&self) -> u64
        ensures { result ≡ length self.now }
    {
        self.values.len() as u64
    }

    /// The values, that of variable 1 first.
    pub fn values(&self) -> &[bool]
        ensures { result.now ≡ self.now }
    {
        &self.values
    }

    /// The value of a variable, which counts from 1.
    pub fn value(&self, var: u64) -> bool
        requires first { 1 ≤ var }
        requires last { var ≤ length self.now }
        ensures { result ≡ value_of self.now var }
    {
        self.values[var as usize - 1]
    }

    /// Gives a variable, which counts from 1, this value.
    pub fn set(&mut self, var: u64, value: bool)
        requires first { 1 ≤ var }
        requires last { var ≤ length self.old }
        ensures { self.new ≡ slice_set self.old (var - 1) value }
    {
        self.values[var as usize - 1] = value;
    }
}
