//! Definitions by variable. Defined variables are numbered on from those of the formula, so that a list is enough.
ghost use Rattle.std.specs.Prelude.{◌≡◌, ◌≤◌, ◌+◌, ◌++◌, ◌∷◌, ◌^◌, [], length, OnOk, OnErr, option_map, slice_get};
ghost use Rattle.kn_rules.specs.States.{looked_up};
ghost use Rattle.kn_rules.specs.Entries.{variable_of};

use crate::Definition;
use crate::packed::Packed;
use kn_logic::{Lit, NoMemory};
use std::alloc::Global;
use std::marker::Model;

/// The definitions of the variables behind the first ones, in their order.
#[derive(Debug, Drop)]
pub struct Definitions {
    base: u64,
    list: Vec<Packed>,
}

impl Model for Definitions {
    ghost use Rattle.std.specs.Prelude.{◌≤◌, ◌^◌};
    ghost use Rattle.kn_rules.specs.States.{Defined};

    ghost Value = { Defined };

    ghost view = { λ d. record { base = d.base; list = d.list.items } };

    ghost invariant = { λ d. d.base ≤ 2 ^ 32 };
}

impl Definitions {
    /// No definition behind so many variables.
    pub fn new(alloc: Global, base: u64) -> Definitions
        requires { base ≤ 2 ^ 32 }
        ensures { result ≡ record { base = base; list = [] } }
    {
        Definitions {
            base,
            list: Vec::new(alloc),
        }
    }

    /// The number of definitions.
    pub fn len(&self) -> u64
        ensures { result ≡ length self.now.list }
    {
        self.list.len() as u64
    }

    /// The variable that is defined next.
    pub fn next(&self) -> u64
        ensures { result ≡ self.now.base + length self.now.list + 1 }
    {
        self.base + self.list.len() as u64 + 1
    }

    /// The definition of a variable; `None` exactly where it is none of those that are defined.
    pub fn get(&self, variable: u64) -> Option<Definition>
        ensures { result ≡ looked_up self.now variable }
    {
        if variable <= self.base {
            return None;
        }
        match self.list.get((variable - self.base - 1) as usize) {
            Some(packed) => Some(packed.definition()),
            None => None,
        }
    }

    /// The definition with this number, counted from 0, and before it the variable that it defines; `None` exactly
    /// where there are not so many.
    pub fn at(&self, number: u64) -> Option<(Lit, Definition)>
        ensures { result ≡ option_map (λ d. (variable_of self.now.base number, d)) (slice_get self.now.list number) }
    {
        match self.list.get(number as usize) {
            Some(packed) => {
                let variable = self.base + number + 1;
                Some((Lit::new(variable, true), packed.definition()))
            }
            None => None,
        }
    }

    /// Defines the next variable. Fails where memory is short, and nothing is defined then.
    pub fn push(&mut self, d: &Definition) -> Result<(), NoMemory>
        ensures ok { OnOk result (self.new ≡ record self.old { list = self.old.list ++ d.now ∷ [] }) }
        ensures err { OnErr result (self.new ≡ self.old) }
    {
        self.list.push(Packed::new(d))?;
        Ok(())
    }
}
