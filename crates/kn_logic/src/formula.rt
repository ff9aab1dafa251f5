//! Formulas. That constraints fit the variables is kept by the type, so that no user of a formula tests it again.
ghost use Rattle.std.specs.Prelude.{◌≡◌, ◌++◌, ◌∷◌, [], length, IfOk, IfSome, OnOk, OnErr, slice_get, option_copied};
ghost use Rattle.kn_logic.specs.Constraints.{Fits};
ghost use Rattle.kn_logic.specs.Formulas.{Problem, IsFormula};

use crate::{Constraint, NoMemory};
use std::alloc::Global;
use std::marker::Model;

/// A number of variables, and a list of constraints over the variables from 1 to it. A klause in it
/// names no variable twice, its guard counted.
#[derive(Debug, Drop)]
pub struct Formula {
    vars: u64,
    constraints: Vec<Constraint>,
}

impl Model for Formula {
    ghost use Rattle.kn_logic.specs.Formulas.{Problem, IsFormula};

    ghost Value = { Problem };

    ghost view = { λ f. record { vars = f.vars; constraints = f.constraints.items } };

    ghost invariant = { λ f. IsFormula (record { vars = f.vars; constraints = f.constraints.items }) };
}

impl Formula {
    /// No constraint yet over the variables from 1 to `vars`, which is any number from 0.
    pub fn new(alloc: Global, vars: u64) -> Formula
        ensures { result ≡ record { vars = vars; constraints = [] } }
    {
        Formula {
            vars,
            constraints: Vec::new(alloc),
        }
    }

    /// Adds a constraint at the end. Its variables are from 1 to the number of variables, and a klause
    /// names none twice. Where memory is short, an error, and the formula is as before.
    pub fn push(&mut self, c: Constraint) -> Result<(), NoMemory>
        requires { Fits self.old.vars c }
        ensures ok { OnOk result (self.new ≡ record self.old { constraints = self.old.constraints ++ c ∷ [] }) }
        ensures err { OnErr result (self.new ≡ self.old) }
    {
        self.constraints.push(c)?;
        Ok(())
    }

    /// The number of variables.
    pub fn vars(&self) -> u64
        ensures { result ≡ self.now.vars }
    {
        self.vars
    }

    /// The number of constraints.
    pub fn len(&self) -> usize
        ensures count { result ≡ length self.now.constraints }
        ensures formula { IsFormula self.now }
    {
        self.constraints.len()
    }

    /// The constraint at this place, counted from 0; `None` exactly where there are not so many.
    pub fn get(&self, place: usize) -> Option<&Constraint>
        ensures value { option_copied result ≡ slice_get self.now.constraints place }
        ensures fits { IfSome result (λ c. Fits self.now.vars c.now) }
    {
        self.constraints.get(place)
    }

    /// All constraints in their order.
    pub fn constraints(&self) -> &[Constraint]
        ensures value { result.now ≡ self.now.constraints }
        ensures formula { IsFormula self.now }
    {
        &self.constraints
    }

    /// The same formula once more. An error where memory is short.
    pub fn copy(&self) -> Result<Formula, NoMemory>
        ensures { IfOk result (λ f. f ≡ self.now) }
    {
        let constraints = copies(*self.constraints.allocator(), &self.constraints)?;
        Ok(Formula {
            vars: self.vars,
            constraints,
        })
    }
}

fn copies(alloc: Global, constraints: &[Constraint]) -> Result<Vec<Constraint>, NoMemory>
    ensures { IfOk result (λ copies. copies.items ≡ constraints.now) }
{
    let mut copies = Vec::with_capacity(alloc, constraints.len())?;
    for c in constraints {
        copies.push(c.copy()?)?;
    }
    Ok(copies)
}
