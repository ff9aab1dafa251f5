//! Literals: a variable and a sign, not one signed number, so that no literal is 0 and none lacks a negation.
ghost use Rattle.std.specs.Prelude.{◌≡◌, ◌≤◌};
ghost use Rattle.kn_logic.specs.Literals.{Literal, negated};

use std::marker::Model;

/// A literal: a variable, counted from 1, or its negation.
#[derive(Clone, Copy, Debug, PartialEq, Eq)]
pub struct Lit {
    var: u64,
    positive: bool,
}

impl Model for Lit {
    ghost use Rattle.std.specs.Prelude.{◌≤◌};
    ghost use Rattle.kn_logic.specs.Literals.{Literal};

    ghost Value = { Literal };

    ghost view = { λ l. record { variable = l.var; positive = l.positive } };

    ghost invariant = { λ l. 1 ≤ l.var };

    ghost inverse = { λ l. record { var = l.variable; positive = l.positive } };
}

impl Lit {
    /// The literal of the variable `var`, which counts from 1; its negation where not `positive`.
    pub fn new(var: u64, positive: bool) -> Lit
        requires { 1 ≤ var }
        ensures { result ≡ record { variable = var; positive = positive } }
    {
        Lit { var, positive }
    }

    /// The variable, at least 1.
    pub fn var(self) -> u64
        ensures value { result ≡ self.variable }
        ensures counted { 1 ≤ result }
    {
        self.var
    }

    /// Whether this is the variable itself, and not its negation.
    pub fn is_positive(self) -> bool
        ensures { result ≡ self.positive }
    {
        self.positive
    }

    /// The literal that is true where this one is false.
    pub fn negated(self) -> Lit
        ensures { result ≡ negated self }
    {
        Lit {
            var: self.var,
            positive: !self.positive,
        }
    }
}
