//! Definitions as they are kept: a proof's definitions stay to its end, so their size decides which proofs fit.
ghost use Rattle.std.specs.Prelude.{◌≡◌, ◌≤◌};
ghost use Rattle.kn_rules.specs.Packing.{arm_by};

use crate::Definition;
use kn_lines::Arm;
use kn_logic::Lit;
use std::marker::Model;

/// What an arm is, but for the variable of a literal.
#[derive(Clone, Copy, Debug)]
pub enum ArmKind {
    True,
    False,
    Positive,
    Negative,
}

/// A definition in half the memory: its variables stand side by side, and what is left of each literal is one byte.
/// The variable of a constant is 1.
#[derive(Debug, Drop)]
pub struct Packed {
    test: u64,
    high: u64,
    low: u64,
    positive: bool,
    high_kind: ArmKind,
    low_kind: ArmKind,
}

impl Model for Packed {
    ghost use Rattle.std.specs.Prelude.{◌≤◌};
    ghost use Rattle.kn_rules.specs.declared.definition.Definition.{Definition};
    ghost use Rattle.kn_rules.specs.Packing.{arm_by};

    ghost Value = { Definition };

    ghost view = { λ p. record { test = record { variable = p.test; positive = p.positive }; high = arm_by p.high_kind p.high; low = arm_by p.low_kind p.low } };

    ghost invariant = { λ p. (1 ≤ p.test) × (1 ≤ p.high) × (1 ≤ p.low) };
}

impl Packed {
    /// The same definition.
    pub fn new(d: &Definition) -> Packed
        ensures { result ≡ d.now }
    {
        let (high, high_kind) = parts(&d.high);
        let (low, low_kind) = parts(&d.low);
        Packed {
            test: d.test.var(),
            high,
            low,
            positive: d.test.is_positive(),
            high_kind,
            low_kind,
        }
    }

    /// The definition.
    pub fn definition(&self) -> Definition
        ensures { result ≡ self.now }
    {
        Definition {
            test: Lit::new(self.test, self.positive),
            high: arm(self.high_kind, self.high),
            low: arm(self.low_kind, self.low),
        }
    }
}

fn parts(arm: &Arm) -> (u64, ArmKind)
    ensures same { arm_by result.1 result.0 ≡ arm.now }
    ensures counted { 1 ≤ result.0 }
{
    match arm {
        Arm::True => (1, ArmKind::True),
        Arm::False => (1, ArmKind::False),
        Arm::Lit(lit) => {
            if lit.is_positive() {
                (lit.var(), ArmKind::Positive)
            } else {
                (lit.var(), ArmKind::Negative)
            }
        }
    }
}

fn arm(kind: ArmKind, variable: u64) -> Arm
    requires { 1 ≤ variable }
    ensures { result ≡ arm_by kind variable }
{
    match kind {
        ArmKind::True => Arm::True,
        ArmKind::False => Arm::False,
        ArmKind::Positive => Arm::Lit(Lit::new(variable, true)),
        ArmKind::Negative => Arm::Lit(Lit::new(variable, false)),
    }
}
