//! Where a group is no count: values at which its clauses and its one possible bound differ, so that it can be seen.
ghost use Rattle.std.specs.Prelude.{ℕ, ◌≡◌, ◌≤◌, ◌<◌, ◌+◌, ◌^◌, Bool, true, false, length, map, nat_lt, not, if◌then◌else◌, IfOk};
ghost use Rattle.kn_logic.specs.Groups.{IsGroup};
ghost use Rattle.kn_diagram.specs.Diagrams.{function_of};
ghost use Rattle.kn_verdict.specs.Numbers.{IsAtBorder, AreMeasured, IsWitness, adds, asked_literal, number_of};

use crate::fewest::Fewest;
use crate::measure::{half, measure, place_of};
use crate::measures::Measures;
use kn_diagram::{Diagrams, Node};
use kn_logic::{Group, Lit, NoMemory};
use std::alloc::Global;

/// Values of the border's variables, in order, at which a node's function is the wanted one, as it is at
/// some. Of the border literals as few as can be are true there where `want`, and else false.
pub fn witness(
    alloc: Global,
    d: &Diagrams,
    group: &Group,
    node: Node,
    noted: &mut Measures,
    want: bool,
) -> Result<Vec<bool>, NoMemory>
    requires few { length group.now.border ≤ 128 }
    requires node { IsAtBorder group.now d.now node }
    requires noted { AreMeasured group.now d.now noted.old }
    requires some { (v : ℕ → Bool) × (function_of d.now node v ≡ want) }
    ensures { IfOk result (λ values. IsWitness group.now (function_of d.now node) want values.items) }
{
    let Some(parts) = d.parts(node) else {
        return avoiding(alloc, group, want);
    };
    let high = measure(d, group, parts.1, noted)?;
    let low = measure(d, group, parts.2, noted)?;
    let place = place_of(d, group, node);
    let value = is_less(group.border()[place], high, low, want);
    let mut values = witness(alloc, d, group, half(parts, value), noted, want)?;
    values[place] = value;
    Ok(values)
}

// Whether fewer are true where the literal's variable is true and the one function is the wanted one than
// where it is false and the other is; false ones are counted where `want` is false.
fn is_less(lit: Lit, high: Fewest, low: Fewest, want: bool) -> bool
    requires high { (high.holding < 2 ^ 63) × (high.failing < 2 ^ 63) }
    requires low { (low.holding < 2 ^ 63) × (low.failing < 2 ^ 63) }
    ensures { result ≡ nat_lt (adds (asked_literal want lit) true + number_of want high) (adds (asked_literal want lit) false + number_of want low) }
{
    let (high, low) = if want {
        (high.holding, low.holding)
    } else {
        (high.failing, low.failing)
    };
    if lit.is_positive() == want {
        1 + high < low
    } else {
        high < 1 + low
    }
}

// Values of the border's variables that make none of its literals true where `want`, and else all.
fn avoiding(alloc: Global, group: &Group, want: bool) -> Result<Vec<bool>, NoMemory>
    ensures values { IfOk result (λ values. values.items ≡ map (λ l. if want then not l.positive else l.positive) group.now.border) }
    ensures group { IsGroup group.now }
{
    let mut values = Vec::with_capacity(alloc, group.border().len())?;
    for lit in group.border() {
        values.push(lit.is_positive() != want)?;
    }
    Ok(values)
}
