//! Tests of a line's variables: known ones, and no two alike, in time that grows with the literals alone.
ghost use Rattle.std.specs.Prelude.{◌≡◌, ◌&&◌, [], IfOk, option_map};
ghost use Rattle.std.specs.Option.{is_none};
ghost use Rattle.kn_logic.specs.Literals.{AreKnown};
ghost use Rattle.kn_rules.specs.States.{AreLiveWithin, live_at};
ghost use Rattle.kn_rules.specs.Steps.{are_known, is_known_variable, is_known_arm, are_different};

use crate::assumed::Assumed;
use crate::entries::Entries;
use kn_lines::Arm;
use kn_logic::{Lit, NoMemory};

/// Whether the variables of all literals are known: those from 1 to `vars` are.
pub fn are_known(vars: u64, lits: &[Lit]) -> bool
    ensures { result ≡ are_known vars lits.now }
{
    for lit in lits {
        if lit.var() > vars {
            return false;
        }
    }
    true
}

/// Whether a variable is known.
pub fn is_known(vars: u64, variable: u64) -> bool
    ensures { result ≡ is_known_variable vars variable }
{
    1 <= variable && variable <= vars
}

/// Whether the variable of an arm is known, if it has one.
pub fn is_known_arm(vars: u64, arm: &Arm) -> bool
    ensures { result ≡ is_known_arm vars arm.now }
{
    match arm {
        Arm::Lit(lit) => is_known(vars, lit.var()),
        _ => true,
    }
}

/// Whether no variable stands at two places. The list of what is assumed, which is empty, serves to find them, and
/// is empty again afterwards.
pub fn are_different(assumed: &mut Assumed, lits: &[Lit]) -> Result<bool, NoMemory>
    requires empty { assumed.old.lits ≡ [] }
    requires known { AreKnown assumed.old.vars lits.now }
    ensures value { IfOk result (λ yes. yes ≡ are_different lits.now) }
    ensures same { assumed.new ≡ assumed.old }
{
    let different = push_different(assumed, lits);
    assumed.clear();
    different
}

/// Whether the constraint of an id has no guard and no variable at two places; `None` exactly where the id is not
/// live.
pub fn is_plain(assumed: &mut Assumed, entries: &Entries, id: u64) -> Result<Option<bool>, NoMemory>
    requires empty { assumed.old.lits ≡ [] }
    requires within { AreLiveWithin assumed.old.vars entries.now.given }
    ensures value { IfOk result (λ found. found ≡ option_map (λ c. is_none c.guard && are_different c.lits) (live_at entries.now.given id)) }
    ensures same { assumed.new ≡ assumed.old }
{
    match entries.find(id) {
        Some(c) => {
            if c.guard().is_some() {
                return Ok(Some(false));
            }
            Ok(Some(are_different(assumed, c.lits())?))
        }
        None => Ok(None),
    }
}

/// Adds the literals up to the first whose variable stands there, and tells whether there is none.
fn push_different(assumed: &mut Assumed, lits: &[Lit]) -> Result<bool, NoMemory>
    requires empty { assumed.old.lits ≡ [] }
    requires known { AreKnown assumed.old.vars lits.now }
    ensures value { IfOk result (λ yes. yes ≡ are_different lits.now) }
    ensures vars { assumed.new.vars ≡ assumed.old.vars }
{
    for lit in lits {
        if assumed.names(*lit) {
            return Ok(false);
        }
        assumed.push(*lit)?;
    }
    Ok(true)
}
