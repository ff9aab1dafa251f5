//! How many variables the clauses need, told first and without overflow, so that huge counts are refused at once.
ghost use Rattle.std.specs.Prelude.{◌≡◌, ◌-◌, ◌^◌, min};
ghost use Rattle.kn_counter.specs.Counters.{further, counted};

use kn_logic::{Constraint, Formula};

/// How many variables the clauses of a formula need, the formula's own counted; 2^64 - 1 stands for all
/// numbers from there on.
pub fn needed_vars(f: &Formula) -> u64
    ensures { result ≡ min (counted f.now).vars (2 ^ 64 - 1) }
{
    let mut vars = f.vars();
    for c in f.constraints() {
        vars = vars.saturating_add(further_vars(c));
    }
    vars
}

/// How many further variables a constraint needs; 2^64 - 1 stands for all numbers from there on.
pub fn further_vars(c: &Constraint) -> u64
    ensures { result ≡ min (further c.now) (2 ^ 64 - 1) }
{
    let n = c.lits().len() as u64;
    let bound = c.bound();
    if 1 < bound && bound < n {
        (n - 1).saturating_mul(n - bound)
    } else {
        0
    }
}
