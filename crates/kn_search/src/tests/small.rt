//! Files of five variables, made by chance, and all their partial valuations.
ghost use Rattle.std.specs.Prelude.{◌≡◌, ◌≤◌, ◌<◌, IfOk};
ghost use Rattle.kn_logic.specs.Constraints.{Fits};

use kn_logic::{Constraint, Formula, Lit, NoMemory};
use std::alloc::Global;

/// Three to the power of the number of variables: each variable has one of two values or none.
pub const VALUATIONS: u64 = 243;

const VARS: u64 = 5;

/// The value of a literal under a valuation, which has a digit to base 3 for each variable.
pub fn value(valuation: u64, lit: Lit) -> Option<bool> {
    let mut rest = valuation;
    for _ in 1..lit.var().min(VARS) {
        rest /= 3;
    }
    match rest % 3 {
        0 => None,
        1 => Some(lit.is_positive()),
        _ => Some(!lit.is_positive()),
    }
}

/// Whether a valuation is closed for what is live: no constraint is violated or forces anything.
pub fn is_closed(valuation: u64, live: &[Option<Constraint>]) -> bool {
    for slot in live {
        if let Some(c) = slot {
            if is_short(valuation, c) {
                return false;
            }
        }
    }
    true
}

/// Whether a formula has a model: a valuation of all variables that violates nothing.
pub fn has_model(f: &Formula) -> bool {
    for valuation in 0..VALUATIONS {
        if is_whole(valuation) && violates_none(valuation, f.constraints()) {
            return true;
        }
    }
    false
}

fn is_whole(valuation: u64) -> bool {
    for place in 0..VARS {
        if value(valuation, Lit::new(place + 1, true)).is_none() {
            return false;
        }
    }
    true
}

fn violates_none(valuation: u64, constraints: &[Constraint]) -> bool {
    for c in constraints {
        if is_short(valuation, c) {
            return false;
        }
    }
    true
}

// whether a constraint is violated or forces something: by counting all places
fn is_short(valuation: u64, c: &Constraint) -> bool {
    let unset = count(valuation, c.lits(), None);
    let open = count(valuation, c.lits(), Some(true)).saturating_add(unset);
    let forces = open == c.bound() && unset > 0;
    match c.guard().map(|guard| value(valuation, guard)) {
        Some(Some(false)) => false,
        Some(None) => open < c.bound(),
        _ => open < c.bound() || forces,
    }
}

fn count(valuation: u64, lits: &[Lit], wanted: Option<bool>) -> u64 {
    let mut count: u64 = 0;
    for lit in lits {
        if value(valuation, *lit) == wanted {
            count = count.saturating_add(1);
        }
    }
    count
}

/// Numbers by chance, the same ones at each run.
#[derive(Drop)]
struct Chance {
    state: u64,
}

impl Chance {
    fn below(&mut self, bound: u64) -> u64
        requires { 1 ≤ bound }
        ensures { result < bound }
    {
        self.state = self
            .state
            .wrapping_mul(6364136223846793005)
            .wrapping_add(1442695040888963407);
        (self.state >> 33) % bound
    }

    fn sign(&mut self) -> bool {
        self.below(2) == 1
    }

    // three literals of any variables
    fn clause(&mut self, alloc: Global) -> Result<Constraint, NoMemory>
        ensures { IfOk result (Fits 5) }
    {
        let first = Lit::new(self.below(VARS) + 1, self.sign());
        let second = Lit::new(self.below(VARS) + 1, self.sign());
        let third = Lit::new(self.below(VARS) + 1, self.sign());
        Ok(Constraint::new(1, vec![in alloc; first, second, third]?))
    }

    // two of three literals
    fn klause(&mut self, alloc: Global) -> Result<Constraint, NoMemory>
        ensures { IfOk result (Fits 5) }
    {
        let first = Lit::new(1, self.sign());
        let second = Lit::new(3, self.sign());
        let third = Lit::new(4, self.sign());
        Ok(Constraint::new(2, vec![in alloc; first, second, third]?))
    }

    // two of three others, under a guard
    fn guarded(&mut self, alloc: Global) -> Result<Constraint, NoMemory>
        ensures { IfOk result (Fits 5) }
    {
        let guard = Lit::new(1, self.sign());
        let first = Lit::new(2, self.sign());
        let second = Lit::new(3, self.sign());
        let third = Lit::new(5, self.sign());
        Ok(Constraint::guarded(guard, 2, vec![in alloc; first, second, third]?))
    }
}

/// A klause, one under a guard, and so many clauses.
pub fn formula(alloc: Global, seed: u64, clauses: usize) -> Result<Formula, NoMemory>
    ensures { IfOk result (λ f. f.vars ≡ 5) }
{
    let mut chance = Chance { state: seed };
    let mut f = Formula::new(alloc, VARS);
    f.push(chance.klause(alloc)?)?;
    f.push(chance.guarded(alloc)?)?;
    for _ in 0..clauses {
        f.push(chance.clause(alloc)?)?;
    }
    Ok(f)
}
