// The border of a set of variables: the literals of other variables in the clauses that name one of them.
ghost use Rattle.std.specs.Prelude.{ℕ, ◌≡◌, ◌≤◌, ◌++◌, false, length, map, filter, IfOk, IfErr};
ghost use Rattle.std.specs.List.{AllByRecursion};
ghost use Rattle.std.specs.List.Sorted.{IsStrictlyIncreasing};
ghost use Rattle.kn_logic.specs.Groups.{is_among};
ghost use Rattle.kn_store.specs.Stores.{IsStored, constraints_of};
ghost use Rattle.kn_guess.specs.Guesses.{in_klause, touches, IsBorder};
ghost use Rattle.kn_guess.specs.Refusals.{IsBorderRefused};
ghost use Rattle.kn_guess.specs.Sides.{first_in_both, sided};

use crate::NoGuess;
use crate::flag_set::FlagSet;
use crate::gathering::{MOST_BORDER, side};
use crate::taking::ascending;
use crate::var_set::VarSet;
use kn_logic::{Lit, NoMemory};
use kn_store::Store;
use std::alloc::Global;

/// The least number of border variables.
pub(crate) const LEAST_BORDER: usize = 3;

// The border of the variables of a set, which are also given in a list.
pub(crate) fn border(
    alloc: Global,
    store: &Store,
    set: &FlagSet,
    aux: &[u64],
) -> Result<Vec<Lit>, NoGuess>
    requires stored { IsStored store.now }
    requires known { AllByRecursion (λ x. (1 ≤ x) × (x ≤ store.now.vars)) aux.now }
    requires alone { AllByRecursion (λ x. in_klause (constraints_of store.now.live) x ≡ false) aux.now }
    requires same { (x : ℕ) → is_among set.now x ≡ is_among aux.now x }
    ensures ok { IfOk result (λ b. IsBorder (filter (touches aux.now) (constraints_of store.now.live)) aux.now b.items × (3 ≤ length b.items) × (length b.items ≤ 128)) }
    ensures err { IfErr result (IsBorderRefused (filter (touches aux.now) (constraints_of store.now.live)) aux.now) }
{
    let positive = side(alloc, store, set, aux, true)?;
    if positive.len() > MOST_BORDER {
        return Err(NoGuess::TooWideBorder);
    }
    let negative = side(alloc, store, set, aux, false)?;
    if negative.len() > MOST_BORDER {
        return Err(NoGuess::TooWideBorder);
    }
    let variables = union(alloc, &positive, &negative)?;
    if variables.len() < LEAST_BORDER {
        return Err(NoGuess::SmallBorder);
    }
    if variables.len() > MOST_BORDER {
        return Err(NoGuess::TooWideBorder);
    }
    if let Some(var) = first_in_both(&variables, &positive, &negative) {
        return Err(NoGuess::TwoSided { var });
    }
    Ok(literals(alloc, &variables, &positive)?)
}

fn union(alloc: Global, a: &VarSet, b: &VarSet) -> Result<Vec<u64>, NoMemory>
    ensures ascending { IfOk result (λ all. IsStrictlyIncreasing all.items) }
    ensures same { IfOk result (λ all. (x : ℕ) → is_among all.items x ≡ is_among (a.now ++ b.now) x) }
{
    let mut all = Vec::from_slice(alloc, a.vars())?;
    all.extend_from_slice(b.vars())?;
    Ok(ascending(all))
}

fn first_in_both(variables: &[u64], positive: &VarSet, negative: &VarSet) -> Option<u64>
    ensures { result ≡ first_in_both positive.now negative.now variables.now }
{
    for var in variables {
        if positive.contains(*var) && negative.contains(*var) {
            return Some(*var);
        }
    }
    None
}

// Each variable as it stands on its side.
pub(crate) fn literals(
    alloc: Global,
    variables: &[u64],
    positive: &VarSet,
) -> Result<Vec<Lit>, NoMemory>
    requires { AllByRecursion (λ x. 1 ≤ x) variables.now }
    ensures { IfOk result (λ lits. lits.items ≡ map (sided positive.now) variables.now) }
{
    let mut lits = Vec::with_capacity(alloc, variables.len())?;
    for var in variables {
        lits.push(Lit::new(*var, positive.contains(*var)))?;
    }
    Ok(lits)
}
