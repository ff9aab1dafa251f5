// From a formula to a store, and back.
ghost use Rattle.std.specs.Prelude.{◌≡◌, ◌≤◌, ◌++◌, length, IfOk, OnOk, IfSome, option_copied, option_to_list};
ghost use Rattle.kn_logic.specs.Constraints.{Fits};
ghost use Rattle.kn_format.specs.Grammar.{most_constraints};
ghost use Rattle.kn_store.specs.Stores.{problem_of};
ghost use Rattle.kn_extract.specs.Extractions.{stored_of};

use kn_logic::{Constraint, Formula, NoMemory};
use kn_store::Store;
use std::alloc::Global;

// The store of a formula: its constraints have ids in their order, counted from 1.
pub(crate) fn stored(alloc: Global, f: &Formula) -> Result<Store, NoMemory>
    requires { length f.now.constraints ≤ most_constraints }
    ensures { IfOk result (λ s. s ≡ stored_of f.now) }
{
    let mut store = Store::new(alloc, f.vars())?;
    for c in f.constraints() {
        store.add(c.copy()?)?;
    }
    Ok(store)
}

// The formula that a store's constraints make; so many were ever added.
pub(crate) fn remainder(alloc: Global, store: &Store, added: u64) -> Result<Formula, NoMemory>
    requires { added ≡ store.now.added }
    ensures { IfOk result (λ f. f ≡ problem_of store.now) }
{
    let mut formula = Formula::new(alloc, store.vars());
    for place in 0..added {
        push_copy(&mut formula, store.get(place + 1))?;
    }
    Ok(formula)
}

fn push_copy(formula: &mut Formula, c: Option<&Constraint>) -> Result<(), NoMemory>
    requires { IfSome (option_copied c) (Fits formula.old.vars) }
    ensures { OnOk result (formula.new ≡ record formula.old { constraints = formula.old.constraints ++ option_to_list (option_copied c.entry) }) }
{
    match c {
        Some(c) => formula.push(c.copy()?),
        None => Ok(()),
    }
}
