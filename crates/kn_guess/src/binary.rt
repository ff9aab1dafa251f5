// Binary clauses: two literals of two variables.
ghost use Rattle.std.specs.Prelude.{◌≡◌, ◌&&◌, Some, true, false, IfSome, IfNone};
ghost use Rattle.kn_logic.specs.Constraints.{Bounded};
ghost use Rattle.kn_logic.specs.Groups.{is_binary};
ghost use Rattle.kn_store.specs.Stores.{constraint_at};

use kn_logic::Constraint;
use kn_store::Store;

// The binary clause of an id.
pub(crate) fn binary(store: &Store, id: u64) -> Option<&Constraint>
    ensures some { IfSome result (λ c. (constraint_at store.now.live id ≡ Some c.now) × (is_binary c.now ≡ true)) }
    ensures none { IfNone result ((c : Bounded) → constraint_at store.now.live id ≡ Some c → is_binary c ≡ false) }
{
    let c = store.get(id)?;
    if !is_binary(c) {
        return None;
    }
    Some(c)
}

pub(crate) fn is_binary(c: &Constraint) -> bool
    ensures { result ≡ is_binary c.now }
{
    match c.lits() {
        [a, b] => c.is_clause() && a.var() != b.var(),
        _ => false,
    }
}
