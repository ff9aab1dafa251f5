// Partners that two literals have in common.
ghost use Rattle.std.specs.Prelude.{◌≡◌, ◌≤◌, ◌<◌, nat_lt, ◌&&◌, ◌==◌, false, Bool, length, take, filter, IfOk, IfSome, slice_get};
ghost use Rattle.std.specs.List.{AllByRecursion};
ghost use Rattle.std.specs.List.Sorted.{IsStrictlyIncreasing};
ghost use Rattle.kn_logic.specs.Literals.{is_same};
ghost use Rattle.kn_guess.specs.Tables.{rank, ranks, is_left};
ghost use Rattle.kn_guess.specs.Pairing.{is_common, IsMet};

use crate::partner::Partner;
use kn_logic::{Lit, NoMemory};
use kn_store::Store;
use std::alloc::Global;

// Those of `xs` that stand among `ys` too, where the clauses of both are left.
pub(crate) fn common(
    alloc: Global,
    store: &Store,
    xs: &[Partner],
    ys: &[Partner],
) -> Result<Vec<Partner>, NoMemory>
    requires xs { IsStrictlyIncreasing (ranks xs.now) }
    requires ys { IsStrictlyIncreasing (ranks ys.now) }
    ensures { IfOk result (λ kept. kept.items ≡ filter (is_common store.now.live ys.now) xs.now) }
{
    let mut kept = Vec::new(alloc);
    let mut at = 0;
    for x in xs {
        at = advance(ys, at, x.lit());
        if is_met(store, ys, at, *x) {
            kept.push(*x)?;
        }
    }
    Ok(kept)
}

fn is_met(store: &Store, ys: &[Partner], at: usize, x: Partner) -> bool
    requires ys { IsStrictlyIncreasing (ranks ys.now) }
    requires place { IsMet ys.now x.lit at }
    ensures { result ≡ is_common store.now.live ys.now x }
{
    let Some(y) = ys.get(at) else {
        return false;
    };
    if y.lit() != x.lit() {
        return false;
    }
    is_left(store, *y) && is_left(store, x)
}

pub(crate) fn is_left(store: &Store, p: Partner) -> bool
    ensures { result ≡ is_left store.now.live p }
{
    store.get(p.id()).is_some()
}

// The first place whose literal is not before this one, in steps that double.
fn advance(ys: &[Partner], from: usize, lit: Lit) -> usize
    requires ys { IsStrictlyIncreasing (ranks ys.now) }
    requires within { from ≤ length ys.now }
    requires before { AllByRecursion (λ y. rank y.lit < rank lit) (take from ys.now) }
    ensures within { result ≤ length ys.now }
    ensures place { IsMet ys.now lit result }
{
    let mut low = from;
    let mut step = 1;
    while step <= ys.len() - low {
        let place = low + step - 1;
        if !is_before(ys[place].lit(), lit) {
            return halved(ys, low, place, lit);
        }
        low = place + 1;
        step = low - from + 1;
    }
    halved(ys, low, ys.len(), lit)
}

fn halved(ys: &[Partner], from: usize, to: usize, lit: Lit) -> usize
    requires ys { IsStrictlyIncreasing (ranks ys.now) }
    requires order { from ≤ to }
    requires within { to ≤ length ys.now }
    requires before { AllByRecursion (λ y. rank y.lit < rank lit) (take from ys.now) }
    requires here { IfSome (slice_get ys.now to) (λ y. rank lit ≤ rank y.lit) }
    ensures within { result ≤ length ys.now }
    ensures place { IsMet ys.now lit result }
{
    let mut low = from;
    let mut high = to;
    while low < high {
        let middle = low + (high - low) / 2;
        if is_before(ys[middle].lit(), lit) {
            low = middle + 1;
        } else {
            high = middle;
        }
    }
    low
}

fn is_before(a: Lit, b: Lit) -> bool
    ensures { result ≡ nat_lt (rank a) (rank b) }
{
    if a.var() == b.var() {
        return a.is_positive() && !b.is_positive();
    }
    a.var() < b.var()
}
