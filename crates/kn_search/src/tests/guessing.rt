//! What guides a search: the heap of variables by activity, the sequence of restarts, and which values are tried first.
ghost use Rattle.std.specs.Prelude.{◌≡◌, IfOk};

use crate::Outcome;
use crate::heap::Heap;
use crate::restarts::Restarts;
use crate::tests::{searched, sink, true_count};
use kn_logic::{Constraint, Formula, Lit, NoMemory};
use std::alloc::Global;
use std::test::Fail;

// the variables of a heap in the order in which they are taken out; 0 for those that are wanting
fn taken(heap: &mut Heap) -> [u64; 5] {
    let mut order = [0; 5];
    for slot in &mut order {
        *slot = heap.pop().unwrap_or(0);
    }
    order
}

// raises the variables from 1 to 5, and two that are not there
fn raise(heap: &mut Heap, by: [u64; 5]) {
    let mut var: u64 = 0;
    for by in by {
        var = var.saturating_add(1);
        heap.raise(var, by);
    }
    heap.raise(0, 99);
    heap.raise(u64::MAX, 99);
}

#[test]
fn the_most_active_variable_is_taken_first(rt: HostRuntime) -> Result<(), Fail> {
    // by how much each variable is raised before and after all were put in, and the order then
    let table = [
        ([1, 2, 3, 4, 5], [0, 0, 0, 0, 0], [5, 4, 3, 2, 1]),
        ([5, 1, 4, 2, 3], [0, 0, 0, 0, 0], [1, 3, 5, 4, 2]),
        ([0, 0, 0, 0, 0], [2, 5, 1, 3, 4], [2, 5, 4, 1, 3]),
        ([5, 1, 4, 2, 3], [0, 9, 0, 9, 0], [4, 2, 1, 3, 5]),
        ([5, u64::MAX, 4, 2, 3], [0, 7, 0, 0, 9], [2, 5, 1, 3, 4]),
    ];
    for (before, after, order) in table {
        let mut heap = Heap::new(rt.alloc(), 5)?;
        raise(&mut heap, before);
        for var in [1, 2, 3, 4, 5, 3] {
            heap.insert(var);
        }
        assert_eq!(rt; heap.len(), 5);
        raise(&mut heap, after);
        assert_eq!(rt; taken(&mut heap), order);
        assert_eq!(rt; heap.len(), 0);
    }
    Ok(())
}

// how many conflicts there are up to the next restart; 0 where there are 1000 of them
fn conflicts_before(restarts: &mut Restarts) -> u64 {
    for conflicts in 1..1000 {
        if restarts.is_due() {
            return conflicts;
        }
    }
    0
}

#[test]
fn restarts_follow_luby(rt: HostRuntime) -> Result<(), Fail> {
    let mut restarts = Restarts::new();
    for conflicts in [
        64, 64, 128, 64, 64, 128, 256, 64, 64, 128, 64, 64, 128, 256, 512, 64,
    ] {
        assert_eq!(rt; conflicts_before(&mut restarts), conflicts);
    }
    Ok(())
}

// at least so many of three literals of this sign
fn count(alloc: Global, bound: u64, positive: bool) -> Result<Formula, NoMemory>
    ensures { IfOk result (λ f. f.vars ≡ 3) }
{
    let mut f = Formula::new(alloc, 3);
    let first = Lit::new(1, positive);
    let second = Lit::new(2, positive);
    let third = Lit::new(3, positive);
    f.push(Constraint::new(bound, vec![in alloc; first, second, third]?))?;
    Ok(f)
}

#[test]
fn values_lean_to_constraints(rt: HostRuntime) -> Result<(), Fail> {
    // a bound, the sign of the literals, and how many variables are true
    let table = [
        (0, true, 0),
        (1, true, 3),
        (1, false, 0),
        (2, true, 3),
        (2, false, 0),
        (3, true, 3),
    ];
    for (bound, positive, trues) in table {
        let f = count(rt.alloc(), bound, positive)?;
        let mut sink = sink(rt.alloc(), &[])?;
        let Ok(Outcome::Model(m)) = searched(rt.alloc(), &f, 0, 0, &mut sink) else {
            return Err("a model is found".into());
        };
        assert_eq!(rt; true_count(&m), trues);
        assert_eq!(rt; sink.written(), b"p kpf 3 1\n".as_slice());
    }
    Ok(())
}
