//! The lines of small pair groups, against whole texts.
ghost use Rattle.std.specs.Prelude.{◌≡◌, ◌≤◌, ◌^◌, ◌∷◌, [], true, false, nat_eq, IfOk};
ghost use Rattle.std.specs.List.{IsDistinct};
ghost use Rattle.kn_logic.specs.Constraints.{clause};
ghost use Rattle.kn_logic.specs.Groups.{IsPairGroup};
ghost use Rattle.kn_rules.specs.States.{start};
ghost use Rattle.kn_justify.specs.Taken.{AreTaken};

use super::{add, first_clauses, steps_to};
use crate::justify_pairs;
use kn_bytes::MemSink;
use kn_log::{Log, LogError};
use kn_logic::{Formula, Group, Lit, NoMemory};
use kn_rules::check;
use std::alloc::Global;
use std::test::Fail;

// At most one and at least two of three variables.
fn three(alloc: Global) -> Result<Formula, NoMemory>
    ensures { IfOk result (λ f. f ≡ record {
      vars = 3;
      constraints =
          clause (record { variable = 1; positive = false } ∷ record { variable = 2; positive = false } ∷ [])
          ∷ clause (record { variable = 1; positive = false } ∷ record { variable = 3; positive = false } ∷ [])
          ∷ clause (record { variable = 2; positive = false } ∷ record { variable = 3; positive = false } ∷ [])
          ∷ clause (record { variable = 1; positive = true } ∷ record { variable = 2; positive = true } ∷ [])
          ∷ clause (record { variable = 1; positive = true } ∷ record { variable = 3; positive = true } ∷ [])
          ∷ clause (record { variable = 2; positive = true } ∷ record { variable = 3; positive = true } ∷ []) ∷ [];
    }) }
{
    let mut f = Formula::new(alloc, 3);
    add(alloc, &mut f, Lit::new(1, false), Lit::new(2, false))?;
    add(alloc, &mut f, Lit::new(1, false), Lit::new(3, false))?;
    add(alloc, &mut f, Lit::new(2, false), Lit::new(3, false))?;
    add(alloc, &mut f, Lit::new(1, true), Lit::new(2, true))?;
    add(alloc, &mut f, Lit::new(1, true), Lit::new(3, true))?;
    add(alloc, &mut f, Lit::new(2, true), Lit::new(3, true))?;
    Ok(f)
}

// At most one of four variables.
fn four(alloc: Global) -> Result<Formula, NoMemory>
    ensures { IfOk result (λ f. f ≡ record {
      vars = 4;
      constraints =
          clause (record { variable = 1; positive = false } ∷ record { variable = 2; positive = false } ∷ [])
          ∷ clause (record { variable = 1; positive = false } ∷ record { variable = 3; positive = false } ∷ [])
          ∷ clause (record { variable = 1; positive = false } ∷ record { variable = 4; positive = false } ∷ [])
          ∷ clause (record { variable = 2; positive = false } ∷ record { variable = 3; positive = false } ∷ [])
          ∷ clause (record { variable = 2; positive = false } ∷ record { variable = 4; positive = false } ∷ [])
          ∷ clause (record { variable = 3; positive = false } ∷ record { variable = 4; positive = false } ∷ []) ∷ [];
    }) }
{
    let mut f = Formula::new(alloc, 4);
    add(alloc, &mut f, Lit::new(1, false), Lit::new(2, false))?;
    add(alloc, &mut f, Lit::new(1, false), Lit::new(3, false))?;
    add(alloc, &mut f, Lit::new(1, false), Lit::new(4, false))?;
    add(alloc, &mut f, Lit::new(2, false), Lit::new(3, false))?;
    add(alloc, &mut f, Lit::new(2, false), Lit::new(4, false))?;
    add(alloc, &mut f, Lit::new(3, false), Lit::new(4, false))?;
    Ok(f)
}

// At most one of 1, -2, 3, 4, -5 is false: clauses in any order, two of them twice.
fn five(alloc: Global) -> Result<Formula, NoMemory>
    ensures { IfOk result (λ f. f ≡ record {
      vars = 5;
      constraints =
          clause (record { variable = 1; positive = true } ∷ record { variable = 4; positive = true } ∷ [])
          ∷ clause (record { variable = 2; positive = false } ∷ record { variable = 1; positive = true } ∷ [])
          ∷ clause (record { variable = 2; positive = false } ∷ record { variable = 4; positive = true } ∷ [])
          ∷ clause (record { variable = 4; positive = true } ∷ record { variable = 2; positive = false } ∷ [])
          ∷ clause (record { variable = 3; positive = true } ∷ record { variable = 1; positive = true } ∷ [])
          ∷ clause (record { variable = 4; positive = true } ∷ record { variable = 3; positive = true } ∷ [])
          ∷ clause (record { variable = 3; positive = true } ∷ record { variable = 2; positive = false } ∷ [])
          ∷ clause (record { variable = 5; positive = false } ∷ record { variable = 1; positive = true } ∷ [])
          ∷ clause (record { variable = 5; positive = false } ∷ record { variable = 2; positive = false } ∷ [])
          ∷ clause (record { variable = 3; positive = true } ∷ record { variable = 5; positive = false } ∷ [])
          ∷ clause (record { variable = 5; positive = false } ∷ record { variable = 4; positive = true } ∷ [])
          ∷ clause (record { variable = 1; positive = true } ∷ record { variable = 3; positive = true } ∷ []) ∷ [];
    }) }
{
    let mut f = Formula::new(alloc, 5);
    add(alloc, &mut f, Lit::new(1, true), Lit::new(4, true))?;
    add(alloc, &mut f, Lit::new(2, false), Lit::new(1, true))?;
    add(alloc, &mut f, Lit::new(2, false), Lit::new(4, true))?;
    add(alloc, &mut f, Lit::new(4, true), Lit::new(2, false))?;
    add(alloc, &mut f, Lit::new(3, true), Lit::new(1, true))?;
    add(alloc, &mut f, Lit::new(4, true), Lit::new(3, true))?;
    add(alloc, &mut f, Lit::new(3, true), Lit::new(2, false))?;
    add(alloc, &mut f, Lit::new(5, false), Lit::new(1, true))?;
    add(alloc, &mut f, Lit::new(5, false), Lit::new(2, false))?;
    add(alloc, &mut f, Lit::new(3, true), Lit::new(5, false))?;
    add(alloc, &mut f, Lit::new(5, false), Lit::new(4, true))?;
    add(alloc, &mut f, Lit::new(1, true), Lit::new(3, true))?;
    Ok(f)
}

// The id of the klause of a pair group, and the proof so far.
fn justified(
    alloc: Global,
    f: &Formula,
    group: &Group,
    ids: &[u64],
) -> Result<(u64, MemSink), LogError>
    requires vars { f.now.vars ≤ 2 ^ 32 }
    requires pairs { IsPairGroup group.now }
    requires live { AreTaken (start f.now).given ids.now group.now.taken }
    requires different { IsDistinct nat_eq ids.now }
{
    let mut sink = MemSink::new(alloc, 4096, 64, Vec::new(alloc))?;
    let mut log = Log::new(alloc, f, &mut sink)?;
    let id = justify_pairs(alloc, group, ids, &mut log, &mut sink)?;
    Ok((id, sink))
}

#[test]
fn three_literals(rt: HostRuntime) -> Result<(), Fail> {
    let alloc = rt.alloc();
    let f = three(alloc)?;
    let border = [Lit::new(1, false), Lit::new(2, false), Lit::new(3, false)];
    let group = first_clauses(alloc, &f, 3, &[], &border)?;
    let Ok((id, proof)) = justified(alloc, &f, &group, &[1, 2, 3]) else {
        return Err("not justified".into());
    };
    assert_eq!(rt; id, 25);
    let text =
        "p kpf 3 6\nd -3 T F\nd -2 T 4\nr 5 0 13 3 9 14 0\nd -2 4 F\nd -1 5 6\nr 7 0 15 22 1 2 9 18 23 0\nk 2 -1 -2 -3 0 7 24\nx 1 2 3 0\n";
    assert!(rt; proof.written() == text.as_bytes());
    assert_eq!(rt; check(alloc, &f, proof.written())?, steps_to(9));
    Ok(())
}

#[test]
fn four_literals(rt: HostRuntime) -> Result<(), Fail> {
    let alloc = rt.alloc();
    let f = four(alloc)?;
    let border = [
        Lit::new(1, false),
        Lit::new(2, false),
        Lit::new(3, false),
        Lit::new(4, false),
    ];
    let group = first_clauses(alloc, &f, 6, &[], &border)?;
    let Ok((id, proof)) = justified(alloc, &f, &group, &[1, 2, 3, 4, 5, 6]) else {
        return Err("not justified".into());
    };
    assert_eq!(rt; id, 34);
    let text =
        "p kpf 4 6\nd -4 T F\nd -3 T 5\nr 6 0 13 6 9 14 0\nd -3 5 F\nd -2 6 7\nr 8 0 15 22 4 5 9 18 23 0\nd -2 7 F\nd -1 8 9\nr 10 0 24 31 1 2 3 9 18 27 32 0\nk 3 -1 -2 -3 -4 0 10 33\nx 1 2 3 4 5 6 0\n";
    assert!(rt; proof.written() == text.as_bytes());
    assert_eq!(rt; check(alloc, &f, proof.written())?, steps_to(12));
    Ok(())
}

#[test]
fn five_literals(rt: HostRuntime) -> Result<(), Fail> {
    let alloc = rt.alloc();
    let f = five(alloc)?;
    let border = [
        Lit::new(1, true),
        Lit::new(2, false),
        Lit::new(3, true),
        Lit::new(4, true),
        Lit::new(5, false),
    ];
    let group = first_clauses(alloc, &f, 12, &[], &border)?;
    let ids = [1, 2, 3, 4, 5, 6, 7, 8, 9, 10, 11, 12];
    let Ok((id, proof)) = justified(alloc, &f, &group, &ids) else {
        return Err("not justified".into());
    };
    assert_eq!(rt; id, 49);
    let text =
        "p kpf 5 12\nd -5 T F\nd 4 T 6\nr 7 0 19 11 15 20 0\nd 4 6 F\nd 3 7 8\nr 9 0 21 28 6 10 15 24 29 0\nd 3 8 F\nd -2 9 10\nr 11 0 30 37 7 3 9 15 24 33 38 0\nd -2 10 F\nd 1 11 12\nr 13 0 39 46 2 5 1 8 15 24 33 42 47 0\nk 4 1 -2 3 4 -5 0 13 48\nx 1 2 3 4 5 6 7 8 9 10 11 12 0\n";
    assert!(rt; proof.written() == text.as_bytes());
    assert_eq!(rt; check(alloc, &f, proof.written())?, steps_to(15));
    Ok(())
}
