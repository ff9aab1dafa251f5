//! The lines of a small group with auxiliary variables.
ghost use Rattle.std.specs.Prelude.{◌≡◌, ◌≤◌, ◌^◌, ◌∷◌, [], true, false, length, nat_eq, IfOk};
ghost use Rattle.std.specs.List.{IsDistinct};
ghost use Rattle.kn_logic.specs.Constraints.{clause};
ghost use Rattle.kn_rules.specs.States.{start};
ghost use Rattle.kn_justify.specs.Taken.{AreTaken, CountsBorder, IsGroupWithin};

use super::{add, first_clauses, steps_to};
use crate::justify_elimination;
use kn_bytes::MemSink;
use kn_log::{Log, LogError};
use kn_logic::{Formula, Group, Lit, NoMemory};
use kn_quant::eliminate;
use kn_rules::check;
use std::alloc::Global;
use std::test::Fail;

// At most one of 1, 2 and 3 is true, by the variables 4 and 5.
fn at_most_one(alloc: Global) -> Result<Formula, NoMemory>
    ensures { IfOk result (λ f. f ≡ record {
      vars = 5;
      constraints =
          clause (record { variable = 1; positive = false } ∷ record { variable = 4; positive = true } ∷ [])
          ∷ clause (record { variable = 4; positive = false } ∷ record { variable = 5; positive = true } ∷ [])
          ∷ clause (record { variable = 2; positive = false } ∷ record { variable = 5; positive = true } ∷ [])
          ∷ clause (record { variable = 2; positive = false } ∷ record { variable = 4; positive = false } ∷ [])
          ∷ clause (record { variable = 3; positive = false } ∷ record { variable = 5; positive = false } ∷ []) ∷ [];
    }) }
{
    let mut f = Formula::new(alloc, 5);
    add(alloc, &mut f, Lit::new(1, false), Lit::new(4, true))?;
    add(alloc, &mut f, Lit::new(4, false), Lit::new(5, true))?;
    add(alloc, &mut f, Lit::new(2, false), Lit::new(5, true))?;
    add(alloc, &mut f, Lit::new(2, false), Lit::new(4, false))?;
    add(alloc, &mut f, Lit::new(3, false), Lit::new(5, false))?;
    Ok(f)
}

// The id of the klause of a group that counts with this bound, and the proof so far.
fn justified(
    alloc: Global,
    f: &Formula,
    group: &Group,
    ids: &[u64],
    bound: u64,
) -> Result<(u64, MemSink), LogError>
    requires vars { f.now.vars ≤ 2 ^ 32 }
    requires counts { CountsBorder group.now bound }
    requires bound { (1 ≤ bound) × (bound ≤ length group.now.border) }
    requires known { IsGroupWithin f.now.vars group.now }
    requires live { AreTaken (start f.now).given ids.now group.now.taken }
    requires different { IsDistinct nat_eq ids.now }
{
    let Ok(e) = eliminate(alloc, group) else {
        return Err(LogError::Memory);
    };
    let mut sink = MemSink::new(alloc, 4096, 64, Vec::new(alloc))?;
    let mut log = Log::new(alloc, f, &mut sink)?;
    let id = justify_elimination(alloc, group, ids, &e, bound, &mut log, &mut sink)?;
    Ok((id, sink))
}

// The lines of the first clause: its nodes are named, and its unit follows.
const BEGINNING: &[u8] = b"p kpf 5 5\nd 1 F T\nd 4 T 6\nr 7 0 12 13 9 8 1 0\n";

// The klause, by the diagram and the unit of the result.
const END: &[u8] = b"r 25 0 115 126 0\nk 2 -3 -2 -1 0 25 127\nx 1 2 3 4 5 0\n";

#[test]
fn a_counter_of_three_literals(rt: HostRuntime) -> Result<(), Fail> {
    let alloc = rt.alloc();
    let f = at_most_one(alloc)?;
    let border = [Lit::new(1, false), Lit::new(2, false), Lit::new(3, false)];
    let group = first_clauses(alloc, &f, 5, &[4, 5], &border)?;
    let Ok((id, proof)) = justified(alloc, &f, &group, &[1, 2, 3, 4, 5], 2) else {
        return Err("not justified".into());
    };
    assert_eq!(rt; id, 128);
    assert!(rt; proof.written().starts_with(BEGINNING) && proof.written().ends_with(END));
    assert_eq!(rt; check(alloc, &f, proof.written())?, steps_to(65));
    Ok(())
}
