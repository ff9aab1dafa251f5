//! The klause of a pair group: the grid of its border, from the last literal to the first.
ghost use Rattle.std.specs.Prelude.{◌≡◌, ◌≤◌, ◌-◌, ℕ, false, length, None, Some, nat_eq, IfOk, OnOk, IsErrOf};
ghost use Rattle.std.specs.List.{AllByRecursion, IsDistinct};
ghost use Rattle.kn_bytes.specs.Outside.{Rose};
ghost use Rattle.kn_logic.specs.Literals.{AreKnown};
ghost use Rattle.kn_logic.specs.Constraints.{Bounded};
ghost use Rattle.kn_logic.specs.Groups.{is_among, IsPairGroup};
ghost use Rattle.kn_rules.specs.States.{live_at};
ghost use Rattle.kn_log.specs.Written.{LogsSuch};
ghost use Rattle.kn_justify.specs.Growth.{ArePlain};
ghost use Rattle.kn_justify.specs.Closings.{AreJustifying, Replaces};
ghost use Rattle.kn_justify.specs.Taken.{AreTaken};
ghost use Rattle.kn_justify.specs.PairGroups.{pair_klause, ArePaired, IsAllButOne};

use crate::closing::close;
use crate::counts::{All, Held, count_all, count_all_but_one};
use crate::pair_ids::{PairIds, pair_ids};
use kn_bytes::Sink;
use kn_lines::Arm;
use kn_log::{Log, LogError};
use kn_logic::{Constraint, Group, Lit};
use std::alloc::Global;

/// Justifies the klause of a pair group: logs lines that end with "at least all but one of the border", the literals
/// ascending by variable, and with the deletion of the group's clauses, which are live under these ids, one each, in
/// their order. Answers the id of the klause. There are three lines for each border literal, and two hints for each
/// pair of them. After an error the lines so far stand, and of the last one a fault has left the sink a part. No
/// other id changes.
pub fn justify_pairs<S: Sink>(
    alloc: Global,
    group: &Group,
    ids: &[u64],
    log: &mut Log,
    sink: &mut S,
) -> Result<u64, LogError>
    requires whole { log.old.failed ≡ false }
    requires pairs { IsPairGroup group.now }
    requires live { AreTaken log.old.state.given ids.now group.now.taken }
    requires different { IsDistinct nat_eq ids.now }
    ensures replaced { IfOk result (Replaces log.old.state log.new.state ids.now (pair_klause group.now)) }
    ensures klause { IfOk result (λ id. live_at log.new.state.given id ≡ Some (pair_klause group.now)) }
    ensures taken { OnOk result (AllByRecursion (λ id. live_at log.new.state.given id ≡ None) ids.now) }
    ensures kept { (id : ℕ) (c : Bounded) → is_among ids.now id ≡ false → live_at log.old.state.given id ≡ Some c → live_at log.new.state.given id ≡ Some c }
    ensures lines { LogsSuch (AreJustifying (pair_klause group.now) ids.now) log.old log.new (S.written sink.old) (S.written sink.new) result }
    ensures later { S.faults sink.old ≤ S.faults sink.new }
    ensures fault { IsErrOf result LogError.Fault → Rose (S.faults sink.old) (S.faults sink.new) }
{
    let pairs = pair_ids(alloc, ids, log)?;
    let border = group.border();
    let root = count_border(alloc, border, &pairs, log, sink)?;
    let klause = Constraint::new(border.len() as u64 - 1, Vec::from_slice(alloc, border)?);
    close(alloc, klause, root.lit.var(), root.unit, ids, log, sink)
}

// Defines what stands for "all literals of the border but one at most", and logs it as a clause.
fn count_border<S: Sink>(
    alloc: Global,
    border: &[Lit],
    pairs: &PairIds,
    log: &mut Log,
    sink: &mut S,
) -> Result<Held, LogError>
    requires whole { log.old.failed ≡ false }
    requires two { 2 ≤ length border.now }
    requires known { AreKnown log.old.state.vars border.now }
    requires paired { ArePaired log.old.state.given pairs.now border.now }
    ensures counted { IfOk result (λ h. IsAllButOne log.new.state border.now (Some h)) }
    ensures lines { LogsSuch ArePlain log.old log.new (S.written sink.old) (S.written sink.new) result }
    ensures later { S.faults sink.old ≤ S.faults sink.new }
    ensures fault { IsErrOf result LogError.Fault → Rose (S.faults sink.old) (S.faults sink.new) }
{
    let mut all = All {
        arm: Arm::True,
        lifts: Vec::new(alloc),
    };
    let mut held = None;
    let mut place = border.len() - 1;
    while place > 0 {
        let lits = border.split_at(place).1;
        count_all(border[place], &mut all, log, sink)?;
        let l = border[place - 1];
        held = Some(count_all_but_one(alloc, l, lits, &all, held, pairs, log, sink)?);
        place -= 1;
    }
    match held {
        Some(held) => Ok(held),
        None => unreachable!(),
    }
}
