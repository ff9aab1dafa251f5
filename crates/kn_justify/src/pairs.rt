//! The lemma of one entry, by two lines: unit propagation splits no case, so the first line settles the case that the
//! tested variable is true, and the second one needs only the other case.
ghost use Rattle.std.specs.Prelude.{◌≡◌, ◌<◌, ◌≤◌, ◌++◌, ◌∷◌, [], false, length, option_map, option_to_list, IfOk, OnOk, IsErrOf};
ghost use Rattle.kn_bytes.specs.Outside.{Rose};
ghost use Rattle.kn_logic.specs.Literals.{negated, IsKnown};
ghost use Rattle.kn_lines.specs.declared.line.Arm.TheVariants as arm;
ghost use Rattle.kn_rules.specs.Steps.{opposite};
ghost use Rattle.kn_log.specs.Written.{LogsSuch};
ghost use Rattle.kn_diagram.specs.Diagrams.{IsNode, depth_of, high_at, low_at};
ghost use Rattle.kn_justify.specs.Arms.{Settled};
ghost use Rattle.kn_justify.specs.Growth.{ArePlain};
ghost use Rattle.kn_justify.specs.Names.{IsNamedMet, HasName, test_at, pair_arms, side_hints, high_met, low_met};

use crate::Named;
use crate::settling::settle;
use kn_bytes::Sink;
use kn_diagram::{Diagrams, Met};
use kn_lines::Arm;
use kn_log::{Log, LogError};
use kn_logic::{Lit, NoMemory};
use std::alloc::Global;

/// Gives later hints the clause of an entry, "not u, or not v, or w", by the clauses of the pair of the high nodes
/// and of the pair of the low nodes at a depth, whose variable is tested: by one line that says that the variable
/// is false or else the clause holds, and one more for the clause. Answers as `settle` does.
pub(crate) fn pair<S: Sink>(
    alloc: Global,
    d: &Diagrams,
    m: &Met,
    depth: usize,
    test: Lit,
    high: Option<u64>,
    low: Option<u64>,
    named: &Named,
    log: &mut Log,
    sink: &mut S,
) -> Result<Option<u64>, LogError>
    requires whole { log.old.failed ≡ false }
    requires within { depth < length d.now.order }
    requires test { test ≡ test_at d.now depth }
    requires known { IsKnown log.old.state.vars test }
    requires met { IsNamedMet log.old.state d.now named.now m.now }
    requires branch { 2 ≤ m.now.u }
    requires high { Settled log.old.state.given (option_to_list high) (pair_arms named.now (high_met d.now depth m.now)) }
    requires low { Settled log.old.state.given (option_to_list low) (pair_arms named.now (low_met d.now depth m.now)) }
    ensures settled { IfOk result (λ id. Settled log.new.state.given (option_to_list id) (pair_arms named.now m.now)) }
    ensures lines { LogsSuch ArePlain log.old log.new (S.written sink.old) (S.written sink.new) result }
    ensures later { S.faults sink.old ≤ S.faults sink.new }
    ensures fault { IsErrOf result LogError.Fault → Rose (S.faults sink.old) (S.faults sink.new) }
{
    let first = first_line(alloc, d, m, depth, test, high, named, log, sink)?;
    second_line(alloc, d, m, depth, first, low, named, log, sink)
}

/// Gives later hints the clause of an entry at the variable that is quantified, "not u, or w", v being "true", by
/// those of its two halves: "not the high node, or w" and "not the low node, or w".
pub(crate) fn at_variable<S: Sink>(
    alloc: Global,
    d: &Diagrams,
    m: &Met,
    depth: usize,
    high: Option<u64>,
    low: Option<u64>,
    named: &Named,
    log: &mut Log,
    sink: &mut S,
) -> Result<Option<u64>, LogError>
    requires whole { log.old.failed ≡ false }
    requires within { depth < length d.now.order }
    requires at { depth_of d.now m.now.u ≡ depth }
    requires alone { m.now.v ≡ 1 }
    requires met { IsNamedMet log.old.state d.now named.now m.now }
    requires branch { 2 ≤ m.now.u }
    requires high { Settled log.old.state.given (option_to_list high) (pair_arms named.now (record { u = high_at d.now depth m.now.u; v = 1; w = m.now.w })) }
    requires low { Settled log.old.state.given (option_to_list low) (pair_arms named.now (record { u = low_at d.now depth m.now.u; v = 1; w = m.now.w })) }
    ensures settled { IfOk result (λ id. Settled log.new.state.given (option_to_list id) (pair_arms named.now m.now)) }
    ensures lines { LogsSuch ArePlain log.old log.new (S.written sink.old) (S.written sink.new) result }
    ensures later { S.faults sink.old ≤ S.faults sink.new }
    ensures fault { IsErrOf result LogError.Fault → Rose (S.faults sink.old) (S.faults sink.new) }
{
    let _depth = d.depth(m.u);
    let mut hints = Vec::new(alloc);
    push_option(&mut hints, high)?;
    push_option(&mut hints, low)?;
    named.push_hint(&mut hints, d, depth, 0, m.u)?;
    named.push_hint(&mut hints, d, depth, 1, m.u)?;
    let arms = pair_arms(alloc, None, named, m)?;
    settle(alloc, &arms, hints, log, sink)
}

/// Adds an id behind the hints, if there is one.
pub(crate) fn push_option(hints: &mut Vec<u64>, id: Option<u64>) -> Result<(), NoMemory>
    ensures { OnOk result (hints.new.items ≡ hints.old.items ++ option_to_list id) }
{
    if let Some(id) = id {
        hints.push(id)?;
    }
    Ok(())
}

// The first line: "not x, or not u, or not v, or w", by the clause of the pair of the high nodes.
fn first_line<S: Sink>(
    alloc: Global,
    d: &Diagrams,
    m: &Met,
    depth: usize,
    test: Lit,
    child: Option<u64>,
    named: &Named,
    log: &mut Log,
    sink: &mut S,
) -> Result<Option<u64>, LogError>
    requires whole { log.old.failed ≡ false }
    requires within { depth < length d.now.order }
    requires test { test ≡ test_at d.now depth }
    requires known { IsKnown log.old.state.vars test }
    requires met { IsNamedMet log.old.state d.now named.now m.now }
    requires child { Settled log.old.state.given (option_to_list child) (pair_arms named.now (high_met d.now depth m.now)) }
    ensures settled { IfOk result (λ id. Settled log.new.state.given (option_to_list id) (arm.Lit (negated (test_at d.now depth)) ∷ pair_arms named.now m.now)) }
    ensures lines { LogsSuch ArePlain log.old log.new (S.written sink.old) (S.written sink.new) result }
    ensures later { S.faults sink.old ≤ S.faults sink.new }
    ensures fault { IsErrOf result LogError.Fault → Rose (S.faults sink.old) (S.faults sink.new) }
{
    let _depth = d.depth(m.u);
    let mut hints = Vec::new(alloc);
    push_side(&mut hints, d, m, depth, (0, 2), child, named)?;
    let arms = pair_arms(alloc, Some(test.negated()), named, m)?;
    settle(alloc, &arms, hints, log, sink)
}

// The second line: "not u, or not v, or w", by the first and the clause of the pair of the low nodes.
fn second_line<S: Sink>(
    alloc: Global,
    d: &Diagrams,
    m: &Met,
    depth: usize,
    first: Option<u64>,
    child: Option<u64>,
    named: &Named,
    log: &mut Log,
    sink: &mut S,
) -> Result<Option<u64>, LogError>
    requires whole { log.old.failed ≡ false }
    requires within { depth < length d.now.order }
    requires met { IsNamedMet log.old.state d.now named.now m.now }
    requires branch { 2 ≤ m.now.u }
    requires first { Settled log.old.state.given (option_to_list first) (arm.Lit (negated (test_at d.now depth)) ∷ pair_arms named.now m.now) }
    requires child { Settled log.old.state.given (option_to_list child) (pair_arms named.now (low_met d.now depth m.now)) }
    ensures settled { IfOk result (λ id. Settled log.new.state.given (option_to_list id) (pair_arms named.now m.now)) }
    ensures lines { LogsSuch ArePlain log.old log.new (S.written sink.old) (S.written sink.new) result }
    ensures later { S.faults sink.old ≤ S.faults sink.new }
    ensures fault { IsErrOf result LogError.Fault → Rose (S.faults sink.old) (S.faults sink.new) }
{
    let _depth = d.depth(m.u);
    let mut hints = Vec::new(alloc);
    push_option(&mut hints, first)?;
    push_side(&mut hints, d, m, depth, (1, 3), child, named)?;
    let arms = pair_arms(alloc, None, named, m)?;
    settle(alloc, &arms, hints, log, sink)
}

// The arms of "not u, or not v, or w", behind a first literal if there is one.
fn pair_arms(
    alloc: Global,
    front: Option<Lit>,
    named: &Named,
    m: &Met,
) -> Result<Vec<Arm>, NoMemory>
    ensures { IfOk result (λ arms. arms.items ≡ option_to_list (option_map arm.Lit front) ++ pair_arms named.now m.now) }
{
    let mut arms = Vec::new(alloc);
    if let Some(lit) = front {
        arms.push(Arm::Lit(lit))?;
    }
    arms.push(opposite(named.known_arm(m.u)))?;
    arms.push(opposite(named.known_arm(m.v)))?;
    arms.push(named.known_arm(m.w))?;
    Ok(arms)
}

// Adds the hints of one side of a pair behind those that stand there: the clauses at these places of the
// definitions of u and v, and of w, and between them the clause of the children's pair.
fn push_side(
    hints: &mut Vec<u64>,
    d: &Diagrams,
    m: &Met,
    depth: usize,
    places: (u64, u64),
    child: Option<u64>,
    named: &Named,
) -> Result<(), NoMemory>
    requires u { IsNode d.now m.now.u }
    requires v { IsNode d.now m.now.v }
    requires w { IsNode d.now m.now.w }
    requires down { places.0 ≤ 3 }
    requires up { places.1 ≤ 3 }
    ensures { OnOk result (hints.new.items ≡ hints.old.items ++ side_hints d.now named.now depth places.0 places.1 m.now (option_to_list child)) }
{
    let (down, up) = places;
    named.push_hint(hints, d, depth, down, m.u)?;
    named.push_hint(hints, d, depth, down, m.v)?;
    push_option(hints, child)?;
    named.push_hint(hints, d, depth, up, m.w)
}

// The arm that is true where this one is false.
fn opposite(arm: Arm) -> Arm
    ensures { result ≡ opposite arm }
{
    match arm {
        Arm::True => Arm::False,
        Arm::False => Arm::True,
        Arm::Lit(lit) => Arm::Lit(lit.negated()),
    }
}
