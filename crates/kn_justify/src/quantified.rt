//! The lemmas of a quantification: above the variable they go on as in a join; at it they come of a disjunction.
ghost use Rattle.std.specs.Prelude.{◌≡◌, ◌≤◌, ◌||◌, [], false, option_to_list, IfOk, IsErrOf};
ghost use Rattle.kn_bytes.specs.Outside.{Rose};
ghost use Rattle.kn_log.specs.Written.{LogsSuch};
ghost use Rattle.kn_diagram.specs.Diagrams.{depth_in};
ghost use Rattle.kn_diagram.specs.Traces.{AreExplained};
ghost use Rattle.kn_quant.specs.Quantified.{AreAccounted};
ghost use Rattle.kn_justify.specs.declared.side.Side.TheVariants.{Left, Right};
ghost use Rattle.kn_justify.specs.Arms.{Settled};
ghost use Rattle.kn_justify.specs.Growth.{ArePlain};
ghost use Rattle.kn_justify.specs.Names.{IsNamedMet, pair_arms};
ghost use Rattle.kn_justify.specs.Lemmas.{alone, AreJoined, AreReduced, AreCovered, AreNamed, HasParts, AreParted};

use crate::Named;
use crate::joins::joins;
use crate::lemmas::Lemmas;
use crate::pairs::{at_variable, pair};
use crate::side::{Side, alone};
use kn_bytes::Sink;
use kn_diagram::{Diagrams, Met};
use kn_log::{Log, LogError};
use kn_logic::Lit;
use std::alloc::Global;

/// Gives later hints "not u, or w" of each entry (u, u, w) of a quantification, by the disjunctions that it rests on:
/// its lemma is noted by the pair (u, u).
pub(crate) fn quantified<S: Sink>(
    alloc: Global,
    d: &Diagrams,
    var: u64,
    met: &[Met],
    halves: &[Met],
    named: &Named,
    log: &mut Log,
    sink: &mut S,
) -> Result<Lemmas, LogError>
    requires whole { log.old.failed ≡ false }
    requires named { AreNamed log.old.state d.now named.now met.now }
    requires halves_named { AreNamed log.old.state d.now named.now halves.now }
    requires explained { AreExplained (λ a b. a || b) d.now [] halves.now }
    requires accounted { AreAccounted d.now var halves.now [] met.now }
    ensures reduced { IfOk result (AreReduced log.new.state.given d.now named.now var) }
    ensures covered { IfOk result (λ lemmas. AreCovered lemmas met.now) }
    ensures lines { LogsSuch ArePlain log.old log.new (S.written sink.old) (S.written sink.new) result }
    ensures later { S.faults sink.old ≤ S.faults sink.new }
    ensures fault { IsErrOf result LogError.Fault → Rose (S.faults sink.old) (S.faults sink.new) }
{
    let basis = Basis {
        var,
        place: d.place(var),
        left: joins(alloc, d, Side::Left, halves, named, log, sink)?,
        right: joins(alloc, d, Side::Right, halves, named, log, sink)?,
    };
    entries(alloc, d, &basis, met, named, log, sink)
}

// What the entries of a quantification rest on: the variable and its place in the order, and the lemmas of both sides
// of the disjunctions.
#[derive(Drop)]
struct Basis {
    var: u64,
    place: usize,
    left: Lemmas,
    right: Lemmas,
}

// The lemmas of the entries, by what they rest on.
fn entries<S: Sink>(
    alloc: Global,
    d: &Diagrams,
    basis: &Basis,
    met: &[Met],
    named: &Named,
    log: &mut Log,
    sink: &mut S,
) -> Result<Lemmas, LogError>
    requires whole { log.old.failed ≡ false }
    requires named { AreNamed log.old.state d.now named.now met.now }
    requires place { basis.now.place ≡ depth_in d.now.order basis.now.var }
    requires left { AreJoined log.old.state.given d.now named.now Left basis.now.left }
    requires right { AreJoined log.old.state.given d.now named.now Right basis.now.right }
    requires parts { AreParted d.now basis.now.var basis.now.left basis.now.right met.now }
    ensures reduced { IfOk result (AreReduced log.new.state.given d.now named.now basis.now.var) }
    ensures covered { IfOk result (λ lemmas. AreCovered lemmas met.now) }
    ensures lines { LogsSuch ArePlain log.old log.new (S.written sink.old) (S.written sink.new) result }
    ensures later { S.faults sink.old ≤ S.faults sink.new }
    ensures fault { IsErrOf result LogError.Fault → Rose (S.faults sink.old) (S.faults sink.new) }
{
    let mut lemmas = Lemmas::new(alloc);
    for m in met {
        if lemmas.get(m.u, m.v).is_some() {
            continue;
        }
        let id = entry(alloc, d, basis, m, &lemmas, named, log, sink)?;
        lemmas.insert(m.u, m.v, id)?;
    }
    Ok(lemmas)
}

// The lemma of an entry: above the variable by those of its two nodes, at the variable by those of their disjunction.
fn entry<S: Sink>(
    alloc: Global,
    d: &Diagrams,
    basis: &Basis,
    m: &Met,
    lemmas: &Lemmas,
    named: &Named,
    log: &mut Log,
    sink: &mut S,
) -> Result<Option<u64>, LogError>
    requires whole { log.old.failed ≡ false }
    requires place { basis.now.place ≡ depth_in d.now.order basis.now.var }
    requires met { IsNamedMet log.old.state d.now named.now m.now }
    requires left { AreJoined log.old.state.given d.now named.now Left basis.now.left }
    requires right { AreJoined log.old.state.given d.now named.now Right basis.now.right }
    requires reduced { AreReduced log.old.state.given d.now named.now basis.now.var lemmas.now }
    requires parts { HasParts d.now basis.now.var basis.now.left basis.now.right lemmas.now m.now }
    ensures settled { IfOk result (λ id. Settled log.new.state.given (option_to_list id) (pair_arms named.now (alone m.now.u m.now.w))) }
    ensures lines { LogsSuch ArePlain log.old log.new (S.written sink.old) (S.written sink.new) result }
    ensures later { S.faults sink.old ≤ S.faults sink.new }
    ensures fault { IsErrOf result LogError.Fault → Rose (S.faults sink.old) (S.faults sink.new) }
{
    let own = d.depth(m.u);
    let Some(parts) = d.parts(m.u) else {
        return Ok(None);
    };
    if basis.place < own {
        return Ok(None);
    }
    let seen = alone(m.u, m.w);
    let (var, high, low) = parts;
    if var == basis.var {
        let Some(first) = basis.left.get(high, low) else {
            unreachable!()
        };
        let Some(second) = basis.right.get(high, low) else {
            unreachable!()
        };
        return at_variable(alloc, d, &seen, own, first, second, named, log, sink);
    }
    let Some(first) = lemmas.get(high, high) else {
        unreachable!()
    };
    let Some(second) = lemmas.get(low, low) else {
        unreachable!()
    };
    let test = Lit::new(var, true);
    pair(alloc, d, &seen, own, test, first, second, named, log, sink)
}
