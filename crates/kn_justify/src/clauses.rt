//! The unit of a clause's node. The diagram of a clause is a chain, so one run of hints down it is enough.
ghost use Rattle.std.specs.Prelude.{ℕ, ◌≡◌, ◌≤◌, ◌∷◌, [], Bool, false, Some, IfOk, IsErrOf};
ghost use Rattle.std.specs.List.{list_any};
ghost use Rattle.kn_logic.specs.Constraints.{clause};
ghost use Rattle.kn_bytes.specs.Outside.{Rose};
ghost use Rattle.kn_rules.specs.States.{live_at};
ghost use Rattle.kn_log.specs.Written.{LogsSuch};
ghost use Rattle.kn_diagram.specs.Diagrams.{IsNode, function_of, is_true_by};
ghost use Rattle.kn_justify.specs.Arms.{Refuted};
ghost use Rattle.kn_justify.specs.Growth.{ArePlain, Grown};
ghost use Rattle.kn_justify.specs.Names.{arm_at, HasNames, IsUnit};

use crate::Named;
use crate::units::unit_by;
use kn_bytes::Sink;
use kn_diagram::{Diagrams, Node};
use kn_log::{Log, LogError};
use kn_logic::{Constraint, NoMemory};
use std::alloc::Global;

/// The unit of a clause's node f, whose nodes are named: the clause of f's arm alone, by one line, from the clause,
/// which has a literal and is live under `id`. Answers its id; `None` exactly where f is "true".
pub fn clause_unit<S: Sink>(
    alloc: Global,
    d: &Diagrams,
    c: &Constraint,
    id: u64,
    f: Node,
    named: &Named,
    log: &mut Log,
    sink: &mut S,
) -> Result<Option<u64>, LogError>
    requires whole { log.old.failed ≡ false }
    requires there { IsNode d.now f }
    requires function { (v : ℕ → Bool) → function_of d.now f v ≡ list_any (is_true_by v) c.now.lits }
    requires clause { c.now ≡ clause c.now.lits }
    requires filled { c.now.lits ≡ [] → ⊥ }
    requires live { live_at log.old.state.given id ≡ Some c.now }
    requires named { HasNames log.old.state d.now named.now f }
    ensures unit { IfOk result (IsUnit log.new.state.given named.now f) }
    ensures grown { Grown log.old.state log.new.state }
    ensures lines { LogsSuch ArePlain log.old log.new (S.written sink.old) (S.written sink.new) result }
    ensures later { S.faults sink.old ≤ S.faults sink.new }
    ensures fault { IsErrOf result LogError.Fault → Rose (S.faults sink.old) (S.faults sink.new) }
{
    let _depth = d.depth(f);
    let hints = chain_hints(alloc, d, c, id, f, named, log)?;
    unit_by(alloc, f, hints, named, log, sink)
}

// The hints of a clause's unit: those down the chain of its diagram, and the clause.
fn chain_hints(
    alloc: Global,
    d: &Diagrams,
    c: &Constraint,
    id: u64,
    f: Node,
    named: &Named,
    log: &Log,
) -> Result<Vec<u64>, NoMemory>
    requires there { IsNode d.now f }
    requires function { (v : ℕ → Bool) → function_of d.now f v ≡ list_any (is_true_by v) c.now.lits }
    requires clause { c.now ≡ clause c.now.lits }
    requires live { live_at log.now.state.given id ≡ Some c.now }
    requires named { HasNames log.now.state d.now named.now f }
    ensures { IfOk result (λ hints. Refuted log.now.state.given hints.items (arm_at named.now f ∷ [])) }
{
    let _depth = d.depth(f);
    let mut hints = Vec::new(alloc);
    let mut node = f;
    while let Some(parts) = d.parts(node) {
        let Some(name) = named.get(node) else {
            unreachable!()
        };
        if parts.1 == Node::TRUE {
            hints.push(name.id + 2)?;
            hints.push(name.id + 3)?;
            node = parts.2;
        } else {
            hints.push(name.id + 3)?;
            hints.push(name.id + 2)?;
            node = parts.1;
        }
    }
    hints.push(id)?;
    Ok(hints)
}
