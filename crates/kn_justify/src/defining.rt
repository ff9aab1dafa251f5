//! One definition by a line of the log: a new variable, as in extended resolution, and the ids of its clauses.
ghost use Rattle.std.specs.Prelude.{◌≡◌, ◌+◌, ◌<◌, ◌≤◌, ◌^◌, true, false, IfOk, IsErrOf};
ghost use Rattle.kn_bytes.specs.Outside.{Rose};
ghost use Rattle.kn_logic.specs.Literals.{IsKnown};
ghost use Rattle.kn_rules.specs.Steps.{is_known_arm};
ghost use Rattle.kn_log.specs.Written.{LogsSuch};
ghost use Rattle.kn_justify.specs.Growth.{ArePlain};
ghost use Rattle.kn_justify.specs.Definitions.{IsDefined};

use crate::name::Name;
use kn_bytes::Sink;
use kn_lines::Arm;
use kn_log::{Log, LogError};
use kn_logic::Lit;

/// Defines the next variable as "if x then high else low", over known variables, and answers its name.
pub(crate) fn define<S: Sink>(
    x: Lit,
    high: Arm,
    low: Arm,
    log: &mut Log,
    sink: &mut S,
) -> Result<Name, LogError>
    requires whole { log.old.failed ≡ false }
    requires test { IsKnown log.old.state.vars x }
    requires high { is_known_arm log.old.state.vars high ≡ true }
    requires low { is_known_arm log.old.state.vars low ≡ true }
    ensures defined { IfOk result (λ n. IsDefined log.new.state n x high low) }
    ensures fits { IfOk result (λ n. n.id + 3 < 2 ^ 64) }
    ensures lines { LogsSuch ArePlain log.old log.new (S.written sink.old) (S.written sink.new) result }
    ensures later { S.faults sink.old ≤ S.faults sink.new }
    ensures fault { IsErrOf result LogError.Fault → Rose (S.faults sink.old) (S.faults sink.new) }
{
    let id = log.next_id();
    let _known = log.vars();
    let var = log.define(x, high, low, sink)?;
    let _last = log.next_id();
    Ok(Name {
        lit: Lit::new(var, true),
        id,
    })
}
