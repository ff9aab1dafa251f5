//! The walk from the last line of a proof to the first, which finds the needed lines.
ghost use Rattle.std.specs.Prelude.{◌≡◌, IfOk, length};
ghost use Rattle.kn_trim.specs.Marking.{NameBefore, marked, none_of, place_at, place_of};

use crate::given::{first_end, ids_given, variables_given};
use crate::needs::Needs;
use kn_lines::Line;
use kn_logic::{Formula, NoMemory};
use std::alloc::Global;

/// Whether each line of a proof is needed: a line is, where it is the first that gives the clause without
/// literals, or gives what a needed line names. The formula and the lines have so many variables and ids in all.
pub fn marked(
    alloc: Global,
    f: &Formula,
    lines: &[Line],
    all_variables: u64,
    all_ids: u64,
) -> Result<Vec<bool>, NoMemory>
    requires variables { (place_at (place_of f.now) lines.now (length lines.now)).variables ≡ all_variables }
    requires ids { (place_at (place_of f.now) lines.now (length lines.now)).ids ≡ all_ids }
    requires named { NameBefore (place_of f.now) lines.now }
    ensures { IfOk result (λ own. own.items ≡ (marked (none_of all_variables all_ids) (place_of f.now) lines.now).own) }
{
    let end = first_end(lines);
    let mut needs = Needs::none(alloc, all_variables, all_ids)?;
    let mut own = vec![in alloc; false; lines.len()]?;
    let mut variables = all_variables;
    let mut ids = all_ids;
    let mut at = lines.len();
    while at > 0 {
        at -= 1;
        let line = &lines[at];
        variables -= variables_given(line);
        ids -= ids_given(line);
        own[at] = needs.take(line, at == end, variables, ids);
    }
    Ok(own)
}
