//! The text of an extraction. Auxiliary variables stand in comments, so that each reader of KNF takes it.
ghost use Rattle.std.specs.Prelude.{◌≡◌, ◌++◌, IfOk, OnOk, map};
ghost use Rattle.std.specs.List.{flat_map};
ghost use Rattle.kn_format.specs.Grammar.{Spells};
ghost use Rattle.kn_format.specs.Texts.{IsWithinLimits};
ghost use Rattle.kn_extract.specs.Kept.{found_of};
ghost use Rattle.kn_extract.specs.Texts.{spaced, group_line, extraction_text};

use crate::laws::{groups_stand_apart, what_remains_is_known};
use crate::{Extraction, Taken};
use kn_format::write_knf;
use kn_logic::NoMemory;
use kn_text::{push_number, written_content_is_read, written_numbers_are_read};
use std::alloc::Global;

/// The text of an extraction: for each group that has auxiliary variables a comment `c group` with these
/// variables, in the order in which the groups were taken; then the formula that remains, as KNF. An error where
/// memory is short.
pub fn extraction_text(alloc: Global, e: &Extraction) -> Result<Vec<u8>, NoMemory>
    ensures text { IfOk result (λ text. text.items ≡ extraction_text (map found_of e.now.taken) e.now.formula) }
    ensures again { IfOk result (λ text. IsWithinLimits e.now.original → Spells text.items e.now.formula) }
{
    groups_stand_apart();
    what_remains_is_known();
    written_content_is_read();
    written_numbers_are_read();
    let mut out = Vec::new(alloc);
    push_groups(&mut out, e.taken())?;
    let knf = write_knf(alloc, e.formula())?;
    out.extend_from_slice(&knf)?;
    Ok(out)
}

fn push_groups(out: &mut Vec<u8>, taken: &[Taken]) -> Result<(), NoMemory>
    ensures { OnOk result (out.new.items ≡ out.old.items ++ flat_map (λ t. group_line t.group.aux) taken.now) }
{
    for t in taken {
        push_group(out, t.group().aux())?;
    }
    Ok(())
}

fn push_group(out: &mut Vec<u8>, aux: &[u64]) -> Result<(), NoMemory>
    ensures { OnOk result (out.new.items ≡ out.old.items ++ group_line aux.now) }
{
    if aux.is_empty() {
        return Ok(());
    }
    out.extend_from_slice(b"c group")?;
    push_numbers(out, aux)?;
    out.push(b'\n')?;
    Ok(())
}

// Numbers, with a space before each.
fn push_numbers(out: &mut Vec<u8>, numbers: &[u64]) -> Result<(), NoMemory>
    ensures { OnOk result (out.new.items ≡ out.old.items ++ flat_map spaced numbers.now) }
{
    for n in numbers {
        out.push(b' ')?;
        push_number(out, *n)?;
    }
    Ok(())
}
