//! The hints behind a conflict are not run, but they are to be live too: a line is judged whole.
ghost use Rattle.std.specs.Prelude.{◌≡◌};
ghost use Rattle.std.specs.Option.{is_some};
ghost use Rattle.kn_rules.specs.Steps.{hinted};

use crate::entries::Entries;

/// Whether all ids are live.
pub fn are_live(entries: &Entries, ids: &[u64]) -> bool
    ensures { result ≡ is_some (hinted entries.now.given ids.now) }
{
    for id in ids {
        if entries.find(*id).is_none() {
            return false;
        }
    }
    true
}
