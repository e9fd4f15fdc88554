ghost use Rattle.std.specs.Prelude.{◌≡◌, ◌<◌, length, Some, slice_get};

use te_history::{Entry, Hist};

/// Entry `k` of a history that has it.
pub(crate) fn entry_at(hist: &Hist, k: u64) -> &Entry
    requires { k < length hist.now.entries }
    ensures { slice_get hist.now.entries k ≡ Some result.now }
{
    match hist.get(k) {
        Some(entry) => entry,
        None => unreachable!(),
    }
}
