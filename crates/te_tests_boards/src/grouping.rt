// Groups among the parked events of a board.

ghost use Rattle.std.specs.Prelude.{IsTrue};
ghost use Rattle.te_terms.specs.Joint.{RiseFrom, IsGroup, as_group};

use std::alloc::Global;
use std::test::Fail;
use te_board::Board;
use te_cert::Cert;
use te_search::{Found, find};
use te_terms::Parked;

fn rise_from(low: u32, parked: &[Parked]) -> bool
    ensures { IsTrue result → RiseFrom low (as_group parked.now) }
{
    match parked {
        [] => true,
        [first, rest @ ..] => low < first.thread && rise_from(first.thread, rest),
    }
}

fn rise(parked: &[Parked]) -> bool
    ensures { IsTrue result → IsGroup (as_group parked.now) }
{
    match parked {
        [] => true,
        [first, rest @ ..] => rise_from(first.thread, rest),
    }
}

/// The group that is found among the parked events, where there is one.
pub(crate) fn group(alloc: Global, board: &Board) -> Result<Option<Cert>, Fail> {
    let snapshot = board.snapshot(alloc)?;
    let parked = snapshot.parked.as_slice();
    if !rise(parked) {
        Err("threads in order")?;
    }
    match find(alloc, parked, 100_000) {
        Ok(Found::Group(cert)) => Ok(Some(cert)),
        Ok(Found::Blocked) => Ok(None),
        Err(_) => Err("a search".into()),
    }
}
