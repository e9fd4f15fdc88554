ghost use Rattle.std.specs.Prelude.{◌≡◌, ◌<◌, length};
ghost use Rattle.te_pair.specs.declared.end.End.{End};
ghost use Rattle.te_pair.specs.Ends.{IsEnd, IsAtEnd};

use te_path::Stop;
use te_trail::TrailStore;

/// A path that stands at a send, or else at a receive, on a channel.
#[derive(Clone, Copy)]
pub(crate) struct End {
    pub(crate) path: u32,
    pub(crate) channel: u32,
    pub(crate) sends: bool,
}

/// Where a path stands.
pub(crate) fn end_of(store: &TrailStore, p: u32) -> End
    requires path { p < length store.now.paths }
    requires stands { IsAtEnd store.now p }
    ensures path { result.path ≡ p }
    ensures is { IsEnd store.now result }
    ensures only { (e : End) → e.path ≡ p → IsEnd store.now e → e ≡ result }
{
    match store.stop(p) {
        Stop::Send(channel, _) => End {
            path: p,
            channel,
            sends: true,
        },
        Stop::Recv(channel) => End {
            path: p,
            channel,
            sends: false,
        },
        _ => unreachable!(),
    }
}
