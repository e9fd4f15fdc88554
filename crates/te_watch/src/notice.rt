ghost use Rattle.std.specs.Prelude.{◌≡◌};
ghost use Rattle.te_board.specs.Boards.{IsLawful};
ghost use Rattle.te_watch.specs.Shadows.{shadow, shadow_of};
ghost use Rattle.te_watch.specs.Watches.{IsJoined};

use crate::ledger::{Batch, Ledger};
use crate::view::View;
use left_right::Absorb;
use logbook::Seen;
use std::alloc::AllocError;
use std::marker::Model;

/// What is shown: the view of a list, with the token that this list was published. Contracts see it as a `Published`.
#[derive(Drop)]
pub struct Notice {
    pub(crate) view: View,
    pub(crate) seen: Seen<Batch, u64, Ledger>,
}

impl Model for Notice {
    ghost use Rattle.std.specs.Prelude.{◌≡◌};
    ghost use Rattle.te_board.specs.Boards.{IsLawful};
    ghost use Rattle.te_watch.specs.Ledgers.{all_of};
    ghost use Rattle.te_watch.specs.Shadows.{shadow, shadow_of};
    ghost use Rattle.te_watch.specs.Watches.{Published};

    ghost Value = { Published };

    ghost use Rattle.te_watch.specs.WatchCode.{published_code};

    ghost coded = { published_code };

    ghost view = { λ n. record { watch = record { book = n.seen.book; callers = n.view.callers }; list = all_of n.seen.log } };

    ghost invariant = { λ n. (shadow_of n.view ≡ shadow n.view.callers (all_of n.seen.log)) × IsLawful n.view.callers (all_of n.seen.log) };
}

impl Notice {
    /// The same once more.
    pub(crate) fn copy(&self) -> Notice
        ensures { result ≡ self.now }
    {
        Notice {
            view: self.view,
            seen: self.seen.again(),
        }
    }

    /// The view of its list.
    pub(crate) fn view(&self) -> View
        ensures view { shadow_of result ≡ shadow self.now.watch.callers self.now.list }
        ensures law { IsLawful self.now.watch.callers self.now.list }
    {
        self.view
    }

    /// Keeps the longer of the two, which begins with the other.
    pub(crate) fn join(&mut self, other: &Notice)
        requires { other.now.watch ≡ self.old.watch }
        ensures watch { self.new.watch ≡ self.old.watch }
        ensures list { IsJoined self.old.list other.now.list self.new.list }
    {
        let mut both = self.seen.again();
        both.learn(&other.seen);
        if self.view.front() < other.view.front() {
            *self = other.copy();
        }
    }
}

impl Absorb<Notice> for Notice {
    type State = Notice;

    ghost state = { λ n. n };

    ghost applied = { λ _ n. n };

    ghost never_fails = { Unit {0} };

    fn absorb_first(&mut self, operation: &Notice, _other: &Notice) -> Result<(), AllocError> {
        *self = operation.copy();
        Ok(())
    }
}
