ghost use Rattle.std.specs.Prelude.{◌≡◌, false};
ghost use mathlib.Core.List.{IsPrefix};
ghost use Rattle.te_history.specs.Follows.{IsLegal};
ghost use Rattle.te_watch.specs.Shadows.{shadow, shadow_of};
ghost use Rattle.te_watch.specs.Watches.{IsJoined};

use crate::notice::Notice;
use crate::shown::{Keeps, Readers};
use crate::view::View;
use std::marker::Model;
use std::snapshot::Snapshot;

/// A note of what was published when it was made. Contracts see it as a `Published`. This project's own.
#[derive(Drop)]
pub struct Told {
    pub(crate) notice: Notice,
}

impl Model for Told {
    ghost use Rattle.te_watch.specs.Watches.{Published};

    ghost Value = { Published };

    ghost use Rattle.te_watch.specs.WatchCode.{published_code};

    ghost coded = { published_code };

    ghost view = { λ told. told.notice };

    ghost invariant = { λ _. Unit {0} };
}

/// Who reads what a publisher shows, and never waits. Contracts see it as an `Observed`: what it has seen, and the longest
/// list that it knows. It may go to a thread of its own. This project's own.
#[derive(Drop)]
pub struct Observer {
    // It is away only within a read.
    pub(crate) reader: Option<Readers>,
    pub(crate) notice: Notice,
    pub(crate) last: Snapshot<Notice>,
    pub(crate) had_reading: bool,
}

impl Model for Observer {
    ghost use Rattle.std.specs.Prelude.{◌≡◌, IfSome};
    ghost use Rattle.te_watch.specs.Naming.{watch_name};
    ghost use Rattle.te_watch.specs.Watches.{Observed};

    ghost Value = { Observed };

    ghost use Rattle.te_watch.specs.WatchCode.{observed_code};

    ghost coded = { observed_code };

    ghost view = { λ o. record { watch = o.notice.watch; seen = o.last.value.list; known = o.notice.list; had_reading = o.had_reading } };

    ghost invariant = { λ o. IfSome o.reader (λ r. r.place.me.0.client ≡ watch_name o.notice.watch) };
}

impl Observer {
    /// Takes a note in. Condition: the note is of this watch. It waits for nobody, and takes no memory.
    pub fn learn(&mut self, told: Told)
        requires { told.watch ≡ self.old.watch }
        ensures watch { self.new.watch ≡ self.old.watch }
        ensures seen { self.new.seen ≡ self.old.seen }
        ensures known { IsJoined self.old.known told.list self.new.known }
    {
        self.notice.join(&told.notice);
    }

    /// The view of what the observer has now seen: of what is shown, or, where that can't be read, of the longest list that
    /// the observer knows. It waits for nobody, and takes no memory.
    pub fn read(&mut self) -> View
        ensures watch { self.new.watch ≡ self.old.watch }
        ensures shadow { shadow_of result ≡ shadow self.new.watch.callers self.new.seen }
        ensures legal { IsLegal self.new.watch.callers self.new.seen }

        // with a reading or without one
        ensures begins { IsPrefix self.old.known self.new.seen }
        ensures known { self.new.known ≡ self.new.seen }
        ensures without { self.new.had_reading ≡ false → self.new.seen ≡ self.old.known }
    {
        self.had_reading = false;
        if let Some(reader) = self.reader.take() {
            match reader.enter_as::<Keeps>() {
                Ok(reading) => {
                    self.notice.join(reading.get());
                    self.had_reading = true;
                    self.reader = Some(reading.leave());
                }
                Err(reader) => self.reader = Some(reader),
            }
        }
        self.last = Snapshot::of(&self.notice);
        self.notice.view()
    }
}
