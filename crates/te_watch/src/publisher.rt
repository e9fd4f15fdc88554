ghost use Rattle.std.specs.Prelude.{◌≡◌, ◌++◌, [], length, drop};
ghost use Rattle.left_right.specs.Sides.{view};
ghost use Rattle.te_board.specs.Boards.{IsLawful};
ghost use Rattle.te_watch.specs.Ledgers.{counter_of};
ghost use Rattle.te_watch.specs.Naming.{watch_name};

use crate::ledger::{Adding, Batch, Ledger, NoGain};
use crate::notice::Notice;
use crate::observer::Told;
use crate::shown::{Keeps, Writers};
use core::mem::replace_with;
use logbook::{Offer, Word};
use std::marker::Model;
use std::sync::Wait;
use te_history::Entry;
use te_terms::{NoMemory, Rows};

/// Who shows the state of a runtime. It isn't `Drop`: end it by `close`. Contracts see it as a `Published`. This project's
/// own.
pub struct Publisher {
    pub(crate) writer: Writers,
    pub(crate) word: Word<Batch, u64, Ledger>,
    pub(crate) notice: Notice,
}

impl Model for Publisher {
    ghost use Rattle.std.specs.Prelude.{◌≡◌, [], drop};
    ghost use Rattle.te_watch.specs.Watches.{Published};
    ghost use Rattle.te_watch.specs.Ledgers.{counter_of};
    ghost use Rattle.te_watch.specs.Naming.{watch_name};

    ghost Value = { Published };

    ghost use Rattle.te_watch.specs.WatchCode.{published_code};

    ghost coded = { published_code };

    ghost view = { λ p. p.notice };

    ghost invariant = { λ p. (p.word ≡ counter_of p.notice.watch.book) × (p.writer.desk.shown.value ≡ p.notice)
        × (drop p.writer.behind p.writer.log.items ≡ []) × (p.writer.desk.place.me.0.client ≡ watch_name p.notice.watch) };
}

/// Shows the notice from now on. Room for it was made by `watch`, so the loop has one round.
fn show<R: Wait>(writer: Writers, rt: &R, notice: Notice) -> Writers
    requires watch { writer.desk.shown.value.watch ≡ notice.watch }
    requires pending { drop writer.behind writer.log.items ≡ [] }
    requires name { view writer.desk.place ≡ watch_name notice.watch }
    ensures shown { result.desk.shown.value ≡ notice }
    ensures pending { drop result.behind result.log.items ≡ [] }
    ensures name { view result.desk.place ≡ watch_name notice.watch }
{
    let mut writer = writer;
    let mut notice = notice;
    for _ in rt.forever() {
        match writer.append(notice) {
            Ok(()) => {
                let (writer, _shown) = writer.publish_as::<Keeps, R>(rt);
                return writer;
            }
            Err(back) => notice = back,
        }
    }
    unreachable!()
}

/// The record takes the news in. Nobody else has its word, so the loop has one round.
fn enter<R: Wait>(
    rt: &R,
    word: &Word<Batch, u64, Ledger>,
    notice: &Notice,
    news: &Rows<Entry>,
) -> Notice
    requires word { word.now ≡ counter_of notice.now.watch.book }
    requires law { IsLawful notice.now.watch.callers (notice.now.list ++ news.now) }
    ensures watch { result.watch ≡ notice.now.watch }
    ensures list { result.list ≡ notice.now.list ++ news.now }
{
    let front = notice.view.front();
    let view = notice.view.after(news.as_slice());
    for _ in rt.forever() {
        let mut seen = notice.seen.again();
        let mut offer: Offer<Batch, u64, Ledger, NoGain> = seen.plain::<
            NoGain,
            Rows<Entry>,
            Adding,
        >(news);
        let mut pen = seen.no_pen();
        let found = word.compare_exchange::<Adding, NoGain>(
            front,
            view.front(),
            &mut seen,
            &mut offer,
            &mut pen,
        );
        if found == front {
            return Notice { view, seen };
        }
    }
    unreachable!()
}

impl Publisher {
    /// The length of what was published, which is lawful.
    pub(crate) fn front(&self) -> u64
        ensures value { result ≡ length self.now.list }
        ensures law { IsLawful self.now.watch.callers self.now.list }
    {
        self.notice.view().front()
    }

    /// What was published goes on by the news. It may wait for observers who are reading.
    pub(crate) fn go_on<R: Wait>(&mut self, rt: &R, news: &Rows<Entry>)
        requires law { IsLawful self.old.watch.callers (self.old.list ++ news.now) }
        ensures watch { self.new.watch ≡ self.old.watch }
        ensures list { self.new.list ≡ self.old.list ++ news.now }
    {
        let notice = enter(rt, &self.word, &self.notice, news);
        let shown = notice.copy();
        replace_with(
            &mut self.writer,
            shown,
            |writer, shown| -> (Writers, ())
                requires { (writer.desk.shown.value.watch ≡ shown.watch) × (drop writer.behind writer.log.items ≡ [])
                    × (view writer.desk.place ≡ watch_name shown.watch) }
                ensures { (result.0.desk.shown.value ≡ shown) × (drop result.0.behind result.0.log.items ≡ [])
                    × (view result.0.desk.place ≡ watch_name shown.watch) }
            { (show(writer, rt, shown), ()) },
        );
        self.notice = notice;
    }

    /// A note of what is published now. It waits for nobody.
    pub fn tell(&mut self) -> Result<Told, NoMemory>
        ensures kept { self.new ≡ self.old }
        ensures told { result ≡ Ok self.old }
    {
        Ok(Told {
            notice: self.notice.copy(),
        })
    }

    /// Ends the publisher. It may wait for observers who are reading; who read later see the longest list
    /// that they know.
    pub fn close<R: Wait>(self, rt: &R) {
        let Publisher {
            writer,
            word: _word,
            notice: _notice,
        } = self;
        writer.take(rt);
    }
}
