ghost use Rattle.std.specs.Prelude.{◌≡◌, ◌≤◌, ◌<◌, [], length, drop, All, IfOk};
ghost use Rattle.left_right.specs.Sides.{view};
ghost use Rattle.te_terms.specs.Limits.{most_threads};
ghost use Rattle.te_watch.specs.Naming.{watch_name};
ghost use Rattle.te_watch.specs.Watches.{IsNewObserver};

use crate::notice::Notice;
use crate::observer::Observer;
use crate::publisher::Publisher;
use crate::shown::{Keeps, Takes, Tells, Writers};
use crate::view::View;
use left_right::writer::Writer;
use logbook::{Seen, Start, Word};
use std::alloc::{AllocError, Global};
use std::snapshot::Snapshot;
use std::sync::Wait;
use te_terms::{NoMemory, Rows};

/// A writer that shows the notice, and knows its watch. It keeps room for the one operation that each publication lays
/// down beside the one before.
fn opened<R: Wait>(
    rt: &R,
    alloc: Global,
    notice: &Notice,
    observers: u32,
) -> Result<Writers, AllocError>
    requires { (1 ≤ observers) × (observers ≤ 16) }
    ensures { IfOk result (λ w. (w.desk.shown.value ≡ notice.now) × (drop w.behind w.log.items ≡ []) × (view w.desk.place ≡ watch_name notice.now.watch)) }
{
    let mut writer: Writers = Writer::new(alloc, notice.copy(), notice.copy(), observers as usize)?;
    match writer.append(notice.copy()) {
        Ok(()) => {
            let (writer, _shown) = writer.publish_as::<Takes, R>(rt);
            Ok(writer)
        }
        Err(_) => {
            writer.take(rt);
            Err(AllocError)
        }
    }
}

/// An observer that knows its watch, and what the notice tells.
fn observer(writer: &mut Writers, notice: &Notice) -> Result<Observer, AllocError>
    requires name { view writer.old.desk.place ≡ watch_name notice.now.watch }
    requires nothing { notice.now.list ≡ [] }
    ensures shown { writer.new.desk.shown ≡ writer.old.desk.shown }
    ensures pending { (writer.new.log ≡ writer.old.log) × (writer.new.behind ≡ writer.old.behind) }
    ensures name { view writer.new.desk.place ≡ view writer.old.desk.place }
    ensures made { IfOk result (IsNewObserver notice.now.watch) }
{
    let mut reader = writer.factory().reader()?;
    let name = writer.tell::<Tells>();
    reader.learn::<Tells>(name);
    Ok(Observer {
        reader: Some(reader),
        notice: notice.copy(),
        last: Snapshot::of(notice),
        had_reading: false,
    })
}

fn observers_of(
    alloc: Global,
    writer: &mut Writers,
    notice: &Notice,
    observers: u32,
) -> Result<Vec<Observer>, AllocError>
    requires name { view writer.old.desk.place ≡ watch_name notice.now.watch }
    requires nothing { notice.now.list ≡ [] }
    ensures shown { writer.new.desk.shown ≡ writer.old.desk.shown }
    ensures pending { (writer.new.log ≡ writer.old.log) × (writer.new.behind ≡ writer.old.behind) }
    ensures name { view writer.new.desk.place ≡ view writer.old.desk.place }
    ensures number { IfOk result (λ made. length made.items ≡ observers) }
    ensures made { IfOk result (λ made. All (IsNewObserver notice.now.watch) made.items) }
{
    let mut made = Vec::new(alloc);
    for _ in 0..observers {
        made.push(observer(writer, notice)?)?;
    }
    Ok(made)
}

/// A publisher that has published nothing, and so many observers of it, who have seen nothing. Conditions: 1 to 64
/// callers, and 1 to 16 observers. The one refusal is want of memory. It may wait, but no observer reads yet.
pub fn watch<R: Wait>(
    rt: &R,
    alloc: Global,
    callers: u32,
    observers: u32,
) -> Result<(Publisher, Rows<Observer>), NoMemory>
    requires callers { (1 ≤ callers) × (callers ≤ most_threads) }
    requires observers { (1 ≤ observers) × (observers ≤ 16) }
    ensures callers { IfOk result (λ made. made.0.watch.callers ≡ callers) }
    ensures nothing { IfOk result (λ made. made.0.list ≡ []) }
    ensures number { IfOk result (λ made. length made.1 ≡ observers) }
    ensures observers { IfOk result (λ made. All (IsNewObserver made.0.watch) made.1) }
{
    let (seen, mut pen, _second) = Seen::open(Start::alone(), 0, 0);
    let word = Word::tracked(0, &mut pen);
    let notice = Notice {
        view: View::opening(callers),
        seen,
    };
    let Ok(mut writer) = opened(rt, alloc, &notice, observers) else {
        return Err(NoMemory);
    };
    match observers_of(alloc, &mut writer, &notice, observers) {
        Ok(made) => Ok((
            Publisher {
                writer,
                word,
                notice,
            },
            Rows::from(made),
        )),
        Err(_) => {
            writer.take(rt);
            Err(NoMemory)
        }
    }
}
