ghost use Rattle.std.specs.Prelude.{◌≡◌, ◌<◌, ◌≤◌, length, take, IfOk, OnErr, MatchResult};
ghost use Rattle.te_io.specs.Stream.{GaveFirst, GrewBy, GrewByPrefix, HoldsNothing, HoldsSame};
ghost use Rattle.te_io.specs.Causes.{Rose, counted_more};

use crate::fault::Failed;
use crate::sink::Sink;
use crate::source::Source;
use std::io::{Read, Write};

/// A reader of std as a source. Each error of the reader is a fault.
///
/// It tells the bytes that std tells of the reader: those over memory, and none of standard input. The
/// count of faults stays at 2^64 - 1 once it is there.
#[derive(Drop)]
pub struct StdSource<R> {
    reader: R,
    faults: u64,
}

impl<R: Read> StdSource<R> {
    ghost use Rattle.te_io.specs.StdEnds.{reader_of, source_faults};

    /// The source over this reader.
    pub fn new(reader: R) -> StdSource<R>
        ensures reader { reader_of result ≡ reader }
        ensures faults { source_faults result ≡ 0 }
    {
        StdSource { reader, faults: 0 }
    }
}

impl<R: Read> Source for StdSource<R> {
    ghost use Rattle.te_io.specs.StdEnds.{reader_of, source_faults};

    ghost bytes_left = { λ source. R.remaining (reader_of source) };

    ghost faults = { source_faults };

    fn read(&mut self, into: &mut [u8]) -> Result<usize, Failed>
        ensures bound { IfOk result (λ n. n ≤ length into.new) }
        ensures gave { IfOk result (λ n. GaveFirst n
            (R.remaining (reader_of self.old)) (R.remaining (reader_of self.new)) (take n into.new)) }
        ensures end { IfOk result (λ n.
            n ≡ 0 → 0 < length into.new → HoldsNothing (R.remaining (reader_of self.new))) }
        ensures err { OnErr result
            (HoldsSame (R.remaining (reader_of self.old)) (R.remaining (reader_of self.new))) }
        ensures count { source_faults self.old ≤ source_faults self.new }
        ensures failed { OnErr result (Rose (source_faults self.old) (source_faults self.new)) }

        // Each error is counted once, and nothing else is.
        ensures counted { MatchResult result
            (λ _. source_faults self.new ≡ source_faults self.old)
            (λ _. source_faults self.new ≡ counted_more (source_faults self.old)) }
    {
        match self.reader.read(into) {
            Ok(count) => Ok(count),
            Err(_) => {
                self.faults = self.faults.saturating_add(1);
                Err(Failed)
            }
        }
    }
}

/// A writer of std as a sink. Each piece is flushed at once. Each error of the writer is a fault, and so
/// is a write that takes nothing of a piece that has bytes.
///
/// It tells the bytes that std tells of the writer: those over memory, and none of standard output. The
/// count of faults stays at 2^64 - 1 once it is there.
#[derive(Drop)]
pub struct StdSink<W> {
    writer: W,
    faults: u64,
}

impl<W: Write> StdSink<W> {
    ghost use Rattle.te_io.specs.StdEnds.{writer_of, sink_faults};

    /// The sink over this writer.
    pub fn new(writer: W) -> StdSink<W>
        ensures writer { writer_of result ≡ writer }
        ensures faults { sink_faults result ≡ 0 }
    {
        StdSink { writer, faults: 0 }
    }
}

impl<W: Write> Sink for StdSink<W> {
    ghost use Rattle.te_io.specs.StdEnds.{writer_of, sink_faults};

    ghost bytes_held = { λ sink. W.contents (writer_of sink) };

    ghost faults = { sink_faults };

    fn write(&mut self, piece: &[u8]) -> Result<usize, Failed>
        ensures bound { IfOk result (λ n. n ≤ length piece.now) }
        ensures moves_on { IfOk result (λ n. 0 < length piece.now → 0 < n) }
        ensures ok { IfOk result (λ n. GrewBy
            (W.contents (writer_of self.old)) (W.contents (writer_of self.new)) (take n piece.now)) }
        ensures err { OnErr result (GrewByPrefix
            (W.contents (writer_of self.old)) (W.contents (writer_of self.new)) piece.now) }
        ensures count { sink_faults self.old ≤ sink_faults self.new }
        ensures failed { OnErr result (Rose (sink_faults self.old) (sink_faults self.new)) }

        // Each failed call is counted once, and nothing else is.
        ensures counted { MatchResult result
            (λ _. sink_faults self.new ≡ sink_faults self.old)
            (λ _. sink_faults self.new ≡ counted_more (sink_faults self.old)) }
    {
        match write_and_flush(&mut self.writer, piece) {
            Ok(count) => Ok(count),
            Err(Failed) => {
                self.faults = self.faults.saturating_add(1);
                Err(Failed)
            }
        }
    }
}

/// Writes the first bytes of the piece and flushes them, and answers how many. It fails where either
/// does, and where nothing of a piece that has bytes was taken.
fn write_and_flush<W: Write>(writer: &mut W, piece: &[u8]) -> Result<usize, Failed>
    ensures bound { IfOk result (λ n. n ≤ length piece.now) }
    ensures moves_on { IfOk result (λ n. 0 < length piece.now → 0 < n) }
    ensures ok { IfOk result (λ n.
        GrewBy (W.contents writer.old) (W.contents writer.new) (take n piece.now)) }
    ensures err { OnErr result
        (GrewByPrefix (W.contents writer.old) (W.contents writer.new) piece.now) }
{
    let Ok(count) = writer.write(piece) else {
        return Err(Failed);
    };
    if count == 0 && !piece.is_empty() {
        return Err(Failed);
    }
    match writer.flush() {
        Ok(()) => Ok(count),
        Err(_) => Err(Failed),
    }
}
