ghost use Rattle.std.specs.Prelude.{◌≤◌, OnOk, OnErr};
ghost use Rattle.te_io.specs.Stream.{GrewBy, GrewByPrefix};
ghost use Rattle.te_io.specs.Causes.{Rose};

use crate::fault::Failed;
use crate::sink::Sink;

/// Writes all the bytes to the sink, in as many calls as it needs. It takes no memory of its own.
///
/// `Failed` comes only where the sink failed; the sink then holds what it held before and a prefix of
/// the bytes.
pub fn write_whole<K: Sink>(sink: &mut K, bytes: &[u8]) -> Result<(), Failed>
    ensures ok { OnOk result (GrewBy (K.bytes_held sink.old) (K.bytes_held sink.new) bytes.now) }
    ensures err { OnErr result
        (GrewByPrefix (K.bytes_held sink.old) (K.bytes_held sink.new) bytes.now) }
    ensures count { K.faults sink.old ≤ K.faults sink.new }
    ensures failed { OnErr result (Rose (K.faults sink.old) (K.faults sink.new)) }
{
    let mut rest = bytes;
    'pieces: while !rest.is_empty() {
        let taken = sink.write(rest)?;
        rest = &rest[taken..];
    }
    Ok(())
}
