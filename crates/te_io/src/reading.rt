ghost use Rattle.std.specs.Prelude.{◌≤◌, ◌+◌, length, IfOk, IsErrOf};
ghost use Rattle.te_io.specs.Stream.{GaveAll, GaveFirst, HoldsRest};
ghost use Rattle.te_io.specs.Causes.{Rose};

use crate::fault::ReadFault;
use crate::source::Source;
use std::alloc::Global;
use te_terms::Rows;

/// How many bytes are asked of the source at once.
const PIECE: usize = 65536;

/// Reads to the end of the source, or until it has one byte more than `most`, so that the caller sees
/// which of the two it was.
///
/// `Failed` comes only where the source failed, and `Memory` for want of memory. What was read is then
/// lost, and the source holds the rest.
pub fn read_up_to<S: Source>(
    alloc: Global,
    source: &mut S,
    most: usize,
) -> Result<Rows<u8>, ReadFault>
    ensures bound { IfOk result (λ rows. length rows ≤ most + 1) }
    ensures first { IfOk result (λ rows.
        GaveFirst (most + 1) (S.bytes_left source.old) (S.bytes_left source.new) rows) }
    ensures whole { IfOk result (λ rows.
        length rows ≤ most → GaveAll (S.bytes_left source.old) (S.bytes_left source.new) rows) }
    ensures rest { HoldsRest (most + 1) (S.bytes_left source.old) (S.bytes_left source.new) }
    ensures count { S.faults source.old ≤ S.faults source.new }
    ensures failed { IsErrOf result ReadFault.Failed
        → Rose (S.faults source.old) (S.faults source.new) }
{
    let mut bytes = Vec::new(alloc);
    let mut piece = [0; PIECE];
    'pieces: while bytes.len() <= most {
        let wanted = (most - bytes.len()).min(PIECE - 1) + 1;
        let count = source.read(&mut piece[..wanted])?;
        if count == 0 {
            return Ok(Rows::from(bytes));
        }
        bytes.extend_from_slice(&piece[..count])?;
    }
    Ok(Rows::from(bytes))
}
