ghost use Rattle.std.specs.Prelude.{◌<◌, ◌≤◌, ℕ, List, Option, length, take, IfOk, OnErr};
ghost use Rattle.te_io.specs.Stream.{GrewBy, GrewByPrefix};
ghost use Rattle.te_io.specs.Causes.{Rose};

use crate::fault::Failed;

/// Something that takes bytes, a piece at a time, and counts how often it failed.
pub trait Sink {
    /// The bytes that it holds, where it tells them.
    ghost bytes_held: { Self → Option (List ℕ) };

    /// How often it has failed.
    ghost faults: { Self → ℕ };

    /// Takes the first bytes of the piece, at least one of a piece that has any, and answers how many.
    /// `Failed` comes only where the count of faults rose in this call, or stands at its end; the sink
    /// may then have taken a prefix of the piece.
    fn write(&mut self, piece: &[u8]) -> Result<usize, Failed>
        ensures bound { IfOk result (λ n. n ≤ length piece.now) }
        ensures moves_on { IfOk result (λ n. 0 < length piece.now → 0 < n) }
        ensures ok { IfOk result (λ n.
            GrewBy (bytes_held self.old) (bytes_held self.new) (take n piece.now)) }
        ensures err { OnErr result
            (GrewByPrefix (bytes_held self.old) (bytes_held self.new) piece.now) }
        ensures count { faults self.old ≤ faults self.new }
        ensures failed { OnErr result (Rose (faults self.old) (faults self.new)) };
}
