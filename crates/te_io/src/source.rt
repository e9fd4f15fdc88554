ghost use Rattle.std.specs.Prelude.{◌≡◌, ◌<◌, ◌≤◌, ℕ, List, Option, length, take, IfOk, OnErr};
ghost use Rattle.te_io.specs.Stream.{GaveFirst, HoldsNothing, HoldsSame};
ghost use Rattle.te_io.specs.Causes.{Rose};

use crate::fault::Failed;

/// Something that gives bytes, a piece at a time, and counts how often it failed.
pub trait Source {
    /// The bytes that it still holds, where it tells them.
    ghost bytes_left: { Self → Option (List ℕ) };

    /// How often it has failed.
    ghost faults: { Self → ℕ };

    /// Writes the next bytes into the front of `into`, and answers how many. 0 at an `into` that has
    /// room says that the source is at its end. `Failed` comes only where the count of faults rose in
    /// this call, or stands at its end; no byte is lost then, and what stands in `into` is open.
    fn read(&mut self, into: &mut [u8]) -> Result<usize, Failed>
        ensures bound { IfOk result (λ n. n ≤ length into.new) }
        ensures gave { IfOk result (λ n.
            GaveFirst n (bytes_left self.old) (bytes_left self.new) (take n into.new)) }
        ensures end { IfOk result (λ n.
            n ≡ 0 → 0 < length into.new → HoldsNothing (bytes_left self.new)) }
        ensures err { OnErr result (HoldsSame (bytes_left self.old) (bytes_left self.new)) }
        ensures count { faults self.old ≤ faults self.new }
        ensures failed { OnErr result (Rose (faults self.old) (faults self.new)) };
}
