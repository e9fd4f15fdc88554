ghost use Rattle.std.specs.Prelude.{◌≡◌, ◌↔◌, ◌<◌, ◌≤◌, ◌+◌, ℕ, List, Option, [], ◌++◌, length, take, drop, min, Some, IsOk, IsErr, IfOk, OnErr, OnOk, MatchResult};
ghost use Rattle.te_io.specs.Stream.{GaveFirst, GrewBy, GrewByPrefix, HoldsNothing};
ghost use Rattle.te_io.specs.Causes.{Rose, counted_more};

use crate::copying::copy_first;
use crate::fault::Failed;
use crate::sink::Sink;
use crate::source::Source;
use std::alloc::Global;
use std::marker::Model;
use te_terms::NoMemory;

/// A source over memory that never fails: its count of faults is 0.
#[derive(Drop)]
pub struct SteadySource {
    bytes: Vec<u8>,
    given: usize,
}

impl Model for SteadySource {
    ghost use Rattle.std.specs.Prelude.{◌≤◌, ℕ, List, drop, vec_len};

    ghost Value = { List ℕ };

    ghost view = { λ source. drop source.given source.bytes.items };

    ghost invariant = { λ source. source.given ≤ vec_len source.bytes };
}

impl SteadySource {
    /// A source of these bytes.
    pub fn new(alloc: Global, bytes: &[u8]) -> Result<SteadySource, NoMemory>
        ensures { IfOk result (λ source. source ≡ bytes.now) }
    {
        Ok(SteadySource {
            bytes: Vec::from_slice(alloc, bytes)?,
            given: 0,
        })
    }
}

impl Source for SteadySource {
    ghost bytes_left = { λ source. Some source };

    ghost faults = { λ _. 0 };

    fn read(&mut self, into: &mut [u8]) -> Result<usize, Failed>
        ensures bound { IfOk result (λ n. n ≤ length into.new) }
        ensures gave { IfOk result (λ n.
            GaveFirst n (Some self.old) (Some self.new) (take n into.new)) }
        ensures end { IfOk result (λ n. n ≡ 0 → 0 < length into.new → HoldsNothing (Some self.new)) }

        // Exactly what the call does.
        ensures gives { result ≡ Ok (min (length into.old) (length self.old)) }
    {
        let count = copy_first(&self.bytes[self.given..], into, usize::MAX);
        self.given += count;
        Ok(count)
    }
}

/// A sink over memory that fails only where a piece does not fit into what is left of its room.
///
/// The count of faults stays at 2^64 - 1 once it is there.
#[derive(Drop)]
pub struct SteadySink {
    bytes: Vec<u8>,
    room: usize,
    faults: u64,
}

impl Model for SteadySink {
    ghost use Rattle.std.specs.Prelude.{◌≤◌, vec_len, vec_capacity};
    ghost use Rattle.te_io.specs.InMemory.{SteadySinkState};

    ghost Value = { SteadySinkState };

    ghost view = { λ sink. record {
      held = sink.bytes.items;
      room = sink.room;
      faults = sink.faults;
    } };

    ghost invariant = { λ sink. (vec_len sink.bytes ≤ sink.room) × (sink.room ≤ vec_capacity sink.bytes) };
}

impl SteadySink {
    /// An empty sink with room for `room` bytes. Its memory is taken here, and none later.
    pub fn new(alloc: Global, room: usize) -> Result<SteadySink, NoMemory>
        ensures { IfOk result (λ sink. sink ≡ record { held = []; room = room; faults = 0 }) }
    {
        Ok(SteadySink {
            bytes: Vec::with_capacity(alloc, room)?,
            room,
            faults: 0,
        })
    }

    /// The bytes that the sink holds.
    pub fn bytes(&self) -> &[u8]
        ensures { result.now ≡ self.now.held }
    {
        self.bytes.as_slice()
    }
}

impl Sink for SteadySink {
    ghost bytes_held = { λ sink. Some sink.held };

    ghost faults = { λ sink. sink.faults };

    fn write(&mut self, piece: &[u8]) -> Result<usize, Failed>
        ensures bound { IfOk result (λ n. n ≤ length piece.now) }
        ensures moves_on { IfOk result (λ n. 0 < length piece.now → 0 < n) }
        ensures ok { IfOk result (λ n.
            GrewBy (Some self.old.held) (Some self.new.held) (take n piece.now)) }
        ensures err { OnErr result (GrewByPrefix (Some self.old.held) (Some self.new.held) piece.now) }
        ensures count { self.old.faults ≤ self.new.faults }
        ensures failed { OnErr result (Rose self.old.faults self.new.faults) }

        // Exactly what the call does: a piece is taken whole or not at all.
        ensures fails { IsErr result ↔ (self.old.room < length self.old.held + length piece.now) }
        ensures taken { IfOk result (λ n. n ≡ length piece.now) }
        ensures after { MatchResult result
            (λ _. self.new ≡ record self.old { held = self.old.held ++ piece.now })
            (λ _. self.new ≡ record self.old { faults = counted_more self.old.faults }) }
    {
        if piece.len() > self.room - self.bytes.len() {
            self.faults = self.faults.saturating_add(1);
            return Err(Failed);
        }
        self.bytes.extend_from_slice(piece).unwrap();
        Ok(piece.len())
    }
}
