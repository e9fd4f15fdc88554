ghost use Rattle.std.specs.Prelude.{◌≡◌, ◌↔◌, ◌<◌, ◌≤◌, ℕ, List, Option, [], ◌++◌, length, take, drop, min, Some, Contains, IsTrue, IsErr, IfOk, OnErr, MatchResult};
ghost use Rattle.te_io.specs.Stream.{GaveFirst, GrewBy, GrewByPrefix, HoldsNothing, HoldsSame};
ghost use Rattle.te_io.specs.Causes.{Rose, counted_more};
ghost use Rattle.te_io.specs.InMemory.{FailsNext, Refuses, share_of};

use crate::copying::copy_first;
use crate::fault::Failed;
use crate::sink::Sink;
use crate::source::Source;
use std::alloc::Global;
use std::marker::Model;
use te_terms::NoMemory;

/// A source over memory that gives its bytes in small pieces and fails the calls that it is told to.
///
/// Calls are numbered from 1. The numbers of calls and of faults stay at 2^64 - 1 once they are there.
#[derive(Drop)]
pub struct MemSource {
    bytes: Vec<u8>,
    given: usize,
    piece: usize,
    failing: Vec<u32>,
    calls: u64,
    faults: u64,
}

impl Model for MemSource {
    ghost use Rattle.std.specs.Prelude.{◌≤◌, drop, vec_len};
    ghost use Rattle.te_io.specs.InMemory.{MemSourceState};

    ghost Value = { MemSourceState };

    ghost view = { λ source. record {
      left = drop source.given source.bytes.items;
      piece = source.piece;
      failing = source.failing.items;
      calls = source.calls;
      faults = source.faults;
    } };

    ghost invariant = { λ source. (source.given ≤ vec_len source.bytes) × (1 ≤ source.piece) };
}

impl MemSource {
    /// A source of these bytes that gives at most `piece` of them in a call, and fails the calls whose
    /// numbers are listed.
    pub fn new(
        alloc: Global,
        bytes: &[u8],
        piece: usize,
        failing: &[u32],
    ) -> Result<MemSource, NoMemory>
        requires { 1 ≤ piece }
        ensures { IfOk result (λ source. source ≡ record {
          left = bytes.now;
          piece = piece;
          failing = failing.now;
          calls = 0;
          faults = 0;
        }) }
    {
        Ok(MemSource {
            bytes: Vec::from_slice(alloc, bytes)?,
            given: 0,
            piece,
            failing: Vec::from_slice(alloc, failing)?,
            calls: 0,
            faults: 0,
        })
    }
}

impl Source for MemSource {
    ghost bytes_left = { λ source. Some source.left };

    ghost faults = { λ source. source.faults };

    fn read(&mut self, into: &mut [u8]) -> Result<usize, Failed>
        ensures bound { IfOk result (λ n. n ≤ length into.new) }
        ensures gave { IfOk result (λ n.
            GaveFirst n (Some self.old.left) (Some self.new.left) (take n into.new)) }
        ensures end { IfOk result (λ n. n ≡ 0 → 0 < length into.new → HoldsNothing (Some self.new.left)) }
        ensures err { OnErr result (HoldsSame (Some self.old.left) (Some self.new.left)) }
        ensures count { self.old.faults ≤ self.new.faults }
        ensures failed { OnErr result (Rose self.old.faults self.new.faults) }

        // Exactly what the call does.
        ensures fails { IsErr result ↔ FailsNext self.old.failing self.old.calls }
        ensures gives { IfOk result (λ n.
            n ≡ min self.old.piece (min (length into.old) (length self.old.left))) }
        ensures after { self.new ≡ record self.old {
          left = self.new.left;
          calls = counted_more self.old.calls;
          faults = self.new.faults;
        } }
        ensures counted { MatchResult result
            (λ _. self.new.faults ≡ self.old.faults)
            (λ _. self.new.faults ≡ counted_more self.old.faults) }
    {
        self.calls = self.calls.saturating_add(1);
        if is_listed(&self.failing, self.calls) {
            self.faults = self.faults.saturating_add(1);
            return Err(Failed);
        }
        let count = copy_first(&self.bytes[self.given..], into, self.piece);
        self.given += count;
        Ok(count)
    }
}

/// A sink over memory that takes its bytes in small pieces, has room for so many, and fails the calls
/// that it is told to.
///
/// Calls are numbered from 1. The numbers of calls and of faults stay at 2^64 - 1 once they are there.
#[derive(Drop)]
pub struct MemSink {
    bytes: Vec<u8>,
    room: usize,
    piece: usize,
    failing: Vec<u32>,
    calls: u64,
    faults: u64,
}

impl Model for MemSink {
    ghost use Rattle.std.specs.Prelude.{◌≤◌, vec_len, vec_capacity};
    ghost use Rattle.te_io.specs.InMemory.{MemSinkState};

    ghost Value = { MemSinkState };

    ghost view = { λ sink. record {
      held = sink.bytes.items;
      room = sink.room;
      piece = sink.piece;
      failing = sink.failing.items;
      calls = sink.calls;
      faults = sink.faults;
    } };

    ghost invariant = { λ sink. (vec_len sink.bytes ≤ sink.room) × (sink.room ≤ vec_capacity sink.bytes) };
}

impl MemSink {
    /// An empty sink with room for `room` bytes, which takes at most `piece` of them in a call, and
    /// fails the calls whose numbers are listed. Its memory is taken here, and none later.
    pub fn new(
        alloc: Global,
        room: usize,
        piece: usize,
        failing: &[u32],
    ) -> Result<MemSink, NoMemory>
        ensures { IfOk result (λ sink. sink ≡ record {
          held = [];
          room = room;
          piece = piece;
          failing = failing.now;
          calls = 0;
          faults = 0;
        }) }
    {
        Ok(MemSink {
            bytes: Vec::with_capacity(alloc, room)?,
            room,
            piece,
            failing: Vec::from_slice(alloc, failing)?,
            calls: 0,
            faults: 0,
        })
    }

    /// The bytes that the sink holds.
    pub fn bytes(&self) -> &[u8]
        ensures { result.now ≡ self.now.held }
    {
        self.bytes.as_slice()
    }

    /// How many of so many bytes a call takes.
    fn share_of(&self, offered: usize) -> usize
        ensures { result ≡ share_of self.now offered }
    {
        self.piece.min(offered.min(self.room - self.bytes.len()))
    }

    /// Whether the next call fails at a piece of so many bytes.
    fn refuses(&self, offered: usize) -> bool
        ensures { IsTrue result ↔ Refuses self.now offered }
    {
        is_listed(&self.failing, self.calls.saturating_add(1))
            || self.bytes.len() == self.room
            || (offered > 0 && self.share_of(offered) == 0)
    }
}

impl Sink for MemSink {
    ghost bytes_held = { λ sink. Some sink.held };

    ghost faults = { λ sink. sink.faults };

    fn write(&mut self, piece: &[u8]) -> Result<usize, Failed>
        ensures bound { IfOk result (λ n. n ≤ length piece.now) }
        ensures moves_on { IfOk result (λ n. 0 < length piece.now → 0 < n) }
        ensures ok { IfOk result (λ n.
            GrewBy (Some self.old.held) (Some self.new.held) (take n piece.now)) }
        ensures err { OnErr result (GrewByPrefix (Some self.old.held) (Some self.new.held) piece.now) }
        ensures count { self.old.faults ≤ self.new.faults }
        ensures failed { OnErr result (Rose self.old.faults self.new.faults) }

        // Exactly what the call does.
        ensures fails { IsErr result ↔ Refuses self.old (length piece.now) }
        ensures taken { IfOk result (λ n. n ≡ share_of self.old (length piece.now)) }
        ensures after { self.new ≡ record self.old {
          held = self.new.held;
          calls = counted_more self.old.calls;
          faults = self.new.faults;
        } }
        ensures counted { MatchResult result
            (λ _. self.new.faults ≡ self.old.faults)
            (λ _. (self.new.faults ≡ counted_more self.old.faults) × (self.new.held ≡ self.old.held)) }
    {
        let count = self.share_of(piece.len());
        let is_refused = self.refuses(piece.len());
        self.calls = self.calls.saturating_add(1);
        if is_refused {
            self.faults = self.faults.saturating_add(1);
            return Err(Failed);
        }
        self.bytes.extend_from_slice(&piece[..count]).unwrap();
        Ok(count)
    }
}

/// Whether the call of this number is one of those that are to fail.
fn is_listed(failing: &[u32], call: u64) -> bool
    ensures { IsTrue result ↔ Contains failing.now call }
{
    failing.iter().any(|number| u64::from(*number) == call)
}
