ghost use Rattle.std.specs.Prelude.{◌≡◌, ◌↔◌, [], ◌∷◌, ◌++◌, IfOk, OnOk, OnErr, IsErr};

use crate::{Failed, Memory, Sink};
use std::alloc::Global;
use std::marker::Model;

/// A sink in memory, with room for so many bytes, whose failures can be planned.
///
/// It stands for exactly the lists of pieces whose concatenation is its bytes.
#[derive(Drop)]
pub struct MemSink {
    bytes: Vec<u8>,
    room: usize,
    failing: Vec<u64>,
    calls: u64,
    faults: u64,
}

impl Model for MemSink {
    ghost use Rattle.std.specs.Prelude.{◌≤◌, length};
    ghost use Rattle.std.specs.Vec.{vec_len, vec_capacity};
    ghost use Rattle.zl_outside.specs.SinkState.{SinkState};

    ghost Value = { SinkState };

    ghost view = { λ s. record { bytes = s.bytes.items; room = s.room; failing = s.failing.items; calls = s.calls; faults = s.faults } };

    ghost invariant = { λ s. (vec_len s.bytes ≤ s.room) × (s.room ≤ vec_capacity s.bytes) };
}

impl MemSink {
    ghost use Rattle.zl_outside.specs.SinkState.{empty_sink};

    /// An empty sink with room for `room` bytes, or `Memory` if they can't be reserved.
    pub fn new(alloc: Global, room: usize) -> Result<MemSink, Memory>
        ensures { IfOk result (λ sink. sink ≡ empty_sink room) }
    {
        Ok(MemSink {
            bytes: Vec::with_capacity(alloc, room)?,
            room,
            failing: Vec::new(alloc),
            calls: 0,
            faults: 0,
        })
    }

    /// Plans that the put with this number fails. Puts are counted from 1, those of an empty piece
    /// aside, and the count stays at the greatest u64. `Memory` changes nothing.
    pub fn fail_at(&mut self, call: u64) -> Result<(), Memory>
        ensures ok { OnOk result (self.new ≡ record self.old { failing = self.old.failing ++ call ∷ [] }) }
        ensures err { OnErr result (self.new ≡ self.old) }
    {
        self.failing.push(call)?;
        Ok(())
    }

    /// The bytes that were put.
    pub fn bytes(&self) -> &[u8]
        ensures { result.now ≡ self.now.bytes }
    {
        &self.bytes
    }
}

impl Sink for MemSink {
    ghost use Rattle.zl_outside.specs.Puts.{Puts};
    ghost use Rattle.zl_outside.specs.SinkState.{sink_stands_for, sink_faults, sink_after, PutFails};

    ghost stands_for = { sink_stands_for };

    ghost faults = { sink_faults };

    /// `Failed` comes exactly at a planned call and at a piece for which there is no room. It appends
    /// nothing and raises the count.
    fn put(&mut self, piece: &[u8]) -> Result<(), Failed>
        ensures puts { Puts (sink_stands_for self.old) (sink_stands_for self.new)
            (sink_faults self.old) (sink_faults self.new) piece.now result }
        ensures exact { IsErr result ↔ PutFails self.old piece.now }
        ensures after { self.new ≡ sink_after self.old piece.now result }
    {
        if piece.is_empty() {
            return Ok(());
        }
        self.calls = self.calls.saturating_add(1);
        if self.failing.contains(&self.calls) || self.room - self.bytes.len() < piece.len() {
            self.faults = self.faults.saturating_add(1);
            return Err(Failed);
        }
        match self.bytes.extend_from_slice(piece) {
            Ok(()) => Ok(()),
            Err(_) => unreachable!(),
        }
    }
}
