// A sink in memory with a bound, which takes short pieces and fails where its maker wants it.
ghost use Rattle.std.specs.Prelude.{◌≡◌, ◌↔◌, ◌<◌, ◌≤◌, [], ◌++◌, length, take, Some, IfOk, OnErr, IsErr};
ghost use Rattle.kn_bytes.specs.Outside.{HasCause, Got};
ghost use Rattle.kn_bytes.specs.Memory.{SinkFails, taken_len, sink_after_piece, sink_after_fault};

use crate::{Failed, NoMemory, Sink};
use std::alloc::Global;
use std::marker::Model;

/// Keeps the bytes that it gets, up to a bound. Its calls are numbered from 1, and every call past
/// number 2^64 - 1 has that number.
#[derive(Drop)]
pub struct MemSink {
    bytes: Vec<u8>,
    room: usize,
    step: usize,
    failing: Vec<u64>,
    calls: u64,
    faults: u64,
}

impl Model for MemSink {
    ghost use Rattle.std.specs.Prelude.{◌≤◌, length, vec_capacity};
    ghost use Rattle.kn_bytes.specs.Memory.{SinkState};

    ghost Value = { SinkState };

    ghost view = { λ s. record { written = s.bytes.items; room = s.room; step = s.step; failing = s.failing.items; calls = s.calls; faults = s.faults } };

    ghost invariant = { λ s. (1 ≤ s.step) × (length s.bytes.items ≤ s.room) × (s.room ≤ vec_capacity s.bytes) };
}

impl MemSink {
    /// A sink that holds at most `room` bytes, for which it takes the memory now, and takes at most
    /// `step` of them in a call. The calls whose numbers stand in `failing` fail.
    pub fn new(alloc: Global, room: usize, step: usize, failing: Vec<u64>) -> Result<Self, NoMemory>
        requires { 1 ≤ step }
        ensures { IfOk result (λ sink. sink ≡ record { written = []; room = room; step = step; failing = failing.items; calls = 0; faults = 0 }) }
    {
        Ok(MemSink {
            bytes: Vec::with_capacity(alloc, room)?,
            room,
            step,
            failing,
            calls: 0,
            faults: 0,
        })
    }

    /// The bytes that it has got.
    pub fn written(&self) -> &[u8]
        ensures { result.now ≡ self.now.written }
    {
        &self.bytes
    }
}

impl Sink for MemSink {
    ghost written = { λ s. Some s.written };

    ghost faults = { λ s. s.faults };

    /// Takes as many bytes as the least of the step, the length of the piece and the room left. A piece
    /// that isn't empty fails where no room is left.
    fn give(&mut self, bytes: &[u8]) -> Result<usize, Failed>
        ensures fails { IsErr result ↔ SinkFails self.old bytes.now }
        ensures size { IfOk result (λ n. n ≡ taken_len self.old (length bytes.now)) }
        ensures after { IfOk result (λ n. self.new ≡ sink_after_piece self.old (take n bytes.now)) }
        ensures err_after { OnErr result (self.new ≡ sink_after_fault self.old) }

        ensures bound { IfOk result (λ n. n ≤ length bytes.now) }
        ensures some { IfOk result (λ n. 0 < length bytes.now → 1 ≤ n) }
        ensures bytes { IfOk result (λ n. Got (Some self.old.written) (Some self.new.written) (take n bytes.now)) }
        ensures err { OnErr result (Some self.new.written ≡ Some self.old.written) }
        ensures cause { HasCause self.old.faults self.new.faults result }
    {
        self.calls = self.calls.saturating_add(1);
        let free = self.room - self.bytes.len();
        if self.failing.contains(&self.calls) || (free == 0 && !bytes.is_empty()) {
            self.faults = self.faults.saturating_add(1);
            return Err(Failed);
        }
        let size = self.step.min(bytes.len()).min(free);
        let Ok(()) = self.bytes.extend_from_slice(bytes.split_at(size).0) else {
            unreachable!()
        };
        Ok(size)
    }
}
