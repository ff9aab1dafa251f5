// A sink in memory with no bound but memory itself.
ghost use Rattle.std.specs.Prelude.{◌≡◌, ◌<◌, ◌≤◌, [], ◌++◌, length, take, Some, IfOk, OnErr};
ghost use Rattle.kn_bytes.specs.Outside.{HasCause, Got};
ghost use Rattle.kn_bytes.specs.Memory.{count_after};

use crate::{Failed, Sink};
use std::alloc::Global;
use std::marker::Model;

/// Keeps all bytes that it gets.
#[derive(Drop)]
pub struct GrowSink {
    bytes: Vec<u8>,
    faults: u64,
}

impl Model for GrowSink {
    ghost use Rattle.kn_bytes.specs.Memory.{GrownState};

    ghost Value = { GrownState };

    ghost view = { λ s. record { written = s.bytes.items; faults = s.faults } };
}

impl GrowSink {
    /// A sink that has got nothing. It takes no memory before the first piece.
    pub fn new(alloc: Global) -> Self
        ensures { result ≡ record { written = []; faults = 0 } }
    {
        GrowSink {
            bytes: Vec::new(alloc),
            faults: 0,
        }
    }

    /// The bytes that it has got.
    pub fn written(&self) -> &[u8]
        ensures { result.now ≡ self.now.written }
    {
        &self.bytes
    }
}

impl Sink for GrowSink {
    ghost written = { λ s. Some s.written };

    ghost faults = { λ s. s.faults };

    /// Takes the piece whole. It fails, and counts it, only where memory is short.
    fn give(&mut self, bytes: &[u8]) -> Result<usize, Failed>
        ensures whole { IfOk result (λ n. n ≡ length bytes.now) }
        ensures after { IfOk result (λ _. self.new ≡ record self.old { written = self.old.written ++ bytes.now }) }
        ensures err_after { OnErr result (self.new ≡ record self.old { faults = count_after self.old.faults 1 }) }

        ensures bound { IfOk result (λ n. n ≤ length bytes.now) }
        ensures some { IfOk result (λ n. 0 < length bytes.now → 1 ≤ n) }
        ensures bytes { IfOk result (λ n. Got (Some self.old.written) (Some self.new.written) (take n bytes.now)) }
        ensures err { OnErr result (Some self.new.written ≡ Some self.old.written) }
        ensures cause { HasCause self.old.faults self.new.faults result }
    {
        if self.bytes.extend_from_slice(bytes).is_err() {
            self.faults = self.faults.saturating_add(1);
            return Err(Failed);
        }
        Ok(bytes.len())
    }
}
