// A sink over standard output.
ghost use Rattle.std.specs.Prelude.{◌≡◌, ℕ, ◌<◌, ◌≤◌, length, take, None, IfOk, OnErr};
ghost use Rattle.kn_bytes.specs.Outside.{HasCause, Got};

use crate::{Failed, Sink, files};
use std::marker::Model;

/// Writes to standard output. It tells nothing of what is there.
#[derive(Drop)]
pub struct StdSink<'a, R: Print> {
    rt: &'a R,
    faults: u64,
}

impl<'a, R: Print> Model for StdSink<'a, R> {
    ghost use Rattle.kn_bytes.specs.System.{SinkCounts};

    ghost Value = { SinkCounts };

    ghost view = { λ s. record { faults = s.faults } };
}

impl<'a, R: Print> StdSink<'a, R> {
    /// A sink over standard output. A write that takes nothing is a failure.
    pub fn new(rt: &'a R) -> Self
        ensures { result ≡ record { faults = 0 } }
    {
        StdSink { rt, faults: 0 }
    }
}

impl<'a, R: Print> Sink for StdSink<'a, R> {
    ghost written = { λ _. None };

    ghost faults = { λ s. s.faults };

    fn give(&mut self, bytes: &[u8]) -> Result<usize, Failed> {
        match files::print(self.rt, bytes) {
            Some(size) => Ok(size),
            None => {
                self.faults = self.faults.saturating_add(1);
                Err(Failed)
            }
        }
    }
}
