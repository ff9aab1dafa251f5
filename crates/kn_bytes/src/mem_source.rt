// A source in memory, which gives short pieces and fails where its maker wants it.
ghost use Rattle.std.specs.Prelude.{◌≡◌, ◌↔◌, ℕ, ◌<◌, ◌≤◌, [], ◌++◌, length, take, drop, Some, IfOk, OnErr, IsErr};
ghost use Rattle.kn_bytes.specs.Outside.{RoseBy, HasCause, Gave, HasEnded};
ghost use Rattle.kn_bytes.specs.Memory.{SourceFails, given_len, source_after_piece, source_after_fault};

use crate::{Failed, Source};
use std::marker::Model;

/// Gives the bytes that it was made with. Its calls are numbered from 1, and every call past number
/// 2^64 - 1 has that number.
#[derive(Drop)]
pub struct MemSource {
    bytes: Vec<u8>,
    at: usize,
    step: usize,
    failing: Vec<u64>,
    calls: u64,
    given: u64,
    faults: u64,
}

impl Model for MemSource {
    ghost use Rattle.std.specs.Prelude.{◌≤◌, length, drop};
    ghost use Rattle.kn_bytes.specs.Memory.{SourceState};

    ghost Value = { SourceState };

    ghost view = { λ s. record { left = drop s.at s.bytes.items; step = s.step; failing = s.failing.items; calls = s.calls; given = s.given; faults = s.faults } };

    ghost invariant = { λ s. (1 ≤ s.step) × (s.at ≤ length s.bytes.items) };
}

impl MemSource {
    /// A source of `bytes`, which gives at most `step` of them in a call. The calls whose numbers stand
    /// in `failing` fail.
    pub fn new(bytes: Vec<u8>, step: usize, failing: Vec<u64>) -> Self
        requires { 1 ≤ step }
        ensures { result ≡ record { left = bytes.items; step = step; failing = failing.items; calls = 0; given = 0; faults = 0 } }
    {
        MemSource {
            bytes,
            at: 0,
            step,
            failing,
            calls: 0,
            given: 0,
            faults: 0,
        }
    }
}

impl Source for MemSource {
    ghost left = { λ s. Some s.left };

    ghost given = { λ s. s.given };

    ghost faults = { λ s. s.faults };

    /// Gives as many bytes as the least of the step, the length of `into` and what is left.
    fn take(&mut self, into: &mut [u8]) -> Result<usize, Failed>
        ensures fails { IsErr result ↔ SourceFails self.old }
        ensures size { IfOk result (λ n. n ≡ given_len self.old (length into.old)) }
        ensures piece { IfOk result (λ n. into.new ≡ take n self.old.left ++ drop n into.old) }
        ensures after { IfOk result (λ n. self.new ≡ source_after_piece self.old n) }
        ensures err { OnErr result (self.new ≡ source_after_fault self.old) }
        ensures err_into { OnErr result (into.new ≡ into.old) }

        ensures bound { IfOk result (λ n. n ≤ length into.old) }
        ensures bytes { IfOk result (λ n. Gave (Some self.old.left) (Some self.new.left) (take n into.new)) }
        ensures end { IfOk result (λ n. n ≡ 0 → 0 < length into.old → self.old.left ≡ []) }
        ensures count { IfOk result (λ n. RoseBy self.old.given self.new.given n) }
        ensures err_left { OnErr result (Some self.new.left ≡ Some self.old.left) }
        ensures err_count { OnErr result (self.new.given ≡ self.old.given) }
        ensures cause { HasCause self.old.faults self.new.faults result }
    {
        self.calls = self.calls.saturating_add(1);
        if self.failing.contains(&self.calls) {
            self.faults = self.faults.saturating_add(1);
            return Err(Failed);
        }
        let rest = self.bytes.split_at(self.at).1;
        let size = self.step.min(into.len()).min(rest.len());
        into[..size].copy_from_slice(rest.split_at(size).0);
        self.at += size;
        self.given = self.given.saturating_add(size as u64);
        Ok(size)
    }
}
