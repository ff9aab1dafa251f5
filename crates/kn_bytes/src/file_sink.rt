// A sink over a file.
ghost use Rattle.std.specs.Prelude.{◌≡◌, ℕ, ◌<◌, ◌≤◌, length, take, None, IfOk, OnErr};
ghost use Rattle.kn_bytes.specs.Outside.{HasCause, Got};

use crate::{Failed, Sink, files};
use std::fs::OpenOptions;
use std::marker::Model;
use std::rt::Files;

/// Writes to a file, which it makes anew at the first call. It tells nothing of what is there.
#[derive(Drop)]
pub struct FileSink<'a, R: Files> {
    rt: &'a R,
    name: Option<&'a [u8]>,
    file: Option<R::File>,
    faults: u64,
}

impl<'a, R: Files> Model for FileSink<'a, R> {
    ghost use Rattle.kn_bytes.specs.System.{SinkCounts};

    ghost Value = { SinkCounts };

    ghost view = { λ s. record { faults = s.faults } };
}

impl<'a, R: Files> FileSink<'a, R> {
    /// A sink over the file of this name. No name, a name that isn't UTF-8 and a file that can't be made
    /// are failures of each call, and so is a write that takes nothing.
    pub fn new(rt: &'a R, name: Option<&'a [u8]>) -> Self
        ensures { result ≡ record { faults = 0 } }
    {
        FileSink {
            rt,
            name,
            file: None,
            faults: 0,
        }
    }
}

impl<'a, R: Files> Sink for FileSink<'a, R> {
    ghost written = { λ _. None };

    ghost faults = { λ s. s.faults };

    fn give(&mut self, bytes: &[u8]) -> Result<usize, Failed> {
        if self.file.is_none() {
            let mut how = OpenOptions::new();
            how.write(true).create(true).truncate(true);
            self.file = files::open(self.rt, self.name, &how);
        }
        let size = match &mut self.file {
            Some(file) => files::write(file, bytes),
            None => None,
        };
        match size {
            Some(size) => Ok(size),
            None => {
                self.faults = self.faults.saturating_add(1);
                Err(Failed)
            }
        }
    }
}
