// A source over a file.
ghost use Rattle.std.specs.Prelude.{◌≡◌, ℕ, ◌<◌, ◌≤◌, length, take, None, IfOk, OnErr};
ghost use Rattle.kn_bytes.specs.Outside.{RoseBy, HasCause, Gave, HasEnded};

use crate::{Failed, Source, files};
use std::fs::OpenOptions;
use std::marker::Model;
use std::rt::Files;

/// Gives what is in a file, which it opens at the first call. It tells nothing of what that is.
#[derive(Drop)]
pub struct FileSource<'a, R: Files> {
    rt: &'a R,
    name: Option<&'a [u8]>,
    file: Option<R::File>,
    given: u64,
    faults: u64,
}

impl<'a, R: Files> Model for FileSource<'a, R> {
    ghost use Rattle.kn_bytes.specs.System.{SourceCounts};

    ghost Value = { SourceCounts };

    ghost view = { λ s. record { given = s.given; faults = s.faults } };
}

impl<'a, R: Files> FileSource<'a, R> {
    /// A source over the file of this name. No name, a name that isn't UTF-8 and a file that can't be
    /// opened are failures of each call.
    pub fn new(rt: &'a R, name: Option<&'a [u8]>) -> Self
        ensures { result ≡ record { given = 0; faults = 0 } }
    {
        FileSource {
            rt,
            name,
            file: None,
            given: 0,
            faults: 0,
        }
    }
}

impl<'a, R: Files> Source for FileSource<'a, R> {
    ghost left = { λ _. None };

    ghost given = { λ s. s.given };

    ghost faults = { λ s. s.faults };

    fn take(&mut self, into: &mut [u8]) -> Result<usize, Failed> {
        if self.file.is_none() {
            self.file = files::open(self.rt, self.name, OpenOptions::new().read(true));
        }
        let size = match &mut self.file {
            Some(file) => files::read(file, into),
            None => None,
        };
        match size {
            Some(size) => {
                self.given = self.given.saturating_add(size as u64);
                Ok(size)
            }
            None => {
                self.faults = self.faults.saturating_add(1);
                Err(Failed)
            }
        }
    }
}
