// Calls of the system, each made again where it was interrupted.
ghost use Rattle.std.specs.Prelude.{◌≡◌, ◌↔◌, ◌<◌, ◌≤◌, length, IsTrue, IfSome};
ghost use Rattle.std.specs.IoError.{error_kind};

use std::fs::OpenOptions;
use std::io::{ErrorKind, Read, Write};
use std::rt::Files;
use std::{io, str};

/// The first try, and 16 more.
pub const TRIES: u32 = 17;

pub fn is_interrupted(error: &io::Error) -> bool
    ensures { IsTrue result ↔ (error_kind error.now ≡ ErrorKind.Interrupted) }
{
    error.kind() == ErrorKind::Interrupted
}

pub fn open<R: Files>(rt: &R, name: Option<&[u8]>, how: &OpenOptions) -> Option<R::File> {
    let path = str::from_utf8(name?).ok()?;
    for _ in 0..TRIES {
        match how.open(rt, path) {
            Ok(file) => return Some(file),
            Err(error) if is_interrupted(&error) => {}
            Err(_) => return None,
        }
    }
    None
}

pub fn read<F: Read>(file: &mut F, into: &mut [u8]) -> Option<usize>
    ensures { IfSome result (λ n. n ≤ length into.old) }
{
    for _ in 0..TRIES {
        match file.read(into) {
            Ok(size) => return Some(size),
            Err(error) if is_interrupted(&error) => {}
            Err(_) => return None,
        }
    }
    None
}

/// At least one byte, unless there are none.
pub fn write<F: Write>(file: &mut F, bytes: &[u8]) -> Option<usize>
    ensures bound { IfSome result (λ n. n ≤ length bytes.now) }
    ensures some { IfSome result (λ n. 0 < length bytes.now → 1 ≤ n) }
{
    for _ in 0..TRIES {
        match file.write(bytes) {
            Ok(0) if !bytes.is_empty() => return None,
            Ok(size) => return Some(size),
            Err(error) if is_interrupted(&error) => {}
            Err(_) => return None,
        }
    }
    None
}

/// At least one byte, unless there are none, to standard output.
pub fn print<R: Print>(rt: &R, bytes: &[u8]) -> Option<usize>
    ensures bound { IfSome result (λ n. n ≤ length bytes.now) }
    ensures some { IfSome result (λ n. 0 < length bytes.now → 1 ≤ n) }
{
    for _ in 0..TRIES {
        match rt.write_some(bytes) {
            Ok(0) if !bytes.is_empty() => return None,
            Ok(size) => return Some(size),
            Err(error) if is_interrupted(&error) => {}
            Err(_) => return None,
        }
    }
    None
}
