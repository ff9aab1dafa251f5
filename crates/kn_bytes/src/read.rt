// A source read to its end.
ghost use Rattle.std.specs.Prelude.{◌≡◌, ◌<◌, ◌≤◌, length, IfOk, IsErrOf};
ghost use Rattle.kn_bytes.specs.Outside.{Rose};
ghost use Rattle.kn_bytes.specs.ReadAll.{Took};
ghost use Rattle.kn_bytes.specs.declared.read.ReadAll.TheVariants.{Memory};

use crate::{Failed, Source};
use std::alloc::{AllocError, Global};
use std::error::Error;
use std::fmt;

const PIECE: usize = 1 << 16;

/// Why a source was not read to its end.
#[derive(Clone, Copy, Debug, PartialEq, Eq)]
pub enum ReadAll {
    /// The source failed.
    Fault,
    /// The source gave more bytes than the limit.
    TooLong,
    /// Memory is short.
    Memory,
}

impl fmt::Display for ReadAll {
    fn fmt<W: fmt::Write>(&self, f: &mut fmt::Formatter<W>) -> fmt::Result {
        f.write_str(match self {
            ReadAll::Fault => "the source failed",
            ReadAll::TooLong => "there are more bytes than the limit",
            ReadAll::Memory => "memory is short",
        })
    }
}

impl Error for ReadAll {}

impl From<AllocError> for ReadAll {
    ghost from_gives = { λ _ e. e ≡ Memory };

    fn from(_: AllocError) -> Self {
        ReadAll::Memory
    }
}

/// Reads a source to its end, which is to come after at most `limit` bytes. It never asks for more
/// than one byte past the limit, and takes memory for what is there, not for the limit.
pub fn read_all<S: Source>(alloc: Global, source: &mut S, limit: u64) -> Result<Vec<u8>, ReadAll>
    ensures took { Took S.left S.given source.old source.new limit result }
    ensures later { S.faults source.old ≤ S.faults source.new }
    ensures fault { IsErrOf result ReadAll.Fault → Rose (S.faults source.old) (S.faults source.new) }
{
    let mut piece = new_piece(alloc)?;
    read_by(alloc, source, limit, &mut piece)
}

fn new_piece(alloc: Global) -> Result<Vec<u8>, AllocError>
    ensures { IfOk result (λ piece. 0 < length piece.items) }
{
    vec![in alloc; 0; PIECE]
}

// Reads to the end by pieces of the length of `piece`.
fn read_by<S: Source>(
    alloc: Global,
    source: &mut S,
    limit: u64,
    piece: &mut [u8],
) -> Result<Vec<u8>, ReadAll>
    requires { 0 < length piece.old }
    ensures took { Took S.left S.given source.old source.new limit result }
    ensures later { S.faults source.old ≤ S.faults source.new }
    ensures fault { IsErrOf result ReadAll.Fault → Rose (S.faults source.old) (S.faults source.new) }
{
    let mut all = Vec::new(alloc);
    let mut room = limit;
    loop {
        let asked = room.min(piece.len() as u64 - 1) as usize + 1;
        let part = &mut piece[..asked];
        let Ok(size) = source.take(part) else {
            return Err(ReadAll::Fault);
        };
        if size == 0 {
            return Ok(all);
        }
        if size as u64 > room {
            return Err(ReadAll::TooLong);
        }
        all.extend_from_slice(part.split_at(size).0)?;
        room -= size as u64;
    }
}
