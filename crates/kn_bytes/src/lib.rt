//! Bytes that come in and go out: the one way by which the layers above meet devices.
//!
//! A [`Source`] gives bytes a piece at a time and a [`Sink`] takes them, and each counts its faults. Code
//! above is generic over both, reads by [`read_all`] and writes by [`write_all`], whose answers name a
//! fault only where the device counted one in that call. [`MemSource`], [`MemSink`] and [`GrowSink`] tell
//! their bytes, so that a contract can name them. [`FileSource`], [`FileSink`] and [`StdSink`] are the
//! edge to the system: they tell their counts alone, and what the system does with a file is trusted.
//!
//! What a call does to a source or a sink is defined in `specs/Outside.antt`, what one in memory holds in
//! `specs/Memory.antt`, what the others count in `specs/System.antt`, and what `read_all` took in
//! `specs/ReadAll.antt`. `proofs/Public.antt` has lemmas on two calls in a row, for the crates above.
#![tactic(auto)]

mod file_sink;
mod file_source;
mod files;
mod grow_sink;
mod mem_sink;
mod mem_source;
mod read;
mod sink;
mod source;
mod std_sink;
mod write;

pub use file_sink::FileSink;
pub use file_source::FileSource;
pub use grow_sink::GrowSink;
pub use mem_sink::MemSink;
pub use mem_source::MemSource;
pub use read::{ReadAll, read_all};
pub use sink::Sink;
pub use source::{Failed, Source};
use std::alloc::AllocError;
pub use std_sink::StdSink;
pub use write::{WriteFault, write_all};

/// Memory is short.
pub type NoMemory = AllocError;

#[cfg(test)]
mod tests;
