//! Reading and writing whole where pieces are short, calls fail or are interrupted, and room or a file is wanting.
ghost use Rattle.std.specs.Prelude.{◌≤◌};

use super::*;
use std::alloc::Global;
use std::cell::Cell;
use std::fmt::Display;
use std::io;
use std::io::{ErrorKind, Read};
use std::test::Fail;

fn source(alloc: Global, bytes: &[u8], step: usize, failing: &[u64]) -> Result<MemSource, NoMemory>
    requires { 1 ≤ step }
{
    let bytes = Vec::from_slice(alloc, bytes)?;
    let failing = Vec::from_slice(alloc, failing)?;
    Ok(MemSource::new(bytes, step, failing))
}

fn sink(alloc: Global, room: usize, step: usize, failing: &[u64]) -> Result<MemSink, NoMemory>
    requires { 1 ≤ step }
{
    let failing = Vec::from_slice(alloc, failing)?;
    MemSink::new(alloc, room, step, failing)
}

#[test]
fn a_limit_is_kept(rt: HostRuntime) -> Result<(), Fail> {
    let alloc = rt.alloc();
    let cases = [
        ("abcde", 4, Err(ReadAll::TooLong)),
        ("abcd", 4, Ok("abcd")),
        ("a", 0, Err(ReadAll::TooLong)),
        ("", 0, Ok("")),
        ("abc", u64::MAX, Ok("abc")),
    ];
    for (text, limit, want) in cases {
        let all = read_all(alloc, &mut source(alloc, text.as_bytes(), 2, &[])?, limit);
        match (all, want) {
            (Ok(all), Ok(want)) => assert_eq!(rt; all.as_slice(), want.as_bytes(), "{text}"),
            (Err(error), Err(want)) => assert_eq!(rt; error, want, "{text}"),
            _ => assert!(rt; false, "{text}"),
        }
    }
    Ok(())
}

#[test]
fn a_source_fails_at_its_second_call(rt: HostRuntime) -> Result<(), Fail> {
    let alloc = rt.alloc();
    let mut source = source(alloc, b"abcde", 2, &[2])?;
    let mut into = [0; 4];
    for (want, front) in [
        (Ok(2), "ab"),
        (Err(Failed), "ab"),
        (Ok(2), "cd"),
        (Ok(1), "ed"),
        (Ok(0), "ed"),
    ] {
        assert_eq!(rt; source.take(&mut into), want);
        assert_eq!(rt; into.split_at(2).0, front.as_bytes());
    }
    Ok(())
}

#[test]
fn reading_goes_on_after_a_fault(rt: HostRuntime) -> Result<(), Fail> {
    let alloc = rt.alloc();
    let mut source = source(alloc, b"abcde", 2, &[2])?;
    assert_eq!(rt; read_all(alloc, &mut source, 9).err(), Some(ReadAll::Fault));
    let rest = read_all(alloc, &mut source, 9)?;
    assert_eq!(rt; rest.as_slice(), b"cde".as_slice());
    Ok(())
}

#[test]
fn a_sink_is_full_or_fails(rt: HostRuntime) -> Result<(), Fail> {
    let alloc = rt.alloc();
    let mut small = sink(alloc, 5, 2, &[])?;
    write_all(&mut small, b"abcde")?;
    assert_eq!(rt; small.give(&[]), Ok(0));
    assert_eq!(rt; write_all(&mut small, b"f"), Err(WriteFault));
    assert_eq!(rt; small.written(), b"abcde".as_slice());
    let mut failing = sink(alloc, 9, 2, &[2])?;
    assert_eq!(rt; write_all(&mut failing, b"abcde"), Err(WriteFault));
    assert_eq!(rt; failing.written(), b"ab".as_slice());
    Ok(())
}

#[test]
fn a_sink_grows(rt: HostRuntime) -> Result<(), Fail> {
    let mut sink = GrowSink::new(rt.alloc());
    write_all(&mut sink, b"abc")?;
    write_all(&mut sink, b"de")?;
    assert_eq!(rt; sink.written(), b"abcde".as_slice());
    Ok(())
}

#[test]
fn a_file_without_a_good_name_fails(rt: HostRuntime) -> Result<(), Fail> {
    let absent = b"absent".as_slice();
    for name in [None, Some(b"\xff".as_slice()), Some(absent)] {
        let mut into = [0; 4];
        assert_eq!(rt; FileSource::new(&rt, name).take(&mut into), Err(Failed));
    }
    for name in [
        None,
        Some(b"\xff".as_slice()),
        Some(b"absent/file".as_slice()),
    ] {
        assert_eq!(rt; FileSink::new(&rt, name).give(b"abc"), Err(Failed));
    }
    Ok(())
}

#[test]
fn a_file_is_made_anew_and_read_back(rt: HostRuntime) -> Result<(), Fail> {
    let name = Some(b"letters".as_slice());
    for text in ["abcde", "fg", ""] {
        write_all(&mut FileSink::new(&rt, name), b"longer")?;
        let mut sink = FileSink::new(&rt, name);
        assert_eq!(rt; sink.give(&[]), Ok(0));
        write_all(&mut sink, text.as_bytes())?;
        let all = read_all(rt.alloc(), &mut FileSource::new(&rt, name), 5)?;
        assert_eq!(rt; all.as_slice(), text.as_bytes());
    }
    Ok(())
}

#[test]
fn more_than_a_piece_is_read(rt: HostRuntime) -> Result<(), Fail> {
    let mut sink = GrowSink::new(rt.alloc());
    for _ in 0..30_000 {
        write_all(&mut sink, b"abcde")?;
    }
    let name = Some(b"many".as_slice());
    write_all(&mut FileSink::new(&rt, name), sink.written())?;
    let all = read_all(rt.alloc(), &mut FileSource::new(&rt, name), 150_000)?;
    assert!(rt; all.as_slice() == sink.written());
    let less = read_all(rt.alloc(), &mut FileSource::new(&rt, name), 149_999);
    assert_eq!(rt; less.err(), Some(ReadAll::TooLong));
    Ok(())
}

#[test]
fn standard_output_takes_a_text(rt: HostRuntime) -> Result<(), Fail> {
    let mut sink = StdSink::new(&rt);
    write_all(&mut sink, b"standard output\n")?;
    Ok(())
}

// Interrupts as many calls as it says, and then does each.
#[derive(Drop)]
struct Interrupting {
    more: Cell<u32>,
}

impl Interrupting {
    fn new(more: u32) -> Self {
        Interrupting {
            more: Cell::new(more),
        }
    }
}

impl Print for Interrupting {
    fn print<D: Display + Drop>(&self, _value: D) -> io::Result<()> {
        Ok(())
    }

    fn println<D: Display + Drop>(&self, _value: D) -> io::Result<()> {
        Ok(())
    }

    fn write_all(&self, _bytes: &[u8]) -> io::Result<()> {
        match self.more.get().checked_sub(1) {
            Some(more) => {
                self.more.set(more);
                Err(io::Error::from(ErrorKind::Interrupted))
            }
            None => Ok(()),
        }
    }
}

impl Read for Interrupting {
    fn read(&mut self, _into: &mut [u8]) -> io::Result<usize> {
        self.write_all(&[])?;
        Ok(0)
    }
}

#[test]
fn an_interrupted_call_is_made_again_16_times(rt: HostRuntime) -> Result<(), Fail> {
    for (times, given, taken) in [(16, Ok(3), Some(0)), (17, Err(Failed), None)] {
        assert_eq!(rt; StdSink::new(&Interrupting::new(times)).give(b"abc"), given);
        assert_eq!(rt;
            files::read(&mut Interrupting::new(times), &mut [0; 4]),
            taken
        );
    }
    Ok(())
}
