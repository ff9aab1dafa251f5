//! The program `knf`: its words are those of its command line, its files real ones.
#![tactic(auto)]

use kn_bytes::{FileSink, FileSource, StdSink};
use kn_tool::{Answer, names, run};
use std::fs::OpenOptions;
use std::io::ErrorKind;
use std::process::ExitCode;
use std::rt::{Env, Files};
use std::{env, io};

/// The status where the runtime gives no words, since one of them is not UTF-8.
const NO_WORDS: u8 = 6;

fn main(rt: HostRuntime) -> ExitCode {
    let _held = [open_nothing(&rt), open_nothing(&rt), open_nothing(&rt)];
    let words = match words(&rt) {
        Ok(words) => words,
        Err(error) => return ExitCode::from(status_of(&error)),
    };
    let names = names(&words);
    let mut formula = FileSource::new(&rt, names.formula);
    let mut proof_in = FileSource::new(&rt, names.proof_in);
    let mut proof_out = FileSink::new(&rt, names.proof_out);
    let mut out = StdSink::new(&rt);
    let answer = run(
        rt.alloc(),
        &words,
        &mut formula,
        &mut proof_in,
        &mut out,
        &mut proof_out,
    );
    ExitCode::from(answer.status())
}

/// A file that is always empty. Three of them, held while the program runs, take the descriptors 0, 1 and 2 where
/// these are closed, so that no file of the words gets one and is taken for standard output.
fn open_nothing<R: Files>(rt: &R) -> Option<R::File> {
    OpenOptions::new().read(true).open(rt, "/dev/null").ok()
}

/// The words behind the program's own name.
fn words<R: Env + AllocGlobal>(rt: &R) -> io::Result<Vec<Vec<u8>>> {
    let mut words = Vec::new(rt.alloc());
    for word in env::args(rt)?.skip(1) {
        words.push(word.into_bytes())?;
    }
    Ok(words)
}

/// The status where the words were not taken.
fn status_of(error: &io::Error) -> u8 {
    if error.kind() == ErrorKind::OutOfMemory {
        Answer::NoMemory.status()
    } else {
        NO_WORDS
    }
}
