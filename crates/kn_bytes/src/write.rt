// A text written whole.
ghost use Rattle.std.specs.Prelude.{OnOk, OnErr};
ghost use Rattle.kn_bytes.specs.Outside.{HasCause, Got, GotPrefix};

use crate::Sink;
use std::error::Error;
use std::fmt;

/// A sink failed before it had all bytes.
#[derive(Clone, Copy, Debug, PartialEq, Eq)]
pub struct WriteFault;

impl fmt::Display for WriteFault {
    fn fmt<W: fmt::Write>(&self, f: &mut fmt::Formatter<W>) -> fmt::Result {
        f.write_str("the sink failed before it had all bytes")
    }
}

impl Error for WriteFault {}

/// Gives all `bytes` to the sink. After a fault it has got some of the first of them.
pub fn write_all<O: Sink>(sink: &mut O, bytes: &[u8]) -> Result<(), WriteFault>
    ensures ok { OnOk result (Got (O.written sink.old) (O.written sink.new) bytes.now) }
    ensures err { OnErr result (GotPrefix (O.written sink.old) (O.written sink.new) bytes.now) }
    ensures cause { HasCause (O.faults sink.old) (O.faults sink.new) result }
{
    let mut at = 0;
    while at < bytes.len() {
        let Ok(size) = sink.give(bytes.split_at(at).1) else {
            return Err(WriteFault);
        };
        at += size;
    }
    Ok(())
}
