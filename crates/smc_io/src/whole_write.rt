//! Whole texts.
ghost use Rattle.std.specs.Prelude.{◌≡◌, ◌↔◌, ◌-◌, ◌^◌, ◌<◌, IsOk, IsErr, OnOk, OnErr};
ghost use Rattle.std.specs.Io.KnownBytes.{Appends};
ghost use Rattle.smc_io.specs.Counts.{Rose};
ghost use Rattle.smc_io.specs.Bytes.{AppendsPart};

use crate::failed::Failed;
use crate::sink::Sink;
use std::error::Error;
use std::fmt;

/// A write failed before the whole text was taken.
#[derive(Clone, Copy, Debug, PartialEq, Eq)]
pub struct WriteFault;

impl fmt::Display for WriteFault {
    fn fmt<W: fmt::Write>(&self, f: &mut fmt::Formatter<W>) -> fmt::Result {
        f.write_str("the text could not be written")
    }
}

impl Error for WriteFault {}

/// Writes all of the bytes, in as many calls as the sink needs, and stops at the first that fails.
pub fn write_all<K: Sink>(sink: &mut K, bytes: &[u8]) -> Result<(), WriteFault>
    requires { K.faults sink.old < 2 ^ 64 - 1 }
    ensures ok { IsOk result ↔ (K.faults sink.new ≡ K.faults sink.old) }
    ensures fault { IsErr result ↔ Rose (K.faults sink.old) (K.faults sink.new) }
    ensures whole { OnOk result (Appends (K.written sink.old) (K.written sink.new) bytes.now) }
    ensures part { OnErr result (AppendsPart (K.written sink.old) (K.written sink.new) bytes.now) }
{
    let mut start = 0;
    while start < bytes.len() {
        match sink.write(&bytes[start..]) {
            Ok(count) => start += count,
            Err(Failed) => return Err(WriteFault),
        }
    }
    Ok(())
}
