//! Whole files.
ghost use Rattle.std.specs.Prelude.{◌≡◌, ◌↔◌, ◌+◌, ◌-◌, ◌^◌, ◌<◌, ◌≤◌, ◌⊎◌, Some, length, vec_len, string_bytes, IsErr, IfOk, IsErrOf};
ghost use Rattle.std.specs.Io.KnownBytes.{Keeps};
ghost use Rattle.smc_io.specs.Files.{bytes_at};
ghost use Rattle.smc_io.specs.Counts.{Rose};
ghost use Rattle.smc_io.specs.Bytes.{TakesAtMost, Told};

use crate::failed::Failed;
use crate::source::Source;
use std::alloc::Global;
use std::error::Error;
use std::fmt;

/// How many bytes a read asks for at most.
const PIECE: usize = 16384;

/// Why a whole file was not read.
#[derive(Clone, Copy, Debug, PartialEq, Eq)]
pub enum ReadAll {
    /// An open or a read failed.
    Fault,
    /// The file has more bytes than the limit.
    TooLong,
    /// There was no memory for the file's bytes.
    OutOfMemory,
}

impl fmt::Display for ReadAll {
    fn fmt<W: fmt::Write>(&self, f: &mut fmt::Formatter<W>) -> fmt::Result {
        match self {
            ReadAll::Fault => f.write_str("the file could not be read"),
            ReadAll::TooLong => f.write_str("the file is longer than the limit"),
            ReadAll::OutOfMemory => f.write_str("out of memory"),
        }
    }
}

impl Error for ReadAll {}

/// Opens the file of this name and reads it to its end, if it has at most `limit` bytes.
///
/// It stops at the first call that fails, and as soon as more than `limit` bytes came.
pub fn read_all<S: Source>(
    alloc: Global,
    source: &mut S,
    name: String,
    limit: u64,
) -> Result<Vec<u8>, ReadAll>
    requires faults { S.faults source.old < 2 ^ 64 - 1 }
    requires opens { S.opens source.old < 2 ^ 64 - 1 }

    // It opens once, and this name.
    ensures opens { S.opens source.new ≡ S.opens source.old + 1 }
    ensures opened { S.opened source.new ≡ Some (string_bytes name) }

    // The answer is a fault exactly where a call failed.
    ensures fault { IsErrOf result ReadAll.Fault ↔ Rose (S.faults source.old) (S.faults source.new) }
    ensures no_fault { (IsErrOf result ReadAll.Fault → ⊥) → S.faults source.new ≡ S.faults source.old }

    ensures whole { IfOk result (λ bytes. Told (S.files source.old)
        (λ files. bytes.items ≡ bytes_at files (string_bytes name))) }
    ensures short { IfOk result (λ bytes. vec_len bytes ≤ limit) }

    // It is too long only where more than `limit` bytes came, and never Ok where the file has more.
    ensures long { IsErrOf result ReadAll.TooLong → Told (S.files source.old)
        (λ files. limit < length (bytes_at files (string_bytes name))) }
    ensures never_long { Told (S.files source.old)
        (λ files. limit < length (bytes_at files (string_bytes name)) → IsErr result) }

    ensures files { S.files source.new ≡ S.files source.old }
    // Where the open failed nothing was taken.
    ensures taken { Told (S.files source.old) (λ files.
        TakesAtMost (limit + 1) (Some (bytes_at files (string_bytes name))) (S.rest source.new)
        ⊎ (IsErrOf result ReadAll.Fault × Keeps (S.rest source.old) (S.rest source.new))) }
{
    match source.open(name) {
        Ok(()) => read_rest(alloc, source, limit),
        Err(Failed) => Err(ReadAll::Fault),
    }
}

/// Reads to the end of the opened file, if at most `limit` bytes are left.
fn read_rest<S: Source>(alloc: Global, source: &mut S, limit: u64) -> Result<Vec<u8>, ReadAll>
    requires { S.faults source.old < 2 ^ 64 - 1 }
    ensures later { S.faults source.old ≤ S.faults source.new }
    ensures fault { IsErrOf result ReadAll.Fault ↔ Rose (S.faults source.old) (S.faults source.new) }
    ensures whole { IfOk result (λ bytes. Told (S.rest source.old) (λ rest. bytes.items ≡ rest)) }
    ensures short { IfOk result (λ bytes. vec_len bytes ≤ limit) }
    ensures long { IsErrOf result ReadAll.TooLong → Told (S.rest source.old) (λ rest. limit < length rest) }
    ensures files { S.files source.new ≡ S.files source.old }
    ensures taken { TakesAtMost (limit + 1) (S.rest source.old) (S.rest source.new) }
    ensures opens { S.opens source.new ≡ S.opens source.old }
    ensures opened { S.opened source.new ≡ S.opened source.old }
{
    let mut bytes = Vec::new(alloc);
    let mut piece = [0; PIECE];
    loop {
        let left = limit - bytes.len() as u64;
        let asked = left.min(PIECE as u64 - 1) as usize + 1;
        match source.read(&mut piece[..asked]) {
            Ok(0) => return Ok(bytes),
            Ok(count) if count as u64 > left => return Err(ReadAll::TooLong),
            Ok(count) => match bytes.extend_from_slice(&piece[..count]) {
                Ok(()) => {}
                Err(_) => return Err(ReadAll::OutOfMemory),
            },
            Err(Failed) => return Err(ReadAll::Fault),
        }
    }
}
