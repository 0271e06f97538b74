//! Runs over files and a sink in memory, against tables of values from outside.

mod expansions;
mod fault_runs;
mod first_refusals;
mod limits;
mod models;
mod outside;
mod plan_runs;
mod refused_models;
mod refused_properties;
mod rings;
mod seeds;
mod traces;
mod wald_runs;
mod watched;
mod words;

ghost use Rattle.std.specs.Prelude.{◌^◌, ◌-◌, ◌<◌};

use super::*;
use smc_io::{MemFiles, MemSink, Sink, Source};
use std::alloc::{AllocError, Global};
use std::thread::Threads;
use stop_rules::{Batches, LongestRun, Observer};

/// The words of a run with a bar between each two, the text of the file `M`, the exit status, and what is written.
type Row = (&'static str, &'static str, u8, &'static str);

/// A check with all defaults.
const CHECK: &str = "check|--model=M|--property=P>=0.9 [ F<=1 x=1 ]";

/// 207 successes in a row, and Wald's test.
const SURE: &str = "result: accepted\n\
    samples: 207\n\
    successes: 207\n\
    failures: 0\n\
    claim: at least\n\
    test: wald p0 91/100 p1 89/100 alpha 1/100 beta 1/100\n\
    limit: 1000000\n\
    seed: 1\n\
    longest run of true: 207\n\
    batches of 1000: 0 full, least 0, most 0\n";

/// Room for what the longest run of a table writes.
const ROOM: u64 = 1 << 20;

/// Words, of a text that has a bar between each two; of an empty text none.
fn words_of(alloc: Global, text: &str) -> Result<Vec<String>, AllocError> {
    let mut words = Vec::new(alloc);
    if text.is_empty() {
        return Ok(words);
    }
    for word in text.split('|') {
        words.push(String::from_str(alloc, word)?)?;
    }
    Ok(words)
}

/// The file `M` with this text.
fn file(alloc: Global, text: &str) -> Result<Vec<(String, Vec<u8>)>, AllocError> {
    let mut files = Vec::new(alloc);
    files.push((
        String::from_str(alloc, "M")?,
        Vec::from_slice(alloc, text.as_bytes())?,
    ))?;
    Ok(files)
}

/// The exit status of a run with these words and the program's observers.
fn ends<R: Threads + Sync + AllocGlobal, S: Source, K: Sink>(
    rt: &R,
    words: &str,
    source: &mut S,
    sink: &mut K,
) -> Result<u8, AllocError>
    requires source_faults { S.faults source.old < 2 ^ 64 - 1 }
    requires source_opens { S.opens source.old < 2 ^ 64 - 1 }
    requires sink_faults { K.faults sink.old < 2 ^ 64 - 1 }
{
    let alloc = rt.alloc();
    let words = words_of(alloc, words)?;
    let longest = Box::new(alloc, LongestRun::new())?;
    let batches = Box::new(alloc, Batches::new(1000))?;
    let watch = Vec::from_array(alloc, [longest as Box<dyn Observer>, batches])?;
    let status = run(rt, alloc, words.as_slice(), source, sink, &NoGate, watch);
    Ok(status.code())
}

/// Whether a run of the program with these words, over a file `M` with this text, ends with this exit status and writes this.
fn is_answer<R: Threads + Sync + AllocGlobal>(
    rt: &R,
    words: &str,
    model: &str,
    status: u8,
    written: &str,
) -> Result<bool, AllocError> {
    let alloc = rt.alloc();
    let mut source = MemFiles::new(file(alloc, model)?, Vec::new(alloc));
    let mut sink = MemSink::new(alloc, ROOM, ROOM, Vec::new(alloc))?;
    let ended = ends(rt, words, &mut source, &mut sink)?;
    Ok(ended == status && sink.bytes() == written.as_bytes())
}

/// Whether a run answers as its row says.
fn is_answered<R: Threads + Sync + AllocGlobal>(rt: &R, row: &Row) -> Result<bool, AllocError> {
    is_answer(rt, row.0, row.1, row.2, row.3)
}

#[test]
fn each_status_has_its_code(rt: HostRuntime) {
    let statuses = [
        (Status::Accepted, 0),
        (Status::Rejected, 1),
        (Status::Undecided, 2),
        (Status::Usage, 3),
        (Status::ReadFault, 4),
        (Status::ModelRefused, 5),
        (Status::PropertyRefused, 6),
        (Status::SettingsRefused, 7),
        (Status::TraceFault, 8),
        (Status::WriteFault, 9),
        (Status::OutOfMemory, 10),
    ];
    for (status, code) in statuses {
        assert_eq!(rt; status.code(), code);
    }
}
