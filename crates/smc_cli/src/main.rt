//! The program: it hands its words, the host's files, standard output and the observers to the top call, and ends with the
//! answer's status.
#![tactic(auto)]

use smc_io::{HostFiles, HostOut};
use smc_top::{NoGate, Status, run};
use std::process::ExitCode;
use std::rt::{Env, Files};
use std::thread::{Builder, Threads};
use std::{env, io};
use stop_rules::{Batches, LongestRun, Observer};

/// How many bytes the thread's stack has. The trees of the deepest texts within the limits need a good part of it.
const STACK: usize = 256 << 20;

/// How many traces a batch has of which the report tells.
const BATCH: u64 = 1000;

fn main(rt: HostRuntime) -> ExitCode {
    let status = match Builder::new()
        .stack_size(STACK)
        .spawn(&rt, move || answer(&rt))
    {
        Ok(thread) => thread.join(&rt),
        Err(_) => Status::OutOfMemory,
    };
    ExitCode::from(status.code())
}

/// Does what the words ask.
fn answer<R: AllocGlobal + Env + Files + Print + Threads + Sync>(rt: &R) -> Status {
    match words(rt) {
        Ok(words) => run_words(rt, words.as_slice()),
        Err(error) => unread(error.kind()),
    }
}

/// Does what these words ask, with the observers of each run.
fn run_words<R: AllocGlobal + Files + Print + Threads + Sync>(rt: &R, words: &[String]) -> Status {
    let Ok(longest) = Box::new(rt.alloc(), LongestRun::new()) else {
        return Status::OutOfMemory;
    };
    let Ok(batches) = Box::new(rt.alloc(), Batches::new(BATCH)) else {
        return Status::OutOfMemory;
    };
    let Ok(watch) = Vec::from_array(rt.alloc(), [longest as Box<dyn Observer>, batches]) else {
        return Status::OutOfMemory;
    };
    let mut source = HostFiles::new(rt);
    let mut sink = HostOut::new(rt);
    run(
        rt,
        rt.alloc(),
        words,
        &mut source,
        &mut sink,
        &NoGate,
        watch,
    )
}

/// The words after the program's name.
fn words<R: Env + AllocGlobal>(rt: &R) -> io::Result<Vec<String>> {
    let mut words = Vec::new(rt.alloc());
    for word in env::args(rt)?.skip(1) {
        words.push(word)?;
    }
    Ok(words)
}

/// How the program ends where it can't have its words: memory ran out, or a word is no text.
fn unread(kind: io::ErrorKind) -> Status {
    match kind {
        io::ErrorKind::OutOfMemory => Status::OutOfMemory,
        _ => Status::Usage,
    }
}
