//! Sources and sinks that fail, and those that never do.

use super::models::STEP;
use super::*;
use smc_io::{MemFiles, MemSink, SureFiles, SureSink};
use std::alloc::AllocError;
use std::test::Fail;
use std::thread::Threads;

/// A run with these words where a call of the source fails, and one of the sink, whose room is bounded and which takes so many
/// bytes in a call; calls are counted from 1. Then the exit status, and what is written.
struct Case {
    words: &'static str,
    fails_source: u64,
    room: u64,
    most: u64,
    fails_sink: u64,
    status: u8,
    written: &'static str,
}

static CASES: [Case; 19] = [
    Case {
        words: CHECK,
        fails_source: 0,
        room: 4096,
        most: 4096,
        fails_sink: 0,
        status: 0,
        written: SURE,
    },
    Case {
        words: CHECK,
        fails_source: 1,
        room: 4096,
        most: 4096,
        fails_sink: 0,
        status: 4,
        written: "refused 400: read fault\n",
    },
    Case {
        words: CHECK,
        fails_source: 2,
        room: 4096,
        most: 4096,
        fails_sink: 0,
        status: 4,
        written: "refused 400: read fault\n",
    },
    Case {
        words: CHECK,
        fails_source: 3,
        room: 4096,
        most: 4096,
        fails_sink: 0,
        status: 4,
        written: "refused 400: read fault\n",
    },
    Case {
        words: CHECK,
        fails_source: 4,
        room: 4096,
        most: 4096,
        fails_sink: 0,
        status: 0,
        written: SURE,
    },
    Case {
        words: "check|--model=N|--property=P>=0.9 [ F<=1 x=1 ]",
        fails_source: 0,
        room: 4096,
        most: 4096,
        fails_sink: 0,
        status: 4,
        written: "refused 400: read fault\n",
    },
    Case {
        words: "trace|--model=N",
        fails_source: 0,
        room: 4096,
        most: 4096,
        fails_sink: 0,
        status: 4,
        written: "refused 400: read fault\n",
    },
    Case {
        words: "trace|--model=M",
        fails_source: 2,
        room: 4096,
        most: 4096,
        fails_sink: 0,
        status: 4,
        written: "refused 400: read fault\n",
    },
    Case {
        words: "help",
        fails_source: 1,
        room: 4096,
        most: 4096,
        fails_sink: 0,
        status: 0,
        written: "commands: check trace expand make help\n",
    },
    Case {
        words: "check|--model=M",
        fails_source: 1,
        room: 4096,
        most: 4096,
        fails_sink: 0,
        status: 3,
        written: "refused 300: usage\n",
    },
    Case {
        words: CHECK,
        fails_source: 0,
        room: 4096,
        most: 10,
        fails_sink: 2,
        status: 9,
        written: "result: ac",
    },
    Case {
        words: CHECK,
        fails_source: 0,
        room: 4096,
        most: 1,
        fails_sink: 0,
        status: 0,
        written: SURE,
    },
    Case {
        words: CHECK,
        fails_source: 0,
        room: 0,
        most: 4096,
        fails_sink: 0,
        status: 9,
        written: "",
    },
    Case {
        words: CHECK,
        fails_source: 0,
        room: 24,
        most: 4096,
        fails_sink: 0,
        status: 9,
        written: "result: accepted\nsamples",
    },
    Case {
        words: CHECK,
        fails_source: 2,
        room: 4096,
        most: 10,
        fails_sink: 2,
        status: 9,
        written: "refused 40",
    },
    Case {
        words: CHECK,
        fails_source: 2,
        room: 23,
        most: 4096,
        fails_sink: 0,
        status: 9,
        written: "refused 400: read fault",
    },
    Case {
        words: CHECK,
        fails_source: 2,
        room: 24,
        most: 4096,
        fails_sink: 0,
        status: 4,
        written: "refused 400: read fault\n",
    },
    Case {
        words: "help",
        fails_source: 0,
        room: 4096,
        most: 5,
        fails_sink: 2,
        status: 9,
        written: "comma",
    },
    Case {
        words: "check|--model=M",
        fails_source: 0,
        room: 4096,
        most: 5,
        fails_sink: 4,
        status: 9,
        written: "refused 300: us",
    },
];

/// Whether a run ends with the status of its row, and writes what it says.
fn is_case<R: Threads + Sync + AllocGlobal>(rt: &R, case: &Case) -> Result<bool, AllocError> {
    let alloc = rt.alloc();
    if case.most == 0 {
        return Ok(false);
    }
    let fails_source = Vec::from_slice(alloc, &[case.fails_source])?;
    let mut source = MemFiles::new(file(alloc, STEP)?, fails_source);
    let fails_sink = Vec::from_slice(alloc, &[case.fails_sink])?;
    let mut sink = MemSink::new(alloc, case.room, case.most, fails_sink)?;
    let status = ends(rt, case.words, &mut source, &mut sink)?;
    Ok(status == case.status && sink.bytes() == case.written.as_bytes())
}

#[test]
fn a_source_or_a_sink_that_fails_ends_the_run(rt: HostRuntime) -> Result<(), Fail> {
    for case in &CASES {
        assert!(rt;
            is_case(&rt, case)?,
            "{} {} {}",
            case.words,
            case.fails_source,
            case.fails_sink
        );
    }
    Ok(())
}

/// Whether a run whose sink takes ten bytes in a call and fails this call writes what the calls before it take.
fn is_cut<R: Threads + Sync + AllocGlobal>(rt: &R, call: u32) -> Result<bool, AllocError> {
    let alloc = rt.alloc();
    let mut source = MemFiles::new(file(alloc, STEP)?, Vec::new(alloc));
    let fails = Vec::from_slice(alloc, &[u64::from(call)])?;
    let mut sink = MemSink::new(alloc, 4096, 10, fails)?;
    let status = ends(rt, CHECK, &mut source, &mut sink)?;
    let taken = u64::from(call).saturating_sub(1).saturating_mul(10) as usize;
    let whole = taken >= SURE.len();
    let written = &SURE.as_bytes()[..taken.min(SURE.len())];
    Ok(sink.bytes() == written && status == if whole { 0 } else { 9 })
}

#[test]
fn each_call_of_a_sink_fails_in_turn(rt: HostRuntime) -> Result<(), Fail> {
    for call in 1..30 {
        assert!(rt; is_cut(&rt, call)?, "call {call}");
    }
    Ok(())
}

/// All settings at their greatest, over a chain whose traces end at once.
const GREATEST: &str =
    "check|--model=M|--property=P>=1/2 [ F<=1 x=1 ]|--plan=1,0|--workers=64|--limit=268435456|--seed=18446744073709551615";

/// The report of that run.
const GREAT: &str = "result: accepted\n\
    samples: 1\n\
    successes: 1\n\
    failures: 0\n\
    claim: at least\n\
    test: plan 1,0\n\
    limit: 268435456\n\
    seed: 18446744073709551615\n\
    longest run of true: 1\n\
    batches of 1000: 0 full, least 0, most 0\n";

#[test]
fn the_greatest_settings_succeed_where_nothing_fails(rt: HostRuntime) -> Result<(), Fail> {
    let alloc = rt.alloc();
    let mut source = SureFiles::new(file(alloc, STEP)?);
    let mut sink = MemSink::new(alloc, 4096, 4096, Vec::new(alloc))?;
    assert_eq!(rt; ends(&rt, GREATEST, &mut source, &mut sink)?, 0);
    assert_eq!(rt; sink.bytes(), GREAT.as_bytes());
    let mut source = SureFiles::new(file(alloc, STEP)?);
    let mut sink = SureSink::new();
    assert_eq!(rt; ends(&rt, GREATEST, &mut source, &mut sink)?, 0);
    assert_eq!(rt; sink.taken(), GREAT.len() as u64);
    Ok(())
}

#[test]
fn an_absent_file_is_an_empty_one_where_no_call_fails(rt: HostRuntime) -> Result<(), Fail> {
    let alloc = rt.alloc();
    let mut source = SureFiles::new(Vec::new(alloc));
    let mut sink = MemSink::new(alloc, 4096, 4096, Vec::new(alloc))?;
    assert_eq!(rt; ends(&rt, CHECK, &mut source, &mut sink)?, 5);
    assert_eq!(rt;
        sink.bytes(),
        b"refused 522: not in the grammar at 0\n".as_slice()
    );
    Ok(())
}
