//! Texts and settings at their limits, and one past them.

use super::models::STEP;
use super::*;
use std::alloc::{AllocError, Global};
use std::test::Fail;
use std::thread::Threads;

/// A text of like parts: what stands before them, the part, whose `#` is the part's number, how many there are, and what stands
/// after them.
type Parts = (&'static str, &'static str, u32, &'static str);

/// One success, and a plan of one trace.
const ONE: &str = "result: accepted\n\
    samples: 1\n\
    successes: 1\n\
    failures: 0\n\
    claim: at least\n\
    test: plan 1,0\n\
    limit: 1000000\n\
    seed: 1\n\
    longest run of true: 1\n\
    batches of 1000: 0 full, least 0, most 0\n";

/// The words of a run, the parts of the model, the exit status, and what is written.
type Limit = (&'static str, Parts, u8, &'static str);

/// Models with as many modules, variables, commands or branches as there may be, and with one more.
static MODELS: [Limit; 10] = [
    (
        "trace|--model=M|--steps=0",
        ("dtmc", " module m# endmodule", 64, ""),
        0,
        "state 0:\n\
        draws: 0\n",
    ),
    (
        "trace|--model=M|--steps=0",
        ("dtmc", " module m# endmodule", 65, ""),
        5,
        "refused 557: too large\n",
    ),
    (
        "trace|--model=M|--steps=0",
        ("dtmc module m", " x#:[0..1];", 257, " endmodule"),
        5,
        "refused 557: too large\n",
    ),
    (
        "trace|--model=M|--steps=0",
        ("dtmc module m", " [] false -> true;", 4096, " endmodule"),
        0,
        "state 0:\n\
        draws: 0\n",
    ),
    (
        "trace|--model=M|--steps=0",
        ("dtmc module m", " [] false -> true;", 4097, " endmodule"),
        5,
        "refused 557: too large\n",
    ),
    (
        "trace|--model=M|--steps=0",
        (
            "dtmc module m [] false -> 1:true",
            "+0:true",
            63,
            "; endmodule",
        ),
        0,
        "state 0:\n\
        draws: 0\n",
    ),
    (
        "trace|--model=M|--steps=0",
        (
            "dtmc module m [] false -> 1:true",
            "+0:true",
            64,
            "; endmodule",
        ),
        5,
        "refused 557: too large\n",
    ),
    (
        "check|--model=M|--property=P>=0.9 [ X true ]",
        (
            "dtmc",
            " module m# [a] true -> true; [a] true -> true; endmodule",
            49,
            "",
        ),
        8,
        "result: fault\n\
        trace: 0\n\
        step: 1\n\
        cause: too many choices\n\
        samples: 0\n\
        successes: 0\n\
        failures: 0\n\
        claim: at least\n\
        test: wald p0 91/100 p1 89/100 alpha 1/100 beta 1/100\n\
        limit: 1000000\n\
        seed: 1\n\
        longest run of true: 0\n\
        batches of 1000: 0 full, least 0, most 0\n",
    ),
    (
        "check|--model=M|--property=P>=0.9 [ X true ]|--plan=10,7",
        (
            "dtmc",
            " module m# [a] true -> true; [a] true -> true; endmodule",
            49,
            "",
        ),
        8,
        "result: fault\n\
        trace: 0\n\
        step: 1\n\
        cause: too many choices\n\
        samples: 0\n\
        successes: 0\n\
        failures: 0\n\
        claim: at least\n\
        test: plan 10,7\n\
        limit: 1000000\n\
        seed: 1\n\
        longest run of true: 0\n\
        batches of 1000: 0 full, least 0, most 0\n",
    ),
    (
        "trace|--model=M|--steps=0",
        ("dtmc formula f=", "a?b:", 1025, "c;"),
        5,
        "refused 521: too deep at 4112\n",
    ),
];

/// Models of the most bytes, of a byte more, and of one token too many.
static TEXTS: [Limit; 3] = [
    (
        "trace|--model=M|--steps=0",
        ("dtmc", ";", 262_144, ""),
        5,
        "refused 512: too many tokens\n",
    ),
    (CHECK, (STEP, " ", 1_048_514, ""), 0, SURE),
    (
        CHECK,
        (STEP, " ", 1_048_515, ""),
        5,
        "refused 500: model too long\n",
    ),
];

/// The text of these parts.
fn text(alloc: Global, parts: &Parts) -> Result<String, AllocError> {
    let mut text = String::from_str(alloc, parts.0)?;
    for number in 0..parts.2 {
        push_part(alloc, &mut text, parts.1, number)?;
    }
    text.push_str(parts.3)?;
    Ok(text)
}

/// Appends the part of this number.
fn push_part(alloc: Global, text: &mut String, part: &str, number: u32) -> Result<(), AllocError> {
    match part.split_once('#') {
        Some((before, after)) => {
            let whole = format!(in alloc; "{before}{number}{after}")?;
            text.push_str(whole.as_str())
        }
        None => text.push_str(part),
    }
}

/// Whether a run over the model of these parts answers as its row says.
fn is_limit<R: Threads + Sync + AllocGlobal>(rt: &R, row: &Limit) -> Result<bool, AllocError> {
    let model = text(rt.alloc(), &row.1)?;
    is_answer(rt, row.0, model.as_str(), row.2, row.3)
}

#[test]
fn a_model_is_read_up_to_its_greatest_numbers(rt: HostRuntime) -> Result<(), Fail> {
    for row in &MODELS {
        assert!(rt; is_limit(&rt, row)?, "{:?}", row.1);
    }
    Ok(())
}

#[test]
fn a_model_is_read_up_to_its_longest_text(rt: HostRuntime) -> Result<(), Fail> {
    for row in &TEXTS {
        assert!(rt; is_limit(&rt, row)?, "{:?}", row.1);
    }
    Ok(())
}

/// Lengths of a property's text, each with the exit status and what is written.
static PROPERTIES: [(u32, u8, &str); 2] = [
    (65_536, 0, ONE),
    (65_537, 6, "refused 600: property too long\n"),
];

#[test]
fn a_property_is_read_up_to_its_longest_text(rt: HostRuntime) -> Result<(), Fail> {
    for (length, status, written) in PROPERTIES {
        let blanks = text(rt.alloc(), &("", " ", length.saturating_sub(19), ""))?;
        let words = format!(in rt.alloc();
            "check|--model=M|--plan=1,0|--property=P>=1/2 [ F<=1 x=1 ]{blanks}"
        )?;
        assert!(rt;
            is_answer(&rt, words.as_str(), STEP, status, written)?,
            "{length}"
        );
    }
    Ok(())
}

#[test]
fn a_state_of_256_variables_is_written_whole(rt: HostRuntime) -> Result<(), Fail> {
    let model = text(
        rt.alloc(),
        &("dtmc module m", " x#:[0..1];", 256, " endmodule"),
    )?;
    let state = text(rt.alloc(), &("state 0:", " x#=0", 256, "\ndraws: 0\n"))?;
    assert!(rt;
        is_answer(
            &rt,
            "trace|--model=M|--steps=0",
            model.as_str(),
            0,
            state.as_str()
        )?
    );
    Ok(())
}

#[test]
fn a_trace_of_ten_thousand_steps_is_written_whole(rt: HostRuntime) -> Result<(), Fail> {
    let mut wanted = String::from_str(
        rt.alloc(),
        "state 0: x=0\nchoices 1: [] #0\ntook [] #0.0\n",
    )?;
    for step in 1..10_000 {
        push_part(
            rt.alloc(),
            &mut wanted,
            "state #: x=1\nchoices 0: stays\ntook nothing\n",
            step,
        )?;
    }
    wanted.push_str("state 10000: x=1\ndraws: 0\n")?;
    assert!(rt;
        is_answer(
            &rt,
            "trace|--model=M|--steps=10000",
            STEP,
            0,
            wanted.as_str()
        )?
    );
    Ok(())
}
