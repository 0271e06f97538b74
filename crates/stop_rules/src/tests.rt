ghost use Rattle.std.specs.Prelude.{IsTrue};
ghost use Rattle.stop_rules.specs.Codes.{IsCode};

use super::*;
use chain_model::Job;
use sampling_plan::Plan;
use smc_num::Frac;
use std::alloc::Global;
use std::cell::Cell;
use std::process::Abort;
use std::rc::Rc;
use std::test::Fail;
use wald_test::Wald;

/// Whether a number is a code of a block of so many traces.
fn is_code(code: u64, count: u32) -> bool
    ensures { IsTrue result → IsCode code count }
{
    count >= 1 && count <= 32 && code >> 63 == 1 && (code >> 32) % 64 <= u64::from(count)
}

/// Feeds codes to a tally, each with its number of traces, up to the end of the run.
fn fed(rt: &impl Abort, goal: &Goal, tally: &mut Tally, codes: &[(u64, u32)]) -> Option<End> {
    for (code, count) in codes {
        let (d, f) = tally.counts();
        assert!(rt; is_code(*code, *count));
        assert!(rt; d < 1_000_000 && f < 1_000_000 && d + f + u64::from(*count) <= goal.limit);
        if let Some(end) = tally.feed_code(goal, *code, *count) {
            return Some(end);
        }
    }
    None
}

fn end(cause: Cause, d: u64, f: u64) -> Option<End> {
    Some(End { cause, d, f })
}

const TRUE: (u64, u32) = (0x8000_0001_0000_0001, 1);

const FALSE: (u64, u32) = (0x8000_0001_0000_0000, 1);

const FAULT: (u64, u32) = (0x8000_0000_0000_0000, 1);

const THREE_TRUE: (u64, u32) = (0x8000_0003_0000_0007, 3);

const TRUE_FALSE_FAULT: (u64, u32) = (0x8000_0002_0000_0001, 3);

const ALL_TRUE: (u64, u32) = (0x8000_0020_ffff_ffff, 32);

const ALL_FALSE: (u64, u32) = (0x8000_0020_0000_0000, 32);

const IN_TURN: (u64, u32) = (0x8000_0020_5555_5555, 32);

const LAST_FAULTS: (u64, u32) = (0x8000_001f_7fff_ffff, 32);

/// The end and the counts of a run from these counts, fed by codes.
fn run_from(
    rt: &impl Abort,
    goal: &Goal,
    from: (u64, u64),
    codes: &[(u64, u32)],
) -> (Option<End>, (u64, u64)) {
    let mut tally = Tally::new(from.0, from.1);
    let end = fed(rt, goal, &mut tally, codes);
    (end, tally.counts())
}

#[test]
fn a_run_by_a_plan_ends_with_the_trace_that_decides(rt: HostRuntime) -> Result<(), Fail> {
    let goal = Goal {
        rule: Rule::Plan(Plan::new(10, 7)?),
        limit: 1_000_000,
        flip: false,
    };
    let cases = [
        ([TRUE; 7].as_slice(), None, (7, 0)),
        ([TRUE; 8].as_slice(), end(Cause::Accept, 8, 0), (8, 0)),
        ([THREE_TRUE; 3].as_slice(), end(Cause::Accept, 8, 0), (8, 0)),
        ([ALL_TRUE].as_slice(), end(Cause::Accept, 8, 0), (8, 0)),
        ([ALL_FALSE].as_slice(), end(Cause::Reject, 0, 3), (0, 3)),
        ([IN_TURN].as_slice(), end(Cause::Reject, 3, 3), (3, 3)),
        (
            [TRUE, FALSE, FAULT].as_slice(),
            end(Cause::Fault, 1, 1),
            (1, 1),
        ),
        (
            [TRUE_FALSE_FAULT].as_slice(),
            end(Cause::Fault, 1, 1),
            (1, 1),
        ),
        ([FAULT].as_slice(), end(Cause::Fault, 0, 0), (0, 0)),
        ([LAST_FAULTS].as_slice(), end(Cause::Accept, 8, 0), (8, 0)),
    ];
    for (codes, end, counts) in cases {
        assert_eq!(rt; run_from(&rt, &goal, (0, 0), codes), (end, counts));
    }
    let late = run_from(&rt, &goal, (5, 0), &[THREE_TRUE]);
    assert_eq!(rt;
        late,
        (end(Cause::Accept, 8, 0), (8, 0)),
        "from five successes"
    );
    Ok(())
}

#[test]
fn a_run_ends_at_the_limit_and_a_flip_turns_truth(rt: HostRuntime) -> Result<(), Fail> {
    let rule = Rule::Plan(Plan::new(10, 7)?);
    let short = Goal {
        rule,
        limit: 5,
        flip: false,
    };
    let turned = Goal {
        rule,
        limit: 40,
        flip: true,
    };
    let cases = [
        (&short, [TRUE; 4].as_slice(), None, (4, 0)),
        (
            &short,
            [TRUE; 5].as_slice(),
            end(Cause::Limit, 5, 0),
            (5, 0),
        ),
        (
            &short,
            [TRUE, TRUE, FALSE, FALSE, FALSE].as_slice(),
            end(Cause::Reject, 2, 3),
            (2, 3),
        ),
        (
            &short,
            [THREE_TRUE, TRUE, FAULT].as_slice(),
            end(Cause::Fault, 4, 0),
            (4, 0),
        ),
        (
            &turned,
            [ALL_FALSE].as_slice(),
            end(Cause::Accept, 8, 0),
            (8, 0),
        ),
        (
            &turned,
            [ALL_TRUE].as_slice(),
            end(Cause::Reject, 0, 3),
            (0, 3),
        ),
        (
            &turned,
            [FALSE, TRUE, FAULT].as_slice(),
            end(Cause::Fault, 1, 1),
            (1, 1),
        ),
    ];
    for (goal, codes, end, counts) in cases {
        assert_eq!(rt; run_from(&rt, goal, (0, 0), codes), (end, counts));
    }
    Ok(())
}

// theta is 1/2, delta 1/10, alpha and beta 1/20: the run ends where the odds 3/2 to the power d - f
// are above 19 or below 1/19, which is at a difference of 8.
#[test]
fn a_run_by_the_sequential_test_ends_where_a_boundary_is_crossed(
    rt: HostRuntime,
) -> Result<(), Fail> {
    let error = Frac::new(1, 20)?;
    let wald = Wald::new(Frac::new(1, 2)?, Frac::new(1, 10)?, error, error)?;
    let goal = Goal {
        rule: Rule::Wald(wald),
        limit: 268_435_456,
        flip: false,
    };
    let cases = [
        ([TRUE; 7].as_slice(), None, (7, 0)),
        ([ALL_TRUE].as_slice(), end(Cause::Accept, 8, 0), (8, 0)),
        ([ALL_FALSE].as_slice(), end(Cause::Reject, 0, 8), (0, 8)),
        (
            [IN_TURN, ALL_TRUE].as_slice(),
            end(Cause::Accept, 24, 16),
            (24, 16),
        ),
        (
            [IN_TURN, FALSE, ALL_TRUE].as_slice(),
            end(Cause::Accept, 25, 17),
            (25, 17),
        ),
    ];
    for (codes, end, counts) in cases {
        assert_eq!(rt; run_from(&rt, &goal, (0, 0), codes), (end, counts));
    }
    Ok(())
}

/// A recorder that counts how often it was dropped.
struct Counting {
    recorder: Recorder,
    drops: Rc<Cell<u32>>,
}

impl Drop for Counting {
    fn drop(self) {
        let Counting {
            recorder: _recorder,
            drops,
        } = self;
        drops.set(drops.get().saturating_add(1));
    }
}

impl Observer for Counting {
    ghost observation = { λ o. ⟦<Recorder as Observer>⟧.observation o.recorder };

    fn feed(&mut self, bit: bool) -> Stay {
        self.recorder.feed(bit)
    }

    fn line(&self, out: &mut Line) {
        self.recorder.line(out);
    }
}

#[test]
fn observers_see_what_was_admitted_and_one_that_leaves_is_dropped_at_once(
    rt: HostRuntime,
) -> Result<(), Fail> {
    let alloc = rt.alloc();
    let drops = Rc::new(alloc, Cell::new(0))?;
    let mut watch: Vec<Box<dyn Observer>> = Vec::new(alloc);
    watch.push(Box::new(alloc, LongestRun::new())?)?;
    watch.push(Box::new(
        alloc,
        Counting {
            recorder: Recorder::new(3),
            drops: drops.clone()?,
        },
    )?)?;
    watch.push(Box::new(alloc, Batches::new(4))?)?;
    let goal = Goal {
        rule: Rule::Plan(Plan::new(10, 7)?),
        limit: 1_000_000,
        flip: false,
    };
    let mut admit = Admit::new(alloc, goal, watch)?;
    assert_eq!(rt; admit.feed_code(0x8000_0002_0000_0003, 2), None);
    assert_eq!(rt; drops.get(), 0);
    let (d, f) = admit.tally();
    assert!(rt; d < 1000 && f < 1000);
    assert_eq!(rt; admit.feed_code(ALL_TRUE.0, 32), end(Cause::Accept, 8, 0));
    assert_eq!(rt; drops.get(), 1, "it left within the block");
    assert_eq!(rt; admit.tally(), (8, 0));
    let lines = admit.finish();
    assert_eq!(rt; lines.len(), 3);
    assert_eq!(rt; lines[0].bytes(), b"longest run of true: 8".as_slice());
    assert_eq!(rt; lines[1].bytes(), b"first 3: 111".as_slice());
    assert_eq!(rt;
        lines[2].bytes(),
        b"batches of 4: 2 full, least 4, most 4".as_slice()
    );
    assert_eq!(rt; drops.get(), 1);
    Ok(())
}

#[test]
fn observers_say_what_they_saw(rt: HostRuntime) {
    let mut longest = LongestRun::new();
    let mut pairs = Batches::new(2);
    let mut thousands = Batches::new(1000);
    for bit in [true, true, false, true, true, true, false, false, true] {
        assert_eq!(rt; longest.feed(bit), Stay::Keep);
        assert_eq!(rt; pairs.feed(bit), Stay::Keep);
        assert_eq!(rt; thousands.feed(bit), Stay::Keep);
    }
    let mut line = Line::new();
    longest.line(&mut line);
    assert_eq!(rt; line.bytes(), b"longest run of true: 3".as_slice());
    pairs.line(&mut line);
    assert_eq!(rt;
        line.bytes(),
        b"batches of 2: 4 full, least 0, most 2".as_slice()
    );
    thousands.line(&mut line);
    assert_eq!(rt;
        line.bytes(),
        b"batches of 1000: 0 full, least 0, most 0".as_slice()
    );
}

#[test]
fn a_recorder_leaves_with_the_last_bit_that_it_wants(rt: HostRuntime) {
    let mut recorder = Recorder::new(2);
    let mut line = Line::new();
    recorder.line(&mut line);
    assert_eq!(rt; line.bytes(), b"first 0:".as_slice());
    assert_eq!(rt; recorder.feed(false), Stay::Keep);
    recorder.line(&mut line);
    assert_eq!(rt; line.bytes(), b"first 1: 0".as_slice());
    assert_eq!(rt; recorder.feed(true), Stay::Leave);
    recorder.line(&mut line);
    assert_eq!(rt; line.bytes(), b"first 2: 01".as_slice());
}

#[test]
fn laws_cost_nothing(_rt: HostRuntime) {
    one_end_of::<Job>();
    one_run_of::<Job>();
    block_law_of::<Job>();
    one_end();
    one_run();
    block_law();
    code_law();
    seat_law();
    one_observation();
}
