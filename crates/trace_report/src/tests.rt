//! Whole reports of traces. The draws of seed 1 are found by a program that knows nothing of this one.

use super::*;
use crate::fixtures::{Command, Guard, Set, Variable, chain};
use chain_model::Sort;
use std::alloc::Global;
use std::test::Fail;

const STAYS: Command = Command {
    module: 0,
    action: None,
    guard: Guard::True,
    first: Set::Nothing,
    second: None,
};

const GOES_ON: Command = Command {
    module: 0,
    action: None,
    guard: Guard::Is(0, 0),
    first: Set::Number(0, 1),
    second: None,
};

const GROWS: Command = Command {
    module: 0,
    action: None,
    guard: Guard::True,
    first: Set::OneMore(0),
    second: None,
};

const TELLS: Command = Command {
    module: 0,
    action: None,
    guard: Guard::True,
    first: Set::True(0),
    second: None,
};

const TOSSES: Command = Command {
    module: 0,
    action: None,
    guard: Guard::Is(0, 0),
    first: Set::Number(0, 0),
    second: Some(Set::Number(0, 2)),
};

const FAULTS: Command = Command {
    module: 0,
    action: None,
    guard: Guard::Faults,
    first: Set::Nothing,
    second: None,
};

const X_TO_0: Command = Command {
    module: 0,
    action: Some(0),
    guard: Guard::True,
    first: Set::Number(0, 0),
    second: None,
};

const X_TO_1: Command = Command {
    module: 0,
    action: Some(0),
    guard: Guard::True,
    first: Set::Number(0, 1),
    second: None,
};

const Y_TO_0: Command = Command {
    module: 1,
    action: Some(0),
    guard: Guard::True,
    first: Set::Number(1, 0),
    second: None,
};

const Y_TO_1: Command = Command {
    module: 1,
    action: Some(0),
    guard: Guard::True,
    first: Set::Number(1, 1),
    second: None,
};

const Z_TURNS: Command = Command {
    module: 2,
    action: None,
    guard: Guard::True,
    first: Set::Opposite(2),
    second: None,
};

/// A chain and how one of its traces is reported: its variables, how many modules it has, those of its action, its
/// commands and how many times they stand in it; the seed and the steps; how the trace ends, and the report.
struct Case {
    vars: &'static [Variable],
    modules: u32,
    takes: &'static [u32],
    commands: &'static [Command],
    times: u32,
    seed: u64,
    steps: u32,
    ended: Ended,
    report: &'static str,
}

static CASES: [Case; 11] = [
    // the state alone
    Case {
        vars: &[("x", 0, Sort::Int, 1)],
        modules: 1,
        takes: &[],
        commands: &[GOES_ON],
        times: 1,
        seed: 1,
        steps: 0,
        ended: Ended::Whole,
        report: "state 0: x=0\ndraws: 0\n",
    },
    // one choice takes no draw
    Case {
        vars: &[("x", 0, Sort::Int, 1)],
        modules: 1,
        takes: &[],
        commands: &[GOES_ON],
        times: 1,
        seed: 1,
        steps: 1,
        ended: Ended::Whole,
        report: "state 0: x=0\nchoices 1: [] #0\ntook [] #0.0\nstate 1: x=1\ndraws: 0\n",
    },
    // then there is none
    Case {
        vars: &[("x", 0, Sort::Int, 1)],
        modules: 1,
        takes: &[],
        commands: &[GOES_ON],
        times: 1,
        seed: 1,
        steps: 2,
        ended: Ended::Whole,
        report: "state 0: x=0\n\
            choices 1: [] #0\n\
            took [] #0.0\n\
            state 1: x=1\n\
            choices 0: stays\n\
            took nothing\n\
            state 2: x=1\n\
            draws: 0\n",
    },
    // no variable
    Case {
        vars: &[],
        modules: 1,
        takes: &[],
        commands: &[],
        times: 1,
        seed: 1,
        steps: 1,
        ended: Ended::Whole,
        report: "state 0:\nchoices 0: stays\ntook nothing\nstate 1:\ndraws: 0\n",
    },
    // commands that move together
    Case {
        vars: &[
            ("x", 0, Sort::Int, 1),
            ("y", 1, Sort::Int, 1),
            ("z", 2, Sort::Int, 1),
        ],
        modules: 3,
        takes: &[0, 1],
        commands: &[X_TO_0, X_TO_1, Y_TO_0, Y_TO_1, Z_TURNS],
        times: 1,
        seed: 1,
        steps: 6,
        ended: Ended::Whole,
        report: "state 0: x=0 y=0 z=0\n\
            choices 5: [] #4; [a] #0 #2; [a] #0 #3; [a] #1 #2; [a] #1 #3\n\
            took [a] #0.0 #2.0\n\
            state 1: x=0 y=0 z=0\n\
            choices 5: [] #4; [a] #0 #2; [a] #0 #3; [a] #1 #2; [a] #1 #3\n\
            took [a] #0.0 #2.0\n\
            state 2: x=0 y=0 z=0\n\
            choices 5: [] #4; [a] #0 #2; [a] #0 #3; [a] #1 #2; [a] #1 #3\n\
            took [a] #1.0 #2.0\n\
            state 3: x=1 y=0 z=0\n\
            choices 5: [] #4; [a] #0 #2; [a] #0 #3; [a] #1 #2; [a] #1 #3\n\
            took [a] #1.0 #3.0\n\
            state 4: x=1 y=1 z=0\n\
            choices 5: [] #4; [a] #0 #2; [a] #0 #3; [a] #1 #2; [a] #1 #3\n\
            took [a] #1.0 #3.0\n\
            state 5: x=1 y=1 z=0\n\
            choices 5: [] #4; [a] #0 #2; [a] #0 #3; [a] #1 #2; [a] #1 #3\n\
            took [] #4.0\n\
            state 6: x=1 y=1 z=1\n\
            draws: 6\n",
    },
    // another seed
    Case {
        vars: &[
            ("x", 0, Sort::Int, 1),
            ("y", 1, Sort::Int, 1),
            ("z", 2, Sort::Int, 1),
        ],
        modules: 3,
        takes: &[0, 1],
        commands: &[X_TO_0, X_TO_1, Y_TO_0, Y_TO_1, Z_TURNS],
        times: 1,
        seed: 0,
        steps: 1,
        ended: Ended::Whole,
        report: "state 0: x=0 y=0 z=0\n\
            choices 5: [] #4; [a] #0 #2; [a] #0 #3; [a] #1 #2; [a] #1 #3\n\
            took [a] #1.0 #3.0\n\
            state 1: x=1 y=1 z=0\n\
            draws: 1\n",
    },
    // truth values
    Case {
        vars: &[("b", 0, Sort::Bool, 1), ("n", 0, Sort::Int, 9)],
        modules: 1,
        takes: &[],
        commands: &[TELLS],
        times: 1,
        seed: 1,
        steps: 1,
        ended: Ended::Whole,
        report: "state 0: b=false n=0\nchoices 1: [] #0\ntook [] #0.0\nstate 1: b=true n=0\ndraws: 0\n",
    },
    // sixteen choices are listed
    Case {
        vars: &[],
        modules: 1,
        takes: &[],
        commands: &[STAYS],
        times: 17,
        seed: 1,
        steps: 1,
        ended: Ended::Whole,
        report: "state 0:\n\
            choices 17: [] #0; [] #1; [] #2; [] #3; [] #4; [] #5; [] #6; [] #7; \
            [] #8; [] #9; [] #10; [] #11; [] #12; [] #13; [] #14; [] #15; and 1 more\n\
            took [] #6.0\n\
            state 1:\n\
            draws: 1\n",
    },
    // a value outside its range
    Case {
        vars: &[("x", 0, Sort::Int, 3)],
        modules: 1,
        takes: &[],
        commands: &[GROWS],
        times: 1,
        seed: 1,
        steps: 10,
        ended: Ended::Fault,
        report: "state 0: x=0\n\
            choices 1: [] #0\n\
            took [] #0.0\n\
            state 1: x=1\n\
            choices 1: [] #0\n\
            took [] #0.0\n\
            state 2: x=2\n\
            choices 1: [] #0\n\
            took [] #0.0\n\
            state 3: x=3\n\
            choices 1: [] #0\n\
            fault at step 4: x outside its range\n\
            draws: 0\n",
    },
    // the draw of a step that faults is not taken
    Case {
        vars: &[("x", 0, Sort::Int, 1)],
        modules: 1,
        takes: &[],
        commands: &[TOSSES],
        times: 1,
        seed: 1,
        steps: 60,
        ended: Ended::Fault,
        report: "state 0: x=0\n\
            choices 1: [] #0\n\
            took [] #0.0\n\
            state 1: x=0\n\
            choices 1: [] #0\n\
            took [] #0.0\n\
            state 2: x=0\n\
            choices 1: [] #0\n\
            fault at step 3: x outside its range\n\
            draws: 2\n",
    },
    // a guard that faults
    Case {
        vars: &[("x", 0, Sort::Int, 1)],
        modules: 1,
        takes: &[],
        commands: &[FAULTS],
        times: 1,
        seed: 1,
        steps: 5,
        ended: Ended::Fault,
        report: "state 0: x=0\nfault at step 1: zero divisor\ndraws: 0\n",
    },
];

/// The report of a case, and how its trace ends; nothing where its parts make no chain.
fn told(alloc: Global, case: &Case) -> Result<Option<(Vec<u8>, Ended)>, Fail> {
    let made = chain(
        alloc,
        case.vars,
        case.modules,
        case.takes,
        case.commands,
        case.times,
    )?;
    let Some(chain) = made else {
        return Ok(None);
    };
    let told = trace_report(alloc, &chain, case.seed, 0, case.steps)?;
    Ok(Some(told))
}

#[test]
fn a_trace_is_told_state_by_state_up_to_its_first_fault(rt: HostRuntime) -> Result<(), Fail> {
    for case in CASES.iter() {
        let (text, ended) = told(rt.alloc(), case)?.ok_or("no chain")?;
        let want = case.report;
        assert!(rt; text.as_slice() == want.as_bytes(), "{want}");
        assert!(rt; ended == case.ended, "{want}");
    }
    Ok(())
}
