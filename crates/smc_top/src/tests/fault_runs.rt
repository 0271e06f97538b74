//! Runs that a fault of a trace ends, each with its status and all that it writes. The values are those of an independent
//! simulation.

use super::models::{COUNTER, LEAVING};
use super::*;
use std::test::Fail;

/// The fourth step of the first trace leaves the range.
const PAST: &str = "result: fault\n\
    trace: 0\n\
    step: 4\n\
    cause: x outside its range\n\
    samples: 0\n\
    successes: 0\n\
    failures: 0\n\
    claim: at least\n\
    test: wald p0 91/100 p1 89/100 alpha 1/100 beta 1/100\n\
    limit: 1000000\n\
    seed: 1\n\
    longest run of true: 0\n\
    batches of 1000: 0 full, least 0, most 0\n";

/// The third step of the first trace leaves the range.
const LEFT: &str = "result: fault\n\
    trace: 0\n\
    step: 3\n\
    cause: x outside its range\n\
    samples: 0\n\
    successes: 0\n\
    failures: 0\n\
    claim: at least\n\
    test: wald p0 91/100 p1 89/100 alpha 1/100 beta 1/100\n\
    limit: 1000000\n\
    seed: 1\n\
    longest run of true: 0\n\
    batches of 1000: 0 full, least 0, most 0\n";

/// Runs that a fault of a trace ends.
static FAULTS: [Row; 12] = [
    (
        CHECK,
        "dtmc module m x:[0..1] init 0; [] 1/x>0 -> 1/1:(x'=1); endmodule",
        8,
        "result: fault\n\
        trace: 0\n\
        step: 1\n\
        cause: zero divisor\n\
        samples: 0\n\
        successes: 0\n\
        failures: 0\n\
        claim: at least\n\
        test: wald p0 91/100 p1 89/100 alpha 1/100 beta 1/100\n\
        limit: 1000000\n\
        seed: 1\n\
        longest run of true: 0\n\
        batches of 1000: 0 full, least 0, most 0\n",
    ),
    (
        CHECK,
        "dtmc module m x:[0..1] init 0; [] pow(2,62)>x -> 1/1:(x'=1); endmodule",
        8,
        "result: fault\n\
        trace: 0\n\
        step: 1\n\
        cause: number out of limit\n\
        samples: 0\n\
        successes: 0\n\
        failures: 0\n\
        claim: at least\n\
        test: wald p0 91/100 p1 89/100 alpha 1/100 beta 1/100\n\
        limit: 1000000\n\
        seed: 1\n\
        longest run of true: 0\n\
        batches of 1000: 0 full, least 0, most 0\n",
    ),
    (
        CHECK,
        "dtmc module m x:[0..1] init 0; [] mod(x,-1)=0 -> 1/1:(x'=1); endmodule",
        8,
        "result: fault\n\
        trace: 0\n\
        step: 1\n\
        cause: outside the domain\n\
        samples: 0\n\
        successes: 0\n\
        failures: 0\n\
        claim: at least\n\
        test: wald p0 91/100 p1 89/100 alpha 1/100 beta 1/100\n\
        limit: 1000000\n\
        seed: 1\n\
        longest run of true: 0\n\
        batches of 1000: 0 full, least 0, most 0\n",
    ),
    (
        CHECK,
        "dtmc module m x:[0..1] init 0; [] x=0 -> 1/281474976710657:(x'=1)+281474976710656/281474976710657:(x'=1); endmodule",
        8,
        "result: fault\n\
        trace: 0\n\
        step: 1\n\
        cause: denominator of command 0\n\
        samples: 0\n\
        successes: 0\n\
        failures: 0\n\
        claim: at least\n\
        test: wald p0 91/100 p1 89/100 alpha 1/100 beta 1/100\n\
        limit: 1000000\n\
        seed: 1\n\
        longest run of true: 0\n\
        batches of 1000: 0 full, least 0, most 0\n",
    ),
    (
        CHECK,
        "dtmc module m x:[0..1]; [] x=0 -> 0.3333:(x'=1)+0.3333:(x'=1)+0.3333:(x'=1); endmodule",
        8,
        "result: fault\n\
        trace: 0\n\
        step: 1\n\
        cause: weights of command 0\n\
        samples: 0\n\
        successes: 0\n\
        failures: 0\n\
        claim: at least\n\
        test: wald p0 91/100 p1 89/100 alpha 1/100 beta 1/100\n\
        limit: 1000000\n\
        seed: 1\n\
        longest run of true: 0\n\
        batches of 1000: 0 full, least 0, most 0\n",
    ),
    (
        "check|--model=M|--property=P>=9/10 [ F<=10 x=5 ]|--plan=10,7",
        COUNTER,
        8,
        "result: fault\n\
        trace: 0\n\
        step: 4\n\
        cause: x outside its range\n\
        samples: 0\n\
        successes: 0\n\
        failures: 0\n\
        claim: at least\n\
        test: plan 10,7\n\
        limit: 1000000\n\
        seed: 1\n\
        longest run of true: 0\n\
        batches of 1000: 0 full, least 0, most 0\n",
    ),
    (
        "check|--model=M|--property=P>=0.9 [ F<=10 x=5 ]|--workers=1",
        COUNTER,
        8,
        PAST,
    ),
    (
        "check|--model=M|--property=P>=0.9 [ F<=10 x=5 ]|--workers=64",
        COUNTER,
        8,
        PAST,
    ),
    (
        "check|--model=M|--property=P>=0.9 [ F<=60 x=1 ]|--workers=1",
        LEAVING,
        8,
        LEFT,
    ),
    (
        "check|--model=M|--property=P>=0.9 [ F<=60 x=1 ]|--workers=2",
        LEAVING,
        8,
        LEFT,
    ),
    (
        "check|--model=M|--property=P>=0.9 [ F<=60 x=1 ]|--workers=64",
        LEAVING,
        8,
        LEFT,
    ),
    (
        "check|--model=M|--property=P>=1/2 [ F<=1 x=1 ]|--plan=10,7",
        "dtmc module m x:[0..3]; [] x=0 -> 1/2:(x'=1)+1/2:(x'=4); endmodule",
        8,
        "result: fault\n\
        trace: 3\n\
        step: 1\n\
        cause: x outside its range\n\
        samples: 3\n\
        successes: 3\n\
        failures: 0\n\
        claim: at least\n\
        test: plan 10,7\n\
        limit: 1000000\n\
        seed: 1\n\
        longest run of true: 3\n\
        batches of 1000: 0 full, least 0, most 0\n",
    ),
];

#[test]
fn a_run_that_a_fault_ends_is_reported_whole(rt: HostRuntime) -> Result<(), Fail> {
    for row in &FAULTS {
        assert!(rt; is_answered(&rt, row)?, "{row:?}");
    }
    Ok(())
}
