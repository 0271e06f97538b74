//! Runs that a sampling plan or the limit ends, each with its status and all that it writes. The values are those of an
//! independent simulation.

use super::models::{COIN, STAY, STEP};
use super::*;
use std::test::Fail;

/// Eight successes, and a plan of 10 traces that accepts 8.
const EIGHT: &str = "result: accepted\n\
    samples: 8\n\
    successes: 8\n\
    failures: 0\n\
    claim: at least\n\
    test: plan 10,7\n\
    limit: 1000000\n\
    seed: 1\n\
    longest run of true: 8\n\
    batches of 1000: 0 full, least 0, most 0\n";

/// One success, and a plan of one trace.
const ONE: &str = "result: accepted\n\
    samples: 1\n\
    successes: 1\n\
    failures: 0\n\
    claim: at least\n\
    test: plan 1,0\n\
    limit: 1000000\n\
    seed: 1\n\
    longest run of true: 1\n\
    batches of 1000: 0 full, least 0, most 0\n";

/// Runs that a sampling plan or the limit ends.
static PLANS: [Row; 12] = [
    (
        "check|--model=M|--property=P>=1/2 [ F<=1 x=1 ]|--plan=10,7",
        STEP,
        0,
        EIGHT,
    ),
    (
        "check|--model=M|--property=P>=1/2 [ F<=1 x=1 ]|--plan|10,7",
        STEP,
        0,
        EIGHT,
    ),
    (
        "check|--model=M|--property=P>=0.9 [ G<=5 true ]|--plan=10,7",
        STAY,
        0,
        EIGHT,
    ),
    (
        "check|--model=M|--property=P>=1/2 [ \"init\" U<=1 \"deadlock\" ]|--plan=10,7",
        STEP,
        0,
        EIGHT,
    ),
    (
        "check|--model=M|--property=P>=1/2 [ F<=1 x=1 ]|--plan=10,7|--const=N=1",
        "dtmc const int N; const double h=1/2; module m x:[0..N]; [] x=0 -> h:(x'=N)+1-h:(x'=1); endmodule",
        0,
        EIGHT,
    ),
    (
        "check|--model=M|--property=P>=1/2 [ F<=0 x=1 ]|--plan=10,7",
        STEP,
        1,
        "result: rejected\n\
        samples: 3\n\
        successes: 0\n\
        failures: 3\n\
        claim: at least\n\
        test: plan 10,7\n\
        limit: 1000000\n\
        seed: 1\n\
        longest run of true: 0\n\
        batches of 1000: 0 full, least 0, most 0\n",
    ),
    (
        "check|--model=M|--property=P<=1/2 [ F<=0 x=1 ]|--plan=10,7",
        STEP,
        0,
        "result: accepted\n\
        samples: 8\n\
        successes: 8\n\
        failures: 0\n\
        claim: at most\n\
        test: plan 10,7\n\
        limit: 1000000\n\
        seed: 1\n\
        longest run of true: 8\n\
        batches of 1000: 0 full, least 0, most 0\n",
    ),
    (
        "check|--model=M|--property=P>=1/2 [ F<=1 x=1 ]|--plan=10,7|--limit=5",
        STEP,
        2,
        "result: undecided (limit)\n\
        samples: 5\n\
        successes: 5\n\
        failures: 0\n\
        claim: at least\n\
        test: plan 10,7\n\
        limit: 5\n\
        seed: 1\n\
        longest run of true: 5\n\
        batches of 1000: 0 full, least 0, most 0\n",
    ),
    (
        "check|--model=M|--property=P>=1/2 [ F<=1 x=1 ]|--plan=10,4",
        COIN,
        0,
        "result: accepted\n\
        samples: 6\n\
        successes: 5\n\
        failures: 1\n\
        claim: at least\n\
        test: plan 10,4\n\
        limit: 1000000\n\
        seed: 1\n\
        longest run of true: 3\n\
        batches of 1000: 0 full, least 0, most 0\n",
    ),
    (
        "check|--model=M|--property=P>=1/2 [ F<=1000000 x=1 ]|--plan=1,0",
        STEP,
        0,
        ONE,
    ),
    (
        "check|--model=M|--property=P>=1/2 [ F<=1 x=1 ]|--plan=1,0|--limit=268435456",
        STEP,
        0,
        "result: accepted\n\
        samples: 1\n\
        successes: 1\n\
        failures: 0\n\
        claim: at least\n\
        test: plan 1,0\n\
        limit: 268435456\n\
        seed: 1\n\
        longest run of true: 1\n\
        batches of 1000: 0 full, least 0, most 0\n",
    ),
    (
        "check|--model=M|--property=P>=1/2 [ F<=1 x=1 ]|--plan=1,0|--workers=64",
        STEP,
        0,
        ONE,
    ),
];

#[test]
fn a_run_of_a_plan_is_reported_whole(rt: HostRuntime) -> Result<(), Fail> {
    for row in &PLANS {
        assert!(rt; is_answered(&rt, row)?, "{row:?}");
    }
    Ok(())
}
