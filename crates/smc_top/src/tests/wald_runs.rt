//! Runs that Wald's test or the limit ends, each with its status and all that it writes. The values are those of an
//! independent simulation.

use super::models::{DIE, STAY, STEP};
use super::*;
use std::test::Fail;

/// The die that shows a six.
const SIXES: &str = "result: accepted\n\
    samples: 301\n\
    successes: 51\n\
    failures: 250\n\
    claim: at least\n\
    test: wald p0 11/100 p1 9/100 alpha 1/100 beta 1/100\n\
    limit: 1000000\n\
    seed: 1\n\
    longest run of true: 3\n\
    batches of 1000: 0 full, least 0, most 0\n";

/// Runs that Wald's test or the limit ends.
static WALD: [Row; 19] = [
    (CHECK, STEP, 0, SURE),
    (
        "check|--model=M|--property=P>=0.9 [ G<=5 true ]",
        STAY,
        0,
        SURE,
    ),
    (
        "check|--model=M|--property=P>=0.9 [ F<=0 x=0 ]",
        STEP,
        0,
        SURE,
    ),
    ("check|--model=M|--property=P>=0.9 [ X x=1 ]", STEP, 0, SURE),
    (
        CHECK,
        "dtmc module m x:[0..1]; [] x=0 -> 1/3:(x'=1)+1/3:(x'=1)+1/3:(x'=1); endmodule",
        0,
        SURE,
    ),
    (
        "check|--model=M|--property=P>=0.9 [ F<=0 x=1 ]",
        STEP,
        1,
        "result: rejected\n\
        samples: 23\n\
        successes: 0\n\
        failures: 23\n\
        claim: at least\n\
        test: wald p0 91/100 p1 89/100 alpha 1/100 beta 1/100\n\
        limit: 1000000\n\
        seed: 1\n\
        longest run of true: 0\n\
        batches of 1000: 0 full, least 0, most 0\n",
    ),
    (
        "check|--model=M|--property=P<=0.1 [ F<=0 x=1 ]",
        STEP,
        0,
        "result: accepted\n\
        samples: 207\n\
        successes: 207\n\
        failures: 0\n\
        claim: at most\n\
        test: wald p0 91/100 p1 89/100 alpha 1/100 beta 1/100\n\
        limit: 1000000\n\
        seed: 1\n\
        longest run of true: 207\n\
        batches of 1000: 0 full, least 0, most 0\n",
    ),
    (
        "check|--model=M|--property=P>=0.9 [ F<=1 x=1 ]|--limit=206",
        STEP,
        2,
        "result: undecided (limit)\n\
        samples: 206\n\
        successes: 206\n\
        failures: 0\n\
        claim: at least\n\
        test: wald p0 91/100 p1 89/100 alpha 1/100 beta 1/100\n\
        limit: 206\n\
        seed: 1\n\
        longest run of true: 206\n\
        batches of 1000: 0 full, least 0, most 0\n",
    ),
    (
        "check|--model=M|--property=P>=0.9 [ F<=1 x=1 ]|--limit=207",
        STEP,
        0,
        "result: accepted\n\
        samples: 207\n\
        successes: 207\n\
        failures: 0\n\
        claim: at least\n\
        test: wald p0 91/100 p1 89/100 alpha 1/100 beta 1/100\n\
        limit: 207\n\
        seed: 1\n\
        longest run of true: 207\n\
        batches of 1000: 0 full, least 0, most 0\n",
    ),
    (
        "check|--model=M|--property=P>=0.9 [ F<=1 x=1 ]|--limit=100|--workers=2",
        STEP,
        2,
        "result: undecided (limit)\n\
        samples: 100\n\
        successes: 100\n\
        failures: 0\n\
        claim: at least\n\
        test: wald p0 91/100 p1 89/100 alpha 1/100 beta 1/100\n\
        limit: 100\n\
        seed: 1\n\
        longest run of true: 100\n\
        batches of 1000: 0 full, least 0, most 0\n",
    ),
    (
        "check|--model=M|--property=P>=0.9 [ F<=1 x=1 ]|--delta=1/100000|--limit=70000|--workers=8",
        STEP,
        2,
        "result: undecided (limit)\n\
        samples: 70000\n\
        successes: 70000\n\
        failures: 0\n\
        claim: at least\n\
        test: wald p0 90001/100000 p1 89999/100000 alpha 1/100 beta 1/100\n\
        limit: 70000\n\
        seed: 1\n\
        longest run of true: 70000\n\
        batches of 1000: 70 full, least 1000, most 1000\n",
    ),
    (
        "check|--model=M|--property=P>=1/2 [ F<=1 x=1 ]|--delta=1/4|--alpha=1/10|--beta=1/10",
        STEP,
        2,
        "result: undecided (close)\n\
        samples: 2\n\
        successes: 2\n\
        failures: 0\n\
        claim: at least\n\
        test: wald p0 3/4 p1 1/4 alpha 1/10 beta 1/10\n\
        limit: 1000000\n\
        seed: 1\n\
        longest run of true: 2\n\
        batches of 1000: 0 full, least 0, most 0\n",
    ),
    (
        "check|--model=M|--property=P>=1/2 [ F<=0 x=1 ]|--delta=1/4|--alpha=1/10|--beta=1/10",
        STEP,
        2,
        "result: undecided (close)\n\
        samples: 2\n\
        successes: 0\n\
        failures: 2\n\
        claim: at least\n\
        test: wald p0 3/4 p1 1/4 alpha 1/10 beta 1/10\n\
        limit: 1000000\n\
        seed: 1\n\
        longest run of true: 0\n\
        batches of 1000: 0 full, least 0, most 0\n",
    ),
    (
        "check|--model=M|--property=P>=1/2 [ F<=1 x=1 ]|--delta=1/6|--alpha=2/10|--beta=1/10",
        STEP,
        0,
        "result: accepted\n\
        samples: 3\n\
        successes: 3\n\
        failures: 0\n\
        claim: at least\n\
        test: wald p0 2/3 p1 1/3 alpha 1/5 beta 1/10\n\
        limit: 1000000\n\
        seed: 1\n\
        longest run of true: 3\n\
        batches of 1000: 0 full, least 0, most 0\n",
    ),
    (
        "check|--model=M|--property=P>=0.99 [ F<=1 x=1 ]",
        STEP,
        0,
        "result: accepted\n\
        samples: 228\n\
        successes: 228\n\
        failures: 0\n\
        claim: at least\n\
        test: wald p0 1 p1 49/50 alpha 1/100 beta 1/100\n\
        limit: 1000000\n\
        seed: 1\n\
        longest run of true: 228\n\
        batches of 1000: 0 full, least 0, most 0\n",
    ),
    (
        "check|--model=M|--property=P>=0.99 [ F<=0 x=1 ]",
        STEP,
        1,
        "result: rejected\n\
        samples: 1\n\
        successes: 0\n\
        failures: 1\n\
        claim: at least\n\
        test: wald p0 1 p1 49/50 alpha 1/100 beta 1/100\n\
        limit: 1000000\n\
        seed: 1\n\
        longest run of true: 0\n\
        batches of 1000: 0 full, least 0, most 0\n",
    ),
    (
        "check|--model=M|--property=P>=0.1 [ F<=20 s=7 & d=6 ]|--workers=1",
        DIE,
        0,
        SIXES,
    ),
    (
        "check|--model=M|--property=P>=0.1 [ F<=20 s=7 & d=6 ]|--workers=2",
        DIE,
        0,
        SIXES,
    ),
    (
        "check|--model=M|--property=P>=0.1 [ F<=20 s=7 & d=6 ]|--workers=8",
        DIE,
        0,
        SIXES,
    ),
];

#[test]
fn a_run_of_walds_test_is_reported_whole(rt: HostRuntime) -> Result<(), Fail> {
    for row in &WALD {
        assert!(rt; is_answered(&rt, row)?, "{row:?}");
    }
    Ok(())
}
