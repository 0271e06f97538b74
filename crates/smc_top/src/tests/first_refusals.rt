//! Settings of the test that are refused, and runs with several reasons to refuse them, of which the first is told.

use super::models::{COUNTER, STEP};
use super::*;
use std::test::Fail;

/// Settings of the test that are refused.
static SETTINGS: [Row; 6] = [
    (
        "check|--model=M|--property=P>=2 [ F<=1 x=1 ]",
        STEP,
        7,
        "refused 700: theta 2\n",
    ),
    (
        "check|--model=M|--property=P>=0.9 [ F<=1 x=1 ]|--delta=0",
        STEP,
        7,
        "refused 701: delta 0\n",
    ),
    (
        "check|--model=M|--property=P>=0.9 [ F<=1 x=1 ]|--alpha=1",
        STEP,
        7,
        "refused 702: errors 1 1/100\n",
    ),
    (
        "check|--model=M|--property=P>=0.9 [ F<=1 x=1 ]|--alpha=1/2|--beta=1/2",
        STEP,
        7,
        "refused 703: errors 1/2 1/2\n",
    ),
    (
        "check|--model=M|--property=P>=0.9 [ F<=1 x=1 ]|--delta=1/2147483649",
        STEP,
        7,
        "refused 704: denominator 2147483649\n",
    ),
    (
        "check|--model=M|--property=P>=0.9 [ F<=1 x=1 ]|--plan=10,10",
        STEP,
        7,
        "refused 705: plan 10,10\n",
    ),
];

/// Runs with several reasons to refuse them, of which the first is told.
static FIRSTS: [Row; 9] = [
    (
        "check|--model=N|--property=#|--delta=0",
        STEP,
        4,
        "refused 400: read fault\n",
    ),
    (
        "check|--model=M|--property=#|--delta=0|--limit=0",
        "dtmc #",
        3,
        "refused 300: usage\n",
    ),
    (
        "check|--model=M|--property=#|--delta=0",
        "dtmc #",
        5,
        "refused 510: bad byte at 5\n",
    ),
    (
        "check|--model=M|--property=#|--delta=0",
        STEP,
        6,
        "refused 610: bad byte at 0\n",
    ),
    (
        "check|--model=M|--property=P>=2 [ F<=1 q=1 ]|--delta=0",
        STEP,
        6,
        "refused 650: unknown name q\n",
    ),
    (
        "check|--model=M|--property=P>=2 [ F<=1 x=1 ]|--delta=0",
        STEP,
        7,
        "refused 700: theta 2\n",
    ),
    (
        "check|--model=M|--property=P>=0.9 [ F<=10 x=5 ]|--delta=0",
        COUNTER,
        7,
        "refused 701: delta 0\n",
    ),
    (
        "trace|--model=M|--const=K=1",
        "dtmc const int N; formula f=f;",
        5,
        "refused 531: formula cycle f\n",
    ),
    (
        "trace|--model=M|--const=K=1",
        "dtmc const int N; module m x:[1..0]; endmodule",
        5,
        "refused 540: undefined constant N\n",
    ),
];

#[test]
fn the_first_reason_to_refuse_is_told_in_one_line(rt: HostRuntime) -> Result<(), Fail> {
    for table in [SETTINGS.as_slice(), FIRSTS.as_slice()] {
        for row in table {
            assert!(rt; is_answered(&rt, row)?, "{row:?}");
        }
    }
    Ok(())
}
