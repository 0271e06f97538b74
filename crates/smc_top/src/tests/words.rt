//! Words that give nothing, and words that are read.

use super::models::STEP;
use super::*;
use std::test::Fail;

/// Words that give nothing: each with a bar between each two.
static REFUSED: [&str; 34] = [
    "",
    "--model=M|--property=P>=0.9 [ F<=1 x=1 ]",
    "check|--model=M|--property=P>=0.9 [ F<=1 x=1 ]|--seed=1|--seed=1",
    "check|--model=M|--property=P>=0.9 [ F<=1 x=1 ]|--limit=0",
    "check|--model=M|--property=P>=1/2 [ F<=1 x=1 ]|--plan=1,0|--limit=268435457",
    "check|--model=M|--property=P>=1/2 [ F<=1 x=1 ]|--plan=1,0|--workers=65",
    "trace|--model=M|--steps=10001",
    "check|--model|-x",
    "make|--stations=1",
    "make|--stations=4",
    "make|--stations=65",
    "expand|--model=M|--const=N=1",
    "estimate|--model=M|--property=P=? [ F<=1 x=1 ]|--samples=3|--grid=4|--gamma=1/4",
    "log|--model=M|--property=P>=1/2 [ F<=1 x=1 ]|--plan=10,7",
    "recheck|--log=L",
    "bltl|--model=M|--formula=P>=0.9 [ F<=3 [ G<=2 x=1 ] ]",
    "plan|--theta=1/2|--delta=1/4|--alpha=1/5|--beta=1/5",
    "check|--model=M",
    "check|--property=P>=0.9 [ F<=1 x=1 ]",
    "check|--model=M|--property=P>=0.9 [ F<=1 x=1 ]|extra",
    "check|--model=M|--property=P>=0.9 [ F<=1 x=1 ]|--",
    "check|--model=M|--property=P>=0.9 [ F<=1 x=1 ]|--limit",
    "check|--model=M|--property=P>=0.9 [ F<=1 x=1 ]|--limit=",
    "check|--model=M|--property=P>=0.9 [ F<=1 x=1 ]|--steps=1",
    "check|--model=M|--property=P>=0.9 [ F<=1 x=1 ]|--plan=10,7|--delta=1/100",
    "check|--model=M|--property=P>=0.9 [ F<=1 x=1 ]|--alpha=0.01|--plan=10,7",
    "check|--model=M|--property=P>=0.9 [ F<=1 x=1 ]|--workers=0",
    "check|--model=M|--property=P>=0.9 [ F<=1 x=1 ]|--seed=18446744073709551616",
    "check|--model=M|--property=P>=0.9 [ F<=1 x=1 ]|--limit=268435457",
    "check|--model=M|--property=P>=0.9 [ F<=1 x=1 ]|--const=N",
    "help|--model=M",
    "check|--help",
    "--version",
    "trace|--model=M|--index=-1",
];

/// Eight successes, and a plan of 10 traces that accepts 8.
const EIGHT: &str = "result: accepted\n\
    samples: 8\n\
    successes: 8\n\
    failures: 0\n\
    claim: at least\n\
    test: plan 10,7\n\
    limit: 1000000\n\
    seed: 1\n\
    longest run of true: 8\n\
    batches of 1000: 0 full, least 0, most 0\n";

/// Words that are read.
static READ: [Row; 6] = [
    ("help", "", 0, "commands: check trace expand make help\n"),
    (
        "check|--model=M|--property=P>=1/2 [ F<=1 x=1 ]|--plan=10,7",
        STEP,
        0,
        EIGHT,
    ),
    (
        "check|--model=M|--property=P>=1/2 [ F<=1 x=1 ]|--plan|10,7",
        STEP,
        0,
        EIGHT,
    ),
    (
        "check|--model=M|--property=P>=1/2 [ F<=1 x=1 ]|--plan=0000000000000000010,7",
        STEP,
        0,
        EIGHT,
    ),
    (
        "check|--model=M|--property=P>=1/2 [ F<=1 x=1 ]|--workers=64|--plan=10,7|--seed=1",
        STEP,
        0,
        EIGHT,
    ),
    (
        "check|--plan=10,7|--property|P>=1/2 [ F<=1 x=1 ]|--model|M",
        STEP,
        0,
        EIGHT,
    ),
];

#[test]
fn words_that_give_nothing_are_told_by_the_usage_line(rt: HostRuntime) -> Result<(), Fail> {
    for words in REFUSED {
        let row = (words, STEP, 3, "refused 300: usage\n");
        assert!(rt; is_answered(&rt, &row)?, "{words}");
    }
    Ok(())
}

#[test]
fn options_are_read_in_one_word_or_two_and_in_any_order(rt: HostRuntime) -> Result<(), Fail> {
    for row in &READ {
        assert!(rt; is_answered(&rt, row)?, "{row:?}");
    }
    Ok(())
}
