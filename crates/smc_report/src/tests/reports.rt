//! Whole reports.

ghost use Rattle.std.specs.Prelude.{IfOk};
ghost use Rattle.chain_model.specs.declared.job.Claim.{Claim};
ghost use Rattle.stop_rules.specs.declared.goal.Goal.{Goal};
ghost use Rattle.run_goal.specs.Goal.{IsGoal};
ghost use Rattle.smc_report.specs.Report.{IsGoalOf};

use super::*;
use chain_model::Claim;
use run_goal::goal;
use smc_num::read;
use smc_settings::{Argument, Settings, TestWords};
use sqlite_items::Items;
use std::alloc::{AllocError, Global};
use std::test::Fail;
use stop_rules::{Cause, End, Goal};

/// A test in words: the numbers of a plan, or those of Wald's test.
#[derive(Clone, Copy)]
enum Test {
    Plan(u64, u64),
    Wald(&'static str, &'static str, &'static str),
}

/// Wald's test with the numbers of one that is given none.
const PLAIN: Test = Test::Wald("1/100", "1/100", "1/100");

fn words(test: Test) -> Result<TestWords, Fail> {
    match test {
        Test::Plan(n, c) => Ok(TestWords::Plan { n, c }),
        Test::Wald(delta, alpha, beta) => Ok(TestWords::Wald {
            delta: read(delta.as_bytes())?,
            alpha: read(alpha.as_bytes())?,
            beta: read(beta.as_bytes())?,
        }),
    }
}

/// A run: the probability of its claim and whether the claim is 'at most', its test and its limit, its end, the
/// observers' lines, and its report.
struct Run {
    theta: &'static str,
    at_most: bool,
    test: Test,
    limit: u64,
    end: (Cause, u64, u64),
    observers: &'static [&'static str],
    report: &'static str,
}

/// The lines of these texts, of which none is too long.
fn lines(alloc: Global, texts: &[&str]) -> Result<Vec<Line>, Fail> {
    let mut lines = Vec::new(alloc);
    for text in texts {
        let mut line = Line::new();
        if text.len() <= 100 {
            line.set(text.as_bytes());
        }
        lines.push(line)?;
    }
    Ok(lines)
}

/// The settings of a run of this test.
fn settings(alloc: Global, test: TestWords, limit: u64) -> Result<Settings, Fail>
    ensures { IfOk result (λ settings. (claim : Claim) (goal : Goal) → IsGoal claim test limit goal
        → IsGoalOf settings claim goal) }
{
    Ok(Settings::Check {
        model: Argument::new(alloc, "chain.pm")?,
        property: Argument::new(alloc, "P>=0.9 [ F<=1 x=1 ]")?,
        given: Items::new(alloc),
        seed: 1,
        test,
        limit,
        workers: 1,
    })
}

/// The report of a run with this goal, whose counts are within its limit. A fault is one of step 4.
fn told(
    alloc: Global,
    run: &Run,
    settings: &Settings,
    claim: &Claim,
    goal: &Goal,
    lines: &[Line],
) -> Result<Vec<u8>, AllocError>
    requires { IsGoalOf settings.now claim.now goal.now }
{
    let (cause, d, f) = run.end;
    if d > goal.limit || f > goal.limit || d + f > goal.limit {
        return Ok(Vec::new(alloc));
    }
    let end = End { cause, d, f };
    let fault = b"x outside its range";
    report(alloc, settings, claim, goal, &end, 4, fault, lines)
}

/// The report of a run whose claim and settings make a goal.
fn made(
    alloc: Global,
    run: &Run,
    settings: &Settings,
    claim: &Claim,
    test: &TestWords,
    lines: &[Line],
) -> Result<Vec<u8>, AllocError>
    requires { (goal : Goal) → IsGoal claim.now test.now run.now.limit goal → IsGoalOf settings.now claim.now goal }
{
    if run.limit < 1 || run.limit > 1_000_000 {
        return Ok(Vec::new(alloc));
    }
    match goal(claim, test, run.limit) {
        Ok(goal) => told(alloc, run, settings, claim, &goal, lines),
        Err(_) => Ok(Vec::new(alloc)),
    }
}

/// The report of a run.
fn shown(alloc: Global, run: &Run) -> Result<Vec<u8>, Fail> {
    let claim = Claim {
        theta: read(run.theta.as_bytes())?,
        at_most: run.at_most,
    };
    let test = words(run.test)?;
    let settings = settings(alloc, test, run.limit)?;
    let observers = lines(alloc, run.observers)?;
    let text = made(alloc, run, &settings, &claim, &test, observers.as_slice())?;
    Ok(text)
}

static RUNS: [Run; 13] = [
    Run {
        theta: "0.9",
        at_most: false,
        test: PLAIN,
        limit: 1_000_000,
        end: (Cause::Accept, 207, 0),
        observers: &[],
        report: "result: accepted\n\
            samples: 207\n\
            successes: 207\n\
            failures: 0\n\
            claim: at least\n\
            test: wald p0 91/100 p1 89/100 alpha 1/100 beta 1/100\n\
            limit: 1000000\n\
            seed: 1\n",
    },
    Run {
        theta: "0.9",
        at_most: false,
        test: PLAIN,
        limit: 1_000_000,
        end: (Cause::Reject, 0, 23),
        observers: &[],
        report: "result: rejected\n\
            samples: 23\n\
            successes: 0\n\
            failures: 23\n\
            claim: at least\n\
            test: wald p0 91/100 p1 89/100 alpha 1/100 beta 1/100\n\
            limit: 1000000\n\
            seed: 1\n",
    },
    Run {
        theta: "1/2",
        at_most: false,
        test: Test::Wald("1/4", "1/10", "1/10"),
        limit: 1_000_000,
        end: (Cause::Close, 2, 0),
        observers: &[],
        report: "result: undecided (close)\n\
            samples: 2\n\
            successes: 2\n\
            failures: 0\n\
            claim: at least\n\
            test: wald p0 3/4 p1 1/4 alpha 1/10 beta 1/10\n\
            limit: 1000000\n\
            seed: 1\n",
    },
    Run {
        theta: "1/2",
        at_most: false,
        test: Test::Wald("1/6", "2/10", "1/10"),
        limit: 1_000_000,
        end: (Cause::Accept, 3, 0),
        observers: &[],
        report: "result: accepted\n\
            samples: 3\n\
            successes: 3\n\
            failures: 0\n\
            claim: at least\n\
            test: wald p0 2/3 p1 1/3 alpha 1/5 beta 1/10\n\
            limit: 1000000\n\
            seed: 1\n",
    },
    Run {
        theta: "0.99",
        at_most: false,
        test: PLAIN,
        limit: 1_000_000,
        end: (Cause::Reject, 0, 1),
        observers: &[],
        report: "result: rejected\n\
            samples: 1\n\
            successes: 0\n\
            failures: 1\n\
            claim: at least\n\
            test: wald p0 1 p1 49/50 alpha 1/100 beta 1/100\n\
            limit: 1000000\n\
            seed: 1\n",
    },
    Run {
        theta: "1/100",
        at_most: false,
        test: PLAIN,
        limit: 1_000_000,
        end: (Cause::Accept, 1, 0),
        observers: &[],
        report: "result: accepted\n\
            samples: 1\n\
            successes: 1\n\
            failures: 0\n\
            claim: at least\n\
            test: wald p0 1/50 p1 0 alpha 1/100 beta 1/100\n\
            limit: 1000000\n\
            seed: 1\n",
    },
    Run {
        theta: "0.9",
        at_most: false,
        test: PLAIN,
        limit: 206,
        end: (Cause::Limit, 206, 0),
        observers: &[],
        report: "result: undecided (limit)\n\
            samples: 206\n\
            successes: 206\n\
            failures: 0\n\
            claim: at least\n\
            test: wald p0 91/100 p1 89/100 alpha 1/100 beta 1/100\n\
            limit: 206\n\
            seed: 1\n",
    },
    Run {
        theta: "0.1",
        at_most: true,
        test: PLAIN,
        limit: 1_000_000,
        end: (Cause::Accept, 207, 0),
        observers: &[],
        report: "result: accepted\n\
            samples: 207\n\
            successes: 207\n\
            failures: 0\n\
            claim: at most\n\
            test: wald p0 91/100 p1 89/100 alpha 1/100 beta 1/100\n\
            limit: 1000000\n\
            seed: 1\n",
    },
    Run {
        theta: "1/4",
        at_most: true,
        test: Test::Wald("1/4", "1/20", "1/30"),
        limit: 1_000_000,
        end: (Cause::Reject, 1, 5),
        observers: &[],
        report: "result: rejected\n\
            samples: 6\n\
            successes: 1\n\
            failures: 5\n\
            claim: at most\n\
            test: wald p0 1 p1 1/2 alpha 1/20 beta 1/30\n\
            limit: 1000000\n\
            seed: 1\n",
    },
    Run {
        theta: "1/2",
        at_most: false,
        test: Test::Plan(10, 7),
        limit: 1_000_000,
        end: (Cause::Accept, 8, 0),
        observers: &[
            "longest run of true: 8",
            "first 3: 111",
            "batches of 4: 2 full, least 4, most 4",
        ],
        report: "result: accepted\n\
            samples: 8\n\
            successes: 8\n\
            failures: 0\n\
            claim: at least\n\
            test: plan 10,7\n\
            limit: 1000000\n\
            seed: 1\n\
            longest run of true: 8\n\
            first 3: 111\n\
            batches of 4: 2 full, least 4, most 4\n",
    },
    Run {
        theta: "1/2",
        at_most: true,
        test: Test::Plan(10, 7),
        limit: 10,
        end: (Cause::Reject, 0, 3),
        observers: &["longest run of true: 8"],
        report: "result: rejected\n\
            samples: 3\n\
            successes: 0\n\
            failures: 3\n\
            claim: at most\n\
            test: plan 10,7\n\
            limit: 10\n\
            seed: 1\n\
            longest run of true: 8\n",
    },
    Run {
        theta: "0.9",
        at_most: false,
        test: PLAIN,
        limit: 1_000_000,
        end: (Cause::Fault, 0, 0),
        observers: &[],
        report: "result: fault\n\
            trace: 0\n\
            step: 4\n\
            cause: x outside its range\n\
            samples: 0\n\
            successes: 0\n\
            failures: 0\n\
            claim: at least\n\
            test: wald p0 91/100 p1 89/100 alpha 1/100 beta 1/100\n\
            limit: 1000000\n\
            seed: 1\n",
    },
    Run {
        theta: "0.9",
        at_most: false,
        test: PLAIN,
        limit: 1_000_000,
        end: (Cause::Fault, 12, 5),
        observers: &["longest run of true: 9"],
        report: "result: fault\n\
            trace: 17\n\
            step: 4\n\
            cause: x outside its range\n\
            samples: 17\n\
            successes: 12\n\
            failures: 5\n\
            claim: at least\n\
            test: wald p0 91/100 p1 89/100 alpha 1/100 beta 1/100\n\
            limit: 1000000\n\
            seed: 1\n\
            longest run of true: 9\n",
    },
];

#[test]
fn a_report_has_a_line_for_the_result_each_count_and_what_was_asked(
    rt: HostRuntime,
) -> Result<(), Fail> {
    for run in RUNS.iter() {
        let text = shown(rt.alloc(), run)?;
        let want = run.report;
        assert!(rt; text.as_slice() == want.as_bytes(), "{want}");
    }
    Ok(())
}
