use super::*;
use chain_model::Claim;
use smc_num::{Frac, read};
use smc_settings::TestWords;
use std::alloc::{AllocError, Global};
use std::test::Fail;
use stop_rules::{Goal, Rule};

/// A number as `num/den`.
fn number(alloc: Global, number: Frac) -> Result<String, AllocError> {
    let (num, den) = (number.num(), number.den());
    format!(in alloc; "{num}/{den}")
}

/// Two numbers with a blank between them.
fn two_numbers(alloc: Global, first: Frac, second: Frac) -> Result<String, AllocError> {
    let first = number(alloc, first)?;
    let second = number(alloc, second)?;
    format!(in alloc; "{first} {second}")
}

/// A goal in one line.
fn goal_line(alloc: Global, goal: &Goal) -> Result<String, AllocError> {
    let rule = match goal.rule {
        Rule::Wald(wald) => two_numbers(alloc, wald.p0(), wald.p1())?,
        Rule::Plan(plan) => {
            let (n, c) = (plan.samples(), plan.acceptance_number());
            format!(in alloc; "plan {n},{c}")?
        }
    };
    let (limit, flip) = (goal.limit, goal.flip);
    format!(in alloc; "{rule} limit {limit} flip {flip}")
}

/// A fault in one line.
fn fault_line(alloc: Global, fault: SettingsFault) -> Result<String, AllocError> {
    match fault {
        SettingsFault::Theta(theta) => {
            let theta = number(alloc, theta)?;
            format!(in alloc; "theta {theta}")
        }
        SettingsFault::Delta(delta) => {
            let delta = number(alloc, delta)?;
            format!(in alloc; "delta {delta}")
        }
        SettingsFault::ErrorOutside { alpha, beta } => {
            let errors = two_numbers(alloc, alpha, beta)?;
            format!(in alloc; "outside {errors}")
        }
        SettingsFault::ErrorSum { alpha, beta } => {
            let errors = two_numbers(alloc, alpha, beta)?;
            format!(in alloc; "sum {errors}")
        }
        SettingsFault::Denominator(den) => format!(in alloc; "denominator {den}"),
        SettingsFault::Plan { n, c } => format!(in alloc; "plan {n},{c}"),
    }
}

/// Whether the claim on `theta` and the test make this goal or have this fault, in a line.
fn makes(
    alloc: Global,
    theta: &str,
    at_most: bool,
    test: &TestWords,
    want: &str,
) -> Result<bool, Fail> {
    let theta = read(theta.as_bytes())?;
    let made = match goal(&Claim { theta, at_most }, test, 1000) {
        Ok(goal) => goal_line(alloc, &goal)?,
        Err(fault) => fault_line(alloc, fault)?,
    };
    Ok(made.as_str() == want)
}

/// Whether Wald's test with these numbers makes this goal or has this fault.
fn wald_makes(alloc: Global, row: (&str, bool, &str, &str, &str, &str)) -> Result<bool, Fail> {
    let (theta, at_most, delta, alpha, beta, want) = row;
    let test = TestWords::Wald {
        delta: read(delta.as_bytes())?,
        alpha: read(alpha.as_bytes())?,
        beta: read(beta.as_bytes())?,
    };
    makes(alloc, theta, at_most, &test, want)
}

/// The probability of a claim, whether it is 'at most', the width, the two errors, and the test's probabilities or its
/// fault.
static WALD: [(&str, bool, &str, &str, &str, &str); 24] = [
    (
        "9/10",
        false,
        "1/100",
        "1/100",
        "1/100",
        "91/100 89/100 limit 1000 flip false",
    ),
    (
        "9/10",
        true,
        "1/100",
        "1/100",
        "1/100",
        "11/100 9/100 limit 1000 flip true",
    ),
    (
        "1/10",
        true,
        "1/100",
        "1/100",
        "1/100",
        "91/100 89/100 limit 1000 flip true",
    ),
    (
        "0",
        true,
        "1/100",
        "1/100",
        "1/100",
        "1/1 99/100 limit 1000 flip true",
    ),
    (
        "1",
        true,
        "1/100",
        "1/100",
        "1/100",
        "1/100 0/1 limit 1000 flip true",
    ),
    (
        "0",
        false,
        "1/100",
        "1/100",
        "1/100",
        "1/100 0/1 limit 1000 flip false",
    ),
    (
        "1",
        false,
        "2",
        "1/100",
        "1/100",
        "1/1 0/1 limit 1000 flip false",
    ),
    ("2", false, "1/100", "1/100", "1/100", "theta 2/1"),
    ("2", true, "1/100", "1/100", "1/100", "theta 2/1"),
    ("-1/2", true, "1/100", "1/100", "1/100", "theta -1/2"),
    ("3/2", true, "0", "1", "1", "theta 3/2"),
    ("1/2", false, "0", "1", "1", "delta 0/1"),
    ("1/2", true, "-1/100", "1/100", "1/100", "delta -1/100"),
    ("1/2", false, "1/100", "1", "1/100", "outside 1/1 1/100"),
    ("1/2", false, "1/100", "1/100", "0", "outside 1/100 0/1"),
    ("1/2", false, "1/100", "1/2", "1/2", "sum 1/2 1/2"),
    (
        "1/2",
        true,
        "1/100",
        "2147483648/2147483649",
        "1/2",
        "sum 2147483648/2147483649 1/2",
    ),
    (
        "1/2",
        false,
        "1/2147483649",
        "1/100",
        "1/100",
        "denominator 2147483649",
    ),
    (
        "1/2147483649",
        true,
        "1/100",
        "1/100",
        "1/100",
        "denominator 2147483649",
    ),
    (
        "1/2147483650",
        false,
        "1/2147483649",
        "1/3",
        "1/3",
        "denominator 2147483650",
    ),
    (
        "1/2",
        false,
        "1/100",
        "1/2147483651",
        "1/2147483652",
        "denominator 2147483651",
    ),
    (
        "1/2",
        false,
        "1/100",
        "1/3",
        "1/2147483652",
        "denominator 2147483652",
    ),
    (
        "1/2147483648",
        false,
        "1/2147483648",
        "1/3",
        "1/3",
        "1/1073741824 0/1 limit 1000 flip false",
    ),
    (
        "0.5000000000",
        false,
        "5e-2",
        ".25",
        "25e-2",
        "11/20 9/20 limit 1000 flip false",
    ),
];

#[test]
fn a_claim_is_tested_by_walds_test_or_told_its_first_fault(rt: HostRuntime) -> Result<(), Fail> {
    for row in WALD {
        assert!(rt; wald_makes(rt.alloc(), row)?, "{}", row.5);
    }
    Ok(())
}

/// The probability of a claim, whether it is 'at most', the plan, and the goal or its fault.
static PLANS: [(&str, bool, u64, u64, &str); 6] = [
    ("1/2", false, 10, 7, "plan 10,7 limit 1000 flip false"),
    ("1/2", true, 10, 7, "plan 10,7 limit 1000 flip true"),
    ("2", false, 1, 0, "plan 1,0 limit 1000 flip false"),
    ("1/2", false, 10, 10, "plan 10,10"),
    ("2", true, 7, 10, "plan 7,10"),
    ("1/2", false, 0, 0, "plan 0,0"),
];

#[test]
fn a_plan_knows_no_probability(rt: HostRuntime) -> Result<(), Fail> {
    for (theta, at_most, n, c, want) in PLANS {
        let made = makes(rt.alloc(), theta, at_most, &TestWords::Plan { n, c }, want)?;
        assert!(rt; made, "{want}");
    }
    Ok(())
}

#[test]
fn a_fault_speaks_to_a_person(rt: HostRuntime) -> Result<(), Fail> {
    let fault = SettingsFault::Plan { n: 1, c: 1 };
    let told = format!(in rt.alloc(); "{fault}")?;
    assert_eq!(rt;
        told.as_str(),
        "the acceptance number is not below the sample size"
    );
    Ok(())
}
