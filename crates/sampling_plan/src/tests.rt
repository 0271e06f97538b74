use super::*;
use std::test::Fail;

#[test]
fn a_plan_decides_as_soon_as_its_counts_allow(rt: HostRuntime) -> Result<(), Fail> {
    let small = Plan::new(10, 7)?;
    let large = Plan::new(2_000_001, 1_000_000)?;
    let one = Plan::new(1, 0)?;
    let widest = Plan::new(u64::MAX, u64::MAX - 1)?;
    let cases = [
        (small, 0, 0, Class::Go),
        (small, 7, 0, Class::Go),
        (small, 8, 0, Class::Accept),
        (small, 0, 2, Class::Go),
        (small, 0, 3, Class::Reject),
        (small, 7, 2, Class::Go),
        (small, 7, 3, Class::Reject),
        (small, 8, 2, Class::Accept),
        (small, 8, 3, Class::Accept),
        (large, 1_000_000, 1_000_000, Class::Go),
        (large, 1_000_001, 1_000_000, Class::Accept),
        (large, 1_000_000, 1_000_001, Class::Reject),
        (one, 0, 0, Class::Go),
        (one, 1, 0, Class::Accept),
        (one, 0, 1, Class::Reject),
        (widest, u64::MAX - 1, 0, Class::Go),
        (widest, u64::MAX, 0, Class::Accept),
        (widest, 0, 1, Class::Reject),
        (widest, u64::MAX, u64::MAX, Class::Accept),
    ];
    for (plan, successes, failures, class) in cases {
        assert_eq!(rt;
            plan.class(successes, failures),
            class,
            "at {successes} and {failures}"
        );
    }
    Ok(())
}

#[test]
fn an_acceptance_number_at_or_above_the_sample_is_refused(rt: HostRuntime) {
    let refused = [(10, 10), (0, 0), (0, 1), (7, 10), (u64::MAX, u64::MAX)];
    for (samples, number) in refused {
        assert_eq!(rt; Plan::new(samples, number), Err(PlanFault::BadPlan));
    }
}

#[test]
fn a_plan_keeps_its_two_numbers(rt: HostRuntime) -> Result<(), Fail> {
    let plan = Plan::new(2_000_001, 1_000_000)?;
    assert_eq!(rt; plan.samples(), 2_000_001);
    assert_eq!(rt; plan.acceptance_number(), 1_000_000);
    Ok(())
}

#[test]
fn each_fault_says_what_is_wrong(rt: HostRuntime) -> Result<(), Fail> {
    let cases = [
        (
            PlanFault::ThetaOutside,
            "the probability is not between 0 and 1",
        ),
        (
            PlanFault::DeltaNotPositive,
            "the indifference width is not above 0",
        ),
        (
            PlanFault::ErrorOutside,
            "an error probability is not strictly between 0 and 1",
        ),
        (
            PlanFault::ErrorsTooLarge,
            "the error probabilities do not add up to less than 1",
        ),
        (PlanFault::Denominator, "a denominator is above 2147483648"),
        (
            PlanFault::BadPlan,
            "the acceptance number is not below the number of samples",
        ),
    ];
    for (fault, text) in cases {
        assert_eq!(rt; format!(in rt.alloc(); "{fault}")?.as_str(), text);
    }
    Ok(())
}
