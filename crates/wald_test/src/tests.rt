use super::*;
use sampling_plan::{Class, PlanFault};
use smc_num::Frac;
use std::process::Abort;
use std::test::Fail;

/// The largest denominator that is not refused.
const LARGEST: i64 = 1 << 31;

/// A setting in its numerator and denominator.
type Setting = (i64, i64);

fn test_of(theta: Setting, delta: Setting, alpha: Setting, beta: Setting) -> Result<Wald, Fail> {
    Ok(Wald::new(
        Frac::new(theta.0, theta.1)?,
        Frac::new(delta.0, delta.1)?,
        Frac::new(alpha.0, alpha.1)?,
        Frac::new(beta.0, beta.1)?,
    )?)
}

fn expect_classes(rt: &impl Abort, test: Wald, cases: &[(u64, u64, Class)]) {
    for &(successes, failures, class) in cases {
        assert!(rt; successes <= 1 << 28);
        assert!(rt; failures <= (1 << 28) - successes);
        assert_eq!(rt;
            test.class(successes, failures),
            class,
            "at {successes} and {failures}"
        );
    }
}

#[test]
fn the_class_is_that_of_unbounded_arithmetic(rt: HostRuntime) -> Result<(), Fail> {
    let hundredth = (1, 100);
    let high = test_of((9, 10), hundredth, hundredth, hundredth)?;
    let cases = [
        (0, 0, Class::Go),
        (206, 0, Class::Go),
        (207, 0, Class::Accept),
        (208, 0, Class::Accept),
        (0, 22, Class::Go),
        (0, 23, Class::Reject),
        (500, 20, Class::Accept),
        (1000, 112, Class::Go),
        (1000, 100, Class::Go),
        (900, 120, Class::Go),
    ];
    expect_classes(&rt, high, &cases);

    let uneven = test_of((3, 10), (1, 20), (1, 1000), (1, 20))?;
    let cases = [
        (40, 60, Class::Accept),
        (60, 60, Class::Accept),
        (20, 100, Class::Reject),
        (30, 100, Class::Go),
        (100, 200, Class::Accept),
        (200, 400, Class::Accept),
        (4000, 9000, Class::Accept),
        (4000, 9500, Class::Reject),
    ];
    expect_classes(&rt, uneven, &cases);

    let finest = test_of((1, 2), (1, LARGEST), (49, 100), (49, 100))?;
    let cases = [
        (21_477_691, 0, Class::Go),
        (0, 21_477_691, Class::Go),
        (1 << 27, 1 << 27, Class::Go),
        (1 << 28, 0, Class::Accept),
    ];
    expect_classes(&rt, finest, &cases);
    Ok(())
}

#[test]
fn counts_too_near_a_boundary_are_close(rt: HostRuntime) -> Result<(), Fail> {
    let wide = test_of((1, 2), (1, 4), (1, 10), (1, 10))?;
    let cases = [
        (0, 0, Class::Go),
        (1, 0, Class::Go),
        (2, 0, Class::Close),
        (3, 0, Class::Accept),
        (0, 1, Class::Go),
        (0, 2, Class::Close),
        (0, 3, Class::Reject),
        (3, 1, Class::Close),
        (1, 3, Class::Close),
        (7, 4, Class::Accept),
        (4, 7, Class::Reject),
    ];
    expect_classes(&rt, wide, &cases);

    // Sides that differ by less than 2^-59 of themselves.
    let touching = test_of((1, 2), (1, LARGEST), (3, 4), (536_870_911, LARGEST))?;
    let cases = [
        (0, 0, Class::Go),
        (1, 0, Class::Close),
        (2, 0, Class::Accept),
        (0, 1, Class::Reject),
        (5, 4, Class::Close),
    ];
    expect_classes(&rt, touching, &cases);

    // Sides of 8 and 8, whose brackets are exact.
    let exact = test_of((1, 2), (1, 6), (2, 10), (1, 10))?;
    let cases = [
        (2, 0, Class::Go),
        (3, 0, Class::Accept),
        (0, 2, Class::Go),
        (0, 3, Class::Reject),
        (4, 1, Class::Accept),
        (5, 1, Class::Accept),
        (1, 3, Class::Go),
        (1, 4, Class::Reject),
    ];
    expect_classes(&rt, exact, &cases);
    Ok(())
}

#[test]
fn probabilities_are_cut_at_0_and_1(rt: HostRuntime) -> Result<(), Fail> {
    let hundredth = (1, 100);
    let upper_one = test_of((99, 100), hundredth, hundredth, hundredth)?;
    let cases = [
        (0, 0, Class::Go),
        (227, 0, Class::Go),
        (228, 0, Class::Accept),
        (0, 1, Class::Reject),
        (227, 1, Class::Reject),
        (1_000_000, 1, Class::Reject),
    ];
    expect_classes(&rt, upper_one, &cases);

    let lower_zero = test_of(hundredth, hundredth, hundredth, hundredth)?;
    let cases = [
        (1, 0, Class::Accept),
        (0, 227, Class::Go),
        (0, 228, Class::Reject),
        (1, 1000, Class::Accept),
        (0, 1_000_000, Class::Reject),
    ];
    expect_classes(&rt, lower_zero, &cases);

    // Both probabilities are cut; counts of both kinds are possible under neither.
    let wider_than_one = test_of((3, 4), (7, 1), (1, 20), (1, 50))?;
    let cases = [
        (0, 0, Class::Go),
        (1, 0, Class::Accept),
        (0, 1, Class::Reject),
        (1, 1, Class::Accept),
    ];
    expect_classes(&rt, wider_than_one, &cases);
    Ok(())
}

#[test]
fn the_two_probabilities_lie_the_width_apart_from_theta(rt: HostRuntime) -> Result<(), Fail> {
    let cases = [
        ((9, 10), (1, 100), (91, 100), (89, 100)),
        ((1, 2), (1, 6), (2, 3), (1, 3)),
        ((1, 2), (1, 4), (3, 4), (1, 4)),
        ((99, 100), (1, 100), (1, 1), (49, 50)),
        ((1, 100), (1, 100), (1, 50), (0, 1)),
        ((3, 4), (7, 1), (1, 1), (0, 1)),
        ((0, 1), (1, 3), (1, 3), (0, 1)),
        (
            (1, 2),
            (1, LARGEST),
            ((1 << 30) + 1, LARGEST),
            ((1 << 30) - 1, LARGEST),
        ),
    ];
    for (theta, delta, upper, lower) in cases {
        let test = test_of(theta, delta, (1, 100), (1, 100))?;
        assert_eq!(rt; test.p0(), Frac::new(upper.0, upper.1)?);
        assert_eq!(rt; test.p1(), Frac::new(lower.0, lower.1)?);
    }
    Ok(())
}

#[test]
fn the_first_fault_of_the_settings_is_told(rt: HostRuntime) -> Result<(), Fail> {
    let h = (1, 100);
    let fine = (1, LARGEST + 1);
    let cases = [
        ((2, 1), h, h, h, PlanFault::ThetaOutside),
        ((-1, 2), h, h, h, PlanFault::ThetaOutside),
        ((2, 1), (0, 1), (1, 1), fine, PlanFault::ThetaOutside),
        ((1, 1), (0, 1), h, h, PlanFault::DeltaNotPositive),
        ((1, 2), (-1, 3), (1, 1), fine, PlanFault::DeltaNotPositive),
        ((1, 2), h, (1, 1), h, PlanFault::ErrorOutside),
        ((1, 2), h, h, (0, 1), PlanFault::ErrorOutside),
        ((1, 2), fine, h, (3, 2), PlanFault::ErrorOutside),
        ((1, 2), h, (1, 2), (1, 2), PlanFault::ErrorsTooLarge),
        ((1, 2), fine, (9, 10), (2, 10), PlanFault::ErrorsTooLarge),
        (fine, h, h, h, PlanFault::Denominator),
        ((1, 2), fine, h, h, PlanFault::Denominator),
        ((1, 2), h, fine, h, PlanFault::Denominator),
        ((1, 2), h, h, fine, PlanFault::Denominator),
    ];
    for (theta, delta, alpha, beta, fault) in cases {
        let answer = Wald::new(
            Frac::new(theta.0, theta.1)?,
            Frac::new(delta.0, delta.1)?,
            Frac::new(alpha.0, alpha.1)?,
            Frac::new(beta.0, beta.1)?,
        );
        assert_eq!(rt; answer, Err(fault));
    }
    Ok(())
}

#[test]
fn the_largest_denominators_are_not_refused(rt: HostRuntime) -> Result<(), Fail> {
    let theta = ((1 << 30) - 1, LARGEST);
    let test = test_of(theta, (1, LARGEST - 1), (1, LARGEST - 1), (1, LARGEST))?;
    let cases = [
        (1 << 28, 0, Class::Go),
        (0, 1 << 28, Class::Go),
        (1 << 27, 1 << 27, Class::Go),
    ];
    expect_classes(&rt, test, &cases);
    Ok(())
}
