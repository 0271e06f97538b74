ghost use Rattle.std.specs.Prelude.{◌≡◌, ◌+◌, ◌<◌, ◌≤◌, ◌^◌, ◌↔◌, pos, Ok, IsTrue, IsErrOf, IfOk};
ghost use Rattle.smc_num.specs.Fraction.{fraction_of};
ghost use Rattle.wald_test.specs.Settings.{theta_outside, delta_not_positive, an_error_outside, errors_too_large, a_denominator_large, joined, test_of};
ghost use Rattle.wald_test.specs.SequentialTest.{IsTest};

use crate::factor::Factor;
use crate::likelihood::Likelihood;
use crate::settings::{errors, first_fault, probabilities};
use crate::sums::{compared, decided, with_factor};
use crate::terms::Terms;
use sampling_plan::{Class, PlanFault};
use smc_num::Frac;
use std::marker::Model;

/// A sequential probability ratio test of whether the probability of success is at least `theta`, with
/// the indifference width `delta` on either side of it, the probability `alpha` of a rejection in error
/// and `beta` of an acceptance in error (Wald, Sequential Analysis, 1947; Younes and Simmons, 2002).
#[derive(Clone, Copy, Debug, PartialEq, Eq)]
pub struct Wald {
    probabilities: Terms,
    errors: Terms,
    upper: Likelihood,
    lower: Likelihood,
    alpha: Factor,
    not_alpha: Factor,
    beta: Factor,
    not_beta: Factor,
}

impl Model for Wald {
    ghost use Rattle.std.specs.Prelude.{◌-◌};
    ghost use Rattle.std.proofs.Common.{sym};
    ghost use Rattle.wald_test.specs.SequentialTest.{SequentialTest};
    ghost use Rattle.wald_test.specs.Kept.{factor_of, likelihood_at, IsKept};

    ghost Value = { SequentialTest };

    ghost view = { λ w. record {
      upper = w.probabilities.first;
      lower = w.probabilities.second;
      parts = w.probabilities.parts;
      alpha = w.errors.first;
      beta = w.errors.second;
      error_parts = w.errors.parts;
    } };

    ghost invariant = { λ w. IsKept w.probabilities w.errors w.upper w.lower w.alpha w.not_alpha w.beta w.not_beta };

    ghost inverse = { λ t. record {
      probabilities = record { first = t.upper; second = t.lower; parts = t.parts };
      errors = record { first = t.alpha; second = t.beta; parts = t.error_parts };
      upper = likelihood_at t.upper t.parts;
      lower = likelihood_at t.lower t.parts;
      alpha = factor_of t.alpha;
      not_alpha = factor_of (t.error_parts - t.alpha);
      beta = factor_of t.beta;
      not_beta = factor_of (t.error_parts - t.beta);
    } };

    ghost inverse_ok = { λ w kept i. record {
      probabilities = w.probabilities;
      errors = w.errors;
      upper = sym kept.upper_is i;
      lower = sym kept.lower_is i;
      alpha = sym kept.alpha_is i;
      not_alpha = sym kept.not_alpha_is i;
      beta = sym kept.beta_is i;
      not_beta = sym kept.not_beta_is i;
    } };
}

impl Wald {
    ghost use Rattle.wald_test.specs.Side.{CrossesAccept, CrossesReject};
    ghost use Rattle.wald_test.specs.Decision.{IsClose, class_of, IsNearBoundary};

    /// The test of these settings. The first of these faults that they have is the answer otherwise:
    /// `ThetaOutside`, `DeltaNotPositive`, `ErrorOutside`, `ErrorsTooLarge`, `Denominator`.
    pub fn new(theta: Frac, delta: Frac, alpha: Frac, beta: Frac) -> Result<Self, PlanFault>
        ensures value { result ≡ test_of theta delta alpha beta }
        ensures test { IfOk result IsTest }

        // Each fault comes exactly where it holds and none before it does.
        ensures theta { IsErrOf result PlanFault.ThetaOutside ↔ IsTrue (theta_outside theta) }
        ensures delta { IsErrOf result PlanFault.DeltaNotPositive
            ↔ ((¬ IsTrue (theta_outside theta)) × IsTrue (delta_not_positive delta)) }
        ensures errors { IsErrOf result PlanFault.ErrorOutside
            ↔ ((¬ IsTrue (theta_outside theta)) × (¬ IsTrue (delta_not_positive delta))
            × IsTrue (an_error_outside alpha beta)) }
        ensures sum { IsErrOf result PlanFault.ErrorsTooLarge
            ↔ ((¬ IsTrue (theta_outside theta)) × (¬ IsTrue (delta_not_positive delta))
            × (¬ IsTrue (an_error_outside alpha beta)) × IsTrue (errors_too_large alpha beta)) }
        ensures denominator { IsErrOf result PlanFault.Denominator
            ↔ ((¬ IsTrue (theta_outside theta)) × (¬ IsTrue (delta_not_positive delta))
            × (¬ IsTrue (an_error_outside alpha beta)) × (¬ IsTrue (errors_too_large alpha beta))
            × IsTrue (a_denominator_large theta delta alpha beta)) }
    {
        if let Some(fault) = first_fault(theta, delta, alpha, beta) {
            return Err(fault);
        }
        Ok(Wald::of(probabilities(theta, delta), errors(alpha, beta)))
    }

    /// The test of these probabilities and errors.
    fn of(probabilities: Terms, errors: Terms) -> Self
        requires { IsTest (joined probabilities errors) }
        ensures { result ≡ joined probabilities errors }
    {
        Wald {
            probabilities,
            errors,
            upper: Likelihood::at(probabilities.first, probabilities.parts),
            lower: Likelihood::at(probabilities.second, probabilities.parts),
            alpha: Factor::of(errors.first),
            not_alpha: Factor::of(errors.parts - errors.first),
            beta: Factor::of(errors.second),
            not_beta: Factor::of(errors.parts - errors.second),
        }
    }

    /// The upper probability, `min(1, theta + delta)`.
    pub fn p0(&self) -> Frac
        ensures { fraction_of (pos self.now.upper) (pos self.now.parts) ≡ Ok result }
    {
        probability(self.probabilities.first, self.probabilities.parts)
    }

    /// The lower probability, `max(0, theta - delta)`.
    pub fn p1(&self) -> Frac
        ensures { fraction_of (pos self.now.lower) (pos self.now.parts) ≡ Ok result }
    {
        probability(self.probabilities.second, self.probabilities.parts)
    }

    /// What the test decides after these counts. Where the brackets of the logarithms do not tell on
    /// which side of a boundary the counts lie, the answer is `Close`.
    pub fn class(&self, successes: u64, failures: u64) -> Class
        requires { successes + failures ≤ 2 ^ 28 }
        ensures value { result ≡ class_of self.now successes failures }

        // Where it is not close, the answer is the comparison of the sides' whole numbers.
        ensures close { (result ≡ Class.Close) ↔ IsClose self.now successes failures }
        ensures accept { (result ≡ Class.Accept)
            ↔ ((¬ IsClose self.now successes failures) × CrossesAccept self.now successes failures) }
        ensures reject { (result ≡ Class.Reject)
            ↔ ((¬ IsClose self.now successes failures) × (¬ CrossesAccept self.now successes failures)
            × CrossesReject self.now successes failures) }
        ensures go { (result ≡ Class.Go)
            ↔ ((¬ IsClose self.now successes failures) × (¬ CrossesAccept self.now successes failures)
            × (¬ CrossesReject self.now successes failures)) }
        ensures near { result ≡ Class.Close → IsNearBoundary self.now successes failures }
    {
        let lower = self.lower.sums(successes, failures);
        let upper = self.upper.sums(successes, failures);
        let accept = compared(
            with_factor(lower, self.not_alpha),
            with_factor(upper, self.beta),
        );
        let reject = compared(
            with_factor(lower, self.alpha),
            with_factor(upper, self.not_beta),
        );
        decided(accept, reject)
    }
}

/// A probability as a fraction in lowest terms.
fn probability(number: u64, parts: u64) -> Frac
    requires most { number ≤ parts }
    requires some { 0 < parts }
    requires small { parts < 2 ^ 62 }
    ensures { fraction_of (pos number) (pos parts) ≡ Ok result }
{
    match Frac::new(number as i64, parts as i64) {
        Ok(fraction) => fraction,
        Err(_) => unreachable!(),
    }
}
