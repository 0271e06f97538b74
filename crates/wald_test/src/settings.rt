ghost use Rattle.std.specs.Prelude.{◌≡◌, ◌+◌, ◌-◌, ◌*◌, ◌<◌, ◌≤◌, ◌^◌, false, IfNone, pos, ◌<ℤ◌, ◌≤ℤ◌};
ghost use Rattle.wald_test.specs.Settings.{size, theta_outside, delta_not_positive, error_outside, an_error_outside, errors_too_large, denominator_large, a_denominator_large, fault_of, probabilities_of, errors_of};

use crate::terms::Terms;
use sampling_plan::PlanFault;
use smc_num::{Frac, ceil, floor};

/// The largest denominator that a setting may have.
const LARGEST_DENOMINATOR: u64 = 1 << 31;

/// The first fault of the settings, in the order in which they are looked at.
#[tactic(auto, unfolding(crate::specs::Settings::fault_of))]
pub fn first_fault(theta: Frac, delta: Frac, alpha: Frac, beta: Frac) -> Option<PlanFault>
    ensures value { result ≡ fault_of theta delta alpha beta }
    ensures theta { 0 < theta.den }
    ensures delta { IfNone result (0 < delta.den) }
{
    if theta_outside(theta) {
        Some(PlanFault::ThetaOutside)
    } else if delta_not_positive(delta) {
        Some(PlanFault::DeltaNotPositive)
    } else if an_error_outside(alpha, beta) {
        Some(PlanFault::ErrorOutside)
    } else if errors_too_large(alpha, beta) {
        Some(PlanFault::ErrorsTooLarge)
    } else if a_denominator_large(theta, delta, alpha, beta) {
        Some(PlanFault::Denominator)
    } else {
        None
    }
}

/// The size of the numerator.
fn size(a: Frac) -> u64
    ensures { result ≡ size a }
{
    a.num().unsigned_abs()
}

/// The denominator.
fn denominator(a: Frac) -> u64
    ensures { result ≡ a.den }
{
    a.den() as u64
}

/// Whether the probability is below 0 or above 1.
fn theta_outside(theta: Frac) -> bool
    ensures value { result ≡ theta_outside theta }
    ensures some { 0 < theta.den }
{
    floor(theta) < 0 || theta.num() > theta.den()
}

/// Whether the indifference width is 0 or below.
fn delta_not_positive(delta: Frac) -> bool
    ensures value { result ≡ delta_not_positive delta }
    ensures some { 0 < delta.den }
{
    ceil(delta) <= 0
}

/// Whether an error probability is not strictly between 0 and 1.
fn error_outside(a: Frac) -> bool
    ensures { result ≡ error_outside a }
{
    a.num() <= 0 || a.num() >= a.den()
}

/// Whether one of the two error probabilities is not strictly between 0 and 1.
fn an_error_outside(alpha: Frac, beta: Frac) -> bool
    ensures { result ≡ an_error_outside alpha beta }
{
    error_outside(alpha) || error_outside(beta)
}

/// Whether two error probabilities, both between 0 and 1, add up to 1 or more.
fn errors_too_large(alpha: Frac, beta: Frac) -> bool
    ensures { result ≡ errors_too_large alpha beta }
{
    let alpha_parts = denominator(alpha);
    let beta_parts = denominator(beta);
    product(size(alpha), beta_parts) + product(size(beta), alpha_parts)
        >= product(alpha_parts, beta_parts)
}

/// A product, which fits twice the bits.
fn product(a: u64, b: u64) -> u128
    ensures { result ≡ a * b }
{
    u128::from(a) * u128::from(b)
}

/// Whether the denominator is above 2^31.
fn denominator_large(a: Frac) -> bool
    ensures { result ≡ denominator_large a }
{
    denominator(a) > LARGEST_DENOMINATOR
}

/// Whether one of the four denominators is above 2^31.
fn a_denominator_large(theta: Frac, delta: Frac, alpha: Frac, beta: Frac) -> bool
    ensures { result ≡ a_denominator_large theta delta alpha beta }
{
    denominator_large(theta)
        || denominator_large(delta)
        || denominator_large(alpha)
        || denominator_large(beta)
}

/// `min(1, theta + delta)` and `max(0, theta - delta)` over their least common denominator.
pub fn probabilities(theta: Frac, delta: Frac) -> Terms
    requires theta { theta_outside theta ≡ false }
    requires theta_some { 0 < theta.den }
    requires theta_small { denominator_large theta ≡ false }
    requires delta { delta_not_positive delta ≡ false }
    requires delta_some { 0 < delta.den }
    requires delta_small { denominator_large delta ≡ false }
    ensures value { result ≡ probabilities_of theta delta }
    ensures apart { result.second < result.first }
    ensures most { result.first ≤ result.parts }
    ensures small { result.parts < 2 ^ 62 }
{
    let theta_parts = denominator(theta);
    let delta_parts = denominator(delta);
    let parts = theta_parts * delta_parts;
    let middle = size(theta) * delta_parts;
    let width = size(delta).min(delta_parts) * theta_parts;
    Terms::least(
        (middle + width).min(parts),
        middle.saturating_sub(width),
        parts,
    )
}

/// `alpha` and `beta` over their least common denominator.
pub fn errors(alpha: Frac, beta: Frac) -> Terms
    requires alpha { error_outside alpha ≡ false }
    requires alpha_small { denominator_large alpha ≡ false }
    requires beta { error_outside beta ≡ false }
    requires beta_small { denominator_large beta ≡ false }
    requires sum { errors_too_large alpha beta ≡ false }
    ensures value { result ≡ errors_of alpha beta }
    ensures alpha_some { 0 < result.first }
    ensures beta_some { 0 < result.second }
    ensures sum { result.first + result.second < result.parts }
    ensures small { result.parts < 2 ^ 62 }
{
    let alpha_parts = denominator(alpha);
    let beta_parts = denominator(beta);
    Terms::least(
        size(alpha) * beta_parts,
        size(beta) * alpha_parts,
        alpha_parts * beta_parts,
    )
}
