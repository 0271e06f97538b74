ghost use Rattle.std.specs.Prelude.{◌≡◌, ◌≤◌, ◌+◌, ◌^◌};

use sampling_plan::{Class, Plan};
use wald_test::Wald;

/// What decides on the counts of successes and failures.
#[derive(Clone, Copy, Debug)]
pub enum Rule {
    /// The sequential probability ratio test.
    Wald(Wald),
    /// A single sampling plan.
    Plan(Plan),
}

impl Rule {
    ghost use Rattle.stop_rules.specs.Decision.{class_of};

    /// What the rule decides after these counts.
    pub fn class(&self, successes: u64, failures: u64) -> Class
        requires { successes + failures ≤ 2 ^ 28 }
        ensures { result ≡ class_of self.now successes failures }
    {
        match self {
            Rule::Wald(wald) => wald.class(successes, failures),
            Rule::Plan(plan) => plan.class(successes, failures),
        }
    }
}

/// What ends a run: a rule, and the number of traces that are drawn at most, 1 to 2^28. Where `flip` is
/// set, a trace succeeds where its path formula is false.
#[derive(Clone, Copy, Debug)]
pub struct Goal {
    pub rule: Rule,
    pub limit: u64,
    pub flip: bool,
    ghost some: { 1 ≤ limit },
    ghost limited: { limit ≤ 2 ^ 28 },
}
