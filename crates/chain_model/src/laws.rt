//! Laws of the definitions in `specs/`. Each is the contract of a function that does nothing when called.

ghost use Rattle.std.specs.Prelude.{◌≡◌, ℕ, ◌+◌, ◌≤◌, ◌<◌, ◌^◌, ◌↔◌, List, [], Ok, Err, IfOk, length, take, sum};
ghost use Rattle.std.specs.List.{AllPairs, Contains};
ghost use Rattle.smc_num.specs.Fraction.{Fraction};
ghost use Rattle.trace_streams.specs.Pick.{IsTaken};
ghost use Rattle.chain_model.specs.declared.chain.Chain.{Chain};
ghost use Rattle.chain_model.specs.declared.steps.Choice.{Choice};
ghost use Rattle.chain_model.specs.declared.job.Job.{Job};
ghost use Rattle.chain_model.specs.declared.outcome.Outcome.{Outcome};
ghost use Rattle.chain_model.specs.Limits.{most_modules};
ghost use Rattle.chain_model.specs.States.{State, IsState};
ghost use Rattle.chain_model.specs.Choices.{choices_of, IsChoice, IsEarlier};
ghost use Rattle.chain_model.specs.Step.{Configuration, no_choice, numerators_of, denominator_of, branch_number, step_of};
ghost use Rattle.chain_model.specs.Trace.{configuration_at};
ghost use Rattle.chain_model.specs.Outcome.{IsOutcome};

/// Law: the choices of a state are all that there are, each once: first those without an action and then those of each
/// action, and among these the commands of the first module count most.
pub fn choices_are_all_in_order()
    ensures all { (chain : Chain) (state : State) (choices : List Choice) → choices_of chain state ≡ Ok choices
        → (choice : Choice) → Contains choices choice ↔ IsChoice chain state choice }
    ensures order { (chain : Chain) (state : State) (choices : List Choice) → choices_of chain state ≡ Ok choices
        → AllPairs IsEarlier choices }
{}

/// Law: in a state without a choice a step takes nothing and draws nothing, and the state stays as it is.
pub fn stays_without_choice()
    ensures { (chain : Chain) (draw : ℕ → ℕ) (from : Configuration) → choices_of chain from.state ≡ Ok []
        → step_of chain draw from ≡ Ok (from, record { choice = no_choice; branches = [] }) }
{}

/// Law: of several branches that one is taken whose weights hold the pick, which is at least the sum of the weights
/// before the branch and below the sum through it, as numerators over their least common denominator.
pub fn branch_holds_the_pick()
    ensures { (draw : ℕ → ℕ) (position number : ℕ) (weights : List Fraction) → 2 ≤ length weights
        → draw position < 2 ^ 64 → sum (numerators_of weights) ≡ denominator_of weights → 1 ≤ denominator_of weights
        → (branch_number draw position weights ≡ number) ↔ ((number < length weights)
        × IsTaken (sum (take number (numerators_of weights))) (sum (take (number + 1) (numerators_of weights)))
        (denominator_of weights) (draw position)) }
{}

/// Law: a step from a state of the chain leads to a state of the chain.
pub fn step_keeps_ranges()
    ensures { (chain : Chain) (draw : ℕ → ℕ) (from : Configuration) → IsState chain from.state
        → IfOk (step_of chain draw from) (λ step. IsState chain step.0.state) }
{}

/// Law: each state of a trace is a state of the job's chain.
pub fn traces_keep_ranges()
    ensures { (job : Job) (trace k : ℕ) → IfOk (configuration_at job trace k) (λ from. IsState job.chain from.state) }
{}

/// Law: a trace has at most one outcome.
pub fn one_outcome()
    ensures { (job : Job) (trace : ℕ) (a b : Outcome) → IsOutcome job trace a → IsOutcome job trace b → a ≡ b }
{}

/// Law: a choice has a command of each of at most 64 modules, so a step takes at most 65 draws: one for its choice, and
/// one for the branch of each command.
pub fn steps_draw_few()
    ensures commands { (chain : Chain) (state : State) (choices : List Choice) → choices_of chain state ≡ Ok choices
        → (choice : Choice) → Contains choices choice → length choice.commands ≤ most_modules }
    ensures draws { (chain : Chain) (draw : ℕ → ℕ) (from : Configuration)
        → IfOk (step_of chain draw from) (λ step. step.0.position ≤ from.position + (most_modules + 1)) }
{}
