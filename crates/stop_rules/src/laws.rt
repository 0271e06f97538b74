//! Laws of the definitions in `specs/`. Each is the contract of a function that does nothing when called.

ghost use Rattle.std.specs.Prelude.{◌≡◌, ℕ, ◌+◌, ◌^◌, ◌<◌, ◌≤◌, ◌++◌, Bool, List, Option, Some, map, length};
ghost use Rattle.chain_model.specs.declared.job.Job.{Job};
ghost use Rattle.chain_model.specs.declared.outcome.Outcome.{Outcome};
ghost use Rattle.chain_model.specs.Outcome.{IsOutcome};
ghost use Rattle.chain_model.proofs.OutcomeLemmas.{one_outcome_at_most};
ghost use Rattle.stop_rules.specs.declared.end.End.{End};
ghost use Rattle.stop_rules.specs.declared.goal.Goal.{Goal};
ghost use Rattle.stop_rules.specs.Decision.{Counts};
ghost use Rattle.stop_rules.specs.Seen.{AreSeen};
ghost use Rattle.stop_rules.specs.Run.{EndsFrom, EndsRun, EndsAmong, GoesPast, Reaches};
ghost use Rattle.stop_rules.specs.Codes.{code_of, given_in, bits_of, truths_in, seen_in, IsCode, IsBlockCode};
ghost use Rattle.stop_rules.specs.Observers.{Observation, kind_of, state_of};
ghost use Rattle.stop_rules.specs.Seats.{Seated, seat_after_all};

use chain_model::{Job, one_outcome};

/// Outcomes of numbered traces: each trace has one at most.
pub trait Outcomes {
    // The trace of this number has this outcome.
    ghost outcome_at: { Self → ℕ → Outcome → Type 0 };

    // It has no other.
    ghost one: { (all : Self) (trace : ℕ) (a b : Outcome) → outcome_at all trace a → outcome_at all trace b → a ≡ b };
}

impl Outcomes for Job {
    ghost outcome_at = { λ job trace outcome. IsOutcome job trace outcome };

    ghost one = { λ job trace a b p q. one_outcome_at_most job trace a b p q };
}

/// Law: a run of a job has at most one end, and a block of its traces at most one code.
pub fn one_end()
    ensures run { (job : Job) (goal : Goal) (a b : End) → EndsRun job goal a → EndsRun job goal b → a ≡ b }
    ensures from { (job : Job) (goal : Goal) (d f : ℕ) (a b : End)
        → EndsFrom (IsOutcome job) goal d f a → EndsFrom (IsOutcome job) goal d f b → a ≡ b }
    ensures code { (job : Job) (first count a b : ℕ)
        → IsBlockCode (IsOutcome job) first count a → IsBlockCode (IsOutcome job) first count b → a ≡ b }
{
    one_outcome();
}

/// Law: over any outcomes too a run has at most one end, and a block at most one code.
pub fn one_end_of<O: Outcomes>()
    ensures end { (all : O) (goal : Goal) (d f : ℕ) (a b : End)
        → EndsFrom (O.outcome_at all) goal d f a → EndsFrom (O.outcome_at all) goal d f b → a ≡ b }
    ensures code { (all : O) (first count a b : ℕ)
        → IsBlockCode (O.outcome_at all) first count a → IsBlockCode (O.outcome_at all) first count b → a ≡ b }
{}

/// Law: a run that goes past some traces, and goes past more of them or ends from there, does so from where it began.
/// So does the run of a job that reaches some counts.
pub fn one_run()
    ensures past { (goal : Goal) (counts now after : Counts) (first more : List Bool)
        → GoesPast goal counts first now → GoesPast goal now more after → GoesPast goal counts (first ++ more) after }
    ensures ended { (goal : Goal) (counts now : Counts) (first : List Bool) (seen : List (Option Bool)) (end : End)
        → GoesPast goal counts first now → EndsAmong goal now seen end
        → EndsAmong goal counts (map (λ truth. Some truth) first ++ seen) end }
    ensures reached { (job : Job) (goal : Goal) (d f : ℕ) (now after : Counts)
        → Reaches (IsOutcome job) goal d f now → Reaches (IsOutcome job) goal now.d now.f after
        → Reaches (IsOutcome job) goal d f after }
    ensures run { (job : Job) (goal : Goal) (d f : ℕ) (now : Counts) (end : End)
        → Reaches (IsOutcome job) goal d f now → EndsFrom (IsOutcome job) goal now.d now.f end
        → EndsFrom (IsOutcome job) goal d f end }
    ensures seen { (job : Job) (goal : Goal) (d f : ℕ) (seen : List (Option Bool)) (end : End)
        → AreSeen (IsOutcome job) goal.flip (d + f) seen → EndsAmong goal (record { d = d; f = f }) seen end
        → EndsFrom (IsOutcome job) goal d f end }
{}

/// Law: over any outcomes too a run that reaches some counts, and others or an end from there, does so from
/// where it began.
pub fn one_run_of<O: Outcomes>()
    ensures reached { (all : O) (goal : Goal) (d f : ℕ) (now after : Counts)
        → Reaches (O.outcome_at all) goal d f now → Reaches (O.outcome_at all) goal now.d now.f after
        → Reaches (O.outcome_at all) goal d f after }
    ensures ended { (all : O) (goal : Goal) (d f : ℕ) (now : Counts) (end : End)
        → Reaches (O.outcome_at all) goal d f now → EndsFrom (O.outcome_at all) goal now.d now.f end
        → EndsFrom (O.outcome_at all) goal d f end }
    ensures seen { (all : O) (goal : Goal) (d f : ℕ) (seen : List (Option Bool)) (end : End)
        → AreSeen (O.outcome_at all) goal.flip (d + f) seen → EndsAmong goal (record { d = d; f = f }) seen end
        → EndsFrom (O.outcome_at all) goal d f end }
{}

/// Law: a code tells the raw truth values that it was made of, and fits 64 bits.
pub fn code_law()
    ensures code { (truths : List Bool) (count : ℕ) → 1 ≤ count → count ≤ 32 → length truths ≤ count
        → IsCode (code_of truths) count }
    ensures given { (truths : List Bool) → length truths ≤ 32 → given_in (code_of truths) ≡ length truths }
    ensures bits { (truths : List Bool) → length truths ≤ 32 → bits_of (length truths) (code_of truths) ≡ truths }
    ensures narrow { (truths : List Bool) → length truths ≤ 32 → code_of truths < 2 ^ 64 }
{}

/// Law: what is read from the code of a block of a job is seen of its traces.
pub fn block_law()
    ensures code { (job : Job) (first count code : ℕ) → 1 ≤ count → count ≤ 32
        → IsBlockCode (IsOutcome job) first count code → IsCode code count }
    ensures seen { (job : Job) (flip : Bool) (first count code : ℕ) → count ≤ 32
        → IsBlockCode (IsOutcome job) first count code → AreSeen (IsOutcome job) flip first (seen_in flip code count) }
    ensures reached { (job : Job) (goal : Goal) (d f count code : ℕ) (after : Counts) → count ≤ 32
        → IsBlockCode (IsOutcome job) (d + f) count code
        → GoesPast goal (record { d = d; f = f }) (truths_in goal.flip code) after
        → Reaches (IsOutcome job) goal d f after }
{}

/// Law: over any outcomes too what is read from the code of a block is seen of its traces.
pub fn block_law_of<O: Outcomes>()
    ensures code { (all : O) (first count code : ℕ) → 1 ≤ count → count ≤ 32
        → IsBlockCode (O.outcome_at all) first count code → IsCode code count }
    ensures seen { (all : O) (flip : Bool) (first count code : ℕ) → count ≤ 32
        → IsBlockCode (O.outcome_at all) first count code → AreSeen (O.outcome_at all) flip first (seen_in flip code count) }
    ensures reached { (all : O) (goal : Goal) (d f count code : ℕ) (after : Counts) → count ≤ 32
        → IsBlockCode (O.outcome_at all) (d + f) count code
        → GoesPast goal (record { d = d; f = f }) (truths_in goal.flip code) after
        → Reaches (O.outcome_at all) goal d f after }
{}

/// Law: the observer of a seat sees outcomes block after block as it sees them all at once.
pub fn seat_law()
    ensures { (seat : Seated) (first more : List Bool)
        → seat_after_all (first ++ more) seat ≡ seat_after_all more (seat_after_all first seat) }
{}

/// Law: an observer's kind and its list of numbers tell what it has seen.
pub fn one_observation()
    ensures { (a b : Observation) → kind_of a ≡ kind_of b → state_of a ≡ state_of b → a ≡ b }
{}
