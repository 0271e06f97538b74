//! What `check` asks of a model's text.

ghost use Rattle.std.specs.Prelude.{◌≡◌, ◌≤◌, ◌^◌, Ok, Err, IfOk, IfErr};
ghost use Rattle.chain_model.specs.Paths.{IsPath};
ghost use Rattle.smc_settings.specs.Settings.{AreWithin};
ghost use Rattle.smc_report.specs.Report.{IsGoalOf};
ghost use Rattle.run_goal.specs.Goal.{IsMade};
ghost use Rattle.front_end.specs.Models.{IsModelOf};
ghost use Rattle.front_end.specs.Properties.{IsQuestion};
ghost use Rattle.front_end.specs.Stops.{StopTells, IsReasonOf};
ghost use Rattle.smc_report.specs.declared.reason.Reason.TheVariants as reason;
ghost use Rattle.smc_top.specs.Asked.{IsCheck, Asks, Refuses, RefusesQuestion, IsJob};

use chain_model::{Claim, Job, Path};
use front_end::{Model, Stop, read_model, read_property};
use run_goal::{SettingsFault, goal};
use smc_report::{Reason, Refusal};
use smc_settings::{Settings, TestWords};
use std::alloc::Global;
use stop_rules::Goal;

/// What `check` asks for: what traces are drawn for, what ends the run, and what is claimed.
#[derive(Drop)]
pub struct Asked {
    pub job: Job,
    pub goal: Goal,
    pub claim: Claim,
}

/// A path formula, what is claimed of it, and the goal that the claim and a test make.
#[derive(Drop)]
struct Question {
    path: Path,
    claim: Claim,
    goal: Goal,
}

/// What settings of `check` ask of a model's text, or the first reason to refuse it.
pub(crate) fn ask(alloc: Global, settings: &Settings, text: &[u8]) -> Result<Asked, Stop>
    requires check { IsCheck settings.now }
    requires within { AreWithin settings.now }
    ensures asked { IfOk result (Asks settings.now text.now) }
    ensures goal { IfOk result (λ asked. IsGoalOf settings.now asked.claim asked.goal) }
    ensures refused { IfErr result (StopTells (Refuses settings.now text.now)) }
{
    let Settings::Check {
        property,
        given,
        seed,
        test,
        limit,
        ..
    } = settings
    else {
        unreachable!();
    };
    let model = match read_model(alloc, text, given.as_slice()) {
        Ok(model) => model,
        Err(stop) => return Err(stop),
    };
    match read_question(alloc, property.as_bytes(), &model, test, *limit) {
        Ok(question) => Ok(with_seed(model, question, *seed)),
        Err(stop) => {
            let_go(model);
            Err(stop)
        }
    }
}

/// The question of a property and a test over a model, or the first reason to refuse it.
fn read_question(
    alloc: Global,
    property: &[u8],
    model: &Model,
    test: &TestWords,
    limit: u64,
) -> Result<Question, Stop>
    requires some { 1 ≤ limit }
    requires limited { limit ≤ 2 ^ 28 }
    ensures question { IfOk result (λ asked. IsQuestion property.now model.now (asked.path, asked.claim)) }
    ensures formed { IfOk result (λ asked. IsPath model.now.chain.vars asked.path) }
    ensures made { IfOk result (λ asked. IsMade asked.claim test.now limit (Ok asked.goal)) }
    ensures refused { IfErr result (StopTells (RefusesQuestion property.now model.now test.now limit)) }
{
    let (path, claim) = match read_property(alloc, property, model) {
        Ok(question) => question,
        Err(stop) => return Err(stop),
    };
    match tested(&claim, test, limit) {
        Ok(goal) => Ok(Question { path, claim, goal }),
        Err(stop) => {
            let_go_path(path);
            Err(stop)
        }
    }
}

/// The goal that a claim and a test make.
fn tested(claim: &Claim, test: &TestWords, limit: u64) -> Result<Goal, Stop>
    requires some { 1 ≤ limit }
    requires limited { limit ≤ 2 ^ 28 }
    ensures made { IfOk result (λ goal. IsMade claim.now test.now limit (Ok goal)) }
    ensures refused { IfErr result (StopTells (IsReasonOf reason.Settings (λ fault. IsMade claim.now test.now limit (Err fault)))) }
{
    match goal(claim, test, limit) {
        Ok(goal) => Ok(goal),
        Err(fault) => Err(stop(fault)),
    }
}

/// The stop for a fault of the settings.
fn stop(fault: SettingsFault) -> Stop
    ensures { StopTells (λ why. why ≡ reason.Settings fault) result }
{
    match Refusal::new(Reason::Settings(fault)) {
        Ok(refusal) => Stop::Refused(refusal),
        Err(error) => Stop::OutOfMemory(error),
    }
}

/// What is asked by a question over a model and the seed of the draws.
fn with_seed(model: Model, question: Question, seed: u64) -> Asked
    requires { IsPath model.chain.vars question.path }
    ensures job { IsJob model question.path seed result.job }
    ensures goal { result.goal ≡ question.goal }
    ensures claim { result.claim ≡ question.claim }
{
    Asked {
        job: Job {
            chain: model.chain,
            path: question.path,
            seed,
        },
        goal: question.goal,
        claim: question.claim,
    }
}

/// Lets a model go, in one place, since its trees are let go node by node.
fn let_go(_model: Model) {}

/// Lets a path formula go, for the same reason.
fn let_go_path(_path: Path) {}
