//! `check`.

ghost use Rattle.std.specs.Prelude.{◌≡◌, IsTrue, IfOk, map};
ghost use Rattle.std.specs.List.{list_all};
ghost use Rattle.stop_rules.specs.Observers.{is_ready};
ghost use Rattle.smc_settings.specs.Settings.{AreWithin};
ghost use Rattle.smc_report.specs.Report.{IsGoalOf};
ghost use Rattle.smc_top.specs.Asked.{IsCheck};
ghost use Rattle.smc_top.specs.Report.{IsRun, IsAnswer};

use crate::asking::{Asked, ask};
use crate::report::Report;
use crate::status::Status;
use crate::stopping::stopped;
use chain_model::TraceFault;
use sampling_run::draw;
use smc_report::{cause, report};
use smc_settings::Settings;
use std::alloc::{AllocError, Global};
use stop_rules::Observer;

/// The report of `check` on a model's text.
pub(crate) fn check(
    alloc: Global,
    settings: &Settings,
    text: &[u8],
    watch: Vec<Box<dyn Observer>>,
) -> Result<Report, AllocError>
    requires check { IsCheck settings.now }
    requires within { AreWithin settings.now }
    requires ready { IsTrue (list_all is_ready (map (λ b. observation b) watch.items)) }
    ensures { IfOk result (IsAnswer (map (λ b. observation b) watch.items) settings.now text.now) }
{
    match ask(alloc, settings, text) {
        Ok(asked) => {
            let answer = sampled(alloc, settings, &asked, watch);
            let_go(asked);
            answer
        }
        Err(stop) => stopped(alloc, &stop),
    }
}

/// The report of the run that is asked for.
pub(crate) fn sampled(
    alloc: Global,
    settings: &Settings,
    asked: &Asked,
    watch: Vec<Box<dyn Observer>>,
) -> Result<Report, AllocError>
    requires goal { IsGoalOf settings.now asked.now.claim asked.now.goal }
    requires ready { IsTrue (list_all is_ready (map (λ b. observation b) watch.items)) }
    ensures { IfOk result (IsRun settings.now (map (λ b. observation b) watch.items) asked.now) }
{
    let drawn = draw(alloc, &asked.job, asked.goal, watch)?;
    // The step and the cause are read for a fault alone.
    let (step, fault) = drawn.fault.unwrap_or((0, TraceFault::ZeroDivisor));
    let cause = cause(alloc, &asked.job.chain, &fault)?;
    let bytes = report(
        alloc,
        settings,
        &asked.claim,
        &asked.goal,
        &drawn.end,
        step,
        cause.as_slice(),
        drawn.lines.as_slice(),
    )?;
    Ok(Report::new(Status::of_run(drawn.end.cause), bytes))
}

/// Lets go what was asked, in one place, since its trees are let go node by node.
fn let_go(_asked: Asked) {}
