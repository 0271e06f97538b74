//! `trace`.

ghost use Rattle.std.specs.Prelude.{◌≡◌, List, IfOk};
ghost use Rattle.stop_rules.specs.Observers.{Observation};
ghost use Rattle.smc_top.specs.Asked.{IsTrace};
ghost use Rattle.smc_top.specs.Report.{IsTraced, IsAnswer};

use crate::report::Report;
use crate::status::Status;
use crate::stopping::stopped;
use chain_model::Chain;
use front_end::{Model, read_model};
use smc_settings::Settings;
use std::alloc::{AllocError, Global};
use trace_report::{Ended, trace_report};

/// The report of `trace` on a model's text.
pub(crate) fn trace(alloc: Global, settings: &Settings, text: &[u8]) -> Result<Report, AllocError>
    requires { IsTrace settings.now }
    ensures { (watched : List Observation) → IfOk result (IsAnswer watched settings.now text.now) }
{
    let Settings::Trace {
        given,
        seed,
        index,
        steps,
        ..
    } = settings
    else {
        unreachable!();
    };
    match read_model(alloc, text, given.as_slice()) {
        Ok(model) => traced_model(alloc, model, *seed, *index, *steps),
        Err(stop) => stopped(alloc, &stop),
    }
}

/// The report of so many steps of the trace of this index of a model, which is let go.
fn traced_model(
    alloc: Global,
    model: Model,
    seed: u64,
    index: u64,
    steps: u32,
) -> Result<Report, AllocError>
    ensures { IfOk result (IsTraced model.chain seed index steps) }
{
    traced(alloc, &model.chain, seed, index, steps)
}

/// The report of so many steps of the trace of this index of a chain.
fn traced(
    alloc: Global,
    chain: &Chain,
    seed: u64,
    index: u64,
    steps: u32,
) -> Result<Report, AllocError>
    ensures { IfOk result (IsTraced chain.now seed index steps) }
{
    let (bytes, ended) = trace_report(alloc, chain, seed, index, steps)?;
    Ok(Report::new(status(ended), bytes))
}

/// The status of a trace that ended so.
fn status(ended: Ended) -> Status
    ensures whole { ended ≡ Ended.Whole → result ≡ Status.Accepted }
    ensures fault { ended ≡ Ended.Fault → result ≡ Status.TraceFault }
{
    match ended {
        Ended::Whole => Status::Accepted,
        Ended::Fault => Status::TraceFault,
    }
}
