//! Texts that are refused.

ghost use Rattle.std.specs.Prelude.{IfOk};
ghost use Rattle.smc_top.specs.Stopped.{IsReportOfStop};

use crate::report::Report;
use front_end::Stop;
use std::alloc::{AllocError, Global};

/// The report of a refusal, or want of memory.
pub(crate) fn stopped(alloc: Global, stop: &Stop) -> Result<Report, AllocError>
    ensures { IfOk result (IsReportOfStop stop.now) }
{
    match stop {
        Stop::Refused(refusal) => Report::refused(alloc, refusal),
        Stop::OutOfMemory(error) => Err(*error),
    }
}
