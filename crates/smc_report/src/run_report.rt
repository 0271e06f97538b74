ghost use Rattle.std.specs.Prelude.{◌≡◌, ◌+◌, ◌<◌, ◌≤◌, ◌^◌, IfOk, string_bytes};
ghost use Rattle.smc_report.specs.Report.{result_line, fault_lines, cause_lines, count_lines, observer_lines, check_report, IsGoalOf};

use crate::asked::asked_lines;
use crate::parts::joined;
use chain_model::Claim;
use smc_settings::Settings;
use std::alloc::{AllocError, Global};
use stop_rules::{Cause, End, Goal, Line};

/// The report of a run: its result, its counts, what was asked, and the observers' lines. The step and the cause are
/// read for a fault alone.
pub fn report(
    alloc: Global,
    settings: &Settings,
    claim: &Claim,
    goal: &Goal,
    end: &End,
    step: u32,
    cause: &[u8],
    lines: &[Line],
) -> Result<Vec<u8>, AllocError>
    requires made { IsGoalOf settings.now claim.now goal.now }
    requires drawn { end.now.d + end.now.f ≤ goal.now.limit }
    ensures { IfOk result (λ text. text.items ≡
        check_report settings.now claim.now end.now step cause.now lines.now) }
{
    let Settings::Check { test, seed, .. } = settings else {
        unreachable!();
    };
    let fault = cause_lines(alloc, end, step, cause)?;
    let counts = count_lines(alloc, end)?;
    let asked = asked_lines(alloc, claim, test, goal, *seed)?;
    let observers = observer_lines(alloc, lines)?;
    joined(
        alloc,
        &[
            result_line(end.cause),
            fault.as_slice(),
            counts.as_bytes(),
            asked.as_bytes(),
            observers.as_slice(),
        ],
    )
}

/// The line of the result.
fn result_line(cause: Cause) -> &'static [u8]
    ensures { result.now ≡ result_line cause }
{
    match cause {
        Cause::Accept => b"result: accepted\n",
        Cause::Reject => b"result: rejected\n",
        Cause::Close => b"result: undecided (close)\n",
        Cause::Limit => b"result: undecided (limit)\n",
        Cause::Fault => b"result: fault\n",
    }
}

/// The lines of the step and the cause, which the end by a fault alone has.
fn cause_lines(alloc: Global, end: &End, step: u32, cause: &[u8]) -> Result<Vec<u8>, AllocError>
    requires { end.now.d + end.now.f < 2 ^ 64 }
    ensures { IfOk result (λ text. text.items ≡ cause_lines end.now.cause end.now step cause.now) }
{
    match end.cause {
        Cause::Accept => Ok(Vec::new(alloc)),
        Cause::Reject => Ok(Vec::new(alloc)),
        Cause::Close => Ok(Vec::new(alloc)),
        Cause::Limit => Ok(Vec::new(alloc)),
        Cause::Fault => fault_lines(alloc, end, step, cause),
    }
}

/// The lines of the trace, the step and the cause of a fault.
fn fault_lines(alloc: Global, end: &End, step: u32, cause: &[u8]) -> Result<Vec<u8>, AllocError>
    requires { end.now.d + end.now.f < 2 ^ 64 }
    ensures { IfOk result (λ text. text.items ≡ fault_lines end.now step cause.now) }
{
    let trace = end.d + end.f;
    let head = format!(in alloc; "trace: {trace}\nstep: {step}\ncause: ")?;
    let mut text = head.into_bytes();
    text.extend_from_slice(cause)?;
    text.extend_from_slice(b"\n")?;
    Ok(text)
}

/// The lines of the counts.
fn count_lines(alloc: Global, end: &End) -> Result<String, AllocError>
    requires { end.now.d + end.now.f < 2 ^ 64 }
    ensures { IfOk result (λ text. string_bytes text ≡ count_lines end.now) }
{
    let samples = end.d + end.f;
    let successes = end.d;
    let failures = end.f;
    format!(in alloc; "samples: {samples}\nsuccesses: {successes}\nfailures: {failures}\n")
}

/// The lines of the observers.
fn observer_lines(alloc: Global, lines: &[Line]) -> Result<Vec<u8>, AllocError>
    ensures { IfOk result (λ text. text.items ≡ observer_lines lines.now) }
{
    let mut text = Vec::new(alloc);
    for line in lines {
        text.extend_from_slice(line.bytes())?;
        text.extend_from_slice(b"\n")?;
    }
    Ok(text)
}
