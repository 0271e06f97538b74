//! `make`.

ghost use Rattle.std.specs.Prelude.{◌≡◌, ◌≤◌, ◌++◌, ℕ, List, length, IsTrue, IfOk, map, pos};
ghost use Rattle.std.specs.List.{list_all};
ghost use Rattle.stop_rules.specs.Observers.{is_ready};
ghost use Rattle.model_gen.specs.Ring.{ring as ring_text};
ghost use Rattle.smc_settings.specs.Settings.{AreWithin};
ghost use Rattle.smc_settings.specs.declared.commands.Settings.TheVariants as command;
ghost use Rattle.smc_top.specs.RingCheck.{twentieth as one_twentieth, ring_check, ring_lines};
ghost use Rattle.smc_top.specs.Asked.{IsCheck};
ghost use Rattle.smc_top.specs.Report.{IsAnswer};
ghost use Rattle.smc_top.specs.RingAnswer.{AnswersRing};

use crate::asking::{Asked, ask};
use crate::checking::sampled;
use crate::report::Report;
use crate::stopping::stopped;
use model_gen::ring;
use smc_num::Frac;
use smc_settings::{Argument, Settings, TestWords};
use sqlite_items::Items;
use std::alloc::{AllocError, Global};
use stop_rules::Observer;

/// How many traces are drawn of a ring at most.
const MOST_RING_TRACES: u64 = 10_000;

/// The report of `make`: two lines, and then the report of `check` on a ring's text.
pub(crate) fn make(
    alloc: Global,
    stations: u32,
    seed: u64,
    workers: u64,
    watch: Vec<Box<dyn Observer>>,
) -> Result<Report, AllocError>
    requires many { stations ≤ 63 }
    requires some { 1 ≤ workers }
    requires most { workers ≤ 64 }
    requires ready { IsTrue (list_all is_ready (map (λ b. observation b) watch.items)) }
    ensures { (text : List ℕ) → IfOk result (IsAnswer (map (λ b. observation b) watch.items)
        (command.Make stations seed workers) text) }
{
    let text = ring(alloc, stations)?;
    let settings = ring_check(alloc, stations, seed, workers)?;
    let answer = checked(alloc, stations, &settings, text.as_slice(), watch);
    let_go(settings);
    answer
}

/// What `check` with these settings answers on a ring's text, after two lines where it draws traces.
fn checked(
    alloc: Global,
    stations: u32,
    settings: &Settings,
    text: &[u8],
    watch: Vec<Box<dyn Observer>>,
) -> Result<Report, AllocError>
    requires check { IsCheck settings.now }
    requires within { AreWithin settings.now }
    requires ready { IsTrue (list_all is_ready (map (λ b. observation b) watch.items)) }
    ensures { IfOk result (AnswersRing (map (λ b. observation b) watch.items) stations settings.now text.now) }
{
    match ask(alloc, settings, text) {
        Ok(asked) => {
            let report = sampled(alloc, settings, &asked, watch);
            let_go_asked(asked);
            with_lines(alloc, stations, text.len(), report?)
        }
        Err(stop) => stopped(alloc, &stop),
    }
}

/// A report after the two lines of its ring, of so many bytes.
fn with_lines(
    alloc: Global,
    stations: u32,
    bytes: usize,
    report: Report,
) -> Result<Report, AllocError>
    ensures status { IfOk result (λ longer. longer.status ≡ report.status) }
    ensures bytes { IfOk result (λ longer. longer.bytes ≡ ring_lines stations bytes ++ report.bytes) }
{
    let lines = format!(in alloc; "stations: {stations}\nmodel bytes: {bytes}\n")?;
    let mut text = lines.into_bytes();
    text.extend_from_slice(report.bytes.as_slice())?;
    Ok(Report::new(report.status, text))
}

/// The settings of the `check` of a ring.
fn ring_check(alloc: Global, stations: u32, seed: u64, workers: u64) -> Result<Settings, AllocError>
    requires { stations ≤ 63 }
    ensures { IfOk result (λ settings. settings ≡ ring_check stations seed workers) }
{
    let steps = stations * stations;
    let property = format!(in alloc; "P>=1/2 [ F<={steps} \"stable\" ]")?;
    let part = twentieth();
    Ok(Settings::Check {
        model: Argument::new(alloc, "")?,
        property: Argument::new(alloc, property.as_str())?,
        given: Items::new(alloc),
        seed,
        test: TestWords::Wald {
            delta: part,
            alpha: part,
            beta: part,
        },
        limit: MOST_RING_TRACES,
        workers,
    })
}

/// One twentieth.
fn twentieth() -> Frac
    ensures { result ≡ one_twentieth }
{
    match Frac::new(1, 20) {
        Ok(number) => number,
        Err(_) => unreachable!(),
    }
}

/// Lets settings go, in one place.
fn let_go(_settings: Settings) {}

/// Lets go what was asked, in one place, since its trees are let go node by node.
fn let_go_asked(_asked: Asked) {}
