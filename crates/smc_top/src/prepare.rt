//! From words and files to a report.

ghost use Rattle.std.specs.Prelude.{◌≡◌, ◌⊎◌, ◌^◌, ◌+◌, ◌<◌, ◌↔◌, List, Some, None, map, string_bytes, IsTrue, IfOk, IfSome, IsErrOf, MatchResult, Ok, Err, ℕ, ◌-◌};
ghost use Rattle.std.specs.List.{list_all};
ghost use Rattle.std.specs.Io.KnownBytes.{Keeps};
ghost use Rattle.smc_io.specs.Bytes.{Told, TakesAtMost};
ghost use Rattle.smc_io.specs.Counts.{Rose};
ghost use Rattle.smc_io.specs.Files.{Named, bytes_at};
ghost use Rattle.chain_model.specs.Limits.{most_model_bytes};
ghost use Rattle.stop_rules.specs.Observers.{is_ready};
ghost use Rattle.smc_settings.specs.Settings.{AreWithin};
ghost use Rattle.smc_top.specs.Asked.{file_of};
ghost use Rattle.smc_top.specs.Outside.{AreFilesOf, NamesFile, NamesNoFile};
ghost use Rattle.smc_top.specs.Report.{IsAnswer, IsReport, bytes_of};

use crate::answering::answer;
use crate::report::Report;
use chain_model::limits::MOST_MODEL_BYTES;
use smc_io::{ReadAll, Source, read_all};
use smc_report::{Reason, Subject};
use smc_settings::{Settings, Usage, settings};
use std::alloc::{AllocError, Global};
use stop_rules::Observer;

/// Why there is no report.
#[derive(Clone, Copy, Debug, PartialEq, Eq)]
pub enum NoReport {
    /// The source failed.
    ReadFault,
    /// Memory ran out.
    OutOfMemory,
}

/// The report of the words over the source's files. The sink isn't touched.
pub(crate) fn prepare<S: Source>(
    alloc: Global,
    words: &[String],
    source: &mut S,
    watch: Vec<Box<dyn Observer>>,
) -> Result<Report, NoReport>
    requires faults { S.faults source.old < 2 ^ 64 - 1 }
    requires opens { S.opens source.old < 2 ^ 64 - 1 }
    requires ready { IsTrue (list_all is_ready (map (λ b. observation b) watch.items)) }
    ensures report { IfOk result (λ report. (files : Named) × AreFilesOf (S.files source.old) files
        × IsReport (map string_bytes words.now) files (map (λ b. observation b) watch.items) report) }
    ensures fault { IsErrOf result NoReport.ReadFault ↔ Rose (S.faults source.old) (S.faults source.new) }
    ensures no_fault { ¬ IsErrOf result NoReport.ReadFault → S.faults source.new ≡ S.faults source.old }
    ensures files { S.files source.new ≡ S.files source.old }
    ensures untouched { NamesNoFile (map string_bytes words.now) → (S.faults source.new ≡ S.faults source.old) × (S.opens source.new ≡ S.opens source.old)
        × (S.opened source.new ≡ S.opened source.old) × Keeps (S.rest source.old) (S.rest source.new) }
    ensures opened { (S.opens source.new ≡ S.opens source.old) ⊎ ((S.opens source.new ≡ S.opens source.old + 1)
        × ((name : List ℕ) × NamesFile (map string_bytes words.now) name × (S.opened source.new ≡ Some name))) }
    ensures taken { Told (S.files source.old) (λ files. Keeps (S.rest source.old) (S.rest source.new)
        ⊎ ((name : List ℕ) × NamesFile (map string_bytes words.now) name
        × TakesAtMost (most_model_bytes + 1) (Some (bytes_at files name)) (S.rest source.new))) }
{
    match settings(alloc, words) {
        Ok(settings) => {
            let answer = prepare_for(alloc, &settings, source, watch);
            let_go(settings);
            answer
        }
        Err(Usage::Words) => lacking_memory(Report::refused_for(alloc, Reason::Usage)),
        Err(Usage::OutOfMemory(_)) => Err(NoReport::OutOfMemory),
    }
}

/// The report of settings over the source's files.
fn prepare_for<S: Source>(
    alloc: Global,
    settings: &Settings,
    source: &mut S,
    watch: Vec<Box<dyn Observer>>,
) -> Result<Report, NoReport>
    requires faults { S.faults source.old < 2 ^ 64 - 1 }
    requires opens { S.opens source.old < 2 ^ 64 - 1 }
    requires within { AreWithin settings.now }
    requires ready { IsTrue (list_all is_ready (map (λ b. observation b) watch.items)) }
    ensures answer { IfOk result (λ report. (files : Named) × AreFilesOf (S.files source.old) files
        × IsAnswer (map (λ b. observation b) watch.items) settings.now (bytes_of files (file_of settings.now)) report) }
    ensures fault { IsErrOf result NoReport.ReadFault ↔ Rose (S.faults source.old) (S.faults source.new) }
    ensures no_fault { ¬ IsErrOf result NoReport.ReadFault → S.faults source.new ≡ S.faults source.old }
    ensures files { S.files source.new ≡ S.files source.old }
    ensures untouched { file_of settings.now ≡ None → (S.faults source.new ≡ S.faults source.old) × (S.opens source.new ≡ S.opens source.old)
        × (S.opened source.new ≡ S.opened source.old) × Keeps (S.rest source.old) (S.rest source.new) }
    ensures opened { IfSome (file_of settings.now) (λ name. (S.opens source.new ≡ S.opens source.old)
        ⊎ ((S.opens source.new ≡ S.opens source.old + 1) × (S.opened source.new ≡ Some name))) }
    ensures taken { IfSome (file_of settings.now) (λ name. Told (S.files source.old) (λ files.
        Keeps (S.rest source.old) (S.rest source.new)
        ⊎ TakesAtMost (most_model_bytes + 1) (Some (bytes_at files name)) (S.rest source.new))) }
{
    match settings {
        Settings::Check { model, .. } => prepare_file(
            alloc,
            settings,
            model.as_str(),
            source,
            watch,
        ),
        Settings::Trace { model, .. } => prepare_file(
            alloc,
            settings,
            model.as_str(),
            source,
            watch,
        ),
        Settings::Expand { model } => prepare_file(alloc, settings, model.as_str(), source, watch),
        Settings::Make { .. } => lacking_memory(answer(alloc, settings, &[], watch)),
        Settings::Help => lacking_memory(answer(alloc, settings, &[], watch)),
    }
}

/// The report of settings over the source's file of this name, which they give.
fn prepare_file<S: Source>(
    alloc: Global,
    settings: &Settings,
    name: &str,
    source: &mut S,
    watch: Vec<Box<dyn Observer>>,
) -> Result<Report, NoReport>
    requires faults { S.faults source.old < 2 ^ 64 - 1 }
    requires opens { S.opens source.old < 2 ^ 64 - 1 }
    requires name { file_of settings.now ≡ Some name.now }
    requires within { AreWithin settings.now }
    requires ready { IsTrue (list_all is_ready (map (λ b. observation b) watch.items)) }
    ensures answer { IfOk result (λ report. (files : Named) × AreFilesOf (S.files source.old) files
        × IsAnswer (map (λ b. observation b) watch.items) settings.now (bytes_at files name.now) report) }
    ensures fault { IsErrOf result NoReport.ReadFault ↔ Rose (S.faults source.old) (S.faults source.new) }
    ensures no_fault { ¬ IsErrOf result NoReport.ReadFault → S.faults source.new ≡ S.faults source.old }
    ensures files { S.files source.new ≡ S.files source.old }
    ensures opened { (S.opens source.new ≡ S.opens source.old)
        ⊎ ((S.opens source.new ≡ S.opens source.old + 1) × (S.opened source.new ≡ Some name.now)) }
    ensures taken { Told (S.files source.old) (λ files. Keeps (S.rest source.old) (S.rest source.new)
        ⊎ TakesAtMost (most_model_bytes + 1) (Some (bytes_at files name.now)) (S.rest source.new)) }
{
    let name = match String::from_str(alloc, name) {
        Ok(name) => name,
        Err(_) => return Err(NoReport::OutOfMemory),
    };
    match read_all(alloc, source, name, MOST_MODEL_BYTES as u64) {
        Ok(text) => lacking_memory(answer(alloc, settings, text.as_slice(), watch)),
        Err(ReadAll::TooLong) => lacking_memory(Report::refused_for(
            alloc,
            Reason::TooLong(Subject::Model),
        )),
        Err(ReadAll::Fault) => Err(NoReport::ReadFault),
        Err(ReadAll::OutOfMemory) => Err(NoReport::OutOfMemory),
    }
}

/// A report, or that there is none for want of memory.
fn lacking_memory(report: Result<Report, AllocError>) -> Result<Report, NoReport>
    ensures { MatchResult report (λ report. result ≡ Ok report) (λ _. result ≡ Err NoReport.OutOfMemory) }
{
    report.map_err(|_| NoReport::OutOfMemory)
}

/// Lets settings go, in one place.
fn let_go(_settings: Settings) {}
