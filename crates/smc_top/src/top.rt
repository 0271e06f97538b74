ghost use Rattle.std.specs.Prelude.{◌≡◌, ◌⊎◌, ◌^◌, ◌-◌, ◌+◌, ◌<◌, ℕ, List, Some, map, string_bytes, IsTrue};
ghost use Rattle.std.specs.List.{list_all};
ghost use Rattle.std.specs.Io.KnownBytes.{Appends, Keeps};
ghost use Rattle.smc_io.specs.Bytes.{Told, AppendsPart, TakesAtMost};
ghost use Rattle.smc_io.specs.Counts.{Rose};
ghost use Rattle.smc_io.specs.Files.{Named, bytes_at};
ghost use Rattle.chain_model.specs.Limits.{most_model_bytes};
ghost use Rattle.stop_rules.specs.Observers.{is_ready};
ghost use Rattle.smc_report.specs.Refusals.{refusal_line};
ghost use Rattle.smc_report.specs.declared.reason.Reason.TheVariants as reason;
ghost use Rattle.smc_top.specs.Outside.{IsCutShort, IsDone, AreFilesOf, NamesFile, NamesNoFile, IsRefusedOver};
ghost use Rattle.smc_top.specs.Report.{IsReport};
ghost use Rattle.smc_top.specs.declared.report.Report.{Report};

use crate::gate::Gate;
use crate::prepare::{NoReport, prepare};
use crate::status::Status;
use smc_io::{Sink, Source, write_all};
use std::alloc::Global;
use std::thread::Threads;
use stop_rules::Observer;

/// Does all that the program does: reads the words, reads the model, draws traces, and writes the report.
pub fn run<R: Threads + Sync, S: Source, K: Sink, G: Gate + Sync>(
    _rt: &R,
    alloc: Global,
    words: &[String],
    source: &mut S,
    sink: &mut K,
    _gate: &G,
    watch: Vec<Box<dyn Observer>>,
) -> Status
    requires source_faults { S.faults source.old < 2 ^ 64 - 1 }
    requires source_opens { S.opens source.old < 2 ^ 64 - 1 }
    requires sink_faults { K.faults sink.old < 2 ^ 64 - 1 }
    requires ready { IsTrue (list_all is_ready (map (λ b. observation b) watch.items)) }

    // Where nothing is cut short, the answer and what was written are the report of the words over the source's files;
    // where the source doesn't tell its files, over some files.
    ensures report { ¬ IsCutShort result → (files : Named) × (report : Report) × AreFilesOf (S.files source.old) files
        × IsReport (map string_bytes words.now) files (map (λ b. observation b) watch.items) report
        × (result ≡ report.status) × Appends (K.written sink.old) (K.written sink.new) report.bytes }
    ensures source_kept { ¬ IsCutShort result → S.faults source.new ≡ S.faults source.old }
    ensures sink_kept { ¬ IsCutShort result → K.faults sink.new ≡ K.faults sink.old }
    // What nothing refuses is done.
    ensures done { ¬ IsCutShort result → Told (S.files source.old) (λ files.
        ¬ IsRefusedOver (map string_bytes words.now) files → IsDone result) }

    // The source.
    ensures read_fault { result ≡ Status.ReadFault → Rose (S.faults source.old) (S.faults source.new) }
    ensures read_fault_line { result ≡ Status.ReadFault → (line : List ℕ) × (refusal_line reason.ReadFault ≡ Some line)
        × Appends (K.written sink.old) (K.written sink.new) line }
    ensures source_fault { Rose (S.faults source.old) (S.faults source.new)
        → (result ≡ Status.ReadFault) ⊎ (result ≡ Status.WriteFault) }
    ensures files { S.files source.new ≡ S.files source.old }
    ensures untouched { NamesNoFile (map string_bytes words.now) → (S.faults source.new ≡ S.faults source.old) × (S.opens source.new ≡ S.opens source.old)
        × (S.opened source.new ≡ S.opened source.old) × Keeps (S.rest source.old) (S.rest source.new) }
    ensures opened { (S.opens source.new ≡ S.opens source.old) ⊎ ((S.opens source.new ≡ S.opens source.old + 1)
        × ((name : List ℕ) × NamesFile (map string_bytes words.now) name × (S.opened source.new ≡ Some name))) }
    ensures taken { Told (S.files source.old) (λ files. Keeps (S.rest source.old) (S.rest source.new)
        ⊎ ((name : List ℕ) × NamesFile (map string_bytes words.now) name
        × TakesAtMost (most_model_bytes + 1) (Some (bytes_at files name)) (S.rest source.new))) }

    // The sink.
    ensures write_fault { result ≡ Status.WriteFault → Rose (K.faults sink.old) (K.faults sink.new) }
    ensures sink_fault { Rose (K.faults sink.old) (K.faults sink.new) → result ≡ Status.WriteFault }
    ensures part { result ≡ Status.WriteFault → ¬ Rose (S.faults source.old) (S.faults source.new)
        → (files : Named) × (report : Report) × AreFilesOf (S.files source.old) files
        × IsReport (map string_bytes words.now) files (map (λ b. observation b) watch.items) report
        × AppendsPart (K.written sink.old) (K.written sink.new) report.bytes }
    ensures part_of_line { result ≡ Status.WriteFault → Rose (S.faults source.old) (S.faults source.new)
        → (line : List ℕ) × (refusal_line reason.ReadFault ≡ Some line)
        × AppendsPart (K.written sink.old) (K.written sink.new) line }

    // Memory.
    ensures silent { result ≡ Status.OutOfMemory → Keeps (K.written sink.old) (K.written sink.new) }
{
    match prepare(alloc, words, source, watch) {
        Ok(report) => written(sink, report.status, report.bytes.as_slice()),
        Err(NoReport::ReadFault) => written(sink, Status::ReadFault, read_fault_line()),
        Err(NoReport::OutOfMemory) => Status::OutOfMemory,
    }
}

/// The line of a read fault, which needs no memory.
fn read_fault_line() -> &'static [u8]
    ensures { refusal_line reason.ReadFault ≡ Some result.now }
{
    b"refused 400: read fault\n"
}

/// Writes a report and answers its status, or that the sink failed.
fn written<K: Sink>(sink: &mut K, status: Status, bytes: &[u8]) -> Status
    requires { K.faults sink.old < 2 ^ 64 - 1 }
    ensures { ((K.faults sink.new ≡ K.faults sink.old) × (result ≡ status)
        × Appends (K.written sink.old) (K.written sink.new) bytes.now)
        ⊎ (Rose (K.faults sink.old) (K.faults sink.new) × (result ≡ Status.WriteFault)
        × AppendsPart (K.written sink.old) (K.written sink.new) bytes.now) }
{
    match write_all(sink, bytes) {
        Ok(()) => status,
        Err(_) => Status::WriteFault,
    }
}
