ghost use Rattle.std.specs.Prelude.{◌≡◌, IfOk};
ghost use Rattle.smc_top.specs.Report.{IsRefusal};

use crate::status::Status;
use smc_report::{Reason, Refusal, refusal};
use sqlite_items::Items;
use std::alloc::{AllocError, Global};

/// What the program writes, and the status that it then ends with.
#[derive(Debug, Drop)]
pub struct Report {
    pub status: Status,
    pub bytes: Items<u8>,
}

impl Report {
    /// The report with these bytes.
    pub(crate) fn new(status: Status, bytes: Vec<u8>) -> Report
        ensures { result ≡ record { status = status; bytes = bytes.items } }
    {
        Report {
            status,
            bytes: Items::from_vec(bytes),
        }
    }

    /// The report of a refusal.
    pub(crate) fn refused(alloc: Global, why: &Refusal) -> Result<Report, AllocError>
        ensures { IfOk result (IsRefusal why.now) }
    {
        let line = refusal(alloc, why)?;
        Ok(Report::new(Status::of_refusal(why), line))
    }

    /// The report of a refusal for this reason, or want of memory, where the reason is that.
    pub(crate) fn refused_for(alloc: Global, reason: Reason) -> Result<Report, AllocError>
        ensures { IfOk result (IsRefusal reason) }
    {
        match Refusal::new(reason) {
            Ok(refusal) => Report::refused(alloc, &refusal),
            Err(error) => Err(error),
        }
    }
}
