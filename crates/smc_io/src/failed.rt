//! The one answer of a source or a sink that is not Ok.

use std::error::Error;
use std::fmt;

/// A call on a source or a sink failed. Its count of faults says so too.
#[derive(Clone, Copy, Debug, PartialEq, Eq)]
pub struct Failed;

impl fmt::Display for Failed {
    fn fmt<W: fmt::Write>(&self, f: &mut fmt::Formatter<W>) -> fmt::Result {
        f.write_str("the call failed")
    }
}

impl Error for Failed {}
