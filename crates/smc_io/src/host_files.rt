//! The host's files, through std.
ghost use Rattle.std.specs.Prelude.{◌≡◌, None};

use crate::failed::Failed;
use crate::source::Source;
use std::fs::File;
use std::io::Read;
use std::rt::Files;

/// The host's files. What they hold is not told; each Err of std is a fault.
///
/// This is a trusted edge: that a read gives the file's bytes is the host's word.
pub struct HostFiles<'a, R: Files> {
    rt: &'a R,
    file: Option<R::File>,
    faults: u64,
    opened: Option<String>,
    opens: u64,
}

impl<'a, R: Files> HostFiles<'a, R> {
    /// No file is open, and nothing was opened. It takes no memory.
    pub fn new(rt: &'a R) -> HostFiles<'a, R>
        ensures faults { ⟦<HostFiles<'a, R> as Source>⟧.faults result ≡ 0 }
        ensures opened { ⟦<HostFiles<'a, R> as Source>⟧.opened result ≡ None }
        ensures opens { ⟦<HostFiles<'a, R> as Source>⟧.opens result ≡ 0 }
    {
        HostFiles {
            rt,
            file: None,
            faults: 0,
            opened: None,
            opens: 0,
        }
    }
}

impl<'a, R: Files> Drop for HostFiles<'a, R> {
    fn drop(self) {
        let HostFiles {
            rt: _,
            file: _,
            faults: _,
            opened: _,
            opens: _,
        } = self;
    }
}

impl<'a, R: Files> Source for HostFiles<'a, R> {
    ghost use Rattle.std.specs.Prelude.{None, option_map, string_bytes};

    ghost files = { λ _. None };

    ghost rest = { λ _. None };

    ghost faults = { λ h. h.faults };

    ghost opened = { λ h. option_map (λ name. string_bytes name) h.opened };

    ghost opens = { λ h. h.opens };

    fn open(&mut self, name: String) -> Result<(), Failed> {
        let opening = File::open(self.rt, name.as_str());
        self.opened = Some(name);
        self.opens = self.opens.saturating_add(1);
        match opening {
            Ok(file) => {
                self.file = Some(file);
                Ok(())
            }
            Err(_) => {
                self.faults = self.faults.saturating_add(1);
                Err(Failed)
            }
        }
    }

    /// Where no file was opened there is nothing to read.
    fn read(&mut self, into: &mut [u8]) -> Result<usize, Failed> {
        let Some(file) = &mut self.file else {
            return Ok(0);
        };
        match file.read(into) {
            Ok(count) => Ok(count),
            Err(_) => {
                self.faults = self.faults.saturating_add(1);
                Err(Failed)
            }
        }
    }
}
