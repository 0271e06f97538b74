//! Which calls of a source or a sink in memory are to fail.
ghost use Rattle.std.specs.Prelude.{◌≡◌, ◌↔◌, IsTrue};
ghost use Rattle.smc_io.specs.Counts.{IsToFail, risen};

use std::marker::Model;

/// The numbers of the calls that are to fail, counted from 1, and how many calls there were.
#[derive(Drop)]
pub struct Failures {
    fail: Vec<u64>,
    calls: u64,
}

impl Model for Failures {
    ghost use Rattle.smc_io.specs.Memory.{Planned};

    ghost Value = { Planned };

    ghost view = { λ f. record { fail = f.fail.items; calls = f.calls } };
}

impl Failures {
    pub fn new(fail: Vec<u64>) -> Failures
        ensures fail { result.fail ≡ fail.items }
        ensures calls { result.calls ≡ 0 }
    {
        Failures { fail, calls: 0 }
    }

    /// Counts one more call, and says whether it is to fail.
    pub fn next_fails(&mut self) -> bool
        ensures fails { IsTrue result ↔ IsToFail self.old.fail self.old.calls }
        ensures fail { self.new.fail ≡ self.old.fail }
        ensures calls { self.new.calls ≡ risen self.old.calls }
    {
        self.calls = self.calls.saturating_add(1);
        self.fail.contains(&self.calls)
    }
}
