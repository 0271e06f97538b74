ghost use Rattle.std.specs.Prelude.{◌≡◌, ℕ, ◌<◌, Bool, false};
ghost use Rattle.path_monitor.specs.Verdicts.{next_number};
ghost use Rattle.path_monitor.specs.Lanes.{HasBit, AreVerdicts, IsSeen};

use crate::monitor::next_number;
use chain_model::{Path, PathKind};

/// Monitors of one path formula for eight traces side by side, which began together. Bit l of each byte is that of
/// lane l.
#[derive(Clone, Copy, Debug)]
pub struct MaskMonitor {
    pub(crate) kind: PathKind,
    pub(crate) seen: u32,
    pub(crate) left: u8,
}

impl MaskMonitor {
    /// Monitors that have seen no pair yet, for the lanes that are live.
    pub fn new(path: &Path, live: u8) -> MaskMonitor
        ensures kind { result.kind ≡ path.now.kind }
        ensures seen { result.seen ≡ 0 }
        ensures left { result.left ≡ live }
    {
        MaskMonitor {
            kind: path.kind,
            seen: 0,
            left: live,
        }
    }

    /// The lanes that are live and not settled.
    pub fn left(&self) -> u8
        ensures { result ≡ self.now.left }
    {
        self.left
    }

    /// The lanes of which this further pair settles the formula as true, and those of which it settles it as false.
    /// Lanes that are not left have 0 in both.
    pub fn see(&mut self, first: u8, second: u8) -> (u8, u8)
        ensures lanes { (l : ℕ) → l < 8
            → IsSeen self.old.kind self.old.seen l first second self.old.left self.new.left result.0 result.1 }
        ensures number { self.new.seen ≡ next_number self.old.kind self.old.seen }
        ensures kind { self.new.kind ≡ self.old.kind }
    {
        let (holds, fails) = verdicts(self.kind, self.seen, first, second);
        let left = self.left;
        self.seen = next_number(self.kind, self.seen);
        self.left = left & ((holds | fails) ^ 255);
        (holds & left, fails & left)
    }

    /// Takes a lane off: nothing more is said of it.
    pub fn take_off(&mut self, lane: u32)
        requires { lane < 8 }
        ensures lane { HasBit lane self.new.left false }
        ensures others { (l : ℕ) → l < 8 → ¬ (l ≡ lane) → (t : Bool) → HasBit l self.old.left t → HasBit l self.new.left t }
        ensures kind { self.new.kind ≡ self.old.kind }
        ensures seen { self.new.seen ≡ self.old.seen }
    {
        self.left &= (1u8 << lane) ^ 255;
    }
}

/// The lanes of which a pair says true, and those of which it says false.
fn verdicts(kind: PathKind, seen: u32, first: u8, second: u8) -> (u8, u8)
    ensures { (l : ℕ) → l < 8 → AreVerdicts kind seen l first second result.0 result.1 }
{
    match kind {
        PathKind::Next => {
            if seen == 0 {
                (0, 0)
            } else {
                (second, second ^ 255)
            }
        }
        PathKind::Finally(horizon) => {
            if seen == horizon {
                (second, second ^ 255)
            } else {
                (second, 0)
            }
        }
        PathKind::Globally(horizon) => {
            if seen == horizon {
                (second, second ^ 255)
            } else {
                (0, second ^ 255)
            }
        }
        PathKind::Until(horizon) => {
            if seen == horizon {
                (second, second ^ 255)
            } else {
                (second, (second | first) ^ 255)
            }
        }
    }
}
