ghost use Rattle.std.specs.Prelude.{◌≡◌, ◌≤◌, ◌+◌, [], ◌++◌, length, map, take};
ghost use Rattle.stop_rules.specs.Observers.{recorder, digit_of};

use crate::line::Line;
use crate::observer::{Observer, Stay};

/// How many bits a recorder keeps at most.
const MOST: usize = 64;

/// Records the first outcomes, and leaves once it has as many as it wants.
#[derive(Debug, Drop)]
pub struct Recorder {
    most: usize,
    len: usize,
    bits: [bool; MOST],
    ghost few: { most ≤ 64 },
    ghost within: { len ≤ most },
}

impl Recorder {
    /// An observer that wants this many bits, and has seen none yet.
    pub fn new(most: u32) -> Self
        requires some { 1 ≤ most }
        requires few { most ≤ 64 }
        ensures { ⟦<Recorder as Observer>⟧.observation result ≡ recorder most [] }
    {
        Recorder {
            most: most as usize,
            len: 0,
            bits: [false; MOST],
        }
    }
}

impl Observer for Recorder {
    ghost observation = { λ o. recorder o.most (take o.len o.bits) };

    fn feed(&mut self, bit: bool) -> Stay {
        self.bits[self.len] = bit;
        self.len += 1;
        if self.len < self.most {
            Stay::Keep
        } else {
            Stay::Leave
        }
    }

    #[tactic(auto, using(crate::proofs::LineLemmas::nine_digits))]
    fn line(&self, out: &mut Line) {
        out.set(b"first ");
        out.append_number(self.len as u64);
        out.append(b":");
        if self.len > 0 {
            out.append(b" ");
            append_bits(out, &self.bits[..self.len]);
        }
    }
}

/// Puts bits at the end of a line, as digits.
fn append_bits(out: &mut Line, bits: &[bool])
    requires { length out.old + length bits.now ≤ 100 }
    ensures { out.new ≡ out.old ++ map digit_of bits.now }
{
    for bit in bits {
        out.append(if *bit { b"1" } else { b"0" });
    }
}
