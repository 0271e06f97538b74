//! The part that a draw picks, and the draws that take a branch.

ghost use Rattle.std.specs.Prelude.{◌≡◌, ℕ, ◌+◌, ◌*◌, ◌^◌, ◌<◌, ◌≤◌, ◌↔◌};
ghost use Rattle.trace_streams.specs.Pick.{pick_of, IsTaken, IsLeastCover, ceil_div, first_draw};

/// The part that the draw `w` picks of `parts` equal parts, numbered from 0.
#[inline]
pub fn pick(w: u64, parts: u64) -> u64
    requires some { 1 ≤ parts }
    requires fits { parts ≤ 2 ^ 48 }
    ensures value { result ≡ pick_of w parts }
    ensures within { result < parts }
{
    ((u128::from(w) * u128::from(parts)) >> 64) as u64
}

/// The law on branch intervals, for every branch and every draw. It does nothing when called.
pub fn branch_interval_law()
    // the division that rounds up gives the least number whose product reaches the dividend
    ensures rounds_up { (n divisor : ℕ) → 1 ≤ divisor → IsLeastCover n divisor (ceil_div n divisor) }
    // a branch is taken exactly for the draws from the first for the sum before it up to but not including the first for
    // the sum through it
    ensures interval { (before through parts w : ℕ) → 1 ≤ parts
        → IsTaken before through parts w ↔ ((first_draw before parts ≤ w) × (w < first_draw through parts)) }
{}

#[cfg(test)]
mod tests {
    use super::*;

    #[test]
    fn a_draw_picks_the_part_that_it_falls_into(rt: HostRuntime) {
        let cases = [
            (6148914691236517205, 3, 0),
            (6148914691236517206, 3, 1),
            (u64::MAX, 3, 2),
            (0, 3, 0),
            (u64::MAX, 1, 0),
            (0x7fff_ffff_ffff_ffff, 2, 0),
            (0x8000_0000_0000_0000, 2, 1),
            (u64::MAX, 0x1_0000_0000_0000, 0xffff_ffff_ffff),
        ];
        for (w, parts, part) in cases {
            assert!(rt; 1 <= parts && parts <= 0x1_0000_0000_0000);
            assert_eq!(rt; pick(w, parts), part, "{w} of {parts}");
        }
    }
}
