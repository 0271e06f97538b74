//! The draws of one trace, taken in order from the trace's own stream.

ghost use Rattle.std.specs.Prelude.{◌≡◌, ◌+◌, ◌*◌, ◌^◌, ◌<◌, ◌≤◌};
ghost use Rattle.rand_chacha.specs.ChaCha.{key_of};
ghost use Rattle.trace_streams.specs.Draws.{key_bytes, draw_at, Place};

use rand_chacha::ChaCha8Rng;
use rand_core::SeedableRng;
use rand_core::utils::NextWord;
use std::marker::Model;

/// The draws of one trace, in order. A contract sees the seed, the number of the trace and the place, which is the number
/// of draws taken.
#[derive(Debug, Drop)]
pub struct Draws {
    seed: u64,
    trace: u64,
    place: u64,
    words: ChaCha8Rng,
}

impl Model for Draws {
    ghost Value = { Place };

    ghost view = { λ d. record { seed = d.seed; trace = d.trace; place = d.place } };

    ghost invariant = { λ d. d.words ≡ record {
      key = key_of (key_bytes d.seed);
      stream = d.trace;
      word_pos = 2 * d.place;
    } };
}

impl Draws {
    /// The draws of trace number `trace` under `seed`, from the first one on.
    #[inline]
    pub fn new(seed: u64, trace: u64) -> Self
        ensures { result ≡ record { seed = seed; trace = trace; place = 0 } }
    {
        let mut words = ChaCha8Rng::from_seed(key(seed));
        words.set_stream(trace);
        Draws {
            seed,
            trace,
            place: 0,
            words,
        }
    }

    /// The next draw, a number of 64 bits.
    #[inline]
    #[tactic(auto, unfolding(crate::specs::Draws::draw_at, crate::specs::Draws::word_of))]
    pub fn next(&mut self) -> u64
        requires { self.old.place < 2 ^ 62 }
        ensures draw { result ≡ draw_at self.old.seed self.old.trace self.old.place }
        ensures moves { self.new ≡ record self.old { place = self.old.place + 1 } }
    {
        let low = u64::from(self.words.next_word());
        let high = u64::from(self.words.next_word());
        self.place += 1;
        (high << 32) | low
    }

    /// How many draws were taken.
    #[inline]
    pub fn place(&self) -> u64
        ensures { result ≡ self.now.place }
    {
        self.place
    }

    /// Goes back to an earlier place: the draws from there on are drawn again, and are the same.
    pub fn back_to(&mut self, place: u64)
        requires { place ≤ self.old.place }
        ensures { self.new ≡ record self.old { place = place } }
    {
        self.words.set_word_pos(2 * u128::from(place));
        self.place = place;
    }
}

// The key of a seed.
fn key(seed: u64) -> [u8; 32]
    ensures { result ≡ key_bytes seed }
{
    let mut bytes = [0; 32];
    bytes[..8].copy_from_slice(&seed.to_le_bytes());
    bytes
}

#[cfg(test)]
mod tests {
    use super::*;
    use std::process::Abort;

    // The draw at a place, by drawing up to it.
    fn drawn(rt: &impl Abort, seed: u64, trace: u64, place: u64) -> u64 {
        let mut draws = Draws::new(seed, trace);
        for _ in 0..place {
            assert!(rt; draws.place() < 1000);
            draws.next();
        }
        assert!(rt; draws.place() < 1000);
        draws.next()
    }

    // The published key stream of ChaCha8 for a key of zeros, in stream 0, as numbers of 64 bits.
    #[test]
    fn seed_zero_draws_the_published_key_stream(rt: HostRuntime) {
        let published = [
            0xd640_5f89_2fef_003e,
            0xa1a5_091f_e8b8_5b7f,
            0x3b7f_9ace_c30e_842c,
            0x1e1a_71ef_88e1_1b18,
            0x416f_21b9_72e1_4c98,
            0x1956_6d45_6753_449f,
            0x01b0_86da_a342_4a31,
            0x42fe_0c0e_b8fd_7b38,
        ];
        for (place, draw) in (0u64..).zip(published) {
            assert_eq!(rt; drawn(&rt, 0, 0, place), draw, "at {place}");
        }
    }

    // Found by a program that knows nothing of this one.
    #[test]
    fn draws_depend_on_seed_trace_and_place(rt: HostRuntime) {
        let cases = [
            (1, 0, 0, 7037237572835827407),
            (1, 0, 1, 5440448899038119230),
            (1, 0, 2, 14725191807199933458),
            (1, 0, 3, 16900043976841441594),
            (1, 0, 31, 13567054519166506909),
            (1, 0, 32, 9016973557167667531),
            (1, 0, 100, 15494299962192072374),
            (1, 1, 0, 1909849311801240084),
            (1, 0x1_0000_0000, 0, 8873509597995812422),
            (0x1_0000_0000, 0, 0, 12908492258450931663),
            (258, 0, 0, 8309414872082191012),
            (258, 7, 40, 2685699998599211283),
            (513, 0, 0, 17417152901249687936),
            (0, u64::MAX, 33, 13299089272316513118),
            (u64::MAX, 0, 0, 12992469554959567047),
            (u64::MAX, u64::MAX, 99, 12628286587337110577),
        ];
        for (seed, trace, place, draw) in cases {
            assert_eq!(rt;
                drawn(&rt, seed, trace, place),
                draw,
                "{seed}, {trace}, {place}"
            );
        }
    }

    #[test]
    fn the_place_counts_the_draws(rt: HostRuntime) {
        let mut draws = Draws::new(1, 0);
        assert_eq!(rt; draws.place(), 0);
        draws.next();
        draws.next();
        assert_eq!(rt; draws.place(), 2);
    }

    #[test]
    fn a_key_begins_with_the_low_byte_of_its_seed(rt: HostRuntime) {
        let mut bytes = [0; 32];
        bytes[0] = 2;
        bytes[1] = 1;
        assert_eq!(rt; key(258), bytes);
    }

    #[test]
    fn going_back_gives_the_same_draws(rt: HostRuntime) {
        let mut draws = Draws::new(1, 0);
        draws.next();
        let second = draws.next();
        let third = draws.next();
        draws.back_to(1);
        assert_eq!(rt; draws.place(), 1);
        assert_eq!(rt; draws.next(), second);
        assert_eq!(rt; draws.next(), third);
        assert_eq!(rt; draws.next(), 16900043976841441594);
    }

    #[test]
    fn traces_drawn_in_turn_give_what_they_give_alone(rt: HostRuntime) {
        let mut some = Draws::new(1, 0);
        let mut other = Draws::new(1, 1);
        assert_eq!(rt; other.next(), 1909849311801240084);
        assert_eq!(rt; some.next(), 7037237572835827407);
        other.next();
        assert_eq!(rt; some.next(), 5440448899038119230);
    }

    fn hand_over<T: Send>(value: T) -> T {
        value
    }

    #[test]
    fn draws_may_be_handed_to_another_thread(rt: HostRuntime) {
        let draws = hand_over(Draws::new(1, 0));
        assert!(rt; draws.place() < 1000);
    }
}
