ghost use Rattle.std.specs.Prelude.{◌≡◌, ◌+◌, ◌-◌, ◌≤◌, ◌<◌, ◌↔◌, IsTrue, IfSome, IfNone, IfOk, [], length, vec_capacity, Some, map, take, option_map};
ghost use Rattle.std.specs.List.{list_all};
ghost use Rattle.stop_rules.specs.declared.end.End.{End};
ghost use Rattle.stop_rules.specs.Run.{EndsAmong, GoesPast};
ghost use Rattle.stop_rules.specs.Codes.{IsCode, given_in, truths_in, seen_in};
ghost use Rattle.stop_rules.specs.Observers.{is_ready};
ghost use Rattle.stop_rules.specs.Seats.{watching, seated, seat_after_all, is_ready_seat, line_at};

use crate::end::End;
use crate::goal::Goal;
use crate::line::Line;
use crate::observer::Observer;
use crate::seat::{Seat, feed_seats, line_of_seat, seats_of};
use crate::tally::Tally;
use std::alloc::{AllocError, Global};

/// Admits the outcomes of a run, block after block, and feeds them to its observers.
///
/// Contracts see the seats of the observers as `map (λ s. seated (option_map (λ b. observation b) s.watcher)
/// s.line)` of the field `seats`, since no model of a type sees through a boxed observer.
#[derive(Drop)]
pub struct Admit {
    goal: Goal,
    tally: Tally,
    seats: Vec<Seat>,
    lines: Vec<Line>,
    ghost reserved: { length seats.items ≤ vec_capacity lines },
    ghost unwritten: { lines.items ≡ [] },
}

impl Admit {
    /// A run that has admitted nothing, with these observers. Each recorder among them has room.
    pub fn new(
        alloc: Global,
        goal: Goal,
        watch: Vec<Box<dyn Observer>>,
    ) -> Result<Admit, AllocError>
        requires { IsTrue (list_all is_ready (map (λ b. observation b) watch.items)) }

        ensures goal { IfOk result (λ admit. admit.goal ≡ goal) }
        ensures tally { IfOk result (λ admit. admit.tally ≡ record { d = 0; f = 0 }) }
        ensures seats { IfOk result (λ admit.
            map (λ s. seated (option_map (λ b. observation b) s.watcher) s.line) admit.seats.items
            ≡ map (λ b. watching (observation b)) watch.items) }
        ensures ready { IfOk result (λ admit. IsTrue (list_all is_ready_seat
            (map (λ s. seated (option_map (λ b. observation b) s.watcher) s.line) admit.seats.items))) }
    {
        let seats = seats_of(alloc, watch)?;
        let lines = Vec::with_capacity(alloc, seats.len())?;
        Ok(Admit {
            goal,
            tally: Tally::new(0, 0),
            seats,
            lines,
        })
    }

    /// The counts of successes and of failures.
    pub fn tally(&self) -> (u64, u64)
        ensures d { result.0 ≡ self.now.tally.d }
        ensures f { result.1 ≡ self.now.tally.f }
    {
        self.tally.counts()
    }

    /// Admits the outcomes of a block of `count` traces, in order, up to the one that ends the run, and feeds
    /// each admitted one to the observers. Answers the end where the run ends among them.
    pub fn feed_code(&mut self, code: u64, count: u32) -> Option<End>
        requires code { IsCode code count }
        requires room { self.old.tally.d + self.old.tally.f + count ≤ self.old.goal.limit }
        requires ready { IsTrue (list_all is_ready_seat
            (map (λ s. seated (option_map (λ b. observation b) s.watcher) s.line) self.old.seats.items)) }

        ensures goal { self.new.goal ≡ self.old.goal }
        ensures end { (end : End) → (result ≡ Some end)
            ↔ EndsAmong self.old.goal self.old.tally (seen_in self.old.goal.flip code count) end }
        ensures ended { IfSome result (λ end. self.new.tally ≡ record { d = end.d; f = end.f }) }
        ensures whole { IfNone result (given_in code ≡ count) }
        ensures past { IfNone result (GoesPast self.old.goal self.old.tally
            (truths_in self.old.goal.flip code) self.new.tally) }

        // The observers see what was admitted, the outcome that ends the run among it, and no more.
        ensures seats { let admitted = (self.new.tally.d + self.new.tally.f) - (self.old.tally.d + self.old.tally.f) in
            map (λ s. seated (option_map (λ b. observation b) s.watcher) s.line) self.new.seats.items
            ≡ map (seat_after_all (take admitted (truths_in self.old.goal.flip code)))
            (map (λ s. seated (option_map (λ b. observation b) s.watcher) s.line) self.old.seats.items) }
        ensures ready { IsTrue (list_all is_ready_seat
            (map (λ s. seated (option_map (λ b. observation b) s.watcher) s.line) self.new.seats.items)) }
    {
        let before = self.tally.admitted();
        let end = self.tally.feed_code(&self.goal, code, count);
        let admitted = (self.tally.admitted() - before) as u32;
        feed_seats(self.seats.as_mut_slice(), self.goal.flip, code, admitted);
        end
    }

    /// The observers' lines, in the order in which the observers were handed in. Those that are still there
    /// are dropped.
    pub fn finish(self) -> Vec<Line>
        ensures { result.items
            ≡ map line_at (map (λ s. seated (option_map (λ b. observation b) s.watcher) s.line) self.seats.items) }
    {
        let Admit {
            seats,
            mut lines,
            ..
        } = self;
        for seat in seats.iter() {
            lines.push_reserved(line_of_seat(seat));
        }
        lines
    }
}
