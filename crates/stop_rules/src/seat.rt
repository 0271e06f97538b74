ghost use Rattle.std.specs.Prelude.{◌≡◌, ◌<◌, ◌≤◌, IsTrue, IfOk, map, take, option_map};
ghost use Rattle.std.specs.List.{list_all};
ghost use Rattle.stop_rules.specs.Codes.{given_in, truths_in};
ghost use Rattle.stop_rules.specs.Observers.{observe, is_ready, stay_of, line_of};
ghost use Rattle.stop_rules.specs.Seats.{watching, seated, seat_after, seat_after_all, is_ready_seat, line_at};

use crate::code::success_at;
use crate::line::Line;
use crate::observer::{Observer, Stay};
use std::alloc::{AllocError, Global};

/// An observer, or the line of one that has left.
#[derive(Drop)]
pub(crate) struct Seat {
    pub(crate) watcher: Option<Box<dyn Observer>>,
    pub(crate) line: Line,
}

/// A seat for each observer, in order.
pub(crate) fn seats_of(
    alloc: Global,
    watch: Vec<Box<dyn Observer>>,
) -> Result<Vec<Seat>, AllocError>
    ensures { IfOk result (λ seats.
        map (λ s. seated (option_map (λ b. observation b) s.watcher) s.line) seats.items
        ≡ map (λ b. watching (observation b)) watch.items) }
{
    let mut seats = Vec::new(alloc);
    for watcher in watch {
        seats.push(Seat {
            watcher: Some(watcher),
            line: Line::new(),
        })?;
    }
    Ok(seats)
}

/// Feeds an observer through its box.
fn feed_boxed(watcher: &mut Box<dyn Observer>, bit: bool) -> Stay
    requires { IsTrue (is_ready (observation watcher.old)) }
    ensures observation { observation watcher.new ≡ observe (observation watcher.old) bit }
    ensures stay { result ≡ stay_of (observation watcher.new) }
{
    watcher.feed(bit)
}

/// Sets a line to that of an observer in a box.
fn line_boxed(watcher: &Box<dyn Observer>, line: &mut Line)
    ensures { line.new ≡ line_of (observation watcher.now) }
{
    watcher.line(line);
}

/// Feeds the observer of a seat, if it is there. Where it leaves, its line is taken and its box dropped.
fn feed_watcher(watcher: &mut Option<Box<dyn Observer>>, line: &mut Line, bit: bool)
    requires { IsTrue (is_ready_seat (seated (option_map (λ b. observation b) watcher.old) line.old)) }

    ensures seat { seated (option_map (λ b. observation b) watcher.new) line.new
        ≡ seat_after (seated (option_map (λ b. observation b) watcher.old) line.old) bit }
    ensures ready { IsTrue (is_ready_seat (seated (option_map (λ b. observation b) watcher.new) line.new)) }
{
    if let Some(observer) = watcher {
        match feed_boxed(observer, bit) {
            Stay::Keep => {}
            Stay::Leave => {
                line_boxed(observer, line);
                *watcher = None;
            }
        }
    }
}

/// Feeds the first so many outcomes of a block to the observer of a seat.
fn feed_seat(seat: &mut Seat, flip: bool, code: u64, admitted: u32)
    requires admitted { admitted ≤ given_in code }
    requires few { given_in code ≤ 32 }
    requires ready { IsTrue (is_ready_seat (seated (option_map (λ b. observation b) seat.old.watcher) seat.old.line)) }

    ensures seat { seated (option_map (λ b. observation b) seat.new.watcher) seat.new.line
        ≡ seat_after_all (take admitted (truths_in flip code))
        (seated (option_map (λ b. observation b) seat.old.watcher) seat.old.line) }
    ensures ready { IsTrue (is_ready_seat (seated (option_map (λ b. observation b) seat.new.watcher) seat.new.line)) }
{
    for position in 0..admitted {
        let success = success_at(flip, code, position);
        feed_watcher(&mut seat.watcher, &mut seat.line, success);
    }
}

/// Feeds the first so many outcomes of a block to the observers of all seats.
pub(crate) fn feed_seats(seats: &mut [Seat], flip: bool, code: u64, admitted: u32)
    requires admitted { admitted ≤ given_in code }
    requires few { given_in code ≤ 32 }
    requires ready { IsTrue (list_all is_ready_seat
        (map (λ s. seated (option_map (λ b. observation b) s.watcher) s.line) seats.old)) }

    ensures seats { map (λ s. seated (option_map (λ b. observation b) s.watcher) s.line) seats.new
        ≡ map (seat_after_all (take admitted (truths_in flip code)))
        (map (λ s. seated (option_map (λ b. observation b) s.watcher) s.line) seats.old) }
    ensures ready { IsTrue (list_all is_ready_seat
        (map (λ s. seated (option_map (λ b. observation b) s.watcher) s.line) seats.new)) }
{
    for seat in seats.iter_mut() {
        feed_seat(seat, flip, code, admitted);
    }
}

/// The line of a seat: the one that was left there, or the observer's.
pub(crate) fn line_of_seat(seat: &Seat) -> Line
    ensures { result ≡ line_at (seated (option_map (λ b. observation b) seat.now.watcher) seat.now.line) }
{
    let mut line = Line::new();
    match &seat.watcher {
        Some(watcher) => line_boxed(watcher, &mut line),
        None => line.set(seat.line.bytes()),
    }
    line
}
