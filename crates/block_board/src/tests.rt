ghost use Rattle.std.specs.Prelude.{◌≡◌, ◌<◌};
ghost use Rattle.block_board.specs.Identity.{IsSeatOf};

use crate::board::Board;
use crate::seat::Seat;
use std::test::Fail;
use std::thread::join_mut;

/// The code of a block without successes: bit 63 alone.
const CODE: u64 = 9_223_372_036_854_775_808;

#[test]
fn one_seat_claims_publishes_and_stops(rt: HostRuntime) -> Result<(), Fail> {
    let (board, mut seat) = Board::new(rt.alloc(), 2, 1)?;
    assert_eq!(rt; (board.blocks(), board.workers()), (2, 1));
    assert_eq!(rt; board.claim(&mut seat), 0);
    assert_eq!(rt; board.claim(&mut seat), 1);
    assert_eq!(rt; board.claim(&mut seat), 2);
    board.publish(&mut seat, 0, CODE);
    assert_eq!(rt; board.look(&mut seat, 0), Some(CODE));
    assert_eq!(rt; board.look(&mut seat, 1), None);
    assert_eq!(rt; board.stop(&mut seat), 18_446_744_073_709_551_615);
    board.lower(&mut seat, 1);
    assert_eq!(rt; board.stop(&mut seat), 1);
    let (stop, codes) = board.close(seat);
    assert_eq!(rt; stop, 1);
    assert_eq!(rt; codes.as_slice(), [CODE, 0].as_slice());
    Ok(())
}

/// What one of two workers met: it saw the other's code, and read 0 as the stop.
#[derive(Drop)]
struct Meeting {
    code: bool,
    stop: bool,
}

/// Claims and publishes a block and lowers the stop to its number, then waits for the other worker to do so.
fn meet(board: &Board, seat: &mut Seat, meeting: &mut Meeting)
    requires here { IsSeatOf board.now seat.old }
    requires two { board.now.blocks ≡ 2 }
    requires ticket { 0 < seat.old.view.tickets }
    ensures here { IsSeatOf board.now seat.new }
{
    let block = board.claim(seat);
    if block >= 2 {
        return;
    }
    board.publish(seat, block, CODE + block);
    board.lower(seat, block);
    'turns: for _ in 0..1_000_000_000u64 {
        if let Some(code) = board.look(seat, 1 - block) {
            meeting.code = code == CODE + (1 - block);
        }
        meeting.stop = board.stop(seat) == 0;
        if meeting.code && meeting.stop {
            return;
        }
    }
}

#[test]
fn two_seats_meet(rt: HostRuntime) -> Result<(), Fail> {
    let (board, mut seat) = Board::new(rt.alloc(), 2, 2)?;
    let mut other = board.split(&mut seat, 1);
    let mut left = Meeting {
        code: false,
        stop: false,
    };
    let mut right = Meeting {
        code: false,
        stop: false,
    };
    let shared = &board;
    let mine = &mut seat;
    let theirs = &mut other;
    let mut front = ||
        requires { IsSeatOf shared.now mine.now × (shared.now.blocks ≡ 2) × (0 < mine.now.view.tickets) }
        ensures { IsSeatOf shared.entry.now mine.exit.now }
    { meet(shared, mine, &mut left) };
    let mut back = ||
        requires { IsSeatOf shared.now theirs.now × (shared.now.blocks ≡ 2) × (0 < theirs.now.view.tickets) }
        ensures { IsSeatOf shared.entry.now theirs.exit.now }
    { meet(shared, theirs, &mut right) };
    join_mut(&rt, &mut front, &mut back);
    assert_eq!(rt; (left.code, left.stop), (true, true));
    assert_eq!(rt; (right.code, right.stop), (true, true));
    board.join(&mut seat, other);
    assert_eq!(rt; board.stop(&mut seat), 0);
    Ok(())
}
