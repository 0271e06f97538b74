ghost use Rattle.std.specs.Prelude.{◌≡◌, ℕ, ◌+◌, ◌^◌, ◌<◌, ◌≤◌, min, [], ◌++◌, Some, IfSome, IfNone, IfOk, Contains, vec_len, slice_index};
ghost use Rattle.block_board.specs.Counts.{times, pairs_of, code_of, least_of};
ghost use Rattle.block_board.specs.Steps.{opened, all_tickets, after_claim, after_publish, after_look, after_lower, after_stop, after_next, cut, given, merged, after_split, after_join};
ghost use Rattle.block_board.specs.IsSound.{IsSound};

use crate::seat::Seat;
use crate::steps::{Amount, BoardRule, Claim, Give, Look, Lower, Next, Publish, Stop, Unite};
use crate::view::{Size, View};
use atomic_table::{Seat as TableSeat, Table};
use std::alloc::{AllocError, Global};
use std::marker::{Brand, Model};

/// The word of the next number.
const NEXT: usize = 0;

/// The word of the stop.
const STOP: usize = 1;

/// The word of the code of block 0.
const CODES: usize = 2;

/// The words that workers share: the next number, the stop, and a code for each block.
#[derive(Drop)]
pub struct Board {
    table: Table<(), View, Size, BoardRule, Global>,
    blocks: u64,
    workers: u64,
    codes: Vec<u64>,
}

impl Model for Board {
    ghost use Rattle.std.specs.Prelude.{◌≡◌, ◌+◌, ◌≤◌, [], vec_capacity};
    ghost use Rattle.block_board.specs.Race.{HasRoom};
    ghost use Rattle.block_board.specs.Identity.{BoardFacts};

    ghost Value = { BoardFacts };

    ghost view = { λ b. record { id = b.table.shared.table_id; blocks = b.blocks; workers = b.workers } };

    ghost invariant = { λ b. (b.table.shared.table_id.words ≡ b.blocks + 2) × (b.table.shared.table_id.slots ≡ 0)
        × (b.table.shared.key.blocks ≡ b.blocks) × (b.table.shared.key.workers ≡ b.workers)
        × (b.blocks ≤ vec_capacity b.codes) × (b.codes.items ≡ []) × HasRoom b.blocks b.workers };
}

impl Board {
    ghost use Rattle.block_board.specs.Identity.{IsSeatOf};

    /// A board with nothing claimed, no code and no stop, and the seat that has a ticket for each worker.
    /// It takes all the memory that the board needs.
    pub fn new(alloc: Global, blocks: u64, workers: u64) -> Result<(Board, Seat), AllocError>
        requires blocks { (1 ≤ blocks) × (blocks ≤ 1024) }
        requires workers { (1 ≤ workers) × (workers ≤ 64) }
        ensures board { IfOk result (λ made. (made.0.blocks ≡ blocks) × (made.0.workers ≡ workers)) }
        ensures here { IfOk result (λ made. IsSeatOf made.0 made.1) }
        ensures opened { IfOk result (λ made. made.1.view ≡ opened blocks workers) }
        ensures sound { IfOk result (λ made. IsSound made.1.view) }
    {
        let codes = Vec::with_capacity(alloc, blocks as usize)?;
        let mut words = vec![in alloc; 0u64; blocks as usize + 2]?;
        words[STOP] = u64::MAX;
        let size = Size { blocks, workers };
        let (table, inner) = Table::of_words(alloc, words.as_slice(), &size)?;
        let board = Board {
            table,
            blocks,
            workers,
            codes,
        };
        Ok((board, Seat { inner }))
    }

    /// The number of blocks.
    pub fn blocks(&self) -> u64
        ensures value { result ≡ self.now.blocks }
        ensures few { (1 ≤ result) × (result ≤ 1024) }
    {
        self.blocks
    }

    /// The number of workers.
    pub fn workers(&self) -> u64
        ensures value { result ≡ self.now.workers }
        ensures few { (1 ≤ result) × (result ≤ 64) }
    {
        self.workers
    }

    /// Takes the next number. One below the number of blocks is a block that the seat has claimed by this;
    /// one at or above it uses a ticket.
    pub fn claim(&self, seat: &mut Seat) -> u64
        requires here { IsSeatOf self.now seat.old }
        requires ticket { 0 < seat.old.view.tickets }
        ensures here { IsSeatOf self.now seat.new }
        ensures step { seat.new.view ≡ after_claim seat.old.view result }
        ensures fresh { times result seat.old.view.claims ≡ 0 }
        ensures claimed { result < self.now.blocks → times result seat.new.view.claims ≡ 1 }
        ensures unpublished { pairs_of result seat.new.view.published ≡ 0 }
        ensures before { all_tickets seat.old.view ≡ self.now.workers → (k : ℕ)
            → k < min result self.now.blocks → times k seat.old.view.claims ≡ 1 }
        ensures sound { IsSound seat.new.view }
    {
        let words = &self.table.shared;
        words.fetch_add::<Claim>(&mut seat.inner, NEXT, 1)
    }

    /// Publishes the code of a block that the seat has claimed and not published before.
    pub fn publish(&self, seat: &mut Seat, block: u64, code: u64)
        requires here { IsSeatOf self.now seat.old }
        requires claimed { 0 < times block seat.old.view.claims }
        requires unpublished { pairs_of block seat.old.view.published ≡ 0 }
        requires marked { 2 ^ 63 ≤ code }
        ensures here { IsSeatOf self.now seat.new }
        ensures step { seat.new.view ≡ after_publish seat.old.view block code }
        ensures sound { IsSound seat.new.view }
    {
        let words = &self.table.shared;
        words.store::<Publish>(&mut seat.inner, CODES + block as usize, code)
    }

    /// The code of a block, if it is there. It is the one that the seat published or saw before, if it did.
    pub fn look(&self, seat: &mut Seat, block: u64) -> Option<u64>
        requires here { IsSeatOf self.now seat.old }
        requires below { block < self.now.blocks }
        ensures here { IsSeatOf self.now seat.new }
        ensures some { IfSome result (λ code. seat.new.view ≡ after_look seat.old.view block code) }
        ensures none { IfNone result (seat.new.view ≡ after_look seat.old.view block 0) }
        ensures marked { IfSome result (λ code. 2 ^ 63 ≤ code) }
        ensures known { (code : ℕ) → Contains (seat.old.view.seen ++ seat.old.view.published) (block, code)
            → result ≡ Some code }
        ensures sound { IsSound seat.new.view }
    {
        let words = &self.table.shared;
        let code = words.load::<Look>(&mut seat.inner, CODES + block as usize);
        if code == 0 { None } else { Some(code) }
    }

    /// Makes the stop the lesser of itself and the number of a block.
    pub fn lower(&self, seat: &mut Seat, block: u64)
        requires here { IsSeatOf self.now seat.old }
        ensures here { IsSeatOf self.now seat.new }
        ensures step { seat.new.view ≡ after_lower seat.old.view block seat.new.view.last.1 }
        ensures least { seat.new.view.last.1 ≤ seat.old.view.least }
        ensures lowered { seat.new.view.last.1 ≤ least_of seat.old.view.lowered }
        ensures sound { IsSound seat.new.view }
    {
        let words = &self.table.shared;
        let _old = words.fetch_min::<Lower>(&mut seat.inner, STOP, block);
    }

    /// The stop: at most what the seat read there before, and at most each number to which it lowered it.
    pub fn stop(&self, seat: &mut Seat) -> u64
        requires here { IsSeatOf self.now seat.old }
        ensures here { IsSeatOf self.now seat.new }
        ensures step { seat.new.view ≡ after_stop seat.old.view result }
        ensures least { result ≤ seat.old.view.least }
        ensures lowered { result ≤ least_of seat.old.view.lowered }
        ensures sound { IsSound seat.new.view }
    {
        let words = &self.table.shared;
        words.load::<Stop>(&mut seat.inner, STOP)
    }

    /// Hands over so many of the seat's tickets to a new seat. The seat keeps at least one.
    pub fn split(&self, seat: &mut Seat, tickets: u64) -> Seat
        requires here { IsSeatOf self.now seat.old }
        requires some { 1 ≤ tickets }
        requires fewer { tickets < seat.old.view.tickets }
        ensures here { IsSeatOf self.now seat.new }
        ensures step { seat.new.view ≡ after_split seat.old.view tickets seat.new.view.last.1 }
        ensures sound { IsSound seat.new.view }
        ensures other_here { IsSeatOf self.now result }
        ensures other { result.view ≡ given seat.old.view tickets }
        ensures other_sound { IsSound result.view }
    {
        let inner = self.hand_over::<Brand>(&mut seat.inner, tickets);
        self.read_next(&mut seat.inner);
        Seat { inner }
    }

    /// Takes another seat of this board in, with its tickets and all that it did and saw.
    pub fn join(&self, seat: &mut Seat, other: Seat)
        requires here { IsSeatOf self.now seat.old }
        requires other_here { IsSeatOf self.now other }
        ensures here { IsSeatOf self.now seat.new }
        ensures step { seat.new.view ≡ after_join seat.old.view other.view seat.new.view.last.1 }
        ensures sound { IsSound seat.new.view }
    {
        let Seat { inner } = other;
        self.table.shared.join_seat::<Unite>(&mut seat.inner, inner);
        self.read_next(&mut seat.inner);
    }

    /// The stop and the code of each block, or 0, once one seat has all tickets. It takes no memory.
    pub fn close(self, seat: Seat) -> (u64, Vec<u64>)
        requires here { IsSeatOf self seat }
        requires whole { all_tickets seat.view ≡ self.workers }
        ensures stop { result.0 ≡ least_of seat.view.lowered }
        ensures long { vec_len result.1 ≡ self.blocks }
        ensures codes { (b : ℕ) → b < self.blocks → slice_index result.1.items b ≡ code_of b seat.view.published }
    {
        let Board {
            table,
            blocks,
            workers: _,
            mut codes,
        } = self;
        let Seat { inner } = seat;
        let closed = table.close_with(inner);
        let stop = closed.word(STOP);
        for b in 0..blocks {
            codes.push_reserved(closed.word(CODES + b as usize));
        }
        closed.free();
        (stop, codes)
    }

    /// Hands over tickets, as many as the type says, since the table takes the two new views from a type.
    fn hand_over<A: Amount>(
        &self,
        inner: &mut TableSeat<(), View>,
        tickets: u64,
    ) -> TableSeat<(), View>
        requires here { inner.old.table_id ≡ self.now.id }
        requires amount { tickets ≡ A.amount }
        requires some { 1 ≤ tickets }
        requires fewer { tickets < inner.old.me.0.tickets }
        ensures here { inner.new.table_id ≡ inner.old.table_id }
        ensures left { inner.new.me ≡ (cut inner.old.me.0 tickets, inner.old.me.1) }
        ensures other_here { result.table_id ≡ inner.old.table_id }
        ensures right { result.me ≡ (given inner.old.me.0 tickets, []) }
    {
        self.table.shared.split_seat::<Give<A>>(inner)
    }

    /// Reads the next number, which makes the seat's view a step of the race again: the table tells the rule only
    /// where a word is read.
    fn read_next(&self, inner: &mut TableSeat<(), View>)
        requires here { inner.old.table_id ≡ self.now.id }
        requires live { 0 < all_tickets inner.old.me.0 }
        ensures here { inner.new.table_id ≡ inner.old.table_id }
        ensures slots { inner.new.me.1 ≡ inner.old.me.1 }
        ensures step { inner.new.me.0 ≡ after_next inner.old.me.0 inner.new.me.0.last.1 }
        ensures sound { IsSound inner.new.me.0 }
    {
        let _next = self.table.shared.load::<Next>(inner, NEXT);
    }
}
