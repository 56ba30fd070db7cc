//! A ticket lock over a book, by the steps of a table.
ghost use Rattle.std.specs.Prelude.{◌≡◌, ◌<◌, ◌≤◌, [], ◌∷◌, ℕ, length, List, IfOk, MatchResult, OnOk, sum_by};
ghost use Rattle.tally_answers.specs.Answers.{HasDays, IsAskable};
ghost use Rattle.tally_book.specs.Books.{IsLegal, IsReceipt, IsServed, asked, counts_of, empty_with_room, posted};
ghost use Rattle.tally_book.specs.Contents.{Contents};
ghost use Rattle.tally_book.specs.Refusals.{IsAskRefusal, IsPostRefusal};
ghost use Rattle.tally_book.specs.Rooms.{IsRoom};
ghost use Rattle.tally_desk.specs.declared.lock.view.Known.{Known};
ghost use Rattle.tally_desk.specs.inside.Seats.{idle, standing, turn};
ghost use Rattle.tally_desk.specs.Callers.{Fits};
ghost use Rattle.tally_desk.specs.inside.Views.{AllFit, knowing, opening_view, told_of};

pub(crate) mod rule;
mod sleepers;
mod turns;
mod view;

use crate::lock::rule::{Deal, Gather, Opening, Order, Tell};
use crate::lock::sleepers::Sleepers;
use crate::lock::view::View;
use atomic_table::{Refused, Table};
use std::alloc::Global;
use std::hash::RandomState;
use std::sync::Wait;
use tally_book::{AskFault, Book, PostFault, Question, Receipt, Served};
use tally_records::{Batch, Memory};
use tally_sessions::HOST_LIMIT;

/// A caller's seat at the table.
pub type Seat = atomic_table::Seat<Book, View>;

// The words: the number of calls, the next ticket, and the ticket whose turn it is.
const CALLS: usize = 0;

const TICKET: usize = 1;

const SERVING: usize = 2;

// The slot of the book.
const BOOK: usize = 0;

/// The book that a table opens with.
fn first_book(alloc: Global, keys: RandomState, opening: &Opening) -> Result<Book, Memory>
    requires some { 1 ≤ opening.now.callers }
    requires few { opening.now.callers ≤ HOST_LIMIT }
    ensures empty { IfOk result (λ book. book ≡ empty_with_room opening.now.clock opening.now.room opening.now.callers) }
    ensures legal { IfOk result IsLegal }
{
    let clock = opening.clock.try_copy(alloc)?;
    Book::with_room(alloc, keys, clock, opening.room, opening.callers)
}

/// A book that one caller at a time has, in the order of their tickets.
#[derive(Drop)]
pub struct TicketLock {
    table: Table<Book, View, Opening, Order, Global>,
    sleepers: Sleepers,
    ghost sized: { (table.shared.table_id.words ≡ 3) × (table.shared.table_id.slots ≡ 1) },
}

impl TicketLock {
    /// The lock of a new book, and the seat of all callers.
    pub fn open(
        alloc: Global,
        keys: RandomState,
        opening: &Opening,
    ) -> Result<(TicketLock, Seat), Memory>
        requires some { 1 ≤ opening.now.callers }
        requires few { opening.now.callers ≤ HOST_LIMIT }
        ensures opened { IfOk result (λ t. (t.0.table.shared.key ≡ opening.now) × (t.1.table_id ≡ t.0.table.shared.table_id) × (t.1.me ≡ (opening_view opening.now, []))) }
        ensures room { OnOk result (IsRoom opening.now.room) }
    {
        let sleepers = Sleepers::new(alloc, opening.callers)?;
        let mut slots = Vec::with_capacity(alloc, 1)?;
        slots.push_reserved(first_book(alloc, keys, opening)?);
        match Table::new(alloc, &[0, 0, 0], slots, opening) {
            Ok((table, seat)) => Ok((TicketLock { table, sleepers }, seat)),
            Err(Refused { slots: _ }) => Err(Memory),
        }
    }

    /// A seat of the first caller that this seat stands for.
    pub fn deal(&self, seat: &mut Seat) -> Seat
        requires table { seat.old.table_id ≡ self.now.table.shared.table_id }
        requires some { (k : Known) × (ks : List Known) × (seat.old.me ≡ standing (k ∷ ks)) }
        ensures table { (seat.new.table_id ≡ seat.old.table_id) × (result.table_id ≡ seat.old.table_id) }
        ensures dealt { (k : Known) (ks : List Known) → seat.old.me ≡ standing (k ∷ ks) → (seat.new.me ≡ standing ks) × (result.me ≡ idle k) }
    {
        self.table.shared.split_seat::<Deal>(seat)
    }

    /// The seat stands for the callers of both seats.
    pub fn gather(&self, seat: &mut Seat, other: Seat)
        requires table { (seat.old.table_id ≡ self.now.table.shared.table_id) × (other.table_id ≡ self.now.table.shared.table_id) }
        requires idle { (ks : List Known) × (seat.old.me ≡ standing ks) × (k : Known) × (other.me ≡ idle k) }
        ensures table { seat.new.table_id ≡ seat.old.table_id }
        ensures gathered { (ks : List Known) (k : Known) → seat.old.me ≡ standing ks → other.me ≡ idle k → seat.new.me ≡ standing (k ∷ ks) }
    {
        self.table.shared.join_seat::<Gather>(seat, other);
    }

    /// The book, where the seat stands for all callers.
    pub fn close(self, seat: Seat) -> Book
        requires table { seat.table_id ≡ self.table.shared.table_id }
        requires all { (ks : List Known) × (seat.me ≡ standing ks) × (self.table.shared.key.callers ≤ length ks) }
        ensures book { (result.callers ≡ self.table.shared.key.callers) × IsLegal result }
        ensures callers { (ks : List Known) → seat.me ≡ standing ks → AllFit result ks × (sum_by (λ k. length k.mine) ks ≡ length result.calls) }
    {
        let TicketLock { table, sleepers: _ } = self;
        let mut closed = table.close_with(seat);
        let book = closed.take(BOOK);
        closed.free();
        book
    }

    /// Posts to the book, which is out with the seat.
    fn post_out(&self, seat: &mut Seat, number: u32, batch: &Batch) -> Result<Receipt, PostFault>
        requires table { seat.old.table_id ≡ self.now.table.shared.table_id }
        requires turn { (k : Known) × (ticket : ℕ) × (book : Contents) × (seat.old.me ≡ turn k ticket book book) × (number < book.callers) }
        ensures table { seat.new.table_id ≡ seat.old.table_id }
        ensures posted { (k : Known) (ticket : ℕ) (book : Contents) → seat.old.me ≡ turn k ticket book book
            → MatchResult result
            (λ r. (seat.new.me ≡ turn k ticket book (posted book number batch.now)) × IsLegal (posted book number batch.now) × IsReceipt book (posted book number batch.now) r)
            (λ e. (seat.new.me ≡ seat.old.me) × IsPostRefusal book.room (counts_of book) (length book.calls) batch.now e) }
    {
        let book = seat.slot_mut(&self.table.shared, BOOK);
        book.post(number, batch)
    }

    /// Asks the book, which is out with the seat.
    fn ask_out(
        &self,
        alloc: Global,
        seat: &mut Seat,
        number: u32,
        question: &Question,
    ) -> Result<Served, AskFault>
        requires table { seat.old.table_id ≡ self.now.table.shared.table_id }
        requires turn { (k : Known) × (ticket : ℕ) × (book : Contents) × (seat.old.me ≡ turn k ticket book book) × (number < book.callers) }
        requires askable { IsAskable question.now }
        ensures table { seat.new.table_id ≡ seat.old.table_id }
        ensures asked { (k : Known) (ticket : ℕ) (book : Contents) → seat.old.me ≡ turn k ticket book book
            → MatchResult result
            (λ r. (seat.new.me ≡ turn k ticket book (asked book number question.now)) × IsLegal (asked book number question.now) × IsServed book (asked book number question.now) question.now r)
            (λ e. (seat.new.me ≡ seat.old.me) × IsAskRefusal book.callers (length book.calls) question.now e) }
        ensures days { IfOk result (λ r. HasDays r.answer) }
    {
        let book = seat.slot_mut(&self.table.shared, BOOK);
        book.ask(alloc, number, question)
    }

    /// The number of calls.
    pub fn calls(&self, seat: &mut Seat) -> u64
        requires table { seat.old.table_id ≡ self.now.table.shared.table_id }
        requires idle { (k : Known) × (seat.old.me ≡ idle k) }
        ensures table { seat.new.table_id ≡ seat.old.table_id }
        ensures told { (k : Known) → seat.old.me ≡ idle k → (k.told ≤ result) × (seat.new.me ≡ idle (told_of result k)) }
    {
        self.read_word::<Tell>(seat, CALLS)
    }

    /// Posts in the seat's turn.
    pub fn post<R: Wait>(
        &self,
        rt: &R,
        seat: &mut Seat,
        number: u32,
        batch: &Batch,
    ) -> Result<Receipt, PostFault>
        requires table { seat.old.table_id ≡ self.now.table.shared.table_id }
        requires caller { (k : Known) × (seat.old.me ≡ idle k) × (number ≡ k.number) × (k.number < k.seen.callers) }
        ensures table { seat.new.table_id ≡ seat.old.table_id }
        ensures posted { (k : Known) → seat.old.me ≡ idle k
            → (book : Contents) × Fits book k × IsLegal book × MatchResult result
            (λ r. (seat.new.me ≡ idle (knowing (posted book k.number batch.now) k)) × IsLegal (posted book k.number batch.now) × IsReceipt book (posted book k.number batch.now) r)
            (λ e. (seat.new.me ≡ idle (knowing book k)) × IsPostRefusal book.room (counts_of book) (length book.calls) batch.now e) }
    {
        self.enter(rt, seat);
        let made = self.post_out(seat, number, batch);
        self.end(seat, made.is_ok());
        made
    }

    /// Asks in the seat's turn.
    pub fn ask<R: Wait>(
        &self,
        rt: &R,
        alloc: Global,
        seat: &mut Seat,
        number: u32,
        question: &Question,
    ) -> Result<Served, AskFault>
        requires table { seat.old.table_id ≡ self.now.table.shared.table_id }
        requires caller { (k : Known) × (seat.old.me ≡ idle k) × (number ≡ k.number) × (k.number < k.seen.callers) }
        requires askable { IsAskable question.now }
        ensures table { seat.new.table_id ≡ seat.old.table_id }
        ensures asked { (k : Known) → seat.old.me ≡ idle k
            → (book : Contents) × Fits book k × IsLegal book × MatchResult result
            (λ r. (seat.new.me ≡ idle (knowing (asked book k.number question.now) k)) × IsLegal (asked book k.number question.now) × IsServed book (asked book k.number question.now) question.now r)
            (λ e. (seat.new.me ≡ idle (knowing book k)) × IsAskRefusal book.callers (length book.calls) question.now e) }
        ensures days { IfOk result (λ r. HasDays r.answer) }
    {
        self.enter(rt, seat);
        let made = self.ask_out(alloc, seat, number, question);
        self.end(seat, made.is_ok());
        made
    }
}
