//! The turns of callers: a ticket, the wait for its turn, and the turn's end.
ghost use Rattle.std.specs.Prelude.{◌≡◌, ◌==◌, ◌+◌, ◌*◌, ◌%◌, ◌^◌, ◌<◌, ◌≤◌, ℕ, MatchBool};
ghost use Rattle.std.specs.Duration.{as_nanos};
ghost use mathlib.Core.Option.{none};
ghost use Rattle.atomic_table.specs.Table.{Allows, step};
ghost use Rattle.tally_book.specs.Books.{IsLegal};
ghost use Rattle.tally_book.specs.Contents.{Contents};
ghost use Rattle.tally_desk.specs.declared.lock.view.Known.{Known};
ghost use Rattle.tally_desk.specs.inside.Rule.{Orderly};
ghost use Rattle.tally_desk.specs.inside.Seats.{IsMade, IsNext, idle, turn, waiting};
ghost use Rattle.tally_desk.specs.Callers.{Fits};
ghost use Rattle.tally_desk.specs.inside.Views.{knowing};

use crate::lock::rule::{Count, Draw, Leave, Look};
use crate::lock::view::View;
use crate::lock::{CALLS, SERVING, Seat, TICKET, TicketLock};
use atomic_table::Play;
use std::hint;
use std::sync::Wait;
use std::time::Duration;
use tally_book::Book;

// How often the next caller looks for its turn before it sleeps.
const LOOKS: u32 = 200;

// How many microseconds a caller sleeps at most for each turn before its own, if nobody wakes it.
const NAP: u64 = 500;

/// How long a caller sleeps at most that has so many turns before its own.
fn nap_before(turns: u64) -> Duration
    ensures most { as_nanos result ≤ turns * NAP * 1_000 }
    ensures exact { turns * NAP < 2 ^ 64 → as_nanos result ≡ turns * NAP * 1_000 }
{
    Duration::from_micros(turns.saturating_mul(NAP))
}

/// How many turns are before that of a ticket, where this one is served. The words of both go on with 0 after the greatest.
fn turns_from(served: u64, ticket: u64) -> u64
    ensures { (result == 0) ≡ (served == ticket) }
{
    ticket.wrapping_sub(served)
}

impl TicketLock {
    /// Counts a word on by one, as a step of this kind.
    fn count_on<M: Play<Book, View>>(&self, seat: &mut Seat, word: usize) -> u64
        requires table { seat.old.table_id ≡ self.now.table.shared.table_id }
        requires word { word < self.now.table.shared.table_id.words }
        requires allowed { Allows (Orderly self.now.table.shared.key.callers) self.now.table.shared.table_id.slots seat.old.id seat.old.me word
            (λ n. (n + 1) % 2 ^ 64) (M.then (step self.now.table.shared.table_id.slots word 1 0 none) seat.old.me) }
        ensures table { seat.new.table_id ≡ seat.old.table_id }
        ensures then { M.then (step self.now.table.shared.table_id.slots word 1 0 none) seat.old.me result seat.new.me }
    {
        self.table.shared.fetch_add::<M>(seat, word, 1)
    }

    /// Reads a word, as a step of this kind.
    pub fn read_word<M: Play<Book, View>>(&self, seat: &mut Seat, word: usize) -> u64
        requires table { seat.old.table_id ≡ self.now.table.shared.table_id }
        requires word { word < self.now.table.shared.table_id.words }
        requires allowed { Allows (Orderly self.now.table.shared.key.callers) self.now.table.shared.table_id.slots seat.old.id seat.old.me word
            (λ n. n) (M.then (step self.now.table.shared.table_id.slots word 0 0 none) seat.old.me) }
        ensures table { seat.new.table_id ≡ seat.old.table_id }
        ensures then { M.then (step self.now.table.shared.table_id.slots word 0 0 none) seat.old.me result seat.new.me }
    {
        self.table.shared.load::<M>(seat, word)
    }

    /// Draws a ticket.
    fn draw(&self, seat: &mut Seat) -> u64
        requires table { seat.old.table_id ≡ self.now.table.shared.table_id }
        requires idle { (k : Known) × (seat.old.me ≡ idle k) }
        ensures table { seat.new.table_id ≡ seat.old.table_id }
        ensures waits { (k : Known) → seat.old.me ≡ idle k → (ticket : ℕ) × (result ≡ ticket % 2 ^ 64) × (seat.new.me ≡ waiting k ticket) }
    {
        self.count_on::<Draw>(seat, TICKET)
    }

    /// Looks which ticket has its turn, and takes the book where it is this one.
    fn look(&self, seat: &mut Seat, ticket: u64) -> u64
        requires table { seat.old.table_id ≡ self.now.table.shared.table_id }
        requires waits { (k : Known) × (drawn : ℕ) × (ticket ≡ drawn % 2 ^ 64) × (seat.old.me ≡ waiting k drawn) }
        ensures table { seat.new.table_id ≡ seat.old.table_id }
        ensures turn { (k : Known) (drawn : ℕ) → ticket ≡ drawn % 2 ^ 64 → seat.old.me ≡ waiting k drawn → MatchBool (result == ticket) ((book : Contents) × (seat.new.me ≡ turn k drawn book book) × IsLegal book × Fits book k) (seat.new.me ≡ seat.old.me) }
    {
        self.read_word::<Look>(seat, SERVING)
    }

    /// Looks how many turns are before that of the ticket, and for a short while looks on where it
    /// is the next. Where there are none it takes the book.
    fn turns_before(&self, seat: &mut Seat, ticket: u64) -> u64
        requires table { seat.old.table_id ≡ self.now.table.shared.table_id }
        requires waits { (k : Known) × (drawn : ℕ) × (ticket ≡ drawn % 2 ^ 64) × (seat.old.me ≡ waiting k drawn) }
        ensures table { seat.new.table_id ≡ seat.old.table_id }
        ensures turn { (k : Known) (drawn : ℕ) → ticket ≡ drawn % 2 ^ 64 → seat.old.me ≡ waiting k drawn → MatchBool (result == 0) ((book : Contents) × (seat.new.me ≡ turn k drawn book book) × IsLegal book × Fits book k) (seat.new.me ≡ seat.old.me) }
    {
        for _ in 0..LOOKS {
            let before = turns_from(self.look(seat, ticket), ticket);
            if before != 1 {
                return before;
            }
            hint::spin_loop();
        }
        1
    }

    /// Waits until it is the seat's turn. The book is then out with it.
    pub fn enter<R: Wait>(&self, rt: &R, seat: &mut Seat)
        requires table { seat.old.table_id ≡ self.now.table.shared.table_id }
        requires idle { (k : Known) × (seat.old.me ≡ idle k) }
        ensures table { seat.new.table_id ≡ seat.old.table_id }
        ensures turn { (k : Known) → seat.old.me ≡ idle k → (ticket : ℕ) × (book : Contents) × (seat.new.me ≡ turn k ticket book book) × IsLegal book × Fits book k }
    {
        let ticket = self.draw(seat);
        for _ in rt.forever() {
            let before = self.turns_before(seat, ticket);
            if before == 0 {
                return;
            }
            self.sleepers.sleep(rt, ticket, nap_before(before));
        }
        unreachable!()
    }

    /// Counts the call that was made on the book.
    pub fn count(&self, seat: &mut Seat)
        requires table { seat.old.table_id ≡ self.now.table.shared.table_id }
        requires made { (k : Known) × (ticket : ℕ) × (before : Contents) × (after : Contents) × IsNext k.number before after × (seat.old.me ≡ turn k ticket before after) }
        ensures table { seat.new.table_id ≡ seat.old.table_id }
        ensures counted { (k : Known) (ticket : ℕ) (before after : Contents) → seat.old.me ≡ turn k ticket before after → seat.new.me ≡ turn (knowing after k) ticket after after }
    {
        self.count_on::<Count>(seat, CALLS);
    }

    /// Ends the turn, with the book as the seat's view has it. It wakes the next caller, and the one
    /// after it, so that this one is awake when its turn comes.
    pub fn leave(&self, seat: &mut Seat)
        requires table { seat.old.table_id ≡ self.now.table.shared.table_id }
        requires serves { (k : Known) × (ticket : ℕ) × (book : Contents) × (seat.old.me ≡ turn k ticket book book) }
        ensures table { seat.new.table_id ≡ seat.old.table_id }
        ensures idle { (k : Known) (ticket : ℕ) (book : Contents) → seat.old.me ≡ turn k ticket book book → seat.new.me ≡ idle (knowing book k) }
    {
        let served = self.count_on::<Leave>(seat, SERVING);
        self.sleepers.wake(served.wrapping_add(1));
        self.sleepers.wake(served.wrapping_add(2));
    }

    /// Ends the turn of a call, which counts where the book answered it.
    pub fn end(&self, seat: &mut Seat, answered: bool)
        requires table { seat.old.table_id ≡ self.now.table.shared.table_id }
        requires made { (k : Known) × (ticket : ℕ) × (before : Contents) × (after : Contents) × IsMade answered k.number before after × (seat.old.me ≡ turn k ticket before after) }
        ensures table { seat.new.table_id ≡ seat.old.table_id }
        ensures idle { (k : Known) (ticket : ℕ) (before after : Contents) → IsMade answered k.number before after → seat.old.me ≡ turn k ticket before after → seat.new.me ≡ idle (knowing after k) }
    {
        if answered {
            self.count(seat);
            self.leave(seat);
        } else {
            self.leave(seat);
        }
    }
}
