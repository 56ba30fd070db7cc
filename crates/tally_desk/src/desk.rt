//! A desk, and the passes of its callers.
ghost use Rattle.std.specs.Prelude.{◌≡◌, ◌<◌, ◌≤◌, [], ◌∷◌, ◌++◌, length, map, vec_len, IfErr, IfOk, MatchResult, OnErr, OnOk};
ghost use Rattle.std.specs.List.{All, sum_by};
ghost use Rattle.std.specs.Vec.{vec_capacity};
ghost use Rattle.tally_book.specs.declared.history.Call.TheVariants.{Asked, Posted};
ghost use Rattle.tally_answers.specs.Answers.{HasDays, IsAskable, answer_of};
ghost use Rattle.tally_book.specs.Books.{IsLegal, counts_of};
ghost use Rattle.tally_book.specs.Deeds.{Ask, Post};
ghost use Rattle.tally_book.specs.Refusals.{IsAskRefusal, IsPostRefusal};
ghost use Rattle.tally_book.specs.Rooms.{IsRoom};
ghost use Rattle.tally_book.specs.declared.room.TheConstants.{MILLION};
ghost use Rattle.tally_clock.specs.Rows.{utc};
ghost use Rattle.tally_records.specs.Records.{logins_in, procs_in};
ghost use Rattle.tally_desk.specs.inside.Knowledge.{IsSound};
ghost use Rattle.tally_desk.specs.Callers.{newcomer};
ghost use Rattle.tally_desk.specs.Openings.{IsOpenFault};
ghost use Rattle.tally_desk.specs.Passes.{HasDone, IsAnswered, IsCurrent, Keeps, Stands, Stores, deeds, first_pass, first_passes, known_of, told_pass};
ghost use Rattle.tally_desk.specs.inside.Seats.{idle, standing};
ghost use Rattle.tally_desk.specs.inside.Views.{newcomers};

use crate::fault::{CloseFault, OpenFault};
use crate::lock::rule::Opening;
use crate::lock::{Seat, TicketLock};
use std::alloc::Global;
use std::hash::RandomState;
use std::marker::Model;
use std::sync::Wait;
use tally_book::{AskFault, Book, PostFault, Question, Receipt, Room, Served};
use tally_clock::Clock;
use tally_records::Batch;
use tally_sessions::HOST_LIMIT;

/// One caller's access to a desk. Contracts see what the caller knows.
#[derive(Drop)]
pub struct Pass {
    number: u32,
    room: Room,
    seat: Seat,
}

impl Model for Pass {
    ghost use Rattle.tally_desk.specs.Passes.{PassState};

    ghost Value = { PassState };

    ghost use Rattle.std.specs.Prelude.{◌≡◌};
    ghost use Rattle.tally_desk.specs.declared.lock.view.Known.{Known};
    ghost use Rattle.tally_desk.specs.Passes.{seen_as};
    ghost use Rattle.tally_desk.specs.inside.Seats.{idle};
    ghost use Rattle.tally_desk.specs.inside.Knowledge.{IsSound};

    ghost view = { λ p. seen_as p.seat.table_id p.seat.me };

    ghost invariant = { λ p. (k : Known) × (p.seat.me ≡ idle k) × (p.number ≡ k.number) × IsSound k × (p.room ≡ k.seen.room) };
}

impl Pass {
    /// The first pass of the caller with this number, whose seat it is.
    fn first(opening: &Opening, number: u32, seat: Seat) -> Pass
        requires seat { seat.me ≡ idle (newcomer opening.now.clock opening.now.room opening.now.callers number) }
        requires sound { IsSound (newcomer opening.now.clock opening.now.room opening.now.callers number) }
        ensures { result ≡ first_pass seat.table_id opening.now.clock opening.now.room opening.now.callers number }
    {
        let room = opening.room;
        Pass { number, room, seat }
    }

    /// The caller's number. Its records are those of the host with this number.
    pub fn number(&self) -> u32
        ensures { result ≡ self.now.number }
    {
        self.number
    }

    /// How many records of each kind the book has room for.
    pub fn room(&self) -> Room
        ensures { result ≡ self.now.seen.room }
    {
        self.room
    }

    /// The caller's number and seat.
    fn into_parts(self) -> (u32, Seat)
        ensures number { result.0 ≡ self.number }
        ensures seat { (result.1.table_id ≡ self.desk) × (result.1.me ≡ idle (known_of self)) }
        ensures sound { IsSound (known_of self) }
    {
        let Pass {
            number,
            room: _,
            seat,
        } = self;
        (number, seat)
    }
}

/// A shared book. Contracts see which one it is, and its number of callers.
#[derive(Drop)]
pub struct Desk {
    lock: TicketLock,
    callers: u32,
}

impl Model for Desk {
    ghost use Rattle.tally_desk.specs.Passes.{DeskState};

    ghost Value = { DeskState };

    ghost use Rattle.std.specs.Prelude.{◌≡◌, ◌<◌, ◌≤◌};

    ghost view = { λ d. record { id = d.lock.table.shared.table_id; callers = d.callers } };

    ghost invariant = { λ d. (d.lock.table.shared.key.callers ≡ d.callers) × (0 < d.callers) };
}

/// Deals the seat of all callers to passes, of which there is room for all.
fn deal_all(lock: &TicketLock, mut seat: Seat, opening: &Opening, passes: &mut Vec<Pass>)
    requires seat { (seat.table_id ≡ lock.now.table.shared.table_id) × (seat.me ≡ standing (newcomers opening.now.clock opening.now.room opening.now.callers 0 opening.now.callers)) }
    requires room { (passes.old.items ≡ []) × (opening.now.callers ≤ vec_capacity passes.old) }
    requires few { opening.now.callers ≤ HOST_LIMIT }
    requires right { IsRoom opening.now.room }
    ensures { passes.new.items ≡ first_passes lock.now.table.shared.table_id opening.now.clock opening.now.room opening.now.callers }
{
    for number in 0..opening.callers {
        passes.push_reserved(Pass::first(opening, number, lock.deal(&mut seat)));
    }
}

/// The seat that stands for the callers of all passes, of which there is one.
fn gather_all(lock: &TicketLock, mut passes: Vec<Pass>) -> Seat
    requires some { 0 < vec_len passes }
    requires desk { All (λ p. p.desk ≡ lock.now.table.shared.table_id) passes.items }
    ensures desk { result.table_id ≡ lock.now.table.shared.table_id }
    ensures all { result.me ≡ standing (map known_of passes.items) }
    ensures sound { All (λ p. IsSound (known_of p)) passes.items }
{
    let Some(last) = passes.pop() else {
        unreachable!()
    };
    let (_, mut seat) = last.into_parts();
    while let Some(pass) = passes.pop() {
        let (_, other) = pass.into_parts();
        lock.gather(&mut seat, other);
    }
    seat
}

impl Desk {
    /// A desk with an empty book, with the days of UTC and room for a million records of each kind, and a pass for each of 1 to 128
    /// callers, in order. The book's tables are hashed by the keys.
    pub fn open(
        alloc: Global,
        keys: RandomState,
        callers: u32,
    ) -> Result<(Desk, Vec<Pass>), OpenFault>
        ensures callers { IfOk result (λ r. r.0.callers ≡ callers) }
        ensures passes { IfOk result (λ r. r.1.items ≡ first_passes r.0.id utc MILLION callers) }
        ensures desk { IfOk result (λ r. All (λ p. p.desk ≡ r.0.id) r.1.items) }
        ensures given { OnOk result ((0 < callers) × (callers ≤ HOST_LIMIT)) }
        ensures refused { IfErr result (IsOpenFault callers) }
    {
        Desk::open_on(alloc, keys, Clock::utc(alloc), callers)
    }

    /// The same with a book that has the days of a clock.
    pub fn open_on(
        alloc: Global,
        keys: RandomState,
        clock: Clock,
        callers: u32,
    ) -> Result<(Desk, Vec<Pass>), OpenFault>
        ensures callers { IfOk result (λ r. r.0.callers ≡ callers) }
        ensures passes { IfOk result (λ r. r.1.items ≡ first_passes r.0.id clock MILLION callers) }
        ensures desk { IfOk result (λ r. All (λ p. p.desk ≡ r.0.id) r.1.items) }
        ensures given { OnOk result ((0 < callers) × (callers ≤ HOST_LIMIT)) }
        ensures refused { IfErr result (IsOpenFault callers) }
    {
        Desk::open_with_room(alloc, keys, clock, Room::usual(), callers)
    }

    /// The same with a book that has room for so many records of each kind.
    pub fn open_with_room(
        alloc: Global,
        keys: RandomState,
        clock: Clock,
        room: Room,
        callers: u32,
    ) -> Result<(Desk, Vec<Pass>), OpenFault>
        ensures callers { IfOk result (λ r. r.0.callers ≡ callers) }
        ensures passes { IfOk result (λ r. r.1.items ≡ first_passes r.0.id clock room callers) }
        ensures desk { IfOk result (λ r. All (λ p. p.desk ≡ r.0.id) r.1.items) }
        ensures given { OnOk result ((0 < callers) × (callers ≤ HOST_LIMIT)) }
        ensures refused { IfErr result (IsOpenFault callers) }
    {
        if callers == 0 || callers > HOST_LIMIT {
            return Err(OpenFault::Callers(callers));
        }
        let mut passes = Vec::with_capacity(alloc, callers as usize).map_err(
            |_| OpenFault::Memory,
        )?;
        let opening = Opening {
            callers,
            clock,
            room,
        };
        let (lock, seat) = TicketLock::open(alloc, keys, &opening).map_err(|_| OpenFault::Memory)?;
        deal_all(&lock, seat, &opening, &mut passes);
        Ok((Desk { lock, callers }, passes))
    }

    /// The book, where all passes are handed in. Else all comes back.
    pub fn close(self, passes: Vec<Pass>) -> Result<Book, (CloseFault, Desk, Vec<Pass>)>
        requires desk { All (λ p. p.desk ≡ self.id) passes.items }
        ensures legal { IfOk result IsLegal }
        ensures callers { IfOk result (λ b. b.callers ≡ self.callers) }
        ensures stands { IfOk result (λ b. All (Stands b) passes.items) }
        ensures did { IfOk result (λ b. All (HasDone b) passes.items) }
        ensures calls { IfOk result (λ b. length b.calls ≡ sum_by (λ p. length p.mine) passes.items) }
        ensures all { OnOk result (self.callers ≤ length passes.items) }
        ensures missing { OnErr result (length passes.items < self.callers) }
        ensures refused { IfErr result (λ e. (e.1 ≡ self) × (e.2.items ≡ passes.items)) }
    {
        if passes.len() < self.callers as usize {
            return Err((CloseFault::PassMissing, self, passes));
        }
        let Desk { lock, callers: _ } = self;
        let seat = gather_all(&lock, passes);
        Ok(lock.close(seat))
    }

    /// How many callers it has.
    pub fn callers(&self) -> u32
        ensures { result ≡ self.now.callers }
    {
        self.callers
    }

    /// Posts the batch as the caller's, in its turn, for which it waits. Refused, the book is as it
    /// was: for records that do not fit, for calls, then for memory.
    pub fn post<R: Wait>(
        &self,
        rt: &R,
        pass: &mut Pass,
        batch: &Batch,
    ) -> Result<Receipt, PostFault>
        requires desk { pass.old.desk ≡ self.now.id }
        ensures keeps { Keeps pass.old pass.new }
        ensures legal { IsLegal pass.new.seen }
        ensures current { IsCurrent pass.new }
        ensures answered { IfOk result (λ r. IsAnswered pass.old (Posted pass.old.number r.before r.after) r.call pass.new) }
        ensures stored { IfOk result (λ r. Stores pass.old.number r.before batch.now pass.new.seen) }
        ensures after { IfOk result (λ r. r.after ≡ counts_of pass.new.seen) }
        ensures refused { OnErr result (pass.new.mine ≡ pass.old.mine) }
        ensures cause { IfErr result (IsPostRefusal pass.new.seen.room (counts_of pass.new.seen) (length pass.new.seen.calls) batch.now) }
        ensures did { MatchResult result
            (λ _. deeds pass.new ≡ deeds pass.old ++ Post (logins_in batch.now) (procs_in batch.now) ∷ [])
            (λ _. deeds pass.new ≡ deeds pass.old) }
    {
        let number = pass.number;
        self.lock.post(rt, &mut pass.seat, number, batch)
    }

    /// Answers a question over all that is stored, in the caller's turn, for which it waits.
    /// Refused, the book is as it was: for calls, for a host that no caller has, then for memory.
    pub fn ask<R: Wait>(
        &self,
        rt: &R,
        alloc: Global,
        pass: &mut Pass,
        question: &Question,
    ) -> Result<Served, AskFault>
        requires desk { pass.old.desk ≡ self.now.id }
        requires askable { IsAskable question.now }
        ensures keeps { Keeps pass.old pass.new }
        ensures legal { IsLegal pass.new.seen }
        ensures current { IsCurrent pass.new }
        ensures answered { IfOk result (λ r. IsAnswered pass.old (Asked pass.old.number r.at question.now r.answer) r.call pass.new) }
        ensures at { IfOk result (λ r. r.at ≡ counts_of pass.new.seen) }
        ensures value { IfOk result (λ r. r.answer ≡ answer_of pass.new.seen.clock question.now pass.new.seen.logins pass.new.seen.procs) }
        ensures days { IfOk result (λ r. HasDays r.answer) }
        ensures refused { OnErr result (pass.new.mine ≡ pass.old.mine) }
        ensures cause { IfErr result (IsAskRefusal pass.new.seen.callers (length pass.new.seen.calls) question.now) }
        ensures did { MatchResult result
            (λ _. deeds pass.new ≡ deeds pass.old ++ Ask question.now ∷ [])
            (λ _. deeds pass.new ≡ deeds pass.old) }
    {
        let number = pass.number;
        self.lock.ask(rt, alloc, &mut pass.seat, number, question)
    }

    /// How many calls the book's history has had by now. It does not wait.
    pub fn stored(&self, pass: &mut Pass) -> u64
        requires desk { pass.old.desk ≡ self.now.id }
        ensures told { pass.old.told ≤ result }
        ensures learns { pass.new ≡ told_pass result pass.old }
    {
        self.lock.calls(&mut pass.seat)
    }
}
