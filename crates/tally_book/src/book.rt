ghost use Rattle.std.specs.Prelude.{◌≡◌, ◌<◌, ◌≤◌, [], length, IfOk, IfErr, OnErr, OnOk};
ghost use Rattle.tally_answers.specs.Answers.{HasDays, IsAskable, answer_of};
ghost use Rattle.tally_book.specs.Books.{IsLegal, IsReceipt, IsServed, counts_of, empty, empty_with_room, posted, asked};
ghost use Rattle.tally_book.specs.Refusals.{IsPostRefusal, IsAskRefusal};
ghost use Rattle.tally_clock.specs.Rows.{utc};
ghost use Rattle.tally_sessions.specs.Days.{IsOffset};
ghost use Rattle.tally_sessions.specs.Hosts.{entries_of_host};
ghost use Rattle.tally_sessions.specs.Lent.{entries_in as lent_logins};
ghost use Rattle.tally_usage.specs.Entries.{entries_in};

use crate::answering::{answer, check_host, connect_answer};
use crate::fault::{AskFault, PostFault};
use crate::history::{Call, Receipt, Served, record};
use crate::logins::LoginStore;
use crate::room::Room;
use crate::storing::{check_room, counts, is_full, store};
use std::alloc::Global;
use std::hash::RandomState;
use std::marker::Model;
use std::thread::Threads;
use tally_answers::{Answer, Question};
use tally_clock::Clock;
use tally_records::{Batch, LoginChoice, Memory};
use tally_sessions::{Entries, EntryList, HOST_LIMIT, Sessions};
use tally_usage::{ProcEntries, ProcList, Summary};

/// The most calls of a history.
pub const CALL_LIMIT: usize = 65_536;

/// The stored records of some callers, and the history of the calls that stored them or asked
/// reports of them. Each caller is one host.
#[derive(Drop)]
pub struct Book {
    callers: u32,
    clock: Clock,
    room: Room,
    logins: LoginStore,
    summary: Summary,
    calls: Vec<Call>,
}

impl Model for Book {
    ghost use Rattle.tally_book.specs.Contents.{Contents};

    ghost Value = { Contents };

    ghost use Rattle.tally_book.specs.inside.Kept.{contents_of, IsSound};

    ghost view = { contents_of };

    ghost invariant = { IsSound };
}

impl Book {
    /// An empty book of so many callers, with the days of UTC and room for a million records of each kind. Its tables are hashed by
    /// the keys.
    pub fn new(alloc: Global, keys: RandomState, callers: u32) -> Result<Book, Memory>
        requires some { 1 ≤ callers }
        requires few { callers ≤ HOST_LIMIT }
        ensures empty { IfOk result (λ b. b ≡ empty utc callers) }
        ensures legal { IfOk result IsLegal }
    {
        Book::on(alloc, keys, Clock::utc(alloc), callers)
    }

    /// The same with the days of a clock.
    pub fn on(alloc: Global, keys: RandomState, clock: Clock, callers: u32) -> Result<Book, Memory>
        requires some { 1 ≤ callers }
        requires few { callers ≤ HOST_LIMIT }
        ensures empty { IfOk result (λ b. b ≡ empty clock callers) }
        ensures legal { IfOk result IsLegal }
    {
        Book::with_room(alloc, keys, clock, Room::usual(), callers)
    }

    /// The same with room for so many records of each kind.
    pub fn with_room(
        alloc: Global,
        keys: RandomState,
        clock: Clock,
        room: Room,
        callers: u32,
    ) -> Result<Book, Memory>
        requires some { 1 ≤ callers }
        requires few { callers ≤ HOST_LIMIT }
        ensures empty { IfOk result (λ b. b ≡ empty_with_room clock room callers) }
        ensures legal { IfOk result IsLegal }
    {
        Ok(Book {
            callers,
            clock,
            room,
            logins: LoginStore::new(alloc, keys, callers),
            summary: Summary::new(alloc, keys),
            calls: Vec::new(alloc),
        })
    }

    /// How many callers it has.
    pub fn callers(&self) -> u32
        ensures { result ≡ self.now.callers }
    {
        self.callers
    }

    /// The clock of its days.
    pub fn clock(&self) -> &Clock
        ensures { result.now ≡ self.now.clock }
    {
        &self.clock
    }

    /// How many records of each kind it has room for.
    pub fn room(&self) -> Room
        ensures { result ≡ self.now.room }
    {
        self.room
    }

    /// The stored login entries, in stored order.
    pub fn logins(&self) -> Entries<'_>
        ensures { lent_logins result ≡ self.now.logins }
    {
        self.logins.entries()
    }

    /// The stored process entries, in stored order.
    pub fn procs(&self) -> ProcEntries<'_>
        ensures { entries_in result ≡ self.now.procs }
    {
        self.summary.entries()
    }

    /// The answered calls, in order.
    pub fn calls(&self) -> &[Call]
        ensures { result.now ≡ self.now.calls }
    {
        self.calls.as_slice()
    }

    /// Hands out the entries and the calls.
    pub fn into_parts(self) -> (EntryList, ProcList, Vec<Call>)
        ensures logins { result.0 ≡ self.logins }
        ensures procs { result.1 ≡ self.procs }
        ensures calls { result.2.items ≡ self.calls }
    {
        let Book {
            callers: _,
            clock: _,
            room: _,
            logins,
            summary,
            calls,
        } = self;
        (logins.into_entries(), summary.into_entries(), calls)
    }

    /// Stores a batch as the caller's. Refused, nothing has changed: for records that do not fit,
    /// for calls, then for memory.
    pub fn post(&mut self, caller: u32, batch: &Batch) -> Result<Receipt, PostFault>
        requires caller { caller < self.old.callers }
        ensures stored { OnOk result (self.new ≡ posted self.old caller batch.now) }
        ensures receipt { IfOk result (IsReceipt self.old self.new) }
        ensures refused { OnErr result (self.new ≡ self.old) }
        ensures cause { IfErr result (IsPostRefusal self.old.room (counts_of self.old) (length self.old.calls) batch.now) }
        ensures legal { IsLegal self.new }
    {
        let before = counts(&self.logins, &self.summary);
        check_room(self.room, before, self.calls.len(), batch)?;
        self.calls.reserve(1)?;
        store(&mut self.logins, &mut self.summary, caller, batch)?;
        let after = counts(&self.logins, &self.summary);
        let posted = Call::Posted {
            caller,
            before,
            after,
        };
        let call = record(&mut self.calls, posted);
        Ok(Receipt {
            call,
            before,
            after,
        })
    }

    /// Hands out the sessions of the stored login entries, which are counted by so many threads at most where no
    /// question has had them counted. It errs where memory runs out for that.
    pub fn into_sessions<R: Threads + Sync>(
        self,
        rt: &R,
        alloc: Global,
        threads: u32,
    ) -> Result<Sessions, Memory>
        ensures entries { IfOk result (λ sessions. sessions.entries ≡ self.logins) }
        ensures hosts { IfOk result (λ sessions. sessions.hosts ≡ self.callers) }
    {
        let Book {
            callers: _,
            clock: _,
            room: _,
            mut logins,
            summary: _,
            calls: _,
        } = self;
        logins.count_by(rt, alloc, threads)?;
        let Some(sessions) = logins.into_sessions() else {
            unreachable!()
        };
        Ok(sessions)
    }

    /// Counts the sessions of what is stored by so many threads at most, so that no question has to wait for that. What the book
    /// holds stays the same, also where memory is refused.
    pub fn count_sessions<R: Threads + Sync>(
        &mut self,
        rt: &R,
        alloc: Global,
        threads: u32,
    ) -> Result<(), Memory>
        ensures same { self.new ≡ self.old }
    {
        self.logins.count_by(rt, alloc, threads)
    }

    /// Connect times as a question has them, over the sessions of one caller alone. It is no call of the history.
    #[tactic(auto, unfolding(tally_answers::specs::Answers::answer_of))]
    pub fn connect_of_host(
        &self,
        alloc: Global,
        host: u32,
        by_day: bool,
        by_user: bool,
        offset: i32,
        choice: &LoginChoice,
        until: Option<i32>,
    ) -> Result<Answer, Memory>
        requires offset { IsOffset offset }
        ensures value { IfOk result (λ a. a ≡ answer_of self.now.clock (Question.Connect by_day by_user offset choice.now until) (entries_of_host host self.now.logins) []) }
        ensures days { IfOk result HasDays }
    {
        let sessions = self.logins.sessions_of(alloc, host)?;
        connect_answer(
            alloc,
            self.clock(),
            &sessions,
            by_day,
            by_user,
            offset,
            choice,
            until,
        )
    }

    /// Answers a question over all that is stored. Refused, nothing has changed: for calls, for a
    /// host that no caller has, then for memory.
    pub fn ask(
        &mut self,
        alloc: Global,
        caller: u32,
        question: &Question,
    ) -> Result<Served, AskFault>
        requires caller { caller < self.old.callers }
        requires askable { IsAskable question.now }
        ensures stored { OnOk result (self.new ≡ asked self.old caller question.now) }
        ensures served { IfOk result (IsServed self.old self.new question.now) }
        ensures days { IfOk result (λ r. HasDays r.answer) }
        ensures refused { OnErr result (self.new ≡ self.old) }
        ensures cause { IfErr result (IsAskRefusal self.old.callers (length self.old.calls) question.now) }
        ensures legal { IsLegal self.new }
    {
        if is_full(self.calls.len()) {
            return Err(AskFault::CallsFull);
        }
        check_host(self.callers, question)?;
        self.calls.reserve(1)?;
        self.logins.count_for(alloc, question)?;
        let at = counts(&self.logins, &self.summary);
        let answer = answer(
            alloc,
            &self.clock,
            &self.logins,
            self.callers,
            &self.summary,
            question,
        )?;
        let asked = Call::asked(alloc, caller, at, question, &answer)?;
        let call = record(&mut self.calls, asked);
        Ok(Served { call, at, answer })
    }
}
