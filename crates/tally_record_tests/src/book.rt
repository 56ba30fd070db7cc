//! The limits of a book.
ghost use Rattle.tally_answers.specs.Answers.{IsAskable};

use crate::equal::expect_equal;
use crate::makers::repeated;
use std::alloc::Global;
use std::hash::RandomState;
use std::process::Abort;
use std::random::RandomSource;
use tally_book::{AskFault, Book, Counts, PostFault, Question, Receipt, Room, Served};
use tally_clock::Clock;
use tally_records::{Batch, EVERY_LOGIN};

/// Posts as a caller, of which the book has some.
fn post(book: &mut Book, caller: u32, batch: &Batch) -> Result<Receipt, PostFault> {
    if caller >= book.callers() {
        return Err(PostFault::CallsFull);
    }
    book.post(caller, batch)
}

/// Asks as a caller, of which the book has some.
fn ask(alloc: Global, book: &mut Book, caller: u32, question: Question) -> Result<Served, AskFault>
    requires { IsAskable question }
{
    if caller >= book.callers() {
        return Err(AskFault::CallsFull);
    }
    book.ask(alloc, caller, &question)
}

const TOTAL: Question = Question::Connect {
    by_day: false,
    by_user: false,
    offset: 0,
    choice: EVERY_LOGIN,
    until: None,
};

fn counts(logins: u64, procs: u64) -> Counts {
    Counts { logins, procs }
}

/// Posts the batch again and again, and says why it was refused at last.
fn filled(book: &mut Book, batch: &Batch) -> Option<PostFault> {
    for _ in 0..70_000 {
        if let Err(fault) = post(book, 0, batch) {
            return Some(fault);
        }
    }
    None
}

/// What a book answers when it is full.
#[derive(Drop)]
struct Limits {
    /// Why it refused the batch that filled it.
    refused: Option<PostFault>,
    /// What an empty batch is answered then.
    then: Result<Receipt, PostFault>,
    /// How many calls it holds after that.
    calls: usize,
    /// Why it refuses a question after that, if it does.
    asked: Option<AskFault>,
}

/// The limits of a new book of so much room that is filled with the batch.
fn limits_of<R: Abort + AllocGlobal + RandomSource>(
    rt: &R,
    room: Room,
    batch: &Batch,
    empty: &Batch,
) -> Limits {
    let alloc = rt.alloc();
    let keys = RandomState::new(rt).expect(rt, "random bytes");
    let clock = Clock::utc(alloc);
    let mut book = Book::with_room(alloc, keys, clock, room, 1).expect(rt, "a book");
    let refused = filled(&mut book, batch);
    let then = post(&mut book, 0, empty);
    let calls = book.calls().len();
    let asked = ask(alloc, &mut book, 0, TOTAL).err();
    drop(book);
    Limits {
        refused,
        then,
        calls,
        asked,
    }
}

/// Asserts why a book refuses the batch at last, and what is stored when an empty batch is posted then.
fn expect_full<R: Abort + AllocGlobal + RandomSource>(
    rt: &R,
    batch: &Batch,
    empty: &Batch,
    room: Room,
    fault: PostFault,
    stored: Counts,
) {
    let Limits { refused, then, .. } = limits_of(rt, room, batch, empty);
    expect_equal(rt, &refused, &Some(fault));
    let receipt = then.expect(rt, "a receipt");
    expect_equal(rt, &receipt.call, &(u64::from(room.batches()) + 1));
    expect_equal(rt, &receipt.after, &stored);
}

/// A batch of so many zeros, which are login records.
fn logins_of<R: Abort + AllocGlobal>(rt: &R, count: usize) -> Batch {
    let bytes = repeated(rt, 0, count);
    let batch = Batch::logins(rt.alloc(), bytes.as_slice()).expect(rt, "login records");
    drop(bytes);
    batch
}

#[test]
fn a_book_full_of_login_records_takes_an_empty_batch_alone(rt: HostRuntime) {
    let rt = &rt;
    let batch = logins_of(rt, 393_216);
    let empty = logins_of(rt, 0);
    let fault = PostFault::LoginsFull { stored: 1_048_576 };
    let room = Room::usual();
    expect_full(rt, &batch, &empty, room, fault, counts(1_048_576, 0));
    drop(empty);
    drop(batch);
}

/// A batch of so many twos, which are process records.
fn procs_of<R: Abort + AllocGlobal>(rt: &R, count: usize) -> Batch {
    let bytes = repeated(rt, 2, count);
    let batch = Batch::procs(rt.alloc(), bytes.as_slice()).expect(rt, "process records");
    drop(bytes);
    batch
}

#[test]
fn a_book_full_of_process_records_takes_an_empty_batch_alone(rt: HostRuntime) {
    let rt = &rt;
    let batch = procs_of(rt, 65_536);
    let empty = procs_of(rt, 0);
    let fault = PostFault::ProcsFull { stored: 1_048_576 };
    let room = Room::usual();
    expect_full(rt, &batch, &empty, room, fault, counts(0, 1_048_576));
    drop(empty);
    drop(batch);
}

#[test]
fn a_book_with_room_for_two_millions_takes_as_many(rt: HostRuntime) {
    let rt = &rt;
    let batch = procs_of(rt, 65_536);
    let empty = procs_of(rt, 0);
    let room = Room::of_millions(2).expect(rt, "room for two millions");
    let fault = PostFault::ProcsFull { stored: 2_097_152 };
    expect_full(rt, &batch, &empty, room, fault, counts(0, 2_097_152));
    drop(empty);
    drop(batch);
}

#[test]
fn no_room_has_none_or_17_millions(rt: HostRuntime) {
    for (millions, records) in [
        (0, None),
        (1, Some(1_048_576)),
        (16, Some(16_777_216)),
        (17, None),
    ] {
        let room = Room::of_millions(millions).map(|room| room.records());
        expect_equal(&rt, &room, &records);
    }
}

#[test]
fn a_history_holds_65536_calls(rt: HostRuntime) {
    let rt = &rt;
    let empty = procs_of(rt, 0);
    let full = limits_of(rt, Room::usual(), &empty, &empty);
    drop(empty);
    expect_equal(rt, &full.refused, &Some(PostFault::CallsFull));
    expect_equal(rt, &full.calls, &65_536);
    expect_equal(rt, &full.asked, &Some(AskFault::CallsFull));
}
