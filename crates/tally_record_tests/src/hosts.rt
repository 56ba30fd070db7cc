//! Connect times of one caller of a book alone.
ghost use Rattle.std.specs.Prelude.{◌≡◌, ◌<◌};

use crate::equal::expect_equal;
use crate::makers::login_record;
use std::hash::RandomState;
use std::process::Abort;
use std::random::RandomSource;
use tally_book::{Answer, Book};
use tally_records::{Batch, EVERY_LOGIN};

/// Posts a login of ann on the first terminal, or a logout.
fn post<R: Abort + AllocGlobal>(rt: &R, book: &mut Book, caller: u32, user: &[u8], time: i32)
    requires { caller < book.old.callers }
    ensures { book.new.callers ≡ book.old.callers }
{
    let record = login_record(
        if user.is_empty() { 8 } else { 7 },
        [b"tty1", user, b""],
        time,
    );
    let batch = Batch::logins(rt.alloc(), &record).expect(rt, "login records");
    book.post(caller, &batch).expect(rt, "a receipt");
    drop(batch);
}

/// Stores an hour of ann for the first caller, and half an hour of ann within it for the second.
fn fill<R: Abort + AllocGlobal>(rt: &R, book: &mut Book)
    requires { book.old.callers ≡ 2 }
    ensures { book.new.callers ≡ 2 }
{
    post(rt, book, 0, b"ann", 100);
    post(rt, book, 1, b"ann", 200);
    post(rt, book, 1, b"", 2000);
    post(rt, book, 0, b"", 3700);
}

/// The seconds of the first two rows by user, and the total.
fn seconds_in(answer: &Answer) -> Option<([Option<u64>; 2], u64)> {
    match answer {
        Answer::Connect { rows, total } => {
            let seconds = [0, 1].map(|place| rows.get(place).map(|row| row.seconds));
            Some((seconds, *total))
        }
        _ => None,
    }
}

/// Those of one caller, and how many calls the book has then.
fn of_caller<R: Abort + AllocGlobal + RandomSource>(
    rt: &R,
    caller: u32,
) -> (Option<([Option<u64>; 2], u64)>, usize) {
    let alloc = rt.alloc();
    let keys = RandomState::new(rt).expect(rt, "random bytes");
    let mut book = Book::new(alloc, keys, 2).expect(rt, "a book");
    fill(rt, &mut book);
    let answer = book.connect_of_host(alloc, caller, false, true, 0, &EVERY_LOGIN, None);
    let answer = answer.expect(rt, "an answer");
    let calls = book.calls().len();
    drop(book);
    let seconds = seconds_in(&answer);
    drop(answer);
    (seconds, calls)
}

#[test]
fn connect_time_of_a_caller_is_of_its_records_alone(rt: HostRuntime) {
    let rt = &rt;
    expect_equal(
        rt,
        &of_caller(rt, 0),
        &(Some(([Some(3600), None], 3600)), 4),
    );
    expect_equal(
        rt,
        &of_caller(rt, 1),
        &(Some(([Some(1800), None], 1800)), 4),
    );
    // There is no third caller.
    expect_equal(rt, &of_caller(rt, 2), &(Some(([None, None], 0)), 4));
}
