//! Answers of a book to questions on failed logins.
ghost use Rattle.std.specs.Prelude.{◌≡◌, ◌<◌};
ghost use Rattle.tally_answers.specs.Answers.{IsAskable, NamesHostBelow};

use crate::equal::expect_equal;
use crate::makers::login_record;
use std::hash::RandomState;
use std::process::Abort;
use std::random::RandomSource;
use tally_attempts::latest_before;
use tally_book::{Answer, Book, Question};
use tally_records::{Batch, EVERY_LOGIN};

/// A failed login of a user.
fn record(user: &[u8], time: i32) -> [u8; 384] {
    login_record(6, [b"ssh:notty", user, b"10.0.0.1"], time)
}

/// Posts failed logins.
fn post<R: Abort + AllocGlobal>(rt: &R, book: &mut Book, caller: u32, blocks: &[[u8; 384]])
    requires { caller < book.old.callers }
    ensures { book.new.callers ≡ book.old.callers }
{
    let batch = Batch::failed_logins(rt.alloc(), blocks.as_flattened()).expect(rt, "failed logins");
    book.post(caller, &batch).expect(rt, "a receipt");
    drop(batch);
}

/// Stores ann's failed logins at 1 and 3 and bob's at 4 on the first host, and ann's at 2 on the second.
fn fill<R: Abort + AllocGlobal>(rt: &R, book: &mut Book)
    requires { book.old.callers ≡ 2 }
    ensures { book.new.callers ≡ 2 }
{
    post(rt, book, 0, &[record(b"ann", 1)]);
    post(rt, book, 1, &[record(b"ann", 2)]);
    post(rt, book, 0, &[record(b"ann", 3), record(b"bob", 4)]);
}

/// The answer of a book of these failed logins.
fn answer_to<R: Abort + AllocGlobal + RandomSource>(rt: &R, question: &Question) -> Answer
    requires { IsAskable question.now }
{
    let keys = RandomState::new(rt).expect(rt, "random bytes");
    let mut book = Book::new(rt.alloc(), keys, 2).expect(rt, "a book");
    fill(rt, &mut book);
    let served = book.ask(rt.alloc(), 0, question).expect(rt, "an answer");
    drop(book);
    served.answer
}

/// When the first four rows were, and the first record.
fn times_in(answer: &Answer) -> Option<([Option<i32>; 4], Option<i32>)> {
    match answer {
        Answer::Attempts { rows, first } => {
            let times = [0, 1, 2, 3].map(|place| rows.get(place).map(|row| row.time));
            Some((times, *first))
        }
        _ => None,
    }
}

#[test]
fn failed_logins_of_a_host_come_the_latest_first(rt: HostRuntime) {
    let all = [Some(4), Some(3), Some(1), None];
    for (limit, times) in [(None, all), (Some(1), [Some(4), None, None, None])] {
        let question = Question::Attempts {
            host: 0,
            limit,
            choice: EVERY_LOGIN,
        };
        let answer = answer_to(&rt, &question);
        expect_equal(&rt, &times_in(&answer), &Some((times, Some(1))));
        drop(answer);
    }
}

/// The users of the first three rows that count failed logins, with their numbers.
fn sums_in(answer: &Answer) -> Option<[Option<(u8, u64)>; 3]> {
    match answer {
        Answer::AttemptSums { rows } => {
            Some([0, 1, 2].map(|place| rows.get(place).map(|row| (row.user[0], row.attempts))))
        }
        _ => None,
    }
}

#[test]
fn failed_logins_of_all_hosts_are_counted_the_most_first(rt: HostRuntime) {
    let question = Question::AttemptSums {
        limit: None,
        choice: EVERY_LOGIN,
    };
    let answer = answer_to(&rt, &question);
    let wanted = [Some((b'a', 3)), Some((b'b', 1)), None];
    expect_equal(&rt, &sums_in(&answer), &Some(wanted));
    drop(answer);
}

#[test]
fn failed_logins_are_found_one_by_one(rt: HostRuntime) {
    let keys = RandomState::new(&rt).expect(&rt, "random bytes");
    let mut book = Book::new(rt.alloc(), keys, 2).expect(&rt, "a book");
    fill(&rt, &mut book);
    let mut before = 4;
    let mut found = [None; 4];
    for place in &mut found {
        if let Some((at, row)) = latest_before(book.logins(), 0, &EVERY_LOGIN, before) {
            before = at;
            *place = Some((at, row.time));
        }
    }
    expect_equal(
        &rt,
        &found,
        &[Some((3, 4)), Some((2, 3)), Some((0, 1)), None],
    );
    drop(book);
}
