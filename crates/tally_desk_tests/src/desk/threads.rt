//! Callers that feed and ask side by side, each in a thread of its own.
ghost use Rattle.std.specs.Prelude.{◌≡◌};
ghost use Rattle.std.specs.List.{All};

use crate::desk::makers::{Meeting, book_of, new_keys, twos};
use crate::equal::expect_equal;
use std::alloc::Global;
use std::hash::RandomState;
use std::process::Abort;
use std::sync::Wait;
use std::thread::{Threads, for_each_mut};
use tally_book::{Book, Call, Question};
use tally_desk::{Bytes, Desk, Gate, Pass, feed};
use tally_records::{EVERY_LOGIN, Kind};

const TOTAL: Question = Question::Connect {
    by_day: false,
    by_user: false,
    offset: 0,
    choice: EVERY_LOGIN,
    until: None,
};

/// Asks one question together with the others' calls, and asserts that the desk then had at least
/// this many calls and the number of this one.
fn ask_once<R: Abort + Wait>(
    rt: &R,
    alloc: Global,
    desk: &Desk,
    pass: &mut Pass,
    gate: &Meeting,
    least: u64,
)
    requires { pass.old.desk ≡ desk.now.id }
    ensures { pass.new.desk ≡ pass.old.desk }
{
    gate.before(pass.number(), 0);
    let served = desk.ask(rt, alloc, pass, &TOTAL).expect(rt, "an answer");
    let least = least.max(served.call);
    drop(served);
    assert!(rt; desk.stored(pass) >= least);
}

/// Feeds 1,025 records as two posts and asks two questions, each call made together with the
/// others' calls. Asserts that the desk then counted them each time.
fn take_part<R: Abort + Wait>(rt: &R, alloc: Global, desk: &Desk, pass: &mut Pass, gate: &Meeting)
    requires { pass.old.desk ≡ desk.now.id }
    ensures { pass.new.desk ≡ pass.old.desk }
{
    let mut input = Bytes::new(twos(rt, alloc, 65_600));
    let fed = feed(rt, alloc, desk, pass, Kind::Proc, &mut input, gate).expect(rt, "a feed");
    drop(input);
    expect_equal(rt, &fed.batches, &2);
    assert!(rt; desk.stored(pass) >= 2);
    ask_once(rt, alloc, desk, pass, gate, 3);
    ask_once(rt, alloc, desk, pass, gate, 4);
}

/// All callers of a desk take part, each in a thread of its own.
fn all_take_part<R: Abort + Threads + Wait + Sync>(
    rt: &R,
    alloc: Global,
    desk: &Desk,
    passes: &mut [Pass],
    gate: &Meeting,
)
    requires { All (λ p. p.desk ≡ desk.now.id) passes.old }
    ensures { All (λ p. p.desk ≡ desk.now.id) passes.new }
{
    let threads = passes.len().max(1);
    for_each_mut(
        rt,
        passes,
        threads,
        &|_, pass| take_part(rt, alloc, desk, pass, gate),
    );
}

/// How many records are the caller's.
fn records_of(book: &Book, number: u32) -> usize {
    let entries = book.procs();
    let mut records = 0usize;
    for place in 0..entries.len() {
        if matches!(entries.get(place), Some(entry) if entry.host == number) {
            records = records.saturating_add(1);
        }
    }
    records
}

/// How many posts the caller made, and how many questions it asked.
fn calls_of(book: &Book, number: u32) -> (usize, usize) {
    let (mut posts, mut asks) = (0usize, 0usize);
    for call in book.calls() {
        match call {
            Call::Posted { caller, .. } if *caller == number => posts = posts.saturating_add(1),
            Call::Asked { caller, .. } if *caller == number => asks = asks.saturating_add(1),
            _ => {}
        }
    }
    (posts, asks)
}

/// Whether this many last calls are questions that were asked of this many records.
fn all_asked_at(book: &Book, last: usize, procs: u64) -> bool {
    let mut calls = book.calls().iter().rev().take(last);
    calls.all(|call| matches!(call, Call::Asked { at, .. } if at.procs == procs))
}

/// Asserts that a book has so many calls and process records, an equal share of each caller, and that all asked after the last post.
fn expect_shares(rt: &impl Abort, book: &Book, callers: u32, calls: usize, procs: u64) {
    assert!(rt; book.calls().len() == calls);
    for number in 0..callers {
        let share = (records_of(book, number), calls_of(book, number));
        assert!(rt; share == (1025, (2, 2)), "of {number}");
    }
    assert!(rt; all_asked_at(book, calls / 2, procs));
}

/// Asserts the same of the closed book of a new desk whose callers all took part.
fn expect_side_by_side<R: Abort + Threads + Wait + Sync>(
    rt: &R,
    alloc: Global,
    keys: RandomState,
    callers: u32,
    calls: usize,
    procs: u64,
) {
    let gate = Meeting::of(u64::from(callers));
    let (desk, mut passes) = Desk::open(alloc, keys, callers).expect(rt, "a desk");
    all_take_part(rt, alloc, &desk, passes.as_mut_slice(), &gate);
    let book = book_of(rt, desk, passes);
    expect_shares(rt, &book, callers, calls, procs);
    drop(book);
    assert!(rt; gate.late() == 0);
}

#[test]
fn two_callers_feed_and_ask_side_by_side(rt: HostRuntime) {
    let rt = &rt;
    expect_side_by_side(rt, rt.alloc(), new_keys(rt), 2, 8, 2050);
}

#[test]
fn four_callers_feed_and_ask_side_by_side(rt: HostRuntime) {
    let rt = &rt;
    expect_side_by_side(rt, rt.alloc(), new_keys(rt), 4, 16, 4100);
}
