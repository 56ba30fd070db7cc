//! Questions that are asked in rounds, and calls up to a full history.
ghost use Rattle.std.specs.Prelude.{◌≡◌};

use crate::desk::makers::{Turns, closed, closed_with, nothing, opened, twos};
use crate::equal::expect_equal;
use std::alloc::Global;
use std::process::Abort;
use std::sync::Wait;
use std::sync::atomic::{AtomicU64, Ordering};
use tally_book::{Answer, Book, Call, PostFault, Question};
use tally_desk::{Bytes, Desk, FeedFault, OpenGate, Pass, ask_rounds, feed};
use tally_records::{Batch, EVERY_LOGIN, Kind};

const TOTAL: Question = Question::Connect {
    by_day: false,
    by_user: false,
    offset: 0,
    choice: EVERY_LOGIN,
    until: None,
};

/// Whether it is a report of no connect time.
fn is_report_of_none(call: &Call) -> bool {
    match call {
        Call::Asked {
            answer: Answer::Connect { total, .. },
            ..
        } => *total == 0,
        _ => false,
    }
}

/// How many calls a book has, and how many of them are reports of no connect time.
fn reports_in(book: &Book) -> (usize, usize) {
    let mut reports = 0usize;
    for call in book.calls() {
        if is_report_of_none(call) {
            reports = reports.saturating_add(1);
        }
    }
    (book.calls().len(), reports)
}

#[test]
fn each_round_asks_again(rt: HostRuntime) {
    let rt = &rt;
    let alloc = rt.alloc();
    let gate = Turns {
        digits: AtomicU64::new(0),
    };
    let (desk, mut pass) = opened(rt, alloc);
    let outcome = ask_rounds(rt, alloc, &desk, &mut pass, &[TOTAL], 3, &gate);
    let book = closed(rt, alloc, desk, pass);
    let reports = reports_in(&book);
    drop(book);
    expect_equal(rt, &outcome, &Ok(3));
    expect_equal(rt, &reports, &(3, 3));
    expect_equal(rt, &gate.digits.load(Ordering::SeqCst), &123);
}

/// Asserts that nothing is asked without questions, and without rounds.
fn expect_nothing<R: Abort + Wait>(rt: &R, alloc: Global, desk: &Desk, pass: &mut Pass)
    requires { pass.old.desk ≡ desk.now.id }
{
    let idle = ask_rounds(rt, alloc, desk, pass, &[], 5, &OpenGate);
    let brief = ask_rounds(rt, alloc, desk, pass, &[TOTAL], 0, &OpenGate);
    expect_equal(rt, &idle, &Ok(0));
    expect_equal(rt, &brief, &Ok(0));
    expect_equal(rt, &desk.stored(pass), &0);
}

#[test]
fn nothing_is_asked_without_questions_or_rounds(rt: HostRuntime) {
    let rt = &rt;
    let alloc = rt.alloc();
    let (desk, mut pass) = opened(rt, alloc);
    expect_nothing(rt, alloc, &desk, &mut pass);
    drop(pass);
    drop(desk);
}

/// Posts the batch again and again, and says why it was refused at last.
fn post_until_refused<R: Wait>(
    rt: &R,
    desk: &Desk,
    pass: &mut Pass,
    batch: &Batch,
) -> Option<PostFault>
    requires { pass.old.desk ≡ desk.now.id }
    ensures { pass.new.desk ≡ desk.now.id }
{
    for _ in 0..70_000 {
        if let Err(fault) = desk.post(rt, pass, batch) {
            return Some(fault);
        }
    }
    None
}

/// Asserts that a desk takes so many calls and no more.
fn expect_full<R: Abort + Wait>(rt: &R, desk: &Desk, pass: &mut Pass, empty: &Batch)
    requires { pass.old.desk ≡ desk.now.id }
    ensures { pass.new.desk ≡ desk.now.id }
{
    let refused = post_until_refused(rt, desk, pass, empty);
    expect_equal(rt, &refused, &Some(PostFault::CallsFull));
    expect_equal(rt, &desk.stored(pass), &65_536);
}

#[test]
fn a_full_history_refuses_a_feed(rt: HostRuntime) {
    let rt = &rt;
    let alloc = rt.alloc();
    let empty = nothing(rt, alloc);
    let mut input = Bytes::new(twos(rt, alloc, 192));
    let (desk, mut pass) = opened(rt, alloc);
    expect_full(rt, &desk, &mut pass, &empty);
    let outcome = feed(
        rt,
        alloc,
        &desk,
        &mut pass,
        Kind::Proc,
        &mut input,
        &OpenGate,
    );
    let stored = closed_with(rt, alloc, desk, pass);
    expect_equal(rt, &outcome, &Err(FeedFault::CallsFull));
    expect_equal(rt, &stored, &[0, 0, 65_536]);
}
