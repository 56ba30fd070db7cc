//! Desks that are opened and closed, what their callers are answered, and two threads that post to one.
ghost use Rattle.std.specs.Prelude.{◌≡◌};
ghost use Rattle.std.specs.List.{All};

use crate::desk::makers::{
    book_of, counted, hour, leave, makes, new_keys, nothing, opened, pair, with_another,
};
use crate::desk::script::{begin, counts, finish, refuse};
use crate::equal::expect_equal;
use std::alloc::Global;
use std::hash::RandomState;
use std::process::Abort;
use std::sync::Wait;
use std::thread::{Threads, for_each_mut};
use tally_book::{AskFault, Book, Receipt};
use tally_desk::{CloseFault, Desk, OpenFault, Pass};
use tally_records::Batch;

#[test]
fn a_desk_has_1_to_128_callers(rt: HostRuntime) {
    let rt = &rt;
    let keys = new_keys(rt);
    for callers in [0, 129] {
        let found = Desk::open(rt.alloc(), keys, callers).err();
        expect_equal(rt, &found, &Some(OpenFault::Callers(callers)));
    }
}

#[test]
fn passes_are_numbered_from_0(rt: HostRuntime) {
    let rt = &rt;
    let (desk, first, second) = pair(rt, rt.alloc());
    let found = (desk.callers(), first.number(), second.number());
    leave(desk, first, second);
    expect_equal(rt, &found, &(2, 0, 1));
}

/// The passes of a desk without the last, and the last.
fn parted(rt: &impl Abort, desk: &Desk, mut passes: Vec<Pass>) -> (Vec<Pass>, Pass)
    requires { All (λ p. p.desk ≡ desk.now.id) passes.items }
    ensures passes { All (λ p. p.desk ≡ desk.now.id) result.0.items }
    ensures last { result.1.desk ≡ desk.now.id }
{
    let Some(last) = passes.pop() else {
        panic!(rt; "a last pass")
    };
    (passes, last)
}

/// Why a desk is not closed without its last pass, how many passes are given back, and the book that it has with it.
fn closed_twice(
    rt: &impl Abort,
    desk: Desk,
    passes: Vec<Pass>,
    last: Pass,
) -> (CloseFault, usize, Book)
    requires passes { All (λ p. p.desk ≡ desk.id) passes.items }
    requires last { last.desk ≡ desk.id }
{
    let (fault, desk, passes) = desk.close(passes).err().expect(rt, "a pass is missing");
    let given_back = passes.len();
    let passes = with_another(rt, &desk, passes, last);
    (fault, given_back, book_of(rt, desk, passes))
}

/// Asserts that a new desk misses its last pass, which has the number of the others, and that its book has nothing.
fn expect_missed(rt: &impl Abort, alloc: Global, keys: RandomState, callers: u32, others: u32) {
    let (desk, passes) = Desk::open(alloc, keys, callers).expect(rt, "a desk");
    let (passes, last) = parted(rt, &desk, passes);
    let number = last.number();
    let (fault, given_back, book) = closed_twice(rt, desk, passes, last);
    let found = (book.callers(), counted(&book));
    drop(book);
    let missed = (fault, given_back, number);
    expect_equal(
        rt,
        &missed,
        &(CloseFault::PassMissing, others as usize, others),
    );
    expect_equal(rt, &found, &(callers, [0, 0, 0]));
}

#[test]
fn a_desk_is_closed_with_all_its_passes(rt: HostRuntime) {
    let rt = &rt;
    expect_missed(rt, rt.alloc(), new_keys(rt), 2, 1);
}

#[test]
fn the_last_of_128_passes_is_missed(rt: HostRuntime) {
    let rt = &rt;
    expect_missed(rt, rt.alloc(), new_keys(rt), 128, 127);
}

#[test]
fn an_empty_post_is_a_call(rt: HostRuntime) {
    let rt = &rt;
    let alloc = rt.alloc();
    let empty = nothing(rt, alloc);
    let (desk, mut pass) = opened(rt, alloc);
    let before = desk.stored(&mut pass);
    let found = desk.post(rt, &mut pass, &empty).expect(rt, "a receipt");
    let after = desk.stored(&mut pass);
    drop(pass);
    drop(desk);
    let receipt = Receipt {
        call: 1,
        before: counts(0, 0),
        after: counts(0, 0),
    };
    expect_equal(rt, &found, &receipt);
    expect_equal(rt, &(before, after), &(0, 1));
}

#[test]
fn stored_tells_the_calls_of_others(rt: HostRuntime) {
    let rt = &rt;
    let alloc = rt.alloc();
    let empty = nothing(rt, alloc);
    let (desk, mut first, mut second) = pair(rt, alloc);
    let _receipt = desk.post(rt, &mut first, &empty).expect(rt, "a receipt");
    let found = desk.stored(&mut second);
    leave(desk, first, second);
    expect_equal(rt, &found, &1);
}

#[test]
fn a_report_is_of_what_another_posted(rt: HostRuntime) {
    let rt = &rt;
    let alloc = rt.alloc();
    let (desk, mut first, mut second) = pair(rt, alloc);
    let found = begin(rt, alloc, &desk, &mut first, &mut second);
    leave(desk, first, second);
    let receipt = Receipt {
        call: 1,
        before: counts(0, 0),
        after: counts(2, 0),
    };
    let report = (2, counts(2, 0), Some((0, 3600)));
    expect_equal(rt, &found, &(receipt, report));
}

#[test]
fn a_refused_report_is_no_call(rt: HostRuntime) {
    let rt = &rt;
    let alloc = rt.alloc();
    let (desk, mut first, mut second) = pair(rt, alloc);
    let found = refuse(rt, alloc, &desk, &mut first, &mut second);
    leave(desk, first, second);
    expect_equal(rt, &found, &(Some(AskFault::NoSuchHost(2)), 2));
}

#[test]
fn both_callers_stand_in_one_history(rt: HostRuntime) {
    let rt = &rt;
    let alloc = rt.alloc();
    let (desk, mut first, mut second) = pair(rt, alloc);
    let found = finish(rt, alloc, &desk, &mut first, &mut second);
    leave(desk, first, second);
    let receipt = Receipt {
        call: 3,
        before: counts(2, 0),
        after: counts(2, 3),
    };
    let report = (4, counts(2, 3), Some((2, 3)));
    expect_equal(rt, &found, &(receipt, report, 4));
}

/// Posts the batch.
fn post_as<R: Abort + Wait>(rt: &R, desk: &Desk, pass: &mut Pass, batch: &Batch)
    requires { pass.old.desk ≡ desk.now.id }
    ensures { pass.new.desk ≡ pass.old.desk }
{
    let _receipt = desk.post(rt, pass, batch).expect(rt, "a receipt");
}

/// The first caller of a desk posts one batch, and the others the other, each in a thread of its own.
fn all_post<R: Abort + Threads + Wait + Sync>(
    rt: &R,
    desk: &Desk,
    passes: &mut [Pass],
    one: &Batch,
    other: &Batch,
)
    requires { All (λ p. p.desk ≡ desk.now.id) passes.old }
    ensures { All (λ p. p.desk ≡ desk.now.id) passes.new }
{
    let threads = passes.len().max(1);
    for_each_mut(
        rt,
        passes,
        threads,
        &|place, pass| post_as(rt, desk, pass, if place == 0 { one } else { other }),
    );
}

#[test]
fn two_threads_post_to_one_book(rt: HostRuntime) {
    let rt = &rt;
    let alloc = rt.alloc();
    let one = hour(rt, alloc);
    let other = makes(rt, alloc);
    let (desk, mut passes) = Desk::open(alloc, new_keys(rt), 2).expect(rt, "a desk");
    all_post(rt, &desk, passes.as_mut_slice(), &one, &other);
    let book = book_of(rt, desk, passes);
    let found = counted(&book);
    drop(book);
    expect_equal(rt, &found, &[2, 3, 2]);
}
