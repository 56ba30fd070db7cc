//! The rows of sums that keep no record, compared with those of a summary of the same batches.
ghost use Rattle.tally_records.specs.Records.{IsProcs};

use super::filters::generated;
use super::{batch_of, commands_of, expect_rows, new_summary, post_batch, users_of};
use crate::equal::expect_equal;
use std::alloc::Global;
use std::hash::RandomState;
use std::process::Abort;
use std::random::RandomSource;
use tally_records::{Batch, List};
use tally_usage::{CommandRow, Order, Summary, Sums, UidRow};

/// Sums of no records.
fn new_sums<R: Abort + RandomSource>(rt: &R, alloc: Global) -> Sums {
    Sums::new(alloc, RandomState::new(rt).expect(rt, "random bytes"))
}

/// Counts the batch, tried twice. Where it is refused once, the total is as before.
fn count(rt: &impl Abort, sums: &mut Sums, batch: &Batch)
    requires { IsProcs batch.now }
{
    let before = sums.total();
    if sums.add(batch).is_err() {
        expect_equal(rt, &sums.total(), &before);
        sums.add(batch).expect(rt, "room");
    }
}

/// The sums of batches of so many records, each of a seed.
fn sums_of<R: Abort + RandomSource>(rt: &R, alloc: Global, batches: &[(u32, usize)]) -> Sums {
    let mut sums = new_sums(rt, alloc);
    for &(seed, count_of) in batches {
        let records = generated(rt, alloc, seed, count_of);
        let batch = batch_of(rt, alloc, records.as_slice());
        count(rt, &mut sums, &batch);
        drop(batch);
        drop(records);
    }
    sums
}

/// Counts what the sums of these batches count, tried twice. Where it is refused once, the total is as before.
fn join<R: Abort + RandomSource>(rt: &R, alloc: Global, sums: &mut Sums, batches: &[(u32, usize)]) {
    let before = sums.total();
    if sums.merge(sums_of(rt, alloc, batches)).is_err() {
        expect_equal(rt, &sums.total(), &before);
        let again = sums.merge(sums_of(rt, alloc, batches));
        again.expect(rt, "room");
    }
}

/// Posts the batches to the summary.
fn post_all(rt: &impl Abort, alloc: Global, summary: &mut Summary, batches: &[(u32, usize)]) {
    for &(seed, count_of) in batches {
        let records = generated(rt, alloc, seed, count_of);
        let batch = batch_of(rt, alloc, records.as_slice());
        post_batch(rt, summary, seed, &batch);
        drop(batch);
        drop(records);
    }
}

/// The rows by command of sums, tried twice.
fn summed_commands(
    rt: &impl Abort,
    alloc: Global,
    sums: &Sums,
    order: Order,
    flags: [bool; 2],
) -> List<CommandRow> {
    let [all, reverse] = flags;
    match sums.by_command(alloc, order, all, reverse) {
        Ok(rows) => rows,
        Err(_) => {
            let again = sums.by_command(alloc, order, all, reverse);
            again.expect(rt, "memory")
        }
    }
}

/// The rows by user of sums, tried twice.
fn summed_users(
    rt: &impl Abort,
    alloc: Global,
    sums: &Sums,
    order: Order,
    reverse: bool,
) -> List<UidRow> {
    match sums.by_user(alloc, order, reverse) {
        Ok(rows) => rows,
        Err(_) => {
            let again = sums.by_user(alloc, order, reverse);
            again.expect(rt, "memory")
        }
    }
}

/// Asserts that the rows in an order are those of the summary, with these flags: of all commands or not, and
/// reversed or not.
fn expect_same_rows(
    rt: &impl Abort,
    alloc: Global,
    sums: &Sums,
    summary: &Summary,
    order: Order,
    flags: [bool; 2],
) {
    let commands = commands_of(rt, alloc, summary, order, flags);
    let found = summed_commands(rt, alloc, sums, order, flags);
    expect_rows(rt, found, commands.as_slice());
    drop(commands);
    let [_, reverse] = flags;
    let users = users_of(rt, alloc, summary, order, reverse);
    let found = summed_users(rt, alloc, sums, order, reverse);
    expect_rows(rt, found, users.as_slice());
    drop(users);
}

/// Asserts that sums answer as the summary does, in each order and with all flags.
fn expect_same(rt: &impl Abort, alloc: Global, sums: &Sums, summary: &Summary) {
    expect_equal(rt, &sums.total(), &summary.total());
    for &flags in &[[false, false], [false, true], [true, false], [true, true]] {
        expect_same_rows(rt, alloc, sums, summary, Order::Cpu, flags);
        expect_same_rows(rt, alloc, sums, summary, Order::Calls, flags);
    }
}

#[test]
fn sums_have_the_rows_of_a_summary(rt: HostRuntime) {
    let rt = &rt;
    let alloc = rt.alloc();
    let first = [(1, 9), (2, 1)];
    let second = [(3, 14), (4, 0), (5, 5)];
    let mut summary = new_summary(rt, alloc);
    post_all(rt, alloc, &mut summary, &first);
    post_all(rt, alloc, &mut summary, &second);
    let mut sums = new_sums(rt, alloc);
    join(rt, alloc, &mut sums, &first);
    join(rt, alloc, &mut sums, &second);
    expect_same(rt, alloc, &sums, &summary);
    drop(sums);
    drop(summary);
}
