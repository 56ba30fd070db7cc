//! The rows by plain filters over the list of entries, compared with those of a summary.
use super::{
    BELL, MAKE, NONE, OTHER, commands_of, expect_rows, new_summary, post, proc_record, row,
    users_of,
};
use crate::equal::expect_equal;
use std::alloc::Global;
use std::cmp::Ordering;
use std::process::Abort;
use std::random::RandomSource;
use tally_records::{Comm, PROC_SIZE, ProcRecord};
use tally_usage::{CommandRow, Order, ProcEntry, Summary, UidRow, Usage};

/// Adds a record. The sums of these lists are small, so nothing saturates.
fn add(usage: &mut Usage, process: &ProcRecord) {
    let cpu = process.user_ticks.saturating_add(process.system_ticks);
    let mem_cpu = u128::from(process.mem) * u128::from(cpu);
    usage.count = usage.count.saturating_add(1);
    usage.real = usage.real.saturating_add(u128::from(process.real_ticks));
    usage.cpu = usage.cpu.saturating_add(cpu);
    usage.io = usage.io.saturating_add(process.io);
    usage.mem_cpu = usage.mem_cpu.saturating_add(mem_cpu);
}

/// The stored entries.
fn entries_of(rt: &impl Abort, alloc: Global, summary: &Summary) -> Vec<ProcEntry> {
    let stored = summary.entries();
    let mut entries = Vec::new(alloc);
    for i in 0..stored.len() {
        let entry = stored.get(i).expect(rt, "an entry at each place");
        entries.push(entry).expect(rt, "memory");
    }
    entries
}

fn total_of(entries: &[ProcEntry]) -> Usage {
    let mut usage = NONE;
    for entry in entries {
        add(&mut usage, &entry.item);
    }
    usage
}

fn user_row(entries: &[ProcEntry], uid: u32) -> UidRow {
    let mut usage = NONE;
    for entry in entries {
        if entry.item.uid == uid {
            add(&mut usage, &entry.item);
        }
    }
    UidRow { uid, usage }
}

fn command_row(entries: &[ProcEntry], process: &ProcRecord) -> CommandRow {
    let mut usage = NONE;
    for entry in entries {
        let item = &entry.item;
        if item.comm == process.comm && item.flag % 2 == process.flag % 2 {
            add(&mut usage, item);
        }
    }
    row(process.comm, process.flag % 2 == 1, false, usage)
}

fn prints(name: &Comm) -> bool {
    for byte in name {
        if *byte == 0 {
            return true;
        }
        if !(32..127).contains(byte) {
            return false;
        }
    }
    true
}

fn by_number(order: Order, a: &Usage, b: &Usage) -> Ordering {
    match order {
        Order::Cpu => b.cpu.cmp(&a.cpu),
        Order::Calls => b.count.cmp(&a.count),
    }
}

fn by_command(order: Order, a: &CommandRow, b: &CommandRow) -> Ordering {
    by_number(order, &a.usage, &b.usage)
        .then(a.name.cmp(&b.name))
        .then(a.forked.cmp(&b.forked))
        .then(a.other.cmp(&b.other))
}

fn by_user(order: Order, a: &UidRow, b: &UidRow) -> Ordering {
    by_number(order, &a.usage, &b.usage).then(a.uid.cmp(&b.uid))
}

fn command_rows(
    rt: &impl Abort,
    alloc: Global,
    entries: &[ProcEntry],
    order: Order,
    all: bool,
) -> Vec<CommandRow> {
    let mut rows = Vec::new(alloc);
    let mut others = NONE;
    for entry in entries {
        let row = command_row(entries, &entry.item);
        if !all && (row.usage.count == 1 || !prints(&row.name)) {
            add(&mut others, &entry.item);
        } else if !rows.as_slice().contains(&row) {
            rows.push(row).expect(rt, "memory");
        }
    }
    if others.count > 0 {
        rows.push(row(OTHER, false, true, others))
            .expect(rt, "memory");
    }
    rows.sort_by(|a, b| by_command(order, a, b))
        .expect(rt, "memory");
    rows
}

fn user_rows(rt: &impl Abort, alloc: Global, entries: &[ProcEntry], order: Order) -> Vec<UidRow> {
    let mut rows = Vec::new(alloc);
    for entry in entries {
        let row = user_row(entries, entry.item.uid);
        if !rows.as_slice().contains(&row) {
            rows.push(row).expect(rt, "memory");
        }
    }
    rows.sort_by(|a, b| by_user(order, a, b))
        .expect(rt, "memory");
    rows
}

/// Asserts that the rows by command are those of the filters, and the same in reverse.
fn expect_commands(
    rt: &impl Abort,
    alloc: Global,
    summary: &Summary,
    entries: &[ProcEntry],
    order: Order,
    all: bool,
) {
    let mut rows = command_rows(rt, alloc, entries, order, all);
    let found = commands_of(rt, alloc, summary, order, [all, false]);
    expect_rows(rt, found, rows.as_slice());
    rows.reverse();
    let reversed = commands_of(rt, alloc, summary, order, [all, true]);
    expect_rows(rt, reversed, rows.as_slice());
    drop(rows);
}

/// The same of the rows by user.
fn expect_users(
    rt: &impl Abort,
    alloc: Global,
    summary: &Summary,
    entries: &[ProcEntry],
    order: Order,
) {
    let mut rows = user_rows(rt, alloc, entries, order);
    let found = users_of(rt, alloc, summary, order, false);
    expect_rows(rt, found, rows.as_slice());
    rows.reverse();
    let reversed = users_of(rt, alloc, summary, order, true);
    expect_rows(rt, reversed, rows.as_slice());
    drop(rows);
}

/// Asserts that the summary of these entries answers as the filters do, in each order and with each flag.
fn expect_filtered(rt: &impl Abort, alloc: Global, summary: &Summary, entries: &[ProcEntry]) {
    expect_equal(rt, &summary.total(), &total_of(entries));
    for &order in &[Order::Cpu, Order::Calls] {
        expect_commands(rt, alloc, summary, entries, order, false);
        expect_commands(rt, alloc, summary, entries, order, true);
        expect_users(rt, alloc, summary, entries, order);
    }
}

/// Records of few names, users and numbers, so that many sums are equal.
pub(super) fn generated(
    rt: &impl Abort,
    alloc: Global,
    seed: u32,
    count: usize,
) -> Vec<[u8; PROC_SIZE]> {
    let mut records = Vec::new(alloc);
    let mut state = seed;
    for _ in 0..count {
        state = state.wrapping_mul(1_103_515_245).wrapping_add(12_345);
        let [_, low, middle, high] = state.to_le_bytes();
        let numbers = [
            u16::from(low % 2),
            u16::from(low / 2 % 2),
            3,
            5,
            u16::from(middle % 2),
        ];
        let name = match high % 4 {
            0 => BELL,
            1 => OTHER,
            _ => MAKE,
        };
        let record = proc_record(middle / 2 % 4, high / 4 % 3, numbers, name);
        records.push(record).expect(rt, "memory");
    }
    records
}

/// Posts so many records of a seed, and asserts that the summary then answers as the filters do.
fn post_generated(rt: &impl Abort, alloc: Global, summary: &mut Summary, seed: u32, count: usize) {
    let records = generated(rt, alloc, seed, count);
    post(rt, alloc, summary, seed, records.as_slice());
    drop(records);
    let entries = entries_of(rt, alloc, summary);
    expect_filtered(rt, alloc, summary, entries.as_slice());
    drop(entries);
}

/// Posts batches of several lengths to a new summary, each followed by a comparison.
fn compare<R: Abort + RandomSource>(rt: &R, alloc: Global, seed: u32) {
    let mut summary = new_summary(rt, alloc);
    for count in &[0, 1, 2, 4, 9] {
        post_generated(rt, alloc, &mut summary, seed, *count);
    }
    drop(summary);
}

#[test]
fn answers_are_those_of_plain_filters(rt: HostRuntime) {
    for seed in 0..12 {
        compare(&rt, rt.alloc(), seed);
    }
}
