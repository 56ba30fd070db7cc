//! Worked examples, and each growth refused in turn.
ghost use Rattle.tally_records.specs.Records.{IsProcs};

use crate::equal::expect_equal;
use std::alloc::Global;
use std::hash::RandomState;
use std::process::Abort;
use std::random::RandomSource;
use tally_records::{Batch, Comm, List, PROC_SIZE};
use tally_usage::{CommandRow, ENTRY_LIMIT, Order, ProcList, Summary, UidRow, Usage};

mod commands;
mod filters;
mod sums;

const MAKE: Comm = *b"make\0\0\0\0\0\0\0\0\0\0\0\0\0";

const OTHER: Comm = *b"***other\0\0\0\0\0\0\0\0\0";

const BELL: Comm = *b"a\x07\0\0\0\0\0\0\0\0\0\0\0\0\0\0\0";

/// An acct record of version 2. The five numbers, each below 8,192, are user, system and elapsed
/// ticks, memory and io.
fn proc_record(flag: u8, uid: u8, numbers: [u16; 5], comm: Comm) -> [u8; PROC_SIZE] {
    let mut bytes = [0; PROC_SIZE];
    bytes[0] = flag;
    bytes[1] = 2;
    for (i, number) in numbers.iter().enumerate() {
        let [low, high] = number.to_le_bytes();
        bytes[12 + 2 * i] = low;
        bytes[13 + 2 * i] = high;
    }
    bytes[36..53].copy_from_slice(&comm);
    bytes[56] = uid;
    bytes
}

/// The row of a command.
fn row(name: Comm, forked: bool, other: bool, usage: Usage) -> CommandRow {
    CommandRow {
        name,
        forked,
        other,
        usage,
    }
}

/// One run of make that executed, and two that only forked.
fn makes() -> [[u8; PROC_SIZE]; 3] {
    let executed = proc_record(0, 100, [120, 60, 600, 500, 1000], MAKE);
    let forked = proc_record(1, 100, [60, 0, 60, 200, 3], MAKE);
    [executed, forked, forked]
}

/// The batch of these records, tried twice.
fn batch_of(rt: &impl Abort, alloc: Global, records: &[[u8; PROC_SIZE]]) -> Batch
    ensures { IsProcs result }
{
    let bytes = records.as_flattened();
    match Batch::procs(alloc, bytes) {
        Ok(batch) => batch,
        Err(_) => Batch::procs(alloc, bytes).expect(rt, "process records"),
    }
}

/// How many entries a summary has, and their total.
fn stored(summary: &Summary) -> (usize, Usage) {
    (summary.entries().len(), summary.total())
}

/// Posts a batch of the host. Where `prepare` is refused once, the entries and the total are as
/// before, and the same `prepare` then succeeds.
fn post_batch(rt: &impl Abort, summary: &mut Summary, host: u32, batch: &Batch)
    requires { IsProcs batch.now }
{
    let count = summary.entries().len() + batch.len();
    assert!(rt; count <= ENTRY_LIMIT);
    let before = stored(summary);
    if summary.prepare(host, batch).is_err() {
        expect_equal(rt, &stored(summary), &before);
        summary.prepare(host, batch).expect(rt, "memory");
    }
    summary.add(host, batch);
}

/// Posts the records as a batch of the host.
fn post(
    rt: &impl Abort,
    alloc: Global,
    summary: &mut Summary,
    host: u32,
    records: &[[u8; PROC_SIZE]],
) {
    let batch = batch_of(rt, alloc, records);
    post_batch(rt, summary, host, &batch);
    drop(batch);
}

/// The rows by command, tried twice.
fn commands_of(
    rt: &impl Abort,
    alloc: Global,
    summary: &Summary,
    order: Order,
    flags: [bool; 2],
) -> List<CommandRow> {
    let [all, reverse] = flags;
    match summary.by_command(alloc, order, all, reverse) {
        Ok(rows) => rows,
        Err(_) => {
            let again = summary.by_command(alloc, order, all, reverse);
            again.expect(rt, "memory")
        }
    }
}

/// The rows by user, tried twice.
fn users_of(
    rt: &impl Abort,
    alloc: Global,
    summary: &Summary,
    order: Order,
    reverse: bool,
) -> List<UidRow> {
    match summary.by_user(alloc, order, reverse) {
        Ok(rows) => rows,
        Err(_) => {
            let again = summary.by_user(alloc, order, reverse);
            again.expect(rt, "memory")
        }
    }
}

/// What a summary must answer.
#[derive(Clone, Copy)]
enum Wanted<'a> {
    /// These rows by command in an order, of all commands or not, and reversed or not.
    Commands(Order, [bool; 2], &'a [CommandRow]),
    /// This total, and these rows by user, that of most processor time first.
    Users(&'a Usage, &'a [UidRow]),
}

/// Asserts that these rows were found.
fn expect_rows<T: Copy + Drop + PartialEq>(rt: &impl Abort, found: List<T>, rows: &[T]) {
    assert!(rt; found.as_slice() == rows);
    drop(found);
}

/// Asserts that the summary answers so.
fn expect_answer(rt: &impl Abort, alloc: Global, summary: &Summary, wanted: Wanted) {
    match wanted {
        Wanted::Commands(order, flags, rows) => {
            expect_rows(rt, commands_of(rt, alloc, summary, order, flags), rows);
        }
        Wanted::Users(total, rows) => {
            expect_equal(rt, &summary.total(), total);
            expect_rows(rt, users_of(rt, alloc, summary, Order::Cpu, false), rows);
        }
    }
}

/// A summary of no records.
fn new_summary<R: Abort + RandomSource>(rt: &R, alloc: Global) -> Summary {
    Summary::new(alloc, RandomState::new(rt).expect(rt, "random bytes"))
}

/// Posts the records by host 1 to a new summary, and asserts that it answers so.
fn expect<R: Abort + RandomSource>(
    rt: &R,
    alloc: Global,
    records: &[[u8; PROC_SIZE]],
    wanted: Wanted,
) {
    let mut summary = new_summary(rt, alloc);
    post(rt, alloc, &mut summary, 1, records);
    expect_answer(rt, alloc, &summary, wanted);
    drop(summary);
}

const NONE: Usage = Usage {
    count: 0,
    real: 0,
    cpu: 0,
    io: 0,
    mem_cpu: 0,
};

const EXECUTED: Usage = Usage {
    count: 1,
    real: 600,
    cpu: 180,
    io: 1000,
    mem_cpu: 90_000,
};

const FORKED: Usage = Usage {
    count: 2,
    real: 120,
    cpu: 120,
    io: 6,
    mem_cpu: 24_000,
};

const TOTAL: Usage = Usage {
    count: 3,
    real: 720,
    cpu: 300,
    io: 1006,
    mem_cpu: 114_000,
};

#[test]
fn a_user_has_the_sum_of_all_commands(rt: HostRuntime) {
    let rows = &[UidRow {
        uid: 100,
        usage: TOTAL,
    }];
    expect(&rt, rt.alloc(), &makes(), Wanted::Users(&TOTAL, rows));
}

#[test]
fn no_records_have_no_rows(rt: HostRuntime) {
    let rt = &rt;
    let alloc = rt.alloc();
    let commands = Wanted::Commands(Order::Cpu, [false, false], &[]);
    expect(rt, alloc, &[], commands);
    expect(rt, alloc, &[], Wanted::Users(&NONE, &[]));
}

/// Asserts that the entries are those of three posts of the runs of make: by host 1, by the last host, and by
/// host 1 again.
fn expect_three_posts(rt: &impl Abort, entries: &ProcList) {
    assert!(rt; entries.len() == 9);
    for i in 0..entries.len() {
        let entry = entries.get(i).expect(rt, "an entry at each place");
        let host = if i / 3 == 1 { 4_294_967_295 } else { 1 };
        let flag = if i % 3 == 0 { 0 } else { 1 };
        let found = (i, entry.host, entry.item.flag);
        expect_equal(rt, &found, &(i, host, flag));
    }
}

#[test]
fn entries_are_the_batches_in_order(rt: HostRuntime) {
    let rt = &rt;
    let alloc = rt.alloc();
    let runs = makes();
    let mut summary = new_summary(rt, alloc);
    post(rt, alloc, &mut summary, 1, &runs);
    post(rt, alloc, &mut summary, 4_294_967_295, &runs);
    post(rt, alloc, &mut summary, 1, &runs);
    expect_equal(rt, &summary.entries().len(), &9);
    let entries = summary.into_entries();
    expect_three_posts(rt, &entries);
    drop(entries);
}
