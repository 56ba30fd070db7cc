//! Failed logins and their sums, as lines and as tables.
ghost use Rattle.std.specs.Prelude.{◌≤◌, length};
ghost use Rattle.tally_answers.specs.Answers.{HasDays};
ghost use Rattle.tally_sessions.specs.Days.{IsOffset};

use super::{berlin, is_printed, name};
use std::alloc::Global;
use std::process::Abort;
use tally_answers::Answer;
use tally_attempts::{Attempt, AttemptSum};
use tally_clock::Clock;
use tally_print::{Kept, Table, print_attempt_sums, print_attempts, print_table};
use tally_records::{List, Remote};

/// A remote host: its bytes, and zeros after them.
fn remote(text: &[u8]) -> Remote
    requires { length text.now ≤ 256 }
{
    let mut remote = [0; 256];
    remote[..text.len()].copy_from_slice(text);
    remote
}

/// A failed login from 203.0.113.7.
fn attempt(host: u32, user: &[u8], line: &[u8], time: i32) -> Attempt
    requires user { length user.now ≤ 32 }
    requires line { length line.now ≤ 32 }
{
    Attempt {
        host,
        user: name(user),
        line: name(line),
        remote: remote(b"203.0.113.7"),
        time,
    }
}

fn sum(user: &[u8], from: &[u8], attempts: u64) -> AttemptSum
    requires user { length user.now ≤ 32 }
    requires from { length from.now ≤ 256 }
{
    AttemptSum {
        user: name(user),
        remote: remote(from),
        attempts,
    }
}

/// Asserts that failed logins print this text. Where a growth is refused, the second try prints it.
fn expect_lines(
    rt: &impl Abort,
    alloc: Global,
    clock: &Clock,
    rows: &[Attempt],
    first: Option<i32>,
    offset: i32,
    text: &[u8],
)
    requires { IsOffset offset }
{
    for _ in 0..2 {
        let mut out = Kept::new(alloc);
        let printed = print_attempts(alloc, clock, rows, first, offset, &mut out);
        if is_printed(rt, printed, out, text) {
            return;
        }
    }
    panic!(rt; "refused twice");
}

/// The same by the clock of UTC.
fn expect_in_utc(
    rt: &impl Abort,
    alloc: Global,
    rows: &[Attempt],
    first: Option<i32>,
    text: &[u8],
) {
    let utc = Clock::utc(alloc);
    expect_lines(rt, alloc, &utc, rows, first, 0, text);
    drop(utc);
}

#[test]
fn a_file_without_records_has_no_records(rt: HostRuntime) {
    expect_in_utc(&rt, rt.alloc(), &[], None, b"btmp has no records\n");
}

#[test]
fn a_file_without_failed_logins_has_records(rt: HostRuntime) {
    let text = b"\nbtmp begins 1970-01-01 00:00:00\n";
    expect_in_utc(&rt, rt.alloc(), &[], Some(0), text);
}

#[test]
fn failed_logins_have_their_columns_and_the_first_time(rt: HostRuntime) {
    let rows = [
        attempt(0, b"root", b"ssh:notty", 1_000_060),
        attempt(0, b"", b"tty1", 1_000_001),
        attempt(0, b"wilhelmina", b"", 1_000_000),
    ];
    let text = b"\
root     ssh:notty    203.0.113.7      1970-01-12 13:47:40
         tty1         203.0.113.7      1970-01-12 13:46:41
wilhelmina              203.0.113.7      1970-01-12 13:46:40

btmp begins 1970-01-12 13:46:39
";
    expect_in_utc(&rt, rt.alloc(), &rows, Some(999_999), text);
}

#[test]
fn failed_logins_are_by_local_time(rt: HostRuntime) {
    let rt = &rt;
    let alloc = rt.alloc();
    let rows = [
        attempt(0, b"bob", b"tty2", 1_774_746_000),
        attempt(0, b"ann", b"tty1", 1_774_745_999),
    ];
    let text = b"\
bob      tty2         203.0.113.7      2026-03-29 03:01:00
ann      tty1         203.0.113.7      2026-03-29 02:00:59

btmp begins 2026-03-29 02:00:59
";
    let clock = berlin(rt, alloc);
    expect_lines(rt, alloc, &clock, &rows, Some(1_774_745_999), 1, text);
    drop(clock);
}

#[test]
fn sums_are_aligned_on_the_right(rt: HostRuntime) {
    let rows = [
        sum(b"root", b"203.0.113.7", 1_000_000_000),
        sum(b"ann", b"a\x1bb", 12),
        sum(b"", b"", 1),
    ];
    let text = b"1000000000 root     203.0.113.7\n      12 ann      a?b\n       1          \n";
    let mut out = Kept::new(rt.alloc());
    let printed = print_attempt_sums(rt.alloc(), &rows, &mut out);
    is_printed(&rt, printed, out, text);
}

/// Asserts that an answer prints this table.
fn expect_table(
    rt: &impl Abort,
    alloc: Global,
    table: Table,
    answer: Answer,
    offset: i32,
    text: &[u8],
)
    requires days { HasDays answer }
    requires offset { IsOffset offset }
{
    let utc = Clock::utc(alloc);
    let answers = [answer];
    let mut out = Kept::new(alloc);
    let printed = print_table(alloc, &utc, table, &answers, offset, &mut out);
    drop(answers);
    drop(utc);
    is_printed(rt, printed, out, text);
}

fn list_of<T: Copy>(rt: &impl Abort, alloc: Global, rows: &[T]) -> List<T> {
    let rows = Vec::from_slice(alloc, rows).expect(rt, "memory");
    List::from_vec(alloc, rows).expect(rt, "memory")
}

/// The answer that lists these failed logins.
fn attempts_answer(rt: &impl Abort, alloc: Global, rows: &[Attempt]) -> Answer
    ensures { HasDays result }
{
    let rows = list_of(rt, alloc, rows);
    Answer::Attempts { rows, first: None }
}

/// The answer that has these sums.
fn sums_answer(rt: &impl Abort, alloc: Global, rows: &[AttemptSum]) -> Answer
    ensures { HasDays result }
{
    let rows = list_of(rt, alloc, rows);
    Answer::AttemptSums { rows }
}

#[test]
fn a_table_of_failed_logins_counts_files_from_one(rt: HostRuntime) {
    let rt = &rt;
    let alloc = rt.alloc();
    let rows = [
        attempt(1, b"root", b"ssh:notty", 1_000_000),
        attempt(0, b"a,b", b"", -1),
    ];
    let text = b"\
file,user,line,remote,time,at
2,root,ssh:notty,203.0.113.7,1000000,1970-01-12T14:46:40+01:00
1,\"a,b\",,203.0.113.7,-1,1970-01-01T00:59:59+01:00
";
    let answer = attempts_answer(rt, alloc, &rows);
    expect_table(rt, alloc, Table::Attempts, answer, 60, text);
}

#[test]
fn a_table_of_sums_has_their_numbers(rt: HostRuntime) {
    let rt = &rt;
    let alloc = rt.alloc();
    let rows = [sum(b"root", b"far", 12), sum(b"", b"", 1)];
    let text = b"user,remote,attempts\nroot,far,12\n,,1\n";
    let answer = sums_answer(rt, alloc, &rows);
    expect_table(rt, alloc, Table::AttemptSums, answer, 0, text);
}

#[test]
fn an_answer_of_another_kind_has_no_rows(rt: HostRuntime) {
    let rt = &rt;
    let alloc = rt.alloc();
    let answer = sums_answer(rt, alloc, &[sum(b"root", b"far", 12)]);
    let text = b"file,user,line,remote,time,at\n";
    expect_table(rt, alloc, Table::Attempts, answer, 0, text);
}
