//! The lines of sa(8).
use super::{command, is_printed};
use std::alloc::Global;
use std::process::Abort;
use tally_print::{Kept, print_commands, print_users};
use tally_usage::{CommandRow, UidRow, Usage};

/// Asserts that the rows and the total print this text.
/// Where a growth is refused, the second try prints it.
fn expect_commands(
    rt: &impl Abort,
    alloc: Global,
    rows: &[CommandRow],
    total: &Usage,
    text: &[u8],
) {
    for _ in 0..2 {
        let mut out = Kept::new(alloc);
        let printed = print_commands(alloc, rows, total, &mut out);
        if is_printed(rt, printed, out, text) {
            return;
        }
    }
    panic!(rt; "refused twice");
}

/// The same of users.
fn expect_users(rt: &impl Abort, alloc: Global, rows: &[UidRow], total: &Usage, text: &[u8]) {
    for _ in 0..2 {
        let mut out = Kept::new(alloc);
        let printed = print_users(alloc, rows, total, &mut out);
        if is_printed(rt, printed, out, text) {
            return;
        }
    }
    panic!(rt; "refused twice");
}

/// What so many calls used: ticks elapsed, ticks of cpu, io, and memory by ticks of cpu.
fn used(count: u64, real: u128, cpu: u64, io: u64, mem_cpu: u128) -> Usage {
    Usage {
        count,
        real,
        cpu,
        io,
        mem_cpu,
    }
}

/// What one run of make used that executed, and two that only forked.
fn used_by_makes() -> Usage {
    used(3, 720, 300, 1006, 114_000)
}

/// One record of version 2 with each number the largest.
const LARGEST: Usage = Usage {
    count: 1,
    real: 17_177_772_032,
    cpu: 34_355_544_064,
    io: 17_177_772_032,
    mem_cpu: 17_177_772_032 * 34_355_544_064,
};

#[test]
fn commands_have_averages_and_marks(rt: HostRuntime) {
    let rt = &rt;
    let alloc = rt.alloc();
    let executed = used(1, 600, 180, 1000, 90_000);
    let forked = used(2, 120, 120, 6, 24_000);
    let rows = [
        command(b"***other", false, false, executed),
        command(b"make", true, false, forked),
    ];
    let text = b"       3         0.12re         0.05cp        335avio        380k
       1         0.10re         0.03cp       1000avio        500k ***other
       2         0.02re         0.02cp          3avio        200k make*
";
    expect_commands(rt, alloc, &rows, &used_by_makes(), text);
}

#[test]
fn the_total_of_no_commands_is_printed(rt: HostRuntime) {
    let rt = &rt;
    let alloc = rt.alloc();
    let text = b"       0         0.00re         0.00cp          0avio          0k\n";
    expect_commands(rt, alloc, &[], &used(0, 0, 0, 0, 0), text);
}

#[test]
fn long_numbers_stand_whole(rt: HostRuntime) {
    let rt = &rt;
    let alloc = rt.alloc();
    let text = b"       1   2862962.01re   5725924.01cp 17177772032avio 17177772032k
       1   2862962.01re   5725924.01cp 17177772032avio 17177772032k x
";
    expect_commands(
        rt,
        alloc,
        &[command(b"x", false, false, LARGEST)],
        &LARGEST,
        text,
    );
}

#[test]
fn memory_of_no_cpu_is_none(rt: HostRuntime) {
    let rt = &rt;
    let alloc = rt.alloc();
    let usage = used(1, u128::MAX, 0, 7, 5);
    let text =
        b"       1 56713727820156410577229101238628035.24re         0.00cp          7avio          0k\n";
    expect_commands(rt, alloc, &[], &usage, text);
}

#[test]
fn users_have_their_numbers(rt: HostRuntime) {
    let rt = &rt;
    let alloc = rt.alloc();
    let total = used_by_makes();
    let rows = [UidRow {
        uid: 1000,
        usage: total,
    }];
    let text = b"total             3         0.12re         0.05cp        335avio        380k
1000              3         0.12re         0.05cp        335avio        380k
";
    expect_users(rt, alloc, &rows, &total, text);
}
