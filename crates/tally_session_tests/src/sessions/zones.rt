//! Days of clocks whose offset changes.
use crate::sessions::texts::{Asked, expect, expect_each};
use jiff_tz::{TimeZone, posix};
use std::alloc::Global;
use std::process::Abort;
use tally_clock::Clock;

/// The clock of a rule.
fn clock_of(rt: &impl Abort, alloc: Global, rule: &str) -> Clock {
    let zone = posix::TimeZone::parse(rule.as_bytes()).expect(rt, "a rule");
    Clock::of_zone(alloc, &TimeZone::Posix(zone)).expect(rt, "a clock")
}

// The seconds of Europe/Berlin in March and October 2026, counted with Python's zoneinfo.
#[test]
fn days_have_23_or_25_hours(rt: HostRuntime) {
    let rt = &rt;
    let alloc = rt.alloc();
    let clock = clock_of(rt, alloc, "CET-1CEST,M3.5.0,M10.5.0/3");
    let table = &[
        (
            "0 in tty1 ann 1774699200;0 out tty1 - 1774872000",
            "20540 39600;20541 82800;20542 50400;",
        ),
        (
            "0 in tty1 ann 1792843200;0 out tty1 - 1793016000",
            "20750 36000;20751 90000;20752 46800;",
        ),
        (
            "0 in tty1 ann 1792888200;0 out tty1 - 1792891800",
            "20751 3600;",
        ),
    ];
    expect_each(rt, alloc, Asked::Days(&clock, 0), table);
    drop(clock);
}

// Summer time from the start of January 10th to that of the 11th alone: an hour of the 9th, all of the 10th
// in two parts, and an hour of the 11th.
#[test]
fn sessions_have_whole_rows_of_a_clock(rt: HostRuntime) {
    let rt = &rt;
    let alloc = rt.alloc();
    let clock = clock_of(rt, alloc, "AAA0BBB-1,J10/0,J11/0");
    let script =
        "0 in tty1 ann 774000;0 in tty2 bob 774000;0 out tty1 - 867600;0 out tty2 - 777601";
    let days = "8 7200;9 86401;10 3600;";
    expect(rt, alloc, script, Asked::Days(&clock, 0), days);
    let users = "8 ann 3600;8 bob 3600;9 ann 86400;9 bob 1;10 ann 3600;";
    expect(rt, alloc, script, Asked::DayUsers(&clock), users);
    drop(clock);
}
