//! Connect time of all hosts, and its rows by user and by day.
ghost use Rattle.std.specs.Prelude.{◌<◌};

use crate::equal::expect_equal;
use crate::sessions::name;
use crate::sessions::scripts::played;
use crate::sessions::texts::{Asked, expect};
use std::process::Abort;
use tally_clock::Clock;
use tally_records::EVERY_LOGIN;
use tally_sessions::Sessions;

/// Asserts the total, ann's time and the first second of host 0.
fn expect_sums(rt: &impl Abort, sessions: &Sessions)
    requires { 0 < sessions.now.hosts }
{
    let ann = sessions.connect(&name("ann"), None);
    let first = sessions.first(0);
    expect_equal(rt, &[sessions.total(&EVERY_LOGIN, None), ann], &[770, 670]);
    expect_equal(rt, &first, &Some(1000));
}

#[test]
fn sums_are_of_all_hosts(rt: HostRuntime) {
    let script =
        "0 in tty1 ann 1000;1 in tty1 ann 900;0 in tty1 bob 1600;1 out tty1 - 970;0 out tty1 - 1700";
    let rt = &rt;
    let sessions = played(rt, rt.alloc(), script);
    expect_sums(rt, &sessions);
    let entries = sessions.into_entries();
    let count = entries.len();
    drop(entries);
    expect_equal(rt, &count, &5);
}

#[test]
fn users_without_connect_time_have_no_row(rt: HostRuntime) {
    let script =
        "0 in tty1 carl 2000;1 in tty1 bob 0;0 out tty1 - 1000;0 in tty1 bob 1000;1 out tty1 - 60;0 in tty1 ann 1600;0 out tty1 - 2200";
    let told = "ann 600;bob 660;";
    expect(&rt, rt.alloc(), script, Asked::Users, told);
}

#[test]
fn midnight_divides_a_session_at_each_offset(rt: HostRuntime) {
    let utc = Clock::utc(rt.alloc());
    for &(script, offset, told) in &[
        (
            "0 in tty1 ann 84600;0 out tty1 - 88200",
            0,
            "0 1800;1 1800;",
        ),
        ("0 in tty1 ann 84600;0 out tty1 - 88200", 60, "1 3600;"),
        (
            "0 in tty1 ann -3600;0 out tty1 - 3600",
            0,
            "-1 3600;0 3600;",
        ),
    ] {
        expect(&rt, rt.alloc(), script, Asked::Days(&utc, offset), told);
    }
    drop(utc);
}

#[test]
fn users_have_their_own_rows_on_a_day(rt: HostRuntime) {
    let script = "0 in tty1 bob 84600;0 in tty2 ann 86400;0 boot ~ reboot 88200";
    let utc = Clock::utc(rt.alloc());
    let told = "0 bob 1800;1 ann 1800;1 bob 1800;";
    expect(&rt, rt.alloc(), script, Asked::DayUsers(&utc), told);
    drop(utc);
}
