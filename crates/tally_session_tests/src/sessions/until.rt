//! Stays that nothing has ended, counted up to a given moment.
use crate::sessions::texts::{Asked, expect_until};
use std::alloc::Global;
use std::process::Abort;
use std::random::RandomSource;
use tally_clock::Clock;

const TWO_OPEN: &str = "0 in tty1 a 100;1 in tty1 d 150;0 boot ~ reboot 1000";

#[test]
fn a_moment_counts_for_open_stays_alone(rt: HostRuntime) {
    for &(script, until, told, total) in &[
        (
            TWO_OPEN,
            None,
            "reboot Still 1000 1000 0;a Crash 100 1000 900;",
            "900;",
        ),
        (
            TWO_OPEN,
            Some(2000),
            "reboot Still 1000 2000 1000;a Crash 100 1000 900;",
            "2750;",
        ),
        (
            "0 in tty1 ann 1000000",
            Some(0),
            "ann Still 1000000 0 0;",
            "0;",
        ),
        (
            "0 in tty1 ann 0;0 old ~ - 2000;0 new ~ - 5000",
            Some(6000),
            "ann Still 3000 6000 3000;",
            "3000;",
        ),
        (
            "0 in tty1 ann 1000000;0 out tty1 - 1003600",
            Some(2000000),
            "ann Logout 1000000 1003600 3600;",
            "3600;",
        ),
    ] {
        let asked = Asked::Stays(None);
        expect_until(&rt, rt.alloc(), script, asked, until, told);
        expect_until(&rt, rt.alloc(), script, Asked::Total, until, total);
    }
}

const ANN_OPEN: &str = "0 in tty1 ann 84600;0 in tty2 bob 86000;0 out tty2 - 86300";

/// Asserts ann's time, and the rows by user, by day and by both, up to a moment.
fn expect_sums<R: Abort + RandomSource>(
    rt: &R,
    alloc: Global,
    clock: &Clock,
    until: Option<i32>,
    told: &[&str; 4],
) {
    let [ann, users, days, day_users] = *told;
    expect_until(rt, alloc, ANN_OPEN, Asked::User("ann"), until, ann);
    expect_until(rt, alloc, ANN_OPEN, Asked::Users, until, users);
    expect_until(rt, alloc, ANN_OPEN, Asked::Days(clock, 0), until, days);
    let asked = Asked::DayUsers(clock);
    expect_until(rt, alloc, ANN_OPEN, asked, until, day_users);
}

#[test]
fn every_sum_counts_up_to_the_moment(rt: HostRuntime) {
    let rt = &rt;
    let alloc = rt.alloc();
    let utc = Clock::utc(alloc);
    let now = &[
        "1700;",
        "ann 1700;bob 300;",
        "0 2000;",
        "0 ann 1700;0 bob 300;",
    ];
    expect_sums(rt, alloc, &utc, None, now);
    let then = &[
        "3600;",
        "ann 3600;bob 300;",
        "0 2100;1 1800;",
        "0 ann 1800;0 bob 300;1 ann 1800;",
    ];
    expect_sums(rt, alloc, &utc, Some(88200), then);
    drop(utc);
}
