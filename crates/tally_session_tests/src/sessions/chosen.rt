//! Answers over some users, some lines and a part of time.
use crate::sessions::name;
use crate::sessions::texts::{Asked, expect_of};
use std::alloc::Global;
use std::process::Abort;
use std::random::RandomSource;
use tally_clock::Clock;
use tally_records::{EVERY_LOGIN, LoginChoice, NAMED_LIMIT, Names, Period};

/// Ann from 200 to 500 and from 900 on, bob from 300 to 800 and at 1000 for no second, after a boot at 100.
const NIGHT: &str =
    "0 boot ~ reboot 100;0 in tty1 ann 200;0 in tty2 bob 300;0 out tty1 - 500;0 out tty2 - 800;0 in tty1 ann 900;0 in tty2 bob 1000;0 out tty2 - 1000";

/// One name, after places without one.
fn named(text: &str) -> Names {
    let mut names = [None; NAMED_LIMIT];
    names[NAMED_LIMIT - 1] = Some(name(text));
    names
}

/// The sessions of a user.
fn of(user: &str) -> LoginChoice {
    LoginChoice {
        users: named(user),
        ..EVERY_LOGIN
    }
}

/// The sessions on a line.
fn on(line: &str) -> LoginChoice {
    LoginChoice {
        lines: named(line),
        ..EVERY_LOGIN
    }
}

/// The sessions from a second up to another.
fn within(from: i64, to: i64) -> LoginChoice {
    LoginChoice {
        period: Period {
            from: Some(from),
            to: Some(to),
        },
        ..EVERY_LOGIN
    }
}

/// Asserts the stays that a choice shows, as a list and one after another, and its seconds.
fn expect_chosen<R: Abort + RandomSource>(
    rt: &R,
    alloc: Global,
    choice: &LoginChoice,
    stays: &str,
    seconds: &str,
) {
    expect_of(rt, alloc, NIGHT, Asked::Stays(None), choice, None, stays);
    expect_of(rt, alloc, NIGHT, Asked::Shown, choice, None, stays);
    expect_of(rt, alloc, NIGHT, Asked::Total, choice, None, seconds);
}

#[test]
fn a_choice_shows_its_stays_whole_and_cuts_its_seconds(rt: HostRuntime) {
    for (choice, stays, seconds) in &[
        (
            of("ann"),
            "ann Still 900 1000 100;ann Logout 200 500 300;",
            "400;",
        ),
        (of("reboot"), "reboot Still 100 1000 900;", "0;"),
        (of("carl"), "", "0;"),
        (
            on("tty2"),
            "bob Logout 1000 1000 0;bob Logout 300 800 500;",
            "500;",
        ),
        (
            within(500, 950),
            "ann Still 900 1000 100;bob Logout 300 800 500;reboot Still 100 1000 900;",
            "350;",
        ),
    ] {
        expect_chosen(&rt, rt.alloc(), choice, stays, seconds);
    }
}

#[test]
fn rows_are_of_the_chosen_seconds(rt: HostRuntime) {
    let rt = &rt;
    let alloc = rt.alloc();
    let utc = Clock::utc(alloc);
    let choice = within(500, 950);
    for &(asked, told) in &[
        (Asked::Users, "ann 50;bob 300;"),
        (Asked::Days(&utc, 0), "0 350;"),
        (Asked::DayUsers(&utc), "0 ann 50;0 bob 300;"),
        (Asked::Stays(Some(1)), "ann Still 900 1000 100;"),
    ] {
        expect_of(rt, alloc, NIGHT, asked, &choice, None, told);
    }
    drop(utc);
}
