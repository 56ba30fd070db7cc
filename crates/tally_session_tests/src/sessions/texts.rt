//! The answers of sessions as texts, and what they must be.
ghost use Rattle.std.specs.Prelude.{◌≡◌, ◌<◌};

use crate::sessions::name;
use crate::sessions::scripts::played;
use std::alloc::Global;
use std::fmt::Write;
use std::process::Abort;
use std::random::RandomSource;
use tally_clock::Clock;
use tally_records::{EVERY_LOGIN, LoginChoice, Name};
use tally_sessions::{Sessions, Stay};

/// Appends the text of a name.
fn push_name(rt: &impl Abort, text: &mut String, name: &Name) {
    for byte in name {
        if *byte != 0 {
            text.push(char::from(*byte)).expect(rt, "memory");
        }
    }
}

/// Appends user, end, begin, end time and length of a stay.
fn push_stay(rt: &impl Abort, text: &mut String, stay: &Stay) {
    push_name(rt, text, &stay.user);
    write!(
        text,
        " {:?} {} {} {};",
        stay.end, stay.begin, stay.end_time, stay.length
    )
    .expect(rt, "memory");
}

/// User, end, begin, end time and length of each chosen stay of host 0.
fn stays(
    rt: &impl Abort,
    alloc: Global,
    sessions: &Sessions,
    limit: Option<u32>,
    choice: &LoginChoice,
    until: Option<i32>,
) -> String
    requires { 0 < sessions.now.hosts }
{
    let rows = sessions.stays(alloc, 0, limit, choice, until);
    let rows = rows.expect(rt, "memory");
    let mut text = String::new(alloc);
    for stay in rows.as_slice() {
        push_stay(rt, &mut text, stay);
    }
    drop(rows);
    text
}

/// The same one after another, of which no list is made.
fn shown(
    rt: &impl Abort,
    alloc: Global,
    sessions: &Sessions,
    choice: &LoginChoice,
    until: Option<i32>,
) -> String
    requires { 0 < sessions.now.hosts }
{
    let mut text = String::new(alloc);
    let mut from = 0;
    for _stay in 0..sessions.stay_count(0) {
        let Some(place) = sessions.next_shown(0, from, choice, until) else {
            break;
        };
        push_stay(rt, &mut text, &sessions.latest_stay(0, place, until));
        from = place + 1;
    }
    text
}

/// Seconds.
fn seconds(rt: &impl Abort, alloc: Global, seconds: u64) -> String {
    let mut text = String::new(alloc);
    write!(&mut text, "{seconds};").expect(rt, "memory");
    text
}

/// User and seconds of each row by user.
fn users(
    rt: &impl Abort,
    alloc: Global,
    sessions: &Sessions,
    choice: &LoginChoice,
    until: Option<i32>,
) -> String {
    let rows = sessions.connect_by_user(alloc, choice, until);
    let rows = rows.expect(rt, "memory");
    let mut text = String::new(alloc);
    for row in rows.as_slice() {
        push_name(rt, &mut text, &row.user);
        write!(&mut text, " {};", row.seconds).expect(rt, "memory");
    }
    drop(rows);
    text
}

/// Day and seconds of each row by day.
fn days(
    rt: &impl Abort,
    alloc: Global,
    sessions: &Sessions,
    clock: &Clock,
    offset: u8,
    choice: &LoginChoice,
    until: Option<i32>,
) -> String {
    let offset = i32::from(offset);
    let rows = sessions.connect_by_day(alloc, clock, offset, choice, until);
    let rows = rows.expect(rt, "memory");
    let mut text = String::new(alloc);
    for row in rows.as_slice() {
        write!(&mut text, "{} {};", row.day, row.seconds).expect(rt, "memory");
    }
    drop(rows);
    text
}

/// Day, user and seconds of each row by day and user.
fn day_users(
    rt: &impl Abort,
    alloc: Global,
    sessions: &Sessions,
    clock: &Clock,
    choice: &LoginChoice,
    until: Option<i32>,
) -> String {
    let rows = sessions.connect_by_day_user(alloc, clock, 0, choice, until);
    let rows = rows.expect(rt, "memory");
    let mut text = String::new(alloc);
    for row in rows.as_slice() {
        write!(&mut text, "{} ", row.day).expect(rt, "memory");
        push_name(rt, &mut text, &row.user);
        write!(&mut text, " {};", row.seconds).expect(rt, "memory");
    }
    drop(rows);
    text
}

/// What sessions are asked for.
#[derive(Clone, Copy)]
pub(crate) enum Asked<'a> {
    /// User, end, begin, end time and length of so many stays of host 0, the latest first.
    Stays(Option<u32>),
    /// The same of all, one after another.
    Shown,
    /// Seconds of all sessions.
    Total,
    /// Seconds of a user's sessions.
    User(&'a str),
    /// User and seconds of each row by user.
    Users,
    /// Day and seconds of each row by day, of a clock with an offset in minutes.
    Days(&'a Clock, u8),
    /// Day, user and seconds of each row by day and user, of a clock.
    DayUsers(&'a Clock),
}

/// What sessions answer of a choice, up to a moment.
fn answer(
    rt: &impl Abort,
    alloc: Global,
    sessions: &Sessions,
    asked: Asked,
    choice: &LoginChoice,
    until: Option<i32>,
) -> String
    requires { sessions.now.hosts ≡ 3 }
{
    match asked {
        Asked::Stays(limit) => stays(rt, alloc, sessions, limit, choice, until),
        Asked::Shown => shown(rt, alloc, sessions, choice, until),
        Asked::Total => seconds(rt, alloc, sessions.total(choice, until)),
        Asked::User(user) => seconds(rt, alloc, sessions.connect(&name(user), until)),
        Asked::Users => users(rt, alloc, sessions, choice, until),
        Asked::Days(clock, offset) => days(rt, alloc, sessions, clock, offset, choice, until),
        Asked::DayUsers(clock) => day_users(rt, alloc, sessions, clock, choice, until),
    }
}

/// Asserts that a text is the one that is told.
fn expect_text(rt: &impl Abort, text: &str, told: &str, script: &str, until: Option<i32>) {
    assert_eq!(rt; text, told, "{script} until {until:?}");
}

/// Plays a script, and asserts what its sessions answer of a choice, up to a moment.
pub(crate) fn expect_of<R: Abort + RandomSource>(
    rt: &R,
    alloc: Global,
    script: &str,
    asked: Asked,
    choice: &LoginChoice,
    until: Option<i32>,
    told: &str,
) {
    let sessions = played(rt, alloc, script);
    let text = answer(rt, alloc, &sessions, asked, choice, until);
    drop(sessions);
    expect_text(rt, text.as_str(), told, script, until);
    drop(text);
}

/// The same of all sessions.
pub(crate) fn expect_until<R: Abort + RandomSource>(
    rt: &R,
    alloc: Global,
    script: &str,
    asked: Asked,
    until: Option<i32>,
    told: &str,
) {
    expect_of(rt, alloc, script, asked, &EVERY_LOGIN, until, told);
}

/// The same up to the last record.
pub(crate) fn expect<R: Abort + RandomSource>(
    rt: &R,
    alloc: Global,
    script: &str,
    asked: Asked,
    told: &str,
) {
    expect_until(rt, alloc, script, asked, None, told);
}

/// The same of each script of a table, with what is told of it.
pub(crate) fn expect_each<R: Abort + RandomSource>(
    rt: &R,
    alloc: Global,
    asked: Asked,
    table: &[(&str, &str)],
) {
    for (script, told) in table {
        expect(rt, alloc, script, asked, told);
    }
}
