//! Connect time of records that are counted and let go.
ghost use Rattle.std.specs.Prelude.{◌≡◌, ◌≤◌, true};
ghost use Rattle.tally_records.specs.Records.{IsLogins};

use crate::equal::expect_equal;
use crate::sessions::scripts::new_keys;
use crate::sessions::{login_record, name};
use std::alloc::Global;
use std::process::Abort;
use std::random::RandomSource;
use tally_clock::Clock;
use tally_records::{Batch, List, Memory};
use tally_sessions::{
    ConnectSums, DayTime, DayUserTime, UserTime, connect_by_day_of_counts,
    connect_by_day_user_of_counts, connect_by_user_of_counts, total_of_counts,
};

/// How many records are counted, the total up to the last of them and up to a moment, and ann's time.
fn answers(sums: &ConnectSums) -> [u64; 4] {
    [
        sums.len() as u64,
        sums.total(None),
        sums.total(Some(1500)),
        sums.connect(&name("ann"), None),
    ]
}

/// A boot, ann's session of 300 seconds, and bob's that stays open.
fn evening(rt: &impl Abort, alloc: Global) -> Batch
    ensures { IsLogins result }
{
    let records = [
        login_record(2, "~", "reboot", 100),
        login_record(7, "tty1", "ann", 200),
        login_record(7, "tty2", "bob", 300),
        login_record(8, "tty1", "", 500),
    ];
    Batch::logins(alloc, records.as_flattened()).expect(rt, "login records")
}

/// A login that ends bob's session after 400 seconds, a shutdown that ends this one after 200, and ann's that stays open.
fn morning(rt: &impl Abort, alloc: Global) -> Batch
    ensures { IsLogins result }
{
    let records = [
        login_record(7, "tty2", "carl", 700),
        login_record(1, "~", "shutdown", 900),
        login_record(7, "tty1", "ann", 1000),
        login_record(8, "tty9", "", 1100),
    ];
    Batch::logins(alloc, records.as_flattened()).expect(rt, "login records")
}

/// Asserts the answers after a batch more, which may be refused once, and then leaves them as they were.
fn expect_more(rt: &impl Abort, sums: &mut ConnectSums, batch: &Batch, wanted: [u64; 4])
    requires { IsLogins batch.now }
{
    let before = answers(sums);
    let count = sums.len() + batch.len();
    assert!(rt; count <= 1000);
    if sums.add(batch).is_err() {
        expect_equal(rt, &answers(sums), &before);
        sums.add(batch).expect(rt, "memory");
    }
    expect_equal(rt, &answers(sums), &wanted);
}

/// Asserts the rows of the users, which have ann's, bob's and carl's seconds.
fn expect_rows(rt: &impl Abort, rows: Result<List<UserTime>, Memory>, wanted: [u64; 3]) {
    let rows = rows.expect(rt, "memory");
    let names = ["ann", "bob", "carl"];
    expect_equal(rt, &rows.len(), &names.len());
    for (row, (user, seconds)) in rows.as_slice().iter().zip(names.iter().zip(&wanted)) {
        expect_equal(
            rt,
            row,
            &UserTime {
                user: name(user),
                seconds: *seconds,
            },
        );
    }
    drop(rows);
}

#[test]
fn a_count_goes_on_from_batch_to_batch(rt: HostRuntime) {
    let rt = &rt;
    let alloc = rt.alloc();
    let (evening, morning) = (evening(rt, alloc), morning(rt, alloc));
    let mut sums = ConnectSums::new(alloc, new_keys(rt));
    assert!(rt; sums.is_empty());
    expect_more(rt, &mut sums, &evening, [4, 500, 1500, 300]);
    expect_more(rt, &mut sums, &morning, [8, 1000, 1400, 400]);
    expect_rows(rt, sums.by_user(alloc, None), [400, 400, 200]);
    drop(sums);
    drop(morning);
    drop(evening);
}

/// Asserts the rows of the days.
fn expect_days(rt: &impl Abort, rows: Result<List<DayTime>, Memory>, wanted: &[(i32, u64)]) {
    let rows = rows.expect(rt, "memory");
    expect_equal(rt, &rows.len(), &wanted.len());
    for (row, &(day, seconds)) in rows.as_slice().iter().zip(wanted) {
        expect_equal(rt, row, &DayTime { day, seconds });
    }
    drop(rows);
}

/// Asserts the rows of the users on days.
fn expect_day_users(
    rt: &impl Abort,
    rows: Result<List<DayUserTime>, Memory>,
    wanted: &[(i32, &str, u64)],
) {
    let rows = rows.expect(rt, "memory");
    expect_equal(rt, &rows.len(), &wanted.len());
    for (row, &(day, user, seconds)) in rows.as_slice().iter().zip(wanted) {
        let user = name(user);
        expect_equal(rt, row, &DayUserTime { day, user, seconds });
    }
    drop(rows);
}

/// The count of a batch, which keeps its sessions.
fn counted(rt: &(impl Abort + RandomSource), alloc: Global, batch: &Batch) -> ConnectSums
    requires { IsLogins batch.now }
    ensures few { result.count ≤ 1000 }
    ensures keeps { result.keeps_sessions ≡ true }
{
    let mut sums = ConnectSums::with_sessions(alloc, new_keys(rt));
    assert!(rt; sums.len() + batch.len() <= 1000);
    sums.add(batch).expect(rt, "memory");
    sums
}

#[test]
fn counts_of_two_hosts_answer_together(rt: HostRuntime) {
    let rt = &rt;
    let alloc = rt.alloc();
    let (evening, morning) = (evening(rt, alloc), morning(rt, alloc));
    let counts = [counted(rt, alloc, &evening), counted(rt, alloc, &morning)];
    let totals = [
        total_of_counts(&counts, None),
        total_of_counts(&counts, Some(1500)),
    ];
    expect_equal(rt, &totals, &[800, 2200]);
    expect_rows(
        rt,
        connect_by_user_of_counts(alloc, &counts, None),
        [400, 200, 200],
    );
    drop(counts);
    drop(morning);
    drop(evening);
}

#[test]
fn counts_of_two_hosts_answer_by_day(rt: HostRuntime) {
    let rt = &rt;
    let alloc = rt.alloc();
    let utc = Clock::utc(alloc);
    let (evening, morning) = (evening(rt, alloc), morning(rt, alloc));
    let counts = [counted(rt, alloc, &evening), counted(rt, alloc, &morning)];
    // 14 minutes west of the clock, a day begins at 840.
    expect_days(
        rt,
        connect_by_day_of_counts(alloc, &counts, &utc, -14, None),
        &[(-1, 640), (0, 160)],
    );
    expect_days(
        rt,
        connect_by_day_of_counts(alloc, &counts, &utc, -14, Some(1500)),
        &[(-1, 980), (0, 1220)],
    );
    expect_day_users(
        rt,
        connect_by_day_user_of_counts(alloc, &counts, &utc, -14, None),
        &[
            (-1, "ann", 300),
            (-1, "bob", 200),
            (-1, "carl", 140),
            (0, "ann", 100),
            (0, "carl", 60),
        ],
    );
    drop(counts);
    drop(morning);
    drop(evening);
    drop(utc);
}
