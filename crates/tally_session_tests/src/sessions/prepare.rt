//! What a refused `prepare` leaves, and what `add` changes.
ghost use Rattle.std.specs.Prelude.{◌<◌};
ghost use Rattle.tally_records.specs.Records.{IsLogins};

use crate::equal::expect_equal;
use crate::sessions::scripts::played;
use crate::sessions::{login_record, name};
use std::alloc::Global;
use std::process::Abort;
use tally_records::{Batch, EVERY_LOGIN};
use tally_sessions::Sessions;

/// What a refused `prepare` must leave as it is: count of entries, total, ann's time, users.
fn answers(rt: &impl Abort, alloc: Global, sessions: &Sessions) -> [u64; 4] {
    let rows = sessions.connect_by_user(alloc, &EVERY_LOGIN, None);
    let rows = rows.expect(rt, "memory");
    let users = rows.len() as u64;
    drop(rows);
    let ann = sessions.connect(&name("ann"), None);
    [
        sessions.entries().len() as u64,
        sessions.total(&EVERY_LOGIN, None),
        ann,
        users,
    ]
}

/// A batch that ends ann's session, with logins of three users that have none.
fn three_users(rt: &impl Abort, alloc: Global) -> Batch
    ensures { IsLogins result }
{
    let records = [
        login_record(8, "tty1", "-", 60),
        login_record(7, "tty1", "bob", 60),
        login_record(7, "tty2", "carl", 70),
        login_record(7, "tty3", "dora", 90),
    ];
    Batch::logins(alloc, records.as_flattened()).expect(rt, "login records")
}

/// Asserts the answers.
fn expect_answers(rt: &impl Abort, alloc: Global, sessions: &Sessions, wanted: [u64; 4]) {
    expect_equal(rt, &answers(rt, alloc, sessions), &wanted);
}

/// Asserts the answers after a `prepare`, which may be refused once, and after its `add`.
fn expect_around_add(rt: &impl Abort, alloc: Global, sessions: &mut Sessions, batch: &Batch)
    requires host { 0 < sessions.old.hosts }
    requires logins { IsLogins batch.now }
{
    let count = batch.len() + sessions.entries().len();
    assert!(rt; count <= 1000);
    if sessions.prepare(0, batch).is_err() {
        expect_answers(rt, alloc, sessions, [1, 0, 0, 0]);
        sessions.prepare(0, batch).expect(rt, "memory");
    }
    expect_answers(rt, alloc, sessions, [1, 0, 0, 0]);
    sessions.add(0, batch);
    expect_answers(rt, alloc, sessions, [5, 110, 60, 3]);
}

#[test]
fn prepare_changes_no_answer_and_add_does(rt: HostRuntime) {
    let rt = &rt;
    let alloc = rt.alloc();
    let batch = three_users(rt, alloc);
    let mut sessions = played(rt, alloc, "0 in tty1 ann 0");
    expect_around_add(rt, alloc, &mut sessions, &batch);
    drop(sessions);
    drop(batch);
}
