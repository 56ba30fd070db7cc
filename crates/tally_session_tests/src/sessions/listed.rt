//! Sessions of a list of entries, by one thread and where four are allowed; and the entries of one host among them.
ghost use Rattle.std.specs.Prelude.{◌≡◌, ◌<◌, IfOk};

use crate::equal::expect_equal;
use crate::sessions::scripts::{new_keys, played};
use std::alloc::Global;
use std::process::Abort;
use std::random::RandomSource;
use tally_records::EVERY_LOGIN;
use tally_sessions::{EntryList, Sessions};

/// How many stays a host has.
fn count(rt: &impl Abort, alloc: Global, sessions: &Sessions, host: u32) -> u64
    requires { host < sessions.now.hosts }
{
    let rows = sessions.stays(alloc, host, None, &EVERY_LOGIN, None);
    let rows = rows.expect(rt, "memory");
    let count = rows.len() as u64;
    drop(rows);
    count
}

/// How many stays each of three hosts has, and the seconds of all.
fn numbers(rt: &impl Abort, alloc: Global, sessions: &Sessions) -> [u64; 4]
    requires { sessions.now.hosts ≡ 3 }
{
    [
        count(rt, alloc, sessions, 0),
        count(rt, alloc, sessions, 1),
        count(rt, alloc, sessions, 2),
        sessions.total(&EVERY_LOGIN, None),
    ]
}

/// Asserts that each host of sessions that a list has made has a stay, and all 150 seconds.
fn expect_numbers(rt: &impl Abort, alloc: Global, made: Result<Sessions, EntryList>)
    requires { IfOk made (λ s. s.hosts ≡ 3) }
{
    let sessions = made.ok().expect(rt, "memory");
    let found = numbers(rt, alloc, &sessions);
    drop(sessions);
    expect_equal(rt, &found, &[1, 1, 1, 150]);
}

/// Ann is logged in on the first host for 60 seconds, bob on the second for 90, the third starts.
const SCRIPT: &str =
    "0 in tty1 ann 0;1 in tty1 bob 10;0 out tty1 - 60;2 boot ~ reboot 70;1 out tty1 - 100";

// Four threads are allowed the second time. So few entries are counted by one.
#[test]
fn sessions_of_a_list_are_those_of_its_hosts(rt: HostRuntime) {
    let rt = &rt;
    let alloc = rt.alloc();
    let keys = new_keys(rt);
    let list = played(rt, alloc, SCRIPT).into_entries();
    expect_numbers(rt, alloc, Sessions::of_entries(alloc, keys, 3, list));
    let list = played(rt, alloc, SCRIPT).into_entries();
    let made = Sessions::of_entries_by(rt, alloc, keys, 3, list, 4);
    expect_numbers(rt, alloc, made);
}

/// The entries of one host of the script, which outlive the list that they share their records with.
fn entries_of_one<R: Abort + RandomSource>(rt: &R, alloc: Global, host: u32) -> EntryList {
    let list = played(rt, alloc, SCRIPT).into_entries();
    let only = list.entries().only(alloc, host).expect(rt, "memory");
    drop(list);
    only
}

#[test]
fn entries_of_one_host_are_in_stored_order(rt: HostRuntime) {
    let rt = &rt;
    let only = entries_of_one(rt, rt.alloc(), 1);
    let entries = only.entries();
    let found = (entries.len(), entries.time(0), entries.time(1));
    drop(only);
    expect_equal(rt, &found, &(2, Some(10), Some(100)));
}

#[test]
fn host_without_entries_has_an_empty_list(rt: HostRuntime) {
    let rt = &rt;
    let only = entries_of_one(rt, rt.alloc(), 3);
    let count = only.len();
    drop(only);
    expect_equal(rt, &count, &0);
}
