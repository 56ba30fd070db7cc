//! Lists that follow no rule, compared with the scan.
ghost use Rattle.std.specs.Prelude.{◌≡◌, ◌<◌};

use crate::equal::expect_equal;
use crate::sessions::scripts::{opened, post_below};
use crate::sessions::{login_record, scan};
use std::alloc::Global;
use std::process::Abort;
use std::random::RandomSource;
use tally_records::EVERY_LOGIN;
use tally_sessions::{Entry, Sessions};

/// Numbers that follow no rule that a session knows.
#[derive(Drop)]
struct Numbers {
    state: u32,
}

impl Numbers {
    fn below(&mut self, count: u32) -> u32
        requires { 0 < count }
        ensures { result < count }
    {
        self.state = self.state.wrapping_mul(1664525).wrapping_add(1013904223);
        (self.state >> 8) % count
    }

    fn record(&mut self, now: i32) -> [u8; 384] {
        let line = match self.below(4) {
            0 => "tty1",
            1 => "tty2",
            2 => "tty3",
            _ => "pts/4",
        };
        let user = match self.below(4) {
            0 => "ann",
            1 => "bob",
            2 => "carl",
            _ => "",
        };
        let kind = match self.below(12) {
            0 => 2,
            1 => 1,
            2 | 3 => 4,
            4 | 5 => 3,
            6 | 7 => 8,
            8 => 0,
            _ => 7,
        };
        login_record(kind, line, user, now)
    }

    fn time_after(&mut self, now: i32) -> i32 {
        match self.below(40) {
            0 => i32::MIN,
            1 => i32::MAX,
            2 => now.saturating_sub(500),
            _ => now.saturating_add(70),
        }
    }
}

/// Posts up to 60 records.
fn post_drawn(rt: &impl Abort, alloc: Global, sessions: &mut Sessions, numbers: &mut Numbers)
    requires { sessions.old.hosts ≡ 3 }
    ensures { sessions.new.hosts ≡ 3 }
{
    let mut now = 0i32;
    for _record in 0..numbers.below(61) {
        now = numbers.time_after(now);
        let host = numbers.below(3);
        post_below(rt, alloc, sessions, &(host, numbers.record(now)));
    }
}

/// Whether the stays of a host are those of the scan.
fn agrees_at(
    rt: &impl Abort,
    alloc: Global,
    sessions: &Sessions,
    entries: &[Entry],
    host: u32,
    until: Option<i32>,
) -> bool
    requires { host < sessions.now.hosts }
{
    let found = sessions
        .stays(alloc, host, None, &EVERY_LOGIN, until)
        .expect(rt, "memory");
    let wanted = scan::stays(rt, alloc, entries, host, until);
    let same = found.as_slice() == wanted.as_slice();
    drop(found);
    drop(wanted);
    same
}

/// Whether the stays of each host, and the total, are those of the scan.
fn agrees(
    rt: &impl Abort,
    alloc: Global,
    sessions: &Sessions,
    entries: &[Entry],
    until: Option<i32>,
) -> bool
    requires { sessions.now.hosts ≡ 3 }
{
    for host in 0..3 {
        if !agrees_at(rt, alloc, sessions, entries, host, until) {
            return false;
        }
    }
    sessions.total(&EVERY_LOGIN, until) == scan::total(entries, until)
}

/// Asserts that the sessions of a list agree with the scan over their entries, up to some moments.
fn expect_scanned(rt: &impl Abort, alloc: Global, sessions: &Sessions, entries: &[Entry], list: u32)
    requires { sessions.now.hosts ≡ 3 }
{
    for &until in &[None, Some(i32::MIN), Some(1500)] {
        let agrees = agrees(rt, alloc, sessions, entries, until);
        expect_equal(rt, &(list, until, agrees), &(list, until, true));
    }
}

/// Posts the records of the next list to new sessions, and asserts the same of them.
fn draw<R: Abort + RandomSource>(rt: &R, alloc: Global, numbers: &mut Numbers, list: u32) {
    let mut sessions = opened(rt, alloc);
    post_drawn(rt, alloc, &mut sessions, numbers);
    let entries = sessions.entries().iter().collect::<Vec<Entry>>(alloc);
    let entries = entries.expect(rt, "memory");
    expect_scanned(rt, alloc, &sessions, entries.as_slice(), list);
    drop(entries);
    drop(sessions);
}

#[test]
fn sessions_are_those_of_a_scan_of_the_whole_list(rt: HostRuntime) {
    let mut numbers = Numbers { state: 1 };
    for list in 0..300 {
        draw(&rt, rt.alloc(), &mut numbers, list);
    }
}
