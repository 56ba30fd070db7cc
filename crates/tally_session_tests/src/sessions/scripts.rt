//! Scripts: records as words, and the sessions that they make.
ghost use Rattle.std.specs.Prelude.{◌≡◌, ◌≤◌, ◌<◌, ◌+◌, length};

use crate::sessions::login_record;
use std::alloc::Global;
use std::hash::RandomState;
use std::process::Abort;
use std::random::RandomSource;
use tally_records::Batch;
use tally_sessions::Sessions;

/// The `ut_type` that a word of a script stands for.
fn kind_of(word: &str) -> u8 {
    match word {
        "boot" => 2,
        "down" => 1,
        "new" => 3,
        "old" => 4,
        "in" => 7,
        "out" => 8,
        _ => 0,
    }
}

/// The host and the record of a line of a script: host, type, line, user and time.
fn record_of(rt: &impl Abort, script: &str) -> (u32, [u8; 384]) {
    let mut words = script.split_ascii_whitespace();
    let host = words.next().unwrap_or("").parse::<u32>();
    let host = host.expect(rt, "a host");
    let kind = kind_of(words.next().unwrap_or(""));
    let line = words.next().unwrap_or("");
    let user = words.next().unwrap_or("");
    let time = words.next().unwrap_or("").parse::<i32>();
    let time = time.expect(rt, "a time");
    (host, login_record(kind, line, user, time))
}

/// Posts one record.
fn post(rt: &impl Abort, alloc: Global, sessions: &mut Sessions, host: u32, bytes: &[u8])
    requires host_in { host < sessions.old.hosts }
    requires room { length sessions.old.entries + 1024 ≤ 1048576 }
    ensures { sessions.new.hosts ≡ sessions.old.hosts }
{
    let batch = Batch::logins(alloc, bytes).expect(rt, "login records");
    let _ = batch.len();
    sessions.prepare(host, &batch).expect(rt, "memory");
    sessions.add(host, &batch);
    drop(batch);
}

/// Posts one record for one of three hosts.
pub(crate) fn post_below(
    rt: &impl Abort,
    alloc: Global,
    sessions: &mut Sessions,
    record: &(u32, [u8; 384]),
)
    requires { sessions.old.hosts ≡ 3 }
    ensures { sessions.new.hosts ≡ 3 }
{
    let (host, bytes) = record;
    if *host < 3 && sessions.entries().len() <= 1000 {
        post(rt, alloc, sessions, *host, bytes);
    }
}

/// Posts the records of a script, each in a batch of its own.
fn play(rt: &impl Abort, alloc: Global, sessions: &mut Sessions, script: &str)
    requires { sessions.old.hosts ≡ 3 }
    ensures { sessions.new.hosts ≡ 3 }
{
    for line in script.split(';') {
        post_below(rt, alloc, sessions, &record_of(rt, line));
    }
}

/// Keys of tables.
pub(crate) fn new_keys<R: Abort + RandomSource>(rt: &R) -> RandomState {
    RandomState::new(rt).expect(rt, "random bytes")
}

/// Sessions of three hosts.
pub(crate) fn opened<R: Abort + RandomSource>(rt: &R, alloc: Global) -> Sessions
    ensures { result.hosts ≡ 3 }
{
    Sessions::new(alloc, new_keys(rt), 3).expect(rt, "memory")
}

/// The sessions of three hosts after a script.
pub(crate) fn played<R: Abort + RandomSource>(rt: &R, alloc: Global, script: &str) -> Sessions
    ensures { result.hosts ≡ 3 }
{
    let mut sessions = opened(rt, alloc);
    play(rt, alloc, &mut sessions, script);
    sessions
}
