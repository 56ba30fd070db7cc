//! Files that are read while an asker asks, and the same files one after the other.
ghost use Rattle.std.specs.Prelude.{◌≤◌};

use crate::cli::expect::expect_that;
use crate::cli::runs::{add_source, bytes_with, expect_run, source_of, text_job};
use std::process::Abort;
use std::random::RandomSource;
use std::sync::Wait;
use std::sync::atomic::{AtomicU64, Ordering};
use std::thread;
use std::thread::Threads;
use tally_cli::{Report, Source};
use tally_desk::{Bytes, Gate, OpenGate};
use tally_records::Kind;

/// The most turns of the processor that a caller gives up while it waits for the others.
const PATIENCE: u32 = 20_000_000;

/// A gate that lets the second call of so many callers go on only when all have come to it.
#[derive(Drop)]
struct Meeting {
    callers: u64,
    arrived: AtomicU64,
    late: AtomicU64,
}

impl Meeting {
    fn of(callers: u64) -> Meeting {
        Meeting {
            callers,
            arrived: AtomicU64::new(0),
            late: AtomicU64::new(0),
        }
    }
}

impl Gate for Meeting {
    fn before(&self, _caller: u32, turn: u32) {
        if turn != 1 {
            return;
        }
        self.arrived.fetch_add(1, Ordering::SeqCst);
        for _ in 0..PATIENCE {
            if self.arrived.load(Ordering::SeqCst) >= self.callers {
                return;
            }
            thread::yield_now();
        }
        self.late.fetch_add(1, Ordering::SeqCst);
    }
}

// A login file of two blocks: a login at 0, 1,023 empty records, a logout.
fn two_blocks<'a, R: AllocGlobal + Abort>(rt: &R, user: &'a [u8], logout: &'a [u8]) -> Vec<u8> {
    let texts: [(usize, &'a [u8]); 6] = [
        (0, &[7]),
        (8, b"tty1"),
        (44, user),
        (393_216, &[8]),
        (393_224, b"tty1"),
        (393_556, logout),
    ];
    bytes_with(rt, 393_600, &texts)
}

// The sources of both files.
fn both_sources<R: AllocGlobal + Abort>(rt: &R) -> Vec<Source<Bytes>> {
    let ann = two_blocks(rt, b"ann", &[0x10, 0x0E]);
    let mut sources = source_of(rt, Kind::Login, ann);
    let bob = two_blocks(rt, b"bob", &[0x20, 0x1C]);
    add_source(rt, &mut sources, Kind::Login, Bytes::new(bob));
    sources
}

const ALL_OF_TWO: &[u8] = b"\
ann      tty1                          1970-01-01 00:00:00 - 1970-01-01 01:00:00 (01:00)

wtmp begins 1970-01-01 00:00:00

bob      tty1                          1970-01-01 00:00:00 - 1970-01-01 02:00:00 (02:00)

wtmp begins 1970-01-01 00:00:00

total                        3.00

       0         0.00re         0.00cp          0avio          0k
";

// Asserts what all reports on both files are, by so many feeders and askers that pass this gate.
fn expect_all_of_two<R, G: Gate + Sync>(rt: &R, case: &str, feeders: u32, askers: u32, gate: &G)
where
    R: AllocGlobal + Abort + RandomSource + Threads + Wait + Sync,
    requires { (1 ≤ feeders) × (feeders ≤ 64) × (askers ≤ 128) }
{
    let job = text_job(Report::All, feeders, askers);
    expect_run(rt, case, &job, both_sources(rt), gate, &Ok(()), ALL_OF_TWO);
}

// Asserts that two feeders and so many askers meet, and what they give.
fn expect_meeting<R>(rt: &R, case: &str, askers: u32, callers: u64)
where
    R: AllocGlobal + Abort + RandomSource + Threads + Wait + Sync,
    requires { askers ≤ 128 }
{
    let gate = Meeting::of(callers);
    expect_all_of_two(rt, case, 2, askers, &gate);
    expect_that(rt, case, gate.late.load(Ordering::SeqCst) == 0);
}

#[test]
fn two_feeders_go_on_together_and_with_an_asker(rt: HostRuntime) {
    expect_meeting(&rt, "0 askers", 0, 2);
    expect_meeting(&rt, "1 askers", 1, 3);
}

#[test]
fn one_feeder_alone_gives_the_same(rt: HostRuntime) {
    expect_all_of_two(&rt, "one feeder", 1, 0, &OpenGate);
}
