//! Feeds of inputs in memory.
ghost use Rattle.std.specs.Prelude.{◌-◌, ◌^◌, ◌<◌};

use crate::desk::makers::{Turns, Zeros, closed_with, opened, opened_with_room, twos};
use crate::equal::expect_equal;
use std::alloc::Global;
use std::process::Abort;
use std::random::RandomSource;
use std::sync::Wait;
use std::sync::atomic::{AtomicU64, Ordering};
use tally_book::Room;
use tally_desk::{Bytes, Fed, FeedFault, Input, OpenGate, feed};
use tally_records::{Kind, RecordFault};

/// An input of so many zeros.
fn zeros(rt: &impl Abort, alloc: Global, len: usize) -> Bytes {
    Bytes::new(vec![in alloc; 0u8; len].expect(rt, "memory"))
}

/// What was fed of three records.
pub(super) const THREE: Fed = Fed {
    records: 3,
    batches: 1,
};

/// Feeds a new desk, and says how many login records, process records and calls are stored then.
pub(super) fn fed<R: Abort + RandomSource + Wait, I: Input>(
    rt: &R,
    alloc: Global,
    kind: Kind,
    input: &mut I,
) -> (Result<Fed, FeedFault>, [usize; 3])
    requires { I.failures input.old < 2 ^ 64 - 1 }
{
    let (desk, mut pass) = opened(rt, alloc);
    let outcome = feed(rt, alloc, &desk, &mut pass, kind, input, &OpenGate);
    (outcome, closed_with(rt, alloc, desk, pass))
}

/// Asserts what comes of an input that a new desk is fed, and how many records are stored then.
pub(super) fn expect_fed<R: Abort + RandomSource + Wait, I: Input>(
    rt: &R,
    alloc: Global,
    kind: Kind,
    mut input: I,
    want: Result<Fed, FeedFault>,
    stored: usize,
)
    requires { I.failures input < 2 ^ 64 - 1 }
{
    let (outcome, [logins, procs, _]) = fed(rt, alloc, kind, &mut input);
    drop(input);
    expect_equal(rt, &outcome, &want);
    expect_equal(rt, &logins.saturating_add(procs), &stored);
}

#[test]
fn three_records_are_one_batch(rt: HostRuntime) {
    let rt = &rt;
    let alloc = rt.alloc();
    let input = Bytes::new(twos(rt, alloc, 192));
    expect_fed(rt, alloc, Kind::Proc, input, Ok(THREE), 3);
}

#[test]
fn an_empty_input_posts_nothing(rt: HostRuntime) {
    let alloc = rt.alloc();
    let input = Bytes::new(Vec::new(alloc));
    let want = Fed {
        records: 0,
        batches: 0,
    };
    expect_fed(&rt, alloc, Kind::Login, input, Ok(want), 0);
}

#[test]
fn an_end_inside_a_record_is_torn(rt: HostRuntime) {
    let rt = &rt;
    let alloc = rt.alloc();
    let input = zeros(rt, alloc, 385);
    let want = FeedFault::Torn {
        records: 1,
        rest: 1,
    };
    expect_fed(rt, alloc, Kind::Login, input, Err(want), 0);
}

#[test]
fn a_bad_record_keeps_its_whole_block_out(rt: HostRuntime) {
    let rt = &rt;
    let alloc = rt.alloc();
    let mut bytes = twos(rt, alloc, 65_792);
    if let Some(version) = bytes.get_mut(65_665) {
        *version = 0x82;
    }
    let want = FeedFault::Bad {
        at: 1026,
        fault: RecordFault::ProcVersion(0x82),
    };
    expect_fed(rt, alloc, Kind::Proc, Bytes::new(bytes), Err(want), 1024);
}

#[test]
fn wherever_a_record_is_torn_nothing_is_posted(rt: HostRuntime) {
    for len in 1u64..768 {
        let mut input = zeros(&rt, rt.alloc(), len as usize);
        let outcome = fed(&rt, rt.alloc(), Kind::Login, &mut input);
        let torn = FeedFault::Torn {
            records: len / 384,
            rest: len % 384,
        };
        let want = (Err(torn), [0, 0, 0]);
        assert!(rt; len == 384 || outcome == want, "{len} bytes");
    }
}

#[test]
fn endless_zeros_are_the_most_login_records(rt: HostRuntime) {
    let want = Err(FeedFault::TooLong { limit: 1_048_576 });
    expect_fed(&rt, rt.alloc(), Kind::Login, Zeros, want, 1_048_576);
}

#[test]
fn a_desk_with_room_for_two_millions_takes_as_many_of_an_input(rt: HostRuntime) {
    let rt = &rt;
    let alloc = rt.alloc();
    let room = Room::of_millions(2).expect(rt, "room for two millions");
    let (desk, mut pass) = opened_with_room(rt, alloc, room);
    let outcome = feed(
        rt,
        alloc,
        &desk,
        &mut pass,
        Kind::Login,
        &mut Zeros,
        &OpenGate,
    );
    let [logins, _, _] = closed_with(rt, alloc, desk, pass);
    expect_equal(rt, &outcome, &Err(FeedFault::TooLong { limit: 2_097_152 }));
    expect_equal(rt, &logins, &2_097_152);
}

#[test]
fn zeros_are_no_process_records(rt: HostRuntime) {
    let rt = &rt;
    let alloc = rt.alloc();
    let input = zeros(rt, alloc, 131_072);
    let want = FeedFault::Bad {
        at: 0,
        fault: RecordFault::ProcVersion(0),
    };
    expect_fed(rt, alloc, Kind::Proc, input, Err(want), 0);
}

#[test]
fn the_gate_is_told_of_each_post(rt: HostRuntime) {
    let rt = &rt;
    let alloc = rt.alloc();
    let gate = Turns {
        digits: AtomicU64::new(0),
    };
    let mut input = Bytes::new(twos(rt, alloc, 131_136));
    let (desk, mut pass) = opened(rt, alloc);
    let outcome = feed(rt, alloc, &desk, &mut pass, Kind::Proc, &mut input, &gate);
    drop(pass);
    drop(desk);
    let want = Fed {
        records: 2049,
        batches: 3,
    };
    expect_equal(rt, &outcome, &Ok(want));
    expect_equal(rt, &gate.digits.load(Ordering::SeqCst), &123);
}
