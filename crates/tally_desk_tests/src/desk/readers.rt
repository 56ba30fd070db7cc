//! Feeds of readers: all at once, little at a time, interrupted and failing.
ghost use Rattle.std.specs.Prelude.{◌≡◌, OnOk};
ghost use Rattle.tally_book.specs.Rooms.{batches_in};
ghost use Rattle.tally_desk.specs.Feeds.{IsWhole, Posts};

use crate::desk::feeding::{THREE, expect_fed, fed};
use crate::desk::makers::{Once, Trickle, opened, steady};
use crate::equal::expect_equal;
use std::alloc::Global;
use std::io::Read;
use std::process::Abort;
use std::random::RandomSource;
use std::sync::Wait;
use tally_desk::{Desk, Fed, FeedFault, OpenGate, Pass, Reading, feed};
use tally_records::Kind;

/// Asserts what comes of a reader that gives process records, and how many are stored then.
fn expect_read<R: Abort + RandomSource + Wait, S: Read + Drop>(
    rt: &R,
    alloc: Global,
    reader: S,
    want: Result<Fed, FeedFault>,
    stored: usize,
) {
    expect_fed(rt, alloc, Kind::Proc, Reading::new(reader), want, stored);
}

/// A reader of bytes in memory is known to be fed whole.
fn fed_whole<R: Wait>(
    rt: &R,
    alloc: Global,
    desk: &Desk,
    pass: &mut Pass,
    bytes: &[u8],
) -> Result<Fed, FeedFault>
    requires { pass.old.desk ≡ desk.now.id }
    ensures { OnOk result (IsWhole (batches_in pass.old.seen.room) Kind.Proc bytes.now (Posts pass.old pass.new)) }
{
    let mut input = Reading::new(bytes);
    feed(rt, alloc, desk, pass, Kind::Proc, &mut input, &OpenGate)
}

#[test]
fn the_bytes_of_a_reader_are_fed(rt: HostRuntime) {
    let rt = &rt;
    let alloc = rt.alloc();
    let (desk, mut pass) = opened(rt, alloc);
    let fed = fed_whole(rt, alloc, &desk, &mut pass, &[2u8; 192]);
    drop(pass);
    drop(desk);
    expect_equal(rt, &fed, &Ok(THREE));
}

#[test]
fn a_reader_is_not_read_after_its_end(rt: HostRuntime) {
    for (stored, batches) in [(0, 0), (3, 1), (1024, 1), (1025, 2)] {
        let reader = Once {
            left: stored * 64,
            ended: false,
        };
        let records = stored as u64;
        expect_read(
            &rt,
            rt.alloc(),
            reader,
            Ok(Fed { records, batches }),
            stored,
        );
    }
}

#[test]
fn bytes_may_come_one_at_a_time(rt: HostRuntime) {
    let reader = Trickle {
        interrupts: 3,
        ..steady(1, 192)
    };
    expect_read(&rt, rt.alloc(), reader, Ok(THREE), 3);
}

#[test]
fn a_first_read_that_fails_posts_nothing(rt: HostRuntime) {
    let reader = Trickle {
        fails: true,
        ..steady(4096, 0)
    };
    expect_read(&rt, rt.alloc(), reader, Err(FeedFault::Read), 0);
}

#[test]
fn whichever_read_fails_posts_nothing(rt: HostRuntime) {
    for left in 0..769 {
        let reader = Trickle {
            fails: true,
            ..steady(1, left)
        };
        let input = &mut Reading::new(reader);
        let outcome = fed(&rt, rt.alloc(), Kind::Login, input);
        let want = (Err(FeedFault::Read), [0, 0, 0]);
        assert!(rt; outcome == want, "after {left} bytes");
    }
}

#[test]
fn a_later_read_that_fails_keeps_the_blocks_before(rt: HostRuntime) {
    let reader = Trickle {
        fails: true,
        ..steady(4096, 65_600)
    };
    expect_read(&rt, rt.alloc(), reader, Err(FeedFault::Read), 1024);
}

#[test]
fn endless_interrupts_are_a_failed_read(rt: HostRuntime) {
    let reader = Trickle {
        interrupts: 10_000,
        ..steady(4096, 64)
    };
    expect_read(&rt, rt.alloc(), reader, Err(FeedFault::Read), 0);
}

#[test]
fn a_record_past_the_limit_is_too_long(rt: HostRuntime) {
    let reader = steady(65_536, 67_108_928);
    let want = Err(FeedFault::TooLong { limit: 1_048_576 });
    expect_read(&rt, rt.alloc(), reader, want, 1_048_576);
}
