//! Counts of inputs of login records, which are not kept.
ghost use Rattle.std.specs.Prelude.{◌-◌, ◌^◌, ◌<◌, ◌≤◌};

use crate::desk::makers::new_keys;
use crate::equal::expect_equal;
use std::alloc::Global;
use std::io;
use std::io::{ErrorKind, Read};
use std::process::Abort;
use std::random::RandomSource;
use tally_desk::{Bytes, FeedFault, Input, Reading, Uncounted, count_logins};
use tally_records::RecordFault;

/// Asserts how many records are counted of an input, or why not and how many before.
fn expect_counted<R: Abort + RandomSource, I: Input>(
    rt: &R,
    alloc: Global,
    mut input: I,
    most: u32,
    keeps_sessions: bool,
    want: Result<usize, Uncounted>,
)
    requires few { most ≤ 16384 }
    requires countable { I.failures input < 2 ^ 64 - 1 }
{
    let outcome = count_logins(alloc, new_keys(rt), &mut input, most, keeps_sessions);
    drop(input);
    let count = match outcome {
        Ok(sums) => Ok(sums.len()),
        Err(stop) => Err(stop),
    };
    expect_equal(rt, &count, &want);
}

/// So many bytes of login records that mean nothing.
fn zeros(rt: &impl Abort, alloc: Global, count: usize) -> Vec<u8> {
    vec![in alloc; 0u8; count].expect(rt, "memory")
}

/// A count that was stopped after the first block.
fn after_a_block<T>(fault: FeedFault) -> Result<T, Uncounted> {
    Err(Uncounted {
        counted: 1024,
        fault,
    })
}

#[test]
fn up_to_the_limit_all_login_records_are_counted(rt: HostRuntime) {
    for (most, records) in [(0, 0), (1, 0), (1, 1), (1, 1024), (2, 1025), (16_384, 2049)] {
        for keeps_sessions in [false, true] {
            let input = Bytes::new(zeros(&rt, rt.alloc(), records * 384));
            expect_counted(&rt, rt.alloc(), input, most, keeps_sessions, Ok(records));
        }
    }
}

#[test]
fn a_count_of_logins_stops_at_the_end_of_the_last_full_block(rt: HostRuntime) {
    let rt = &rt;
    let alloc = rt.alloc();
    let long = Bytes::new(zeros(rt, alloc, 393_217));
    let limit = 1024;
    expect_counted(
        rt,
        alloc,
        long,
        1,
        false,
        after_a_block(FeedFault::TooLong { limit }),
    );
    let torn = Bytes::new(zeros(rt, alloc, 394_000));
    let (records, rest) = (1026, 16);
    expect_counted(
        rt,
        alloc,
        torn,
        2,
        false,
        after_a_block(FeedFault::Torn { records, rest }),
    );
    let mut bytes = zeros(rt, alloc, 394_368);
    if let Some(kind) = bytes.get_mut(393_600) {
        *kind = 10;
    }
    let (at, fault) = (1025, RecordFault::LoginType(10));
    expect_counted(
        rt,
        alloc,
        Bytes::new(bytes),
        2,
        false,
        after_a_block(FeedFault::Bad { at, fault }),
    );
}

/// A reader of zeros, `left` in all, which then fails.
#[derive(Drop)]
struct Failing {
    left: usize,
}

impl Read for Failing {
    fn read(&mut self, buf: &mut [u8]) -> io::Result<usize> {
        if self.left == 0 {
            return Err(io::Error::from(ErrorKind::Other));
        }
        let count = self.left.min(buf.len());
        buf[..count].fill(0);
        self.left -= count;
        Ok(count)
    }
}

#[test]
fn a_read_that_fails_in_the_second_block_stops_a_count_after_the_first(rt: HostRuntime) {
    let input = Reading::new(Failing { left: 393_700 });
    expect_counted(
        &rt,
        rt.alloc(),
        input,
        2,
        false,
        after_a_block(FeedFault::Read),
    );
}
