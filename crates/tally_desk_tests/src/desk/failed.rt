//! Feeds of files of failed logins.
ghost use Rattle.std.specs.Prelude.{◌<◌};

use crate::desk::feeding::{THREE, expect_fed};
use std::alloc::Global;
use std::process::Abort;
use tally_desk::{Bytes, FeedFault};
use tally_records::{Kind, RecordFault};

/// Three login records of these types, whose other bytes are zero, and so many zeros after them.
fn records(rt: &impl Abort, alloc: Global, types: [u8; 3], rest: usize) -> Bytes
    requires { rest < 384 }
{
    let mut bytes = vec![in alloc; 0u8; 1152 + rest].expect(rt, "memory");
    for (place, kind) in types.iter().enumerate() {
        if let Some(first) = bytes.get_mut(place * 384) {
            *first = *kind;
        }
    }
    Bytes::new(bytes)
}

#[test]
fn failed_logins_are_stored_as_logins(rt: HostRuntime) {
    let input = records(&rt, rt.alloc(), [6, 7, 0], 0);
    expect_fed(&rt, rt.alloc(), Kind::FailedLogin, input, Ok(THREE), 3);
}

#[test]
fn the_first_record_that_is_no_failed_login_is_the_fault(rt: HostRuntime) {
    for (types, rest, at, fault) in [
        ([6, 2, 10], 0, 1, RecordFault::OtherLogin(2)),
        ([10, 2, 6], 0, 0, RecordFault::LoginType(10)),
        ([6, 2, 10], 1, 1, RecordFault::OtherLogin(2)),
        ([10, 2, 6], 1, 0, RecordFault::LoginType(10)),
        ([6, 7, 8], 383, 2, RecordFault::OtherLogin(8)),
    ] {
        let input = records(&rt, rt.alloc(), types, rest);
        let want = Err(FeedFault::Bad { at, fault });
        expect_fed(&rt, rt.alloc(), Kind::FailedLogin, input, want, 0);
    }
}

#[test]
fn a_boot_before_a_torn_end_is_numbered_in_its_file(rt: HostRuntime) {
    let rt = &rt;
    let mut bytes = vec![in rt.alloc(); 0u8; 394_000].expect(rt, "memory");
    if let Some(kind) = bytes.get_mut(393_600) {
        *kind = 2;
    }
    let want = FeedFault::Bad {
        at: 1025,
        fault: RecordFault::OtherLogin(2),
    };
    let input = Bytes::new(bytes);
    expect_fed(rt, rt.alloc(), Kind::FailedLogin, input, Err(want), 1024);
}

#[test]
fn with_no_bad_record_before_it_a_torn_end_is_the_fault(rt: HostRuntime) {
    for (kind, types) in [
        (Kind::FailedLogin, [6, 7, 0]),
        (Kind::Login, [6, 2, 0]),
        (Kind::Login, [10, 2, 6]),
    ] {
        let want = FeedFault::Torn {
            records: 3,
            rest: 1,
        };
        let input = records(&rt, rt.alloc(), types, 1);
        expect_fed(&rt, rt.alloc(), kind, input, Err(want), 0);
    }
}
