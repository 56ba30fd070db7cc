//! Records of files of failed logins.
use crate::equal::expect_equal;
use std::alloc::Global;
use tally_records::{Batch, BatchFault, RecordFault};

/// A login record of a type, whose other fields are zero.
fn record(kind: u8) -> [u8; 384] {
    let mut bytes = [0; 384];
    bytes[0] = kind;
    bytes
}

/// How many failed logins these records are, or why they are none.
fn count(alloc: Global, blocks: &[[u8; 384]]) -> Result<usize, BatchFault> {
    Batch::failed_logins(alloc, blocks.as_flattened()).map(|batch| batch.len())
}

#[test]
fn types_0_6_and_7_are_those_of_failed_logins(rt: HostRuntime) {
    for kind in 0..10u8 {
        let wanted = match kind {
            0 | 6 | 7 => Ok(1),
            _ => Err(BatchFault::Bad {
                index: 0,
                fault: RecordFault::OtherLogin(kind),
            }),
        };
        expect_equal(&rt, &count(rt.alloc(), &[record(kind)]), &wanted);
    }
}

#[test]
fn the_first_record_that_is_no_failed_login_is_named(rt: HostRuntime) {
    let boot = BatchFault::Bad {
        index: 1,
        fault: RecordFault::OtherLogin(2),
    };
    expect_equal(&rt, &count(rt.alloc(), &[6, 2, 10].map(record)), &Err(boot));
    let foreign = BatchFault::Bad {
        index: 2,
        fault: RecordFault::LoginType(10),
    };
    expect_equal(
        &rt,
        &count(rt.alloc(), &[6, 0, 10, 2].map(record)),
        &Err(foreign),
    );
}
