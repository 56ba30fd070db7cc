//! Counts of inputs of process records, which are not kept.
ghost use Rattle.std.specs.Prelude.{◌-◌, ◌^◌, ◌<◌, ◌≤◌};

use crate::desk::feeding::expect_fed;
use crate::desk::makers::{Trickle, new_keys, steady, twos};
use crate::equal::expect_equal;
use std::alloc::Global;
use std::process::Abort;
use std::random::RandomSource;
use std::sync::Wait;
use tally_desk::{Bytes, CountFault, FeedFault, Input, Reading, count_input};
use tally_records::{Kind, RecordFault};
use tally_usage::ProcChoice;

/// Asserts how many records are counted of an input, or why not.
fn expect_counted<R: Abort + RandomSource, I: Input>(
    rt: &R,
    alloc: Global,
    mut input: I,
    most: u32,
    want: Result<u64, CountFault>,
)
    requires few { most ≤ 262144 }
    requires countable { I.failures input < 2 ^ 64 - 1 }
{
    let every = ProcChoice::every();
    let outcome = count_input(alloc, new_keys(rt), &mut input, &every, most);
    drop(input);
    let count = match outcome {
        Ok(sums) => Ok(sums.total().count),
        Err(fault) => Err(fault),
    };
    expect_equal(rt, &count, &want);
}

#[test]
fn up_to_the_limit_all_records_are_counted(rt: HostRuntime) {
    for (most, records) in [
        (0, 0),
        (1, 0),
        (1, 1),
        (1, 1024),
        (2, 1025),
        (262_144, 2049),
    ] {
        let input = Bytes::new(twos(&rt, rt.alloc(), records * 64));
        expect_counted(&rt, rt.alloc(), input, most, Ok(records as u64));
    }
}

#[test]
fn a_byte_past_the_limit_is_too_long(rt: HostRuntime) {
    for (most, len, limit) in [
        (0, 1, 0),
        (1, 65_537, 1024),
        (1, 65_600, 1024),
        (2, 131_200, 2048),
    ] {
        let input = Bytes::new(twos(&rt, rt.alloc(), len));
        let want = Err(CountFault::TooLong { limit });
        expect_counted(&rt, rt.alloc(), input, most, want);
    }
}

#[test]
fn the_fault_names_the_limit(rt: HostRuntime) {
    let fault = CountFault::TooLong { limit: 1024 };
    let text = fault.to_string(rt.alloc()).expect(&rt, "memory");
    assert!(&rt; text.as_str() == "more than 1024 records", "{text}");
}

#[test]
fn an_end_inside_a_record_is_torn(rt: HostRuntime) {
    for (len, records, rest) in [(1, 0, 1), (63, 0, 63), (129, 2, 1), (65_663, 1025, 63)] {
        let input = Bytes::new(twos(&rt, rt.alloc(), len));
        let want = Err(CountFault::Torn { records, rest });
        expect_counted(&rt, rt.alloc(), input, 2, want);
    }
}

#[test]
fn a_later_read_that_fails_is_named(rt: HostRuntime) {
    let reader = Trickle {
        fails: true,
        ..steady(4096, 65_600)
    };
    let want = Err(CountFault::Read);
    expect_counted(&rt, rt.alloc(), Reading::new(reader), 1024, want);
}

/// Process records, of which one has no known version, and one byte more.
fn torn_with_bad(rt: &impl Abort, alloc: Global, bad: usize) -> Bytes {
    let mut bytes = twos(rt, alloc, 65_793);
    if let Some(version) = bytes.get_mut(bad) {
        *version = 0x82;
    }
    Bytes::new(bytes)
}

#[test]
fn the_first_fault_is_that_of_a_feed(rt: HostRuntime) {
    let rt = &rt;
    let alloc = rt.alloc();
    let fault = RecordFault::ProcVersion(0x82);
    let fed = FeedFault::Bad { at: 1, fault };
    expect_fed(
        rt,
        alloc,
        Kind::Proc,
        torn_with_bad(rt, alloc, 65),
        Err(fed),
        0,
    );
    let fault = RecordFault::ProcVersion(0x82);
    let counted = CountFault::Bad { at: 1, fault };
    expect_counted(rt, alloc, torn_with_bad(rt, alloc, 65), 1024, Err(counted));
    let (records, rest) = (1028, 1);
    let fed = FeedFault::Torn { records, rest };
    expect_fed(
        rt,
        alloc,
        Kind::Proc,
        torn_with_bad(rt, alloc, 65_665),
        Err(fed),
        1024,
    );
    let counted = CountFault::Torn { records, rest };
    expect_counted(
        rt,
        alloc,
        torn_with_bad(rt, alloc, 65_665),
        1024,
        Err(counted),
    );
}

#[test]
fn a_record_past_the_limit_of_a_feed_is_too_long(rt: HostRuntime) {
    let reader = steady(65_536, 67_108_928);
    let want = Err(CountFault::TooLong { limit: 1_048_576 });
    expect_counted(&rt, rt.alloc(), Reading::new(reader), 1024, want);
}
