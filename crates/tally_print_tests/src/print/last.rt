//! The lines of last(1).
ghost use Rattle.tally_sessions.specs.Days.{IsOffset};

use super::{berlin, boot, is_printed, login};
use std::alloc::Global;
use std::process::Abort;
use tally_clock::Clock;
use tally_print::{Kept, print_last};
use tally_sessions::{End, Stay};

/// Asserts that the stays of host 0 print this text by a clock, with those that nothing has ended counted up to a moment.
/// Where a growth is refused, the second try prints it.
fn expect_until(
    rt: &impl Abort,
    alloc: Global,
    clock: &Clock,
    rows: &[Stay],
    first: Option<i32>,
    until: Option<i32>,
    text: &[u8],
) {
    for _ in 0..2 {
        let mut out = Kept::new(alloc);
        let printed = print_last(alloc, clock, rows, first, 0, &mut out, until);
        if is_printed(rt, printed, out, text) {
            return;
        }
    }
    panic!(rt; "refused twice");
}

/// The same by the clock of UTC, with stays that nothing has ended counted up to the last record.
fn expect_last(rt: &impl Abort, alloc: Global, rows: &[Stay], first: Option<i32>, text: &[u8]) {
    let utc = Clock::utc(alloc);
    expect_until(rt, alloc, &utc, rows, first, None, text);
    drop(utc);
}

#[test]
fn a_host_without_records_has_no_records(rt: HostRuntime) {
    let rt = &rt;
    let alloc = rt.alloc();
    expect_last(rt, alloc, &[], None, b"wtmp has no records\n");
}

#[test]
fn a_host_without_logins_has_records(rt: HostRuntime) {
    let rt = &rt;
    let alloc = rt.alloc();
    let text = b"\nwtmp begins 1970-01-01 00:00:00\n";
    expect_last(rt, alloc, &[], Some(0), text);
}

#[test]
fn a_logout_has_its_time_and_the_length(rt: HostRuntime) {
    let rt = &rt;
    let alloc = rt.alloc();
    let ann = login(b"ann", 1_000_000, End::Logout, 1_003_600, 3600);
    let text = b"\
ann      tty1                          1970-01-12 13:46:40 - 1970-01-12 14:46:40 (01:00)

wtmp begins 1970-01-12 13:46:40
";
    expect_last(rt, alloc, &[ann], Some(1_000_000), text);
}

#[test]
fn boots_and_shutdowns_have_words(rt: HostRuntime) {
    let rt = &rt;
    let alloc = rt.alloc();
    let rows = [
        boot(1100, End::Still, 1100, 0),
        login(b"ann", 200, End::Down, 1000, 800),
        boot(100, End::Crash, 1000, 900),
    ];
    let text = b"\
reboot   system boot                   1970-01-01 00:18:20   still running
ann      tty1                          1970-01-01 00:03:20 - down                (00:13)
reboot   system boot                   1970-01-01 00:01:40 - crash               (00:15)

wtmp begins 1970-01-01 00:01:40
";
    expect_last(rt, alloc, &rows, Some(100), text);
}

#[test]
fn open_stays_have_a_span_up_to_a_moment(rt: HostRuntime) {
    let rt = &rt;
    let alloc = rt.alloc();
    let rows = [
        login(b"ann", 1100, End::Still, 5000, 3900),
        boot(1000, End::Still, 5000, 4000),
        login(b"ann", 200, End::Down, 1000, 800),
    ];
    let text = b"\
ann      tty1                          1970-01-01 00:18:20 - still logged in     (01:05)
reboot   system boot                   1970-01-01 00:16:40 - still running       (01:06)
ann      tty1                          1970-01-01 00:03:20 - down                (00:13)

wtmp begins 1970-01-01 00:03:20
";
    let utc = Clock::utc(alloc);
    expect_until(rt, alloc, &utc, &rows, Some(200), Some(5000), text);
    drop(utc);
}

#[test]
fn a_span_over_a_day_tells_the_days(rt: HostRuntime) {
    let rt = &rt;
    let alloc = rt.alloc();
    let rows = [
        login(b"ann", 0, End::Next, 90_061, 90_061),
        login(b"ann", 2000, End::Logout, 1000, 0),
    ];
    let text = b"\
ann      tty1                          1970-01-01 00:00:00 - 1970-01-02 01:01:01 (1+01:01)
ann      tty1                          1970-01-01 00:33:20 - 1970-01-01 00:16:40 (00:00)

wtmp begins 1970-01-01 00:00:00
";
    expect_last(rt, alloc, &rows, Some(0), text);
}

#[test]
fn long_texts_stand_whole_and_hostile_bytes_do_not(rt: HostRuntime) {
    let rt = &rt;
    let alloc = rt.alloc();
    let mut stay = login(b"abcdefghijklmnopqrstuvwxyz012345", 60, End::Still, 60, 0);
    stay.remote[0] = b'h';
    stay.remote[1] = 0x1B;
    stay.remote[2] = b'1';
    let text = b"\
abcdefghijklmnopqrstuvwxyz012345 tty1         h?1              1970-01-01 00:01:00   still logged in

wtmp begins 1970-01-01 00:01:00
";
    expect_last(rt, alloc, &[stay], Some(60), text);
}

/// Asserts that no stays, of a host whose first record has this time, print this text at an offset.
fn expect_beginning(rt: &impl Abort, alloc: Global, first: i32, offset: i32, text: &[u8])
    requires { IsOffset offset }
{
    let mut out = Kept::new(alloc);
    let utc = Clock::utc(alloc);
    let printed = print_last(alloc, &utc, &[], Some(first), offset, &mut out, None);
    drop(utc);
    is_printed(rt, printed, out, text);
}

#[test]
fn an_offset_moves_dates_to_the_ends_of_time(rt: HostRuntime) {
    let rt = &rt;
    let alloc = rt.alloc();
    let text = b"\nwtmp begins 1901-12-12 20:46:52\n";
    expect_beginning(rt, alloc, i32::MIN, -1439, text);
    let text = b"\nwtmp begins 2038-01-20 03:13:07\n";
    expect_beginning(rt, alloc, i32::MAX, 1439, text);
}

#[test]
fn clocks_go_forward_within_a_stay(rt: HostRuntime) {
    let rt = &rt;
    let alloc = rt.alloc();
    let ann = login(b"ann", 1_774_745_999, End::Logout, 1_774_746_000, 1);
    let text = b"\
ann      tty1                          2026-03-29 01:59:59 - 2026-03-29 03:00:00 (00:00)

wtmp begins 2026-03-29 01:59:59
";
    let first = Some(1_774_745_999);
    let berlin = berlin(rt, alloc);
    expect_until(rt, alloc, &berlin, &[ann], first, None, text);
    drop(berlin);
}
