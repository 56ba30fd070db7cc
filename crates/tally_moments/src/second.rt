//! The second of a moment on a clock.
ghost use Rattle.std.specs.Prelude.{◌≡◌, ◌<◌, ◌≤◌, ◌^◌, ◌+ℤ◌, ◌*ℤ◌, int_le, int_lt, length, pos, if◌then◌else◌};
ghost use Rattle.jiff_core.specs.Calendar.{IsWithin};
ghost use Rattle.tally_clock.specs.Rows.{count_at, row_at};
ghost use Rattle.tally_moments.specs.Seconds.{IsFirstAt, IsSecondOf, IsShownAt, SecondsAgree, local};
ghost use Rattle.tally_moments.specs.inside.Reach.{ahead_after, reach_in};

use crate::moment::Moment;
use crate::time::second_on;
use jiff_core::Offset;
use tally_clock::{Clock, Row};

/// No moment has two seconds.
pub fn seconds_agree()
    ensures { SecondsAgree }
{}

/// How far local time is ahead of UTC at an offset with minutes on top, in seconds.
fn ahead_of(offset: Offset, minutes: i32) -> i64
    ensures value { result ≡ offset.seconds +ℤ pos 60 *ℤ minutes }
    ensures near { IsWithin (2 ^ 38) result }
{
    i64::from(offset.seconds) + 60 * i64::from(minutes)
}

/// The second of a local time, by the first at which a clock shows this or a later one, how far it is ahead
/// then, and the second where it leaves the time out.
fn shown_by(wanted: i64, first: i64, ahead: i64, left_out: i64) -> i64
    requires first { IsWithin (2 ^ 50) first }
    requires ahead { IsWithin (2 ^ 38) ahead }
    ensures { result ≡ (if int_lt wanted (first +ℤ ahead) then left_out else first) }
{
    if wanted < first + ahead {
        left_out
    } else {
        first
    }
}

/// The second of a moment since 1970, on a clock with minutes east of it on top; that of `Moment::Now` is `now`. A time that
/// the clock shows twice has its first second. One that it leaves out is counted by the offset of the second before.
pub fn second_of(clock: &Clock, minutes: i32, moment: Moment, now: i64) -> i64
    ensures { IsSecondOf (local clock.now minutes) now moment result }
{
    match moment {
        Moment::Second(second) => second,
        Moment::Day(day) => first_at(clock, minutes, second_on(day, 0)),
        Moment::Time { day, second } => shown_at(clock, minutes, second_on(day, second)),
        Moment::Now => now,
    }
}

/// The second at which a clock shows a local time.
fn shown_at(clock: &Clock, minutes: i32, wanted: i64) -> i64
    requires { IsWithin (2 ^ 48) wanted }
    ensures { IsShownAt (local clock.now minutes) wanted result }
{
    let first = first_at(clock, minutes, wanted);
    let ahead = local_at(clock, minutes, first);
    let left_out = wanted - local_at(clock, minutes, first - 1);
    shown_by(wanted, first, ahead, left_out)
}

/// The first second at which a clock shows a local time or a later one.
fn first_at(clock: &Clock, minutes: i32, wanted: i64) -> i64
    requires { IsWithin (2 ^ 48) wanted }
    ensures first { IsFirstAt (local clock.now minutes) wanted result }
    ensures near { IsWithin (2 ^ 50) result }
{
    let rows = clock.rows().len();
    for count in 0..rows {
        let time = reach_in(clock, count, minutes, wanted);
        if time < row_begin(clock, count) {
            return time;
        }
    }
    reach_in(clock, rows, minutes, wanted)
}

/// The second from which the offset after so many rows would show a local time or a later one, but
/// not before that offset holds.
fn reach_in(clock: &Clock, count: usize, minutes: i32, wanted: i64) -> i64
    requires count { count ≤ length clock.now.rows }
    requires wanted { IsWithin (2 ^ 48) wanted }
    ensures value { result ≡ reach_in clock.now minutes wanted count }
    ensures near { IsWithin (2 ^ 50) result }
{
    let reached = wanted - ahead_after(clock, count, minutes);
    if count == 0 {
        reached
    } else {
        reached.max(row_begin(clock, count - 1))
    }
}

/// The second from which a row holds.
fn row_begin(clock: &Clock, at: usize) -> i64
    requires { at < length clock.now.rows }
    ensures value { result ≡ (row_at clock.now.rows at).from }
    ensures near { IsWithin (2 ^ 31) result }
{
    i64::from(clock.rows()[at].from)
}

/// How far local time is ahead of UTC after so many rows, in seconds.
fn ahead_after(clock: &Clock, count: usize, minutes: i32) -> i64
    requires { count ≤ length clock.now.rows }
    ensures value { result ≡ ahead_after clock.now minutes count }
    ensures near { IsWithin (2 ^ 38) result }
{
    ahead_of(clock.offset_after(count), minutes)
}

/// How far local time is ahead of UTC at a second, in seconds.
fn local_at(clock: &Clock, minutes: i32, time: i64) -> i64
    ensures value { result ≡ local clock.now minutes time }
    ensures near { IsWithin (2 ^ 38) result }
{
    ahead_after(clock, begun_at(clock, time), minutes)
}

/// How many rows have begun at a second.
fn begun_at(clock: &Clock, time: i64) -> usize
    ensures value { result ≡ count_at clock.now.rows time }
    ensures bound { result ≤ length clock.now.rows }
{
    clock.rows().partition_point(
        |row: &Row| -> bool
            ensures { result ≡ int_le row.now.from time }
        { i64::from(row.from) <= time },
    )
}
