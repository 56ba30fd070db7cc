//! The clock of a time zone.
ghost use Rattle.std.specs.Prelude.{◌≡◌, ℕ, ℤ, ◌+◌, ◌<◌, ◌≤ℤ◌, ◌<ℤ◌, ◌^◌, ◌∷◌, ◌++◌, [], pos, neg_ℤ, ◌+ℤ◌, OnOk, IfErr, IfOk, IfSome, int_le, vec_len, if◌then◌else◌};
ghost use Rattle.jiff_core.specs.Timestamp.{nanos_of_seconds};
ghost use Rattle.jiff_tz.specs.Year.{year_of_nanos};
ghost use Rattle.tally_clock.specs.Rows.{IsBefore, IsRising, offset_in};
ghost use Rattle.tally_clock.specs.Time.{IsTime};
ghost use Rattle.tally_clock.specs.Zones.{zone_offset};
ghost use Rattle.jiff_core.specs.declared.Offset.{Offset as ClockOffset};
ghost use Rattle.tally_clock.specs.declared.zone.ClockFault.TheVariants as clock_fault;

use crate::clock::{Clock, ROW_LIMIT};
use crate::row::Row;
use jiff_core::civil::Date;
use jiff_core::{Offset, Timestamp};
use jiff_tz::TimeZone;
use std::alloc::{AllocError, Global};

/// The first second that a record can have.
const FIRST: i64 = -2_147_483_648;

/// The last second that a record can have.
const LAST: i64 = 2_147_483_647;

const DAY: i64 = 86_400;

/// Why a zone has no clock.
#[derive(Clone, Copy, Debug, PartialEq, Eq)]
pub enum ClockFault {
    /// Out of memory.
    Memory,
    /// Its offset changes more than 4,096 times.
    Long,
}

impl From<AllocError> for ClockFault {
    ghost from_gives = { λ _ fault. fault ≡ clock_fault.Memory };

    fn from(_error: AllocError) -> ClockFault {
        ClockFault::Memory
    }
}

fn timestamp(time: i64) -> Timestamp
    requires { IsTime time }
    ensures { result.nanosecond ≡ nanos_of_seconds time }
{
    Timestamp {
        nanosecond: i128::from(time) * 1_000_000_000,
    }
}

/// The last second of the year of a second, by UTC.
fn year_end(time: i64) -> i64
    requires { IsTime time }
    ensures year { year_of_nanos (nanos_of_seconds result) ≡ year_of_nanos (nanos_of_seconds time) }
    ensures low { neg_ℤ (pos (2 ^ 50)) ≤ℤ result }
    ensures high { result ≤ℤ pos (2 ^ 50) }
{
    let date = Offset::UTC.to_datetime(timestamp(time)).date;
    let last = Date::constrain(date.year, 12, 31);
    i64::from(last.to_unix_epoch_day()) * DAY + (DAY - 1)
}

/// The next whole second up to which an offset surely stays: the zone's next transition, or the end
/// of the year by UTC, where a rule may begin anew.
fn stays_until(zone: &TimeZone<'_>, time: i64) -> i64
    requires { IsTime time }
    ensures later { time <ℤ result }
    ensures near { result ≤ℤ pos (2 ^ 51) }
    ensures same { (n : ℤ) → IsTime n → time ≤ℤ n → n <ℤ result → zone_offset zone.now n ≡ zone_offset zone.now time }
{
    let end = year_end(time) + 1;
    let next = match zone.next_transition(timestamp(time)) {
        None => end,
        Some(transition) => end.min(transition.timestamp.floor_second()),
    };
    next.max(time + 1)
}

/// The offset of a zone at a second.
fn zone_offset(zone: &TimeZone<'_>, time: i64) -> Offset
    requires { IsTime time }
    ensures { result.seconds ≡ zone_offset zone.now time }
{
    zone.to_offset(timestamp(time))
}

/// Adds a row after all others.
fn push_row(rows: &mut Vec<Row>, from: i32, offset: Offset) -> Result<(), AllocError>
    requires rising { IsRising rows.old.items }
    requires before { IsBefore rows.old.items from }
    ensures pushed { OnOk result (rows.new.items ≡ rows.old.items ++ record { from = from; offset = offset } ∷ []) }
    ensures rising { OnOk result (IsRising rows.new.items) }
    ensures before { OnOk result ((time : ℤ) → from <ℤ time → IsBefore rows.new.items time) }
    ensures offsets { OnOk result ((first : ClockOffset) (time : ℤ) → offset_in first rows.new.items time ≡ (if int_le from time then offset.seconds else offset_in first rows.old.items time)) }
{
    rows.push(Row { from, offset })?;
    Ok(())
}

impl Clock {
    ghost use Rattle.tally_clock.specs.Zones.{ChangesOften, ShowsZone, zone_offset};

    /// The clock of a zone: at each second that a record can have it has the zone's offset.
    pub fn of_zone(alloc: Global, zone: &TimeZone<'_>) -> Result<Clock, ClockFault>
        ensures shows { IfOk result (ShowsZone zone.now) }
        ensures err { IfErr result (λ found. found ≡ ClockFault.Long → ChangesOften ROW_LIMIT (zone_offset zone.now)) }
    {
        let first = zone_offset(zone, FIRST);
        let mut rows = Vec::new(alloc);
        let mut offset = first;
        let mut time = stays_until(zone, FIRST);
        while time <= LAST {
            let next = zone_offset(zone, time);
            if next != offset {
                push_row(&mut rows, time as i32, next)?;
                offset = next;
            }
            time = stays_until(zone, time);
        }
        if rows.len() > ROW_LIMIT {
            return Err(ClockFault::Long);
        }
        Ok(Clock::from_rows(first, rows))
    }
}
