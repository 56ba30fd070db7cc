//! Moments in local time.
ghost use Rattle.std.specs.Prelude.{◌≡◌, ◌<◌, ◌^◌, ◌++◌, ◌∷◌, [], OnOk, pos, neg_ℤ, ◌+ℤ◌, ◌≤ℤ◌, if◌then◌else◌, int_le, unsigned_abs};
ghost use Rattle.std.specs.Int.{int_div_euclid, int_min, int_rem_euclid};
ghost use Rattle.jiff_core.specs.Date.{epoch_day};
ghost use Rattle.tally_check_text.specs.Moments as Spec;
ghost use Rattle.tally_check_text.specs.inside.LocalTime.{clock_of};
ghost use Rattle.tally_check_text.specs.inside.Moments.{IsAhead, IsRecorded, IsShownDay, marked_moment};
ghost use Rattle.tally_print.specs.StayTable.{zone};
ghost use Rattle.tally_print.specs.Text.{time_of_day};

use crate::local::{Local, recorded};
use crate::numbers::two;
use jiff_core::civil;
use std::alloc::AllocError;

/// The civil date of a day, counted from 1970-01-01.
fn civil_date(day: i32) -> civil::Date
    requires { IsShownDay day }
    ensures { epoch_day result ≡ day }
{
    civil::Date::from_unix_epoch_day(i64::from(day)).unwrap()
}

#[derive(Clone, Copy)]
struct CivilDate {
    year: u16,
    month: u8,
    day: u8,
}

fn civil_parts(day: i32) -> CivilDate
    requires { IsShownDay day }
    ensures year { result.year ≡ Spec.year_of day }
    ensures month { result.month ≡ Spec.month_of day }
    ensures day { result.day ≡ Spec.day_of_month day }
    ensures year_fits { result.year < 10_000 }
    ensures month_fits { result.month < 100 }
    ensures day_fits { result.day < 100 }
{
    let date = civil_date(day);
    let year = date.year as u16;
    CivilDate {
        year,
        month: date.month,
        day: date.day,
    }
}

/// The civil date of a day in digits.
#[tactic(auto, unfolding(crate::specs::Moments::date))]
fn date_digits(day: i32) -> [u8; 10]
    requires { IsShownDay day }
    ensures { result ≡ Spec.date day }
{
    let date = civil_parts(day);
    let [c, cc] = two((date.year / 100) as u8);
    let [y, yy] = two((date.year % 100) as u8);
    let [m, mm] = two(date.month);
    let [d, dd] = two(date.day);
    [c, cc, y, yy, b'-', m, mm, b'-', d, dd]
}

/// The time of day.
#[tactic(auto, unfolding(tally_print::specs::Text::time_of_day))]
fn time_digits(second: u32) -> [u8; 8]
    requires { second < 86_400 }
    ensures { result ≡ time_of_day second }
{
    let [h, hh] = two((second / 3600) as u8);
    let [m, mm] = two((second / 60 % 60) as u8);
    let [s, ss] = two((second % 60) as u8);
    [h, hh, b':', m, mm, b':', s, ss]
}

/// A day, and a second of it.
#[derive(Clone, Copy)]
struct DayTime {
    day: i32,
    second: u32,
}

fn day_time(time: i64, ahead: i32) -> DayTime
    requires recorded { IsRecorded time }
    requires ahead { IsAhead ahead }
    ensures day { result.day ≡ int_div_euclid (time +ℤ ahead) (pos 86_400) }
    ensures second { result.second ≡ unsigned_abs (int_rem_euclid (time +ℤ ahead) (pos 86_400)) }
    ensures day_in_range { IsShownDay result.day }
    ensures second_in_range { result.second < 86_400 }
{
    let seconds = time + i64::from(ahead);
    let day = seconds.div_euclid(86_400) as i32;
    let second = seconds.rem_euclid(86_400) as u32;
    DayTime { day, second }
}

/// Appends the date of a moment, a mark and its time of day, where local time is so many seconds ahead of UTC.
fn push_marked_moment(text: &mut Vec<u8>, time: i64, mark: u8, ahead: i32) -> Result<(), AllocError>
    requires recorded { IsRecorded time }
    requires ahead { IsAhead ahead }
    ensures { OnOk result (text.new.items ≡ text.old.items ++ marked_moment time mark ahead) }
{
    let moment = day_time(time, ahead);
    text.extend_from_slice(&date_digits(moment.day))?;
    text.push(mark)?;
    text.extend_from_slice(&time_digits(moment.second))
}

/// The sign of an offset, `+` for none.
fn sign(offset: i32) -> u8
    ensures { result ≡ (if int_le (pos 0) offset then 43 else 45) }
{
    if offset < 0 { b'-' } else { b'+' }
}

/// Appends an offset in seconds east of UTC as hours and minutes.
#[tactic(auto, unfolding(tally_print::specs::StayTable::zone))]
fn push_zone(text: &mut Vec<u8>, offset: i32) -> Result<(), AllocError>
    requires { IsAhead offset }
    ensures { OnOk result (text.new.items ≡ text.old.items ++ zone offset) }
{
    let seconds = offset.unsigned_abs();
    let [h, hh] = two((seconds / 3600) as u8);
    let [m, mm] = two((seconds / 60 % 60) as u8);
    text.extend_from_slice(&[sign(offset), h, hh, b':', m, mm])
}

/// Appends a moment as `2026-03-02 12:55:00`.
#[tactic(auto, unfolding(crate::specs::Moments::moment))]
pub(crate) fn push_moment(
    text: &mut Vec<u8>,
    time: i64,
    local: &Local<'_>,
) -> Result<(), AllocError>
    ensures { OnOk result (text.new.items ≡ text.old.items ++ Spec.moment (clock_of local.now) time) }
{
    let time = recorded(time);
    push_marked_moment(text, time, b' ', local.ahead_of(time))
}

/// Appends a moment as `2026-03-02T12:55:00+01:00`.
#[tactic(auto, unfolding(crate::specs::Moments::iso_moment))]
pub(crate) fn push_iso(text: &mut Vec<u8>, time: i64, local: &Local<'_>) -> Result<(), AllocError>
    ensures { OnOk result (text.new.items ≡ text.old.items ++ Spec.iso_moment (clock_of local.now) time) }
{
    let time = recorded(time);
    let ahead = local.ahead_of(time);
    push_marked_moment(text, time, b'T', ahead)?;
    push_zone(text, ahead)
}
