//! Days of the calendar, as texts name them.
ghost use Rattle.std.specs.Prelude.{◌≡◌, IfSome};
ghost use Rattle.jiff_core.specs.Calendar.{IsEpochDay};
ghost use Rattle.tally_moments.specs.Dates as Spec;

use crate::shapes::{first_four, is_like, two_at};
use jiff_core::civil::{Date, days_in_month};

/// The day of a date, where the calendar has it. Day 0 is 1970-01-01.
fn day_of(year: u32, month: u32, day: u32) -> Option<i32>
    ensures value { result ≡ Spec.day_of year month day }
    ensures bound { IfSome result IsEpochDay }
{
    if year > 9999 || month > 12 || day > 31 {
        return None;
    }
    match Date::new(year as i16, month as i8, day as i8) {
        Ok(date) => Some(date.to_unix_epoch_day()),
        Err(_) => None,
    }
}

/// The last day of a month.
fn month_end(year: u32, month: u32) -> Option<i32>
    ensures value { result ≡ Spec.month_end year month }
    ensures bound { IfSome result IsEpochDay }
{
    if year > 9999 || month > 12 {
        return None;
    }
    day_of(
        year,
        month,
        u32::from(days_in_month(year as i16, month as u8)),
    )
}

/// The day that a text as 2026-07-01 names.
pub(crate) fn day_named(text: &[u8]) -> Option<i32>
    ensures value { result ≡ Spec.day_named text.now }
    ensures bound { IfSome result IsEpochDay }
{
    if is_like(b"0000-00-00", text) {
        day_of(first_four(text), two_at(text, 5), two_at(text, 8))
    } else {
        None
    }
}

fn both(first: Option<i32>, last: Option<i32>) -> Option<(i32, i32)>
    ensures value { result ≡ Spec.both first last }
    ensures bound { IfSome last IsEpochDay → IfSome result (λ days. IsEpochDay days.1) }
{
    Some((first?, last?))
}

/// The first and the last day of the year, the month or the day that a text names.
pub(crate) fn days_named(text: &[u8]) -> Option<(i32, i32)>
    ensures value { result ≡ Spec.days_named text.now }
    ensures bound { IfSome result (λ days. IsEpochDay days.1) }
{
    let year = first_four(text);
    if is_like(b"0000", text) {
        both(day_of(year, 1, 1), day_of(year, 12, 31))
    } else if is_like(b"0000-00", text) {
        let month = two_at(text, 5);
        both(day_of(year, month, 1), month_end(year, month))
    } else {
        both(day_named(text), day_named(text))
    }
}
