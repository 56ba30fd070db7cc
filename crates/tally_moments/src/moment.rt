//! Moments, as words say them.
ghost use Rattle.std.specs.Prelude.{◌≡◌, ◌+ℤ◌, ◌-ℤ◌, ◌*ℤ◌, pos};
ghost use Rattle.jiff_core.specs.Calendar.{IsEpochDay};
ghost use Rattle.tally_moments.specs.Moments as Spec;

use crate::dates::{day_named, days_named};
use crate::shapes::{
    after_at, after_minus, byte_at, front, looks_like_date, number_of, rest, without_plus,
};
use crate::time::{ToldBy, second_on, time_in, told_by};

/// A moment, on a clock that need not be known yet.
#[derive(Clone, Copy, Debug, PartialEq, Eq)]
pub enum Moment {
    /// A second since 1970.
    Second(i64),
    /// The first second of a day by the clock, or of the next that it has. Day 0 is 1970-01-01.
    Day(i32),
    /// When the clock shows a time of a day, in seconds from its midnight.
    Time { day: i32, second: u32 },
    /// When the words are read.
    Now,
}

/// The moment that a word says: `2026-07-01`, `2026-07-01T10:30`, `2026-07-01 10:30:00+02:00`, `@1782864000`, `1782864000`
/// or `now`. Digits alone are seconds, however many.
pub fn moment_of(word: &str) -> Option<Moment>
    ensures { result ≡ Spec.moment_of word.now }
{
    if word == "now" {
        return Some(Moment::Now);
    }
    counted(word)
        .or(dated(word.as_bytes()))
        .or(timed(word.as_bytes()))
}

/// The same, but of eight or fourteen digits alone, which could be a date, it is none.
pub fn clear_moment_of(word: &str) -> Option<Moment>
    ensures { result ≡ Spec.clear_moment_of word.now }
{
    if looks_like_date(word) {
        None
    } else {
        moment_of(word)
    }
}

/// The moment from which a year, a month or a day goes, and that up to which, as `2026`, `2026-07` or
/// `2026-07-31` names it.
pub fn period_of(word: &str) -> Option<(Moment, Moment)>
    ensures { result ≡ Spec.period_of word.now }
{
    let (first, last) = days_named(word.as_bytes())?;
    Some((Moment::Day(first), day_after(last)))
}

/// The beginning of the next day.
fn day_after(day: i32) -> Moment
    requires { IsEpochDay day }
    ensures { result ≡ Moment.Day (day +ℤ pos 1) }
{
    Moment::Day(day + 1)
}

/// The moment of whole seconds since 1970, after an at sign or alone.
fn counted(word: &str) -> Option<Moment>
    ensures { result ≡ Spec.counted word.now }
{
    let second = after_sign(word).or(number_alone(word))?;
    Some(Moment::Second(second))
}

fn number_alone(word: &str) -> Option<i64>
    ensures { result ≡ Spec.number_alone word.now }
{
    number_of(without_plus(word)).or(minus_zero(word))
}

/// A zero after a minus.
fn minus_zero(word: &str) -> Option<i64>
    ensures { result ≡ Spec.minus_zero word.now }
{
    let text = after_minus(word)?;
    match number_of(text) {
        Some(0) => Some(0),
        _ => None,
    }
}

fn after_sign(word: &str) -> Option<i64>
    ensures { result ≡ Spec.after_sign word.now }
{
    let text = after_at(word)?;
    negative(text).or(number_of(text))
}

fn negative(text: &str) -> Option<i64>
    ensures { result ≡ Spec.negative text.now }
{
    Some(-number_of(after_minus(text)?)?)
}

/// The moment of a date.
fn dated(word: &[u8]) -> Option<Moment>
    ensures { result ≡ Spec.dated word.now }
{
    Some(Moment::Day(day_named(word)?))
}

/// The moment of a date and a time.
fn timed(word: &[u8]) -> Option<Moment>
    ensures { result ≡ Spec.timed word.now }
{
    if is_between(byte_at(word, 10)) {
        timed_on(day_named(front(word, 10))?, rest(word, 11))
    } else {
        None
    }
}

/// A T or a blank between a date and a time.
fn is_between(byte: u8) -> bool
    ensures { result ≡ Spec.is_between byte }
{
    byte == b'T' || byte == b' '
}

/// The moment that a text says after its date.
fn timed_on(day: i32, text: &[u8]) -> Option<Moment>
    ensures { result ≡ Spec.timed_on day text.now }
{
    let (second, text) = time_in(text)?;
    Some(told(day, second, told_by(text)?))
}

/// The moment at which a clock shows a time of a day.
fn told(day: i32, second: u32, by: ToldBy) -> Moment
    ensures { result ≡ Spec.told day second by }
{
    match by {
        ToldBy::Clock => Moment::Time { day, second },
        ToldBy::East(ahead) => Moment::Second(second_east(day, second, ahead)),
    }
}

/// The second at which a clock so many seconds east of UTC shows a time of a day.
fn second_east(day: i32, second: u32, ahead: i32) -> i64
    ensures { result ≡ pos 86400 *ℤ day +ℤ pos second -ℤ ahead }
{
    second_on(day, second) - i64::from(ahead)
}
