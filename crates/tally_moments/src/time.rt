//! Times of day and offsets, as texts write them.
ghost use Rattle.std.specs.Prelude.{◌≡◌, ◌<◌, ◌^◌, ◌+ℤ◌, ◌*ℤ◌, IfSome, option_map, pos};
ghost use Rattle.jiff_core.specs.Calendar.{IsWithin};
ghost use Rattle.tally_moments.specs.Moments as Spec;

use crate::shapes::{front, is_like, rest, two_at};

/// Whose clock shows a time.
#[derive(Clone, Copy)]
pub(crate) enum ToldBy {
    /// The clock that moments are read by.
    Clock,
    /// A clock so many seconds east of UTC.
    East(i32),
}

/// The seconds from the midnight of day 0 to a time of a day.
pub(crate) fn second_on(day: i32, second: u32) -> i64
    ensures value { result ≡ pos 86400 *ℤ day +ℤ pos second }
    ensures near { IsWithin (2 ^ 48) result }
{
    i64::from(day) * 86_400 + i64::from(second)
}

/// The seconds from midnight to a time of day.
fn seconds_of(hours: u32, minutes: u32, seconds: u32) -> Option<u32>
    ensures value { result ≡ Spec.seconds_of hours minutes seconds }
    ensures bound { IfSome result (λ s. s < 86400) }
{
    if hours > 23 || minutes > 59 || seconds > 59 {
        return None;
    }
    Some(hours * 3600 + minutes * 60 + seconds)
}

/// The time of day that a text begins with, in seconds from midnight, and what follows it.
pub(crate) fn time_in(text: &[u8]) -> Option<(u32, &[u8])>
    ensures { option_map (λ t. (t.0, t.1.now)) result ≡ Spec.time_in text.now }
{
    if is_like(b"00:00:00", front(text, 8)) {
        let seconds = seconds_of(two_at(text, 0), two_at(text, 3), two_at(text, 6))?;
        Some((seconds, rest(text, 8)))
    } else if is_like(b"00:00", front(text, 5)) {
        let seconds = seconds_of(two_at(text, 0), two_at(text, 3), 0)?;
        Some((seconds, rest(text, 5)))
    } else {
        None
    }
}

/// The seconds of an offset after its sign.
fn ahead_in(text: &[u8]) -> Option<u32>
    ensures value { result ≡ Spec.ahead_in text.now }
    ensures bound { IfSome result (λ s. s < 86400) }
{
    if is_like(b"00:00", text) {
        seconds_of(two_at(text, 0), two_at(text, 3), 0)
    } else if is_like(b"0000", text) {
        seconds_of(two_at(text, 0), two_at(text, 2), 0)
    } else {
        None
    }
}

fn signed_in(sign: u8, text: &[u8]) -> Option<ToldBy>
    ensures { result ≡ Spec.signed_in sign text.now }
{
    let ahead = ahead_in(text)? as i32;
    match sign {
        b'+' => Some(ToldBy::East(ahead)),
        b'-' => Some(ToldBy::East(-ahead)),
        _ => None,
    }
}

/// Whose clock shows a time, by what follows it.
pub(crate) fn told_by(text: &[u8]) -> Option<ToldBy>
    ensures { result ≡ Spec.told_by text.now }
{
    match text {
        [] => Some(ToldBy::Clock),
        [b'Z'] => Some(ToldBy::East(0)),
        [sign, ahead @ ..] => signed_in(*sign, ahead),
    }
}
