//! What one login record means for the stays and the clock of its host.
ghost use Rattle.std.specs.Prelude.{◌≡◌, ◌<◌, ◌^◌, length, pos, neg_ℤ, ◌+ℤ◌, ◌≤ℤ◌};
ghost use Rattle.tally_sessions.specs.Clock.{shift_at};
ghost use Rattle.tally_sessions.specs.inside.Entries.{entry_at};
ghost use Rattle.tally_sessions.specs.Lent.{entries_in};
ghost use Rattle.tally_clock.specs.Days.{seconds_between};
ghost use Rattle.tally_sessions.specs.Stays as stays;
ghost use Rattle.tally_sessions.specs.inside.Track.{counts, ends_every_stay, ends_line_stay, is_login_event};
ghost use Rattle.tally_sessions.specs.inside.Tracking.{pending_at};

use crate::entries::Entries;
use crate::entry::End;
use tally_records::{Event, Key};

/// The old time that waits for its new one, after one record more.
pub(crate) fn pending_after(pending: Option<i32>, event: Event, time: i32) -> Option<i32>
    ensures { result ≡ pending_at event time pending }
{
    match event {
        Event::OldTime => Some(time),
        Event::NewTime => None,
        _ => pending,
    }
}

/// By how many seconds a record moves the clock, where this old time waits for its new one.
pub(crate) fn shift_of(pending: Option<i32>, event: Event, time: i32) -> i64
    ensures value { result ≡ shift_at event pending time }
    ensures low { neg_ℤ (pos (2 ^ 32)) ≤ℤ result }
    ensures high { result ≤ℤ pos (2 ^ 32) }
{
    match (event, pending) {
        (Event::NewTime, Some(old)) => i64::from(time) - i64::from(old),
        _ => 0,
    }
}

/// How an event ends a stay.
pub(crate) fn end_at(event: Event) -> End
    ensures { result ≡ stays.end_at event }
{
    match event {
        Event::Logout => End::Logout,
        Event::Login => End::Next,
        Event::Down => End::Down,
        Event::Boot => End::Crash,
        _ => End::Still,
    }
}

pub(crate) fn is_boot(event: Event) -> bool
    ensures { result ≡ stays.is_boot_event event }
{
    matches!(event, Event::Boot)
}

pub(crate) fn is_login(event: Event) -> bool
    ensures { result ≡ is_login_event event }
{
    matches!(event, Event::Login)
}

/// Whether the record at a place is a login, of any user or of this one.
pub(crate) fn is_counted(entries: Entries<'_>, at: usize, who: &Option<Key>) -> bool
    requires { at < length (entries_in entries) }
    ensures { result ≡ counts who.now (entry_at (entries_in entries.entry) at).item }
{
    let record = entries.record(at);
    is_login(record.event())
        && match who {
            Some(user) => record.user_key() == *user,
            None => true,
        }
}

/// Whether an event ends every stay of its host.
pub(crate) fn ends_every(event: Event) -> bool
    ensures { result ≡ ends_every_stay event }
{
    matches!(event, Event::Boot | Event::Down)
}

/// Whether an event ends the login on its line, and no other stay.
pub(crate) fn ends_line(event: Event) -> bool
    ensures { result ≡ ends_line_stay event }
{
    matches!(event, Event::Login | Event::Logout)
}

/// A recorded start by the clock that moved so many seconds since then.
pub(crate) fn begin_of(start: i32, moved: i64) -> i32
    requires low { neg_ℤ (pos (2 ^ 62)) ≤ℤ moved }
    requires high { moved ≤ℤ pos (2 ^ 62) }
    ensures { result ≡ stays.clamped (start +ℤ moved) }
{
    (i64::from(start) + moved).clamp(i64::from(i32::MIN), i64::from(i32::MAX)) as i32
}

/// The length of a stay in seconds.
pub(crate) fn seconds_between(begin: i32, end_time: i32) -> u64
    ensures value { result ≡ seconds_between begin end_time }
    ensures fits { result < 2 ^ 32 }
{
    (i64::from(end_time) - i64::from(begin)).max(0) as u64
}
