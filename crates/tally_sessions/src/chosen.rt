//! Which stays a choice has, and what a period has of a session.
ghost use Rattle.std.specs.List.{list_any};
ghost use Rattle.std.specs.Prelude.{◌≡◌, ◌<◌, ◌^◌};
ghost use Rattle.tally_records.specs.Choice.{is_among, is_name};
ghost use Rattle.tally_sessions.specs.Choice as choices;
ghost use Rattle.tally_sessions.specs.inside.Chosen.{has_names, has_part_of, is_boot_named, part_of};
ghost use Rattle.tally_sessions.specs.inside.Entries.{record_in};
ghost use Rattle.tally_sessions.specs.Stays.{clamped};

use crate::entries::stored::StoredRecord;
use crate::entry::{End, Stay};
use crate::sums::Part;
use crate::track::ending::Ending;
use crate::track::rules::seconds_between;
use tally_records::{Key, LoginChoice, Name, Names, Period, is_among, names_nothing};

/// The user of a running time.
const REBOOT: Name = *b"reboot\0\0\0\0\0\0\0\0\0\0\0\0\0\0\0\0\0\0\0\0\0\0\0\0\0\0";

/// Whether a stay is of a chosen user.
fn is_of_user(choice: &LoginChoice, stay: &Stay) -> bool
    ensures { result ≡ choices.is_of_user choice.now stay.now }
{
    if stay.is_boot {
        is_among(&choice.users, &REBOOT)
    } else {
        is_among(&choice.users, &stay.user)
    }
}

/// Whether a stay is on a chosen line.
fn is_on_line(choice: &LoginChoice, stay: &Stay) -> bool
    ensures { result ≡ choices.is_on_line choice.now stay.now }
{
    if stay.is_boot {
        names_nothing(&choice.lines)
    } else {
        is_among(&choice.lines, &stay.line)
    }
}

/// When a stay is over, if it is.
fn end_in(until: Option<i32>, stay: &Stay) -> Option<i32>
    ensures { result ≡ choices.end_in until stay.now }
{
    match stay.end {
        End::Still if until.is_none() => None,
        _ => Some(stay.end_time),
    }
}

/// Whether a time is at an end or after it.
fn is_over(end: Option<i64>, time: i64) -> bool
    ensures { result ≡ choices.is_over end time }
{
    match end {
        Some(end) => end <= time,
        None => false,
    }
}

/// The later of a time and a beginning.
fn later(from: Option<i64>, time: i64) -> i64
    ensures { result ≡ choices.later from time }
{
    match from {
        Some(from) => time.max(from),
        None => time,
    }
}

/// Whether some second from a time on, before an end, is in a period; without such a second, whether the time is.
fn has_part(period: &Period, begin: i64, end: Option<i64>) -> bool
    ensures { result ≡ choices.has_part period.now begin end }
{
    if is_over(end, begin) {
        return period.has(begin);
    }
    let first = later(period.from, begin);
    !is_over(end, first) && !is_over(period.to, first)
}

/// Whether a running time is of a chosen user and on a chosen line.
pub(crate) fn is_boot_named(choice: &LoginChoice) -> bool
    ensures { result ≡ is_boot_named choice.now }
{
    is_among(&choice.users, &REBOOT) && names_nothing(&choice.lines)
}

/// Whether the stay that ends so has some part in the period.
pub(crate) fn has_part_of(choice: &LoginChoice, until: Option<i32>, ending: Ending) -> bool
    ensures { result ≡ has_part_of choice.now until ending }
{
    let end = match ending.end {
        End::Still if until.is_none() => None,
        _ => Some(ending.end_time),
    };
    has_part(&choice.period, i64::from(ending.begin), end.map(i64::from))
}

/// Whether a stay is shown.
pub(crate) fn is_shown(choice: &LoginChoice, until: Option<i32>, stay: &Stay) -> bool
    ensures { result ≡ choices.is_shown choice.now until stay.now }
{
    let end = end_in(until, stay);
    is_of_user(choice, stay)
        && is_on_line(choice, stay)
        && has_part(&choice.period, i64::from(stay.begin), end.map(i64::from))
}

/// Whether a choice names users or lines.
pub(crate) fn has_names(choice: &LoginChoice) -> bool
    ensures { result ≡ has_names choice.now }
{
    !(names_nothing(&choice.users) && names_nothing(&choice.lines))
}

/// Whether a place of a choice has this name, by words that are compared as they are stored.
fn is_key(wanted: &Key, place: &Option<Name>) -> bool
    ensures { result ≡ is_name wanted.now place.now }
{
    match place {
        Some(name) => Key::of(name) == *wanted,
        None => false,
    }
}

fn has_key(names: &Names, wanted: &Key) -> bool
    ensures { result ≡ list_any (is_name wanted.now) names.now }
{
    names.iter().any(|place| is_key(wanted, place))
}

/// Whether a record is of a chosen line.
pub(crate) fn is_record_on_line(choice: &LoginChoice, stored: StoredRecord<'_>) -> bool
    ensures { result ≡ is_among choice.now.lines (record_in stored.entry).line }
{
    names_nothing(&choice.lines) || has_key(&choice.lines, &stored.line_key())
}

/// A moment as a time that records can have.
fn clamped(time: i64) -> i32
    ensures { result ≡ clamped time }
{
    time.clamp(i64::from(i32::MIN), i64::from(i32::MAX)) as i32
}

/// When a period's part of a session that begins at a time begins.
pub(crate) fn begin_in(period: &Period, time: i32) -> i32
    ensures { result ≡ choices.begin_in period.now time }
{
    match period.from {
        Some(from) => time.max(clamped(from)),
        None => time,
    }
}

/// When a period's part of a session that ends at a time ends.
pub(crate) fn end_time_in(period: &Period, time: i32) -> i32
    ensures { result ≡ choices.end_time_in period.now time }
{
    match period.to {
        Some(to) => time.min(clamped(to)),
        None => time,
    }
}

/// What a period has of a session that ends so.
pub(crate) fn cut(period: &Period, ending: Ending) -> Part
    ensures { result ≡ part_of period.now ending }
{
    Part {
        begin: begin_in(period, ending.begin),
        end_time: end_time_in(period, ending.end_time),
    }
}

impl Stay {
    /// The seconds of it that a period has, none where what is left of it goes back.
    pub fn seconds_within(&self, period: &Period) -> u64
        ensures value { result ≡ choices.seconds_within period.now self.now }
        ensures fits { result < 2 ^ 32 }
    {
        seconds_between(
            begin_in(period, self.begin),
            end_time_in(period, self.end_time),
        )
    }
}
