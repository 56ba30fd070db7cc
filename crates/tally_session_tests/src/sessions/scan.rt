//! A slow program for the same stays: from each start it looks ahead over all later entries.
ghost use Rattle.std.specs.Prelude.{◌<◌, length};

use std::alloc::Global;
use std::process::Abort;
use tally_records::{Event, LoginRecord, event};
use tally_sessions::{End, Entry, Stay};

/// Whether a later record of the host ends the stay of a record.
fn ends(start: &LoginRecord, later: &LoginRecord) -> bool {
    match (event(start), event(later)) {
        (Event::Login, Event::Login | Event::Logout) => start.line == later.line,
        (Event::Login | Event::Boot, Event::Down | Event::Boot) => true,
        _ => false,
    }
}

fn end_at(event: Event) -> End {
    match event {
        Event::Logout => End::Logout,
        Event::Login => End::Next,
        Event::Down => End::Down,
        Event::Boot => End::Crash,
        _ => End::Still,
    }
}

/// By how many seconds an entry moves the clock, with the entries before it.
fn shift(before: &[Entry], entry: &Entry) -> i64 {
    if event(&entry.item) != Event::NewTime {
        return 0;
    }
    for earlier in before.iter().rev() {
        if earlier.host == entry.host {
            match event(&earlier.item) {
                Event::OldTime => {
                    return i64::from(entry.item.time) - i64::from(earlier.item.time);
                }
                Event::NewTime => return 0,
                _ => {}
            }
        }
    }
    0
}

/// The stay that the entry at a place starts, counted until a moment while nothing has ended it.
fn stay_at(entries: &[Entry], at: usize, until: Option<i32>) -> Stay
    requires { at < length entries.now }
{
    let start = &entries[at];
    let mut moved = 0i64;
    let mut end = End::Still;
    let mut end_time = start.item.time;
    for k in at + 1..entries.len() {
        let later = &entries[k];
        if later.host == start.host && end == End::Still {
            moved = moved.saturating_add(shift(&entries[..k], later));
            end_time = later.item.time;
            if ends(&start.item, &later.item) {
                end = end_at(event(&later.item));
            }
        }
    }
    if let (End::Still, Some(moment)) = (end, until) {
        end_time = moment;
    }
    let highest = i64::from(i32::MAX);
    let lowest = i64::from(i32::MIN);
    let begin = i64::from(start.item.time)
        .saturating_add(moved)
        .clamp(lowest, highest);
    Stay {
        host: start.host,
        is_boot: event(&start.item) == Event::Boot,
        user: start.item.user,
        line: start.item.line,
        remote: start.item.remote,
        start: start.item.time,
        begin: i32::try_from(begin).unwrap_or(0),
        end,
        end_time,
        length: u64::try_from(i64::from(end_time).saturating_sub(begin)).unwrap_or(0),
    }
}

/// The stays of a host, that of the latest record first.
pub(crate) fn stays(
    rt: &impl Abort,
    alloc: Global,
    entries: &[Entry],
    host: u32,
    until: Option<i32>,
) -> Vec<Stay> {
    let mut found = Vec::new(alloc);
    for i in 0..entries.len() {
        let at = entries.len() - 1 - i;
        if entries[at].host == host
            && matches!(event(&entries[at].item), Event::Login | Event::Boot)
        {
            found.push(stay_at(entries, at, until)).expect(rt, "memory");
        }
    }
    found
}

/// The lengths of the sessions of all hosts.
pub(crate) fn total(entries: &[Entry], until: Option<i32>) -> u64 {
    let mut total = 0u64;
    for (at, entry) in entries.iter().enumerate() {
        if event(&entry.item) == Event::Login {
            total = total.saturating_add(stay_at(entries, at, until).length);
        }
    }
    total
}
