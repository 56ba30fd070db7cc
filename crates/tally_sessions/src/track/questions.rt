//! What the track of a host answers.
ghost use Rattle.std.specs.Prelude.{◌≡◌, ◌≤◌, ◌<◌, ◌+◌, ◌*◌, ◌^◌, ◌++◌, [], ◌∷◌, All, IfOk, None, OnOk, filter, if◌then◌else◌, length, reverse, slice_index_or, take, unwrap_or, vec_len};
ghost use Rattle.tally_sessions.specs.Choice.{is_shown};
ghost use Rattle.tally_sessions.specs.Hosts.{of_host};
ghost use Rattle.tally_sessions.specs.Lent.{entries_in};
ghost use Rattle.tally_sessions.specs.inside.Totals.{seconds_of};
ghost use Rattle.tally_sessions.specs.Totals.{stays_of};
ghost use Rattle.tally_sessions.specs.inside.Track as spec;

use crate::chosen::is_shown;
use crate::entries::Entries;
use crate::entry::Stay;
use crate::sessions::ENTRY_LIMIT;
use crate::track::Track;
use crate::track::ending::{Ending, TrackedStay, still};
use crate::track::rules::{is_boot, is_counted};
use std::alloc::{AllocError, Global};
use tally_records::{Key, List, LoginChoice, LoginRecord, Memory};

/// For how many of so many stays room is made at first: where some may be left out, for none.
fn room_for(choice: &LoginChoice, count: usize) -> usize
    ensures { result ≤ count }
{
    if choice.is_every() { count } else { 0 }
}

/// Adds a stay at the end, where it is shown.
fn push_shown(
    found: &mut Vec<Stay>,
    choice: &LoginChoice,
    until: Option<i32>,
    stay: Stay,
) -> Result<(), AllocError>
    ensures { OnOk result (found.new.items ≡ found.old.items ++ (if is_shown choice.now until stay then stay ∷ [] else [])) }
{
    if is_shown(choice, until, &stay) {
        found.push(stay)?;
    }
    Ok(())
}

impl Track {
    /// Up to when pending stays are counted: a moment, or else the time of the last record.
    pub(crate) fn time_now(&self, until: Option<i32>) -> i32
        ensures { result ≡ unwrap_or until self.now.last }
    {
        until.unwrap_or(self.last)
    }

    /// The end of a stay as it stands at a time.
    pub(crate) fn ending(&self, entries: Entries<'_>, stay: &TrackedStay, time: i32) -> Ending
        requires placed { stay.now.entry < length (entries_in entries) }
        requires before { spec.IsWithin ENTRY_LIMIT stay.now.clock_at }
        requires now { spec.IsWithin ENTRY_LIMIT self.now.clock }
        ensures value { result ≡ spec.ending_now (entries_in entries.entry) self.now.clock time stay.now }
        ensures fits { spec.length_of result < 2 ^ 32 }
    {
        match stay.ended.get() {
            Some(ended) => ended,
            None => {
                let start = entries.record(stay.entry as usize).time();
                still(start, self.clock - stay.clock_at, time)
            }
        }
    }

    /// A stay as it stands at a time.
    fn stay(&self, host: u32, entries: Entries<'_>, i: usize, time: i32) -> Stay
        requires i_in { i < vec_len self.now.stays }
        requires few { length (entries_in entries) ≤ ENTRY_LIMIT }
        requires track { spec.IsTrack host (entries_in entries) (length (entries_in entries)) self.now }
        ensures value { result ≡ spec.stay_now host (entries_in entries.entry) self.now.clock time (spec.stay_at self.now.stays.items i) }
        ensures fits { result.length < 2 ^ 32 }
    {
        let stay = &self.stays[i];
        let record = entries.record(stay.entry as usize);
        let LoginRecord {
            kind: _,
            line,
            user,
            remote,
            time: start,
        } = record.whole();
        let ending = self.ending(entries, stay, time);
        Stay {
            host,
            is_boot: is_boot(record.event()),
            user,
            line,
            remote,
            start,
            begin: ending.begin,
            end: ending.end,
            end_time: ending.end_time,
            length: u64::from(ending.length()),
        }
    }

    /// Writes a stay as it stands at a time over another: no large value is moved.
    fn put_stay(&self, host: u32, entries: Entries<'_>, i: usize, time: i32, found: &mut Stay)
        requires i_in { i < vec_len self.now.stays }
        requires few { length (entries_in entries) ≤ ENTRY_LIMIT }
        requires track { spec.IsTrack host (entries_in entries) (length (entries_in entries)) self.now }
        ensures value { found.new ≡ spec.stay_now host (entries_in entries.entry) self.now.clock time (spec.stay_at self.now.stays.items i) }
        ensures fits { found.new.length < 2 ^ 32 }
    {
        let stay = &self.stays[i];
        let record = entries.record(stay.entry as usize);
        let ending = self.ending(entries, stay, time);
        record.put_texts(&mut found.line, &mut found.user, &mut found.remote);
        found.host = host;
        found.is_boot = is_boot(record.event());
        found.start = record.time();
        found.begin = ending.begin;
        found.end = ending.end;
        found.end_time = ending.end_time;
        found.length = u64::from(ending.length());
    }

    /// The chosen stays of the host, that of the latest record first, and no more than the limit.
    pub(crate) fn latest(
        &self,
        alloc: Global,
        host: u32,
        entries: Entries<'_>,
        limit: usize,
        choice: &LoginChoice,
        until: Option<i32>,
    ) -> Result<List<Stay>, Memory>
        requires few { length (entries_in entries) ≤ ENTRY_LIMIT }
        requires track { spec.IsTrack host (entries_in entries) (length (entries_in entries)) self.now }
        ensures value { IfOk result (λ found. found ≡ take limit (reverse (filter (is_shown choice.now until) (stays_of host (entries_in entries.entry) until)))) }
        ensures lengths { IfOk result (All (λ s. s.length < 2 ^ 32)) }
    {
        let time = self.time_now(until);
        let mut i = self.stays.len();
        let mut found = Vec::with_capacity(alloc, room_for(choice, limit.min(i)))?;
        while i > 0 && found.len() < limit {
            i -= 1;
            let stay = self.stay(host, entries, i, time);
            push_shown(&mut found, choice, until, stay)?;
        }
        List::from_vec(alloc, found)
    }

    /// The stay of the host at a place, counted from that of the latest record back.
    pub(crate) fn latest_at(
        &self,
        host: u32,
        entries: Entries<'_>,
        place: usize,
        until: Option<i32>,
    ) -> Stay
        requires place { place < vec_len self.now.stays }
        requires few { length (entries_in entries) ≤ ENTRY_LIMIT }
        requires track { spec.IsTrack host (entries_in entries) (length (entries_in entries)) self.now }
        ensures value { result ≡ slice_index_or (reverse (stays_of host (entries_in entries.entry) until)) place result }
        ensures fits { result.length < 2 ^ 32 }
    {
        let time = self.time_now(until);
        self.stay(host, entries, self.stays.len() - place - 1, time)
    }

    /// Writes the stay of the host at a place over another, counted as `latest_at` does.
    pub(crate) fn put_latest_at(
        &self,
        host: u32,
        entries: Entries<'_>,
        place: usize,
        until: Option<i32>,
        found: &mut Stay,
    )
        requires place { place < vec_len self.now.stays }
        requires few { length (entries_in entries) ≤ ENTRY_LIMIT }
        requires track { spec.IsTrack host (entries_in entries) (length (entries_in entries)) self.now }
        ensures value { found.new ≡ slice_index_or (reverse (stays_of host (entries_in entries.entry) until)) place found.new }
        ensures fits { found.new.length < 2 ^ 32 }
    {
        let time = self.time_now(until);
        self.put_stay(host, entries, self.stays.len() - place - 1, time, found);
    }

    /// The place of the stay that a line leads to, by the line's place.
    pub(crate) fn on_line(&self, host: u32, entries: Entries<'_>, k: usize) -> usize
        requires k_in { k < length self.now.lines.entries }
        requires track { spec.IsTrack host (entries_in entries) (length (entries_in entries)) self.now }
        ensures value { result ≡ (spec.line_at self.now.lines.entries k).1 }
        ensures within { result < vec_len self.now.stays }
    {
        self.lines.number_at(k) as usize
    }

    /// The length at a time of the stay at a place, where it is a pending session of those.
    pub(crate) fn pending_length(
        &self,
        host: u32,
        entries: Entries<'_>,
        i: usize,
        time: i32,
        who: &Option<Key>,
    ) -> u64
        requires i_in { i < vec_len self.now.stays }
        requires few { length (entries_in entries) ≤ ENTRY_LIMIT }
        requires track { spec.IsTrack host (entries_in entries) (length (entries_in entries)) self.now }
        ensures { result ≡ spec.pending_length who.now (entries_in entries.entry) self.now.clock time (spec.stay_at self.now.stays.items i) }
    {
        let stay = &self.stays[i];
        if stay.ended.is_some() || !is_counted(entries, stay.entry as usize, who) {
            return 0;
        }
        u64::from(self.ending(entries, stay, time).length())
    }

    /// The lengths of the host's sessions, of all users or of one. Each that is pending is the latest
    /// login on its line.
    pub(crate) fn seconds(
        &self,
        host: u32,
        entries: Entries<'_>,
        who: &Option<Key>,
        until: Option<i32>,
    ) -> u64
        requires few { length (entries_in entries) ≤ ENTRY_LIMIT }
        requires track { spec.IsTrack host (entries_in entries) (length (entries_in entries)) self.now }
        ensures value { result ≡ seconds_of who.now (stays_of host (entries_in entries.entry) until) }
        ensures fits { result ≤ 4294967295 * length (of_host host (entries_in entries.entry)) }
        ensures all_fit { seconds_of None (stays_of host (entries_in entries.entry) until) ≤ 4294967295 * length (of_host host (entries_in entries.entry)) }
    {
        let time = self.time_now(until);
        let mut seconds = self.sums.of(who);
        for k in 0..self.lines.len() {
            let i = self.on_line(host, entries, k);
            seconds += self.pending_length(host, entries, i, time, who);
        }
        seconds
    }
}
