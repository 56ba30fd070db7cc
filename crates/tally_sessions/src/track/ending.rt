//! Stays that have started, and what ends them.
ghost use Rattle.std.specs.Prelude.{◌≡◌, ◌≤◌, ◌<◌, ◌+◌, ◌^◌, ℕ, List, Option, true, bytes_eq, if◌then◌else◌, length, map, slice_set, pos, neg_ℤ, ◌≤ℤ◌};
ghost use Rattle.tally_records.specs.Event.{event_of};
ghost use Rattle.tally_records.specs.declared.login.Event.TheVariants.{Login};
ghost use Rattle.tally_sessions.specs.inside.Entries.{IsRecordOf, entry_at, record_in};
ghost use Rattle.tally_sessions.specs.Stays.{ends_stay};
ghost use Rattle.std.specs.Map.{keys_of, lookup};
ghost use Rattle.tally_sessions.specs.inside.Numbers.{StandsAt};
ghost use Rattle.tally_sessions.specs.inside.Track as spec;

use crate::entries::list::EntryList;
use crate::entries::stored::StoredRecord;
use crate::entry::End;
use crate::sessions::ENTRY_LIMIT;
use crate::track::ended::EndedSums;
use crate::track::kept_ending::KeptEnding;
use crate::track::rules::{begin_of, end_at, ends_every, ends_line, is_login, seconds_between};
use tally_records::Event;

/// The end of a stay, and what follows from it.
#[derive(Clone, Copy)]
pub(crate) struct Ending {
    pub(crate) begin: i32,
    pub(crate) end: End,
    pub(crate) end_time: i32,
}

impl Ending {
    /// The seconds between the start and the end, and 0 where the end is earlier.
    pub(crate) fn length(&self) -> u32
        ensures { result ≡ spec.length_of self.now }
    {
        seconds_between(self.begin, self.end_time) as u32
    }
}

/// A stay that has started.
#[derive(Clone, Copy)]
pub(crate) struct TrackedStay {
    /// By how much the clock of its host had moved at its start.
    pub(crate) clock_at: i64,
    pub(crate) ended: KeptEnding,
    /// The place of the entry that started it.
    pub(crate) entry: u32,
    /// Where the sum of a session's user stands; of a running time no place.
    pub(crate) user: u32,
    /// When that entry's record was written.
    pub(crate) start: i32,
}

/// The place of no user.
pub(crate) const NO_USER: u32 = u32::MAX;

/// The end of a stay at an event, where the clock moved so far between its start and this.
fn ending_at(start: i32, moved: i64, by_time: i32, event: Event) -> Ending
    requires low { neg_ℤ (pos (2 ^ 62)) ≤ℤ moved }
    requires high { moved ≤ℤ pos (2 ^ 62) }
    ensures value { result ≡ spec.ending_at start moved by_time event }
    ensures fits { spec.length_of result < 2 ^ 32 }
{
    let begin = begin_of(start, moved);
    Ending {
        begin,
        end: end_at(event),
        end_time: by_time,
    }
}

/// The end of a pending stay as it stands at a time, where the clock moved so far since its start.
pub(crate) fn still(start: i32, moved: i64, time: i32) -> Ending
    requires low { neg_ℤ (pos (2 ^ 62)) ≤ℤ moved }
    requires high { moved ≤ℤ pos (2 ^ 62) }
    ensures value { result ≡ spec.still_at start moved time }
    ensures fits { spec.length_of result < 2 ^ 32 }
{
    let begin = begin_of(start, moved);
    Ending {
        begin,
        end: End::Still,
        end_time: time,
    }
}

/// Counts the length of an ended stay that a record started, if it is a login.
fn count(sums: &mut EndedSums, start: StoredRecord<'_>, user: u32, seconds: u32)
    requires entered { event_of (record_in start) ≡ Login → StandsAt sums.old.users user (record_in start).user }
    requires room { (who : Option (List ℕ)) → spec.sum_of sums.old who < 2 ^ 63 }
    ensures sums { (who : Option (List ℕ)) → spec.sum_of sums.new who ≡ spec.sum_of sums.old who + (if spec.counts who (record_in start.entry) then seconds else 0) }
    ensures kept { keys_of sums.new.users.entries ≡ keys_of sums.old.users.entries }
    ensures spare { sums.new.users.spare ≡ sums.old.users.spare }
{
    if is_login(start.event()) {
        sums.add(user, seconds);
    }
}

/// Ends the stay at a place, if it is pending.
fn end_stay(
    stays: &mut [TrackedStay],
    sums: &mut EndedSums,
    i: usize,
    entries: &EntryList,
    clock: i64,
    stored: StoredRecord<'_>,
    event: Event,
)
    requires i_in { i < length stays.old }
    requires few { length stays.old ≤ ENTRY_LIMIT }
    requires placed { (spec.stay_at stays.old i).entry < length entries.now }
    requires of { IsRecordOf entries.now stored }
    requires before { spec.IsWithin ENTRY_LIMIT (spec.stay_at stays.old i).clock_at }
    requires now { spec.IsWithin ENTRY_LIMIT clock }
    requires told { event ≡ event_of (entry_at entries.now stored.at).item }
    requires ends { ends_stay (spec.start_of entries.now (spec.stay_at stays.old i)) (entry_at entries.now stored.at).item ≡ true }
    requires sums { spec.HasSums entries.now sums.old stays.old }
    ensures stays { stays.new ≡ slice_set stays.old i (spec.after entries.now clock (entry_at entries.now stored.entry.at).item (spec.stay_at stays.old i)) }
    ensures sums { spec.HasSums entries.now sums.new stays.new }
    ensures spare { sums.new.users.spare ≡ sums.old.users.spare }
{
    let stay = &stays[i];
    if stay.ended.is_some() {
        return;
    }
    let start = entries.record(stay.entry as usize);
    let ending = ending_at(start.time(), clock - stay.clock_at, stored.time(), event);
    count(sums, start, stay.user, ending.length());
    stays[i].ended = KeptEnding::of(ending);
}

/// The same of a login's stay, which knows when it started, by a record of this time: nothing is looked up.
fn end_login(
    stays: &mut [TrackedStay],
    sums: &mut EndedSums,
    i: usize,
    entries: &EntryList,
    clock: i64,
    stored: StoredRecord<'_>,
    event: Event,
    time: i32,
)
    requires i_in { i < length stays.old }
    requires few { length stays.old ≤ ENTRY_LIMIT }
    requires before { spec.IsWithin ENTRY_LIMIT (spec.stay_at stays.old i).clock_at }
    requires now { spec.IsWithin ENTRY_LIMIT clock }
    requires told { event ≡ event_of (entry_at entries.now stored.at).item }
    requires timed { time ≡ (entry_at entries.now stored.at).item.time }
    requires ends { ends_stay (spec.start_of entries.now (spec.stay_at stays.old i)) (entry_at entries.now stored.at).item ≡ true }
    requires login { event_of (spec.start_of entries.now (spec.stay_at stays.old i)) ≡ Login }
    requires started { (spec.stay_at stays.old i).start ≡ (spec.start_of entries.now (spec.stay_at stays.old i)).time }
    requires sums { spec.HasSums entries.now sums.old stays.old }
    ensures stays { stays.new ≡ slice_set stays.old i (spec.after entries.now clock (entry_at entries.now stored.entry.at).item (spec.stay_at stays.old i)) }
    ensures sums { spec.HasSums entries.now sums.new stays.new }
    ensures spare { sums.new.users.spare ≡ sums.old.users.spare }
{
    let stay = &stays[i];
    if stay.ended.is_some() {
        return;
    }
    let ending = ending_at(stay.start, clock - stay.clock_at, time, event);
    sums.add(stay.user, ending.length());
    stays[i].ended = KeptEnding::of(ending);
}

/// Ends each pending stay from a place on. Those before it have ended.
fn sweep(
    stays: &mut [TrackedStay],
    sums: &mut EndedSums,
    from: usize,
    entries: &EntryList,
    clock: i64,
    stored: StoredRecord<'_>,
    event: Event,
)
    requires from_in { from ≤ length stays.old }
    requires few { length stays.old ≤ ENTRY_LIMIT }
    requires placed { spec.ArePlaced (length entries.now) stays.old }
    requires of { IsRecordOf entries.now stored }
    requires now { spec.IsWithin ENTRY_LIMIT clock }
    requires told { event ≡ event_of (entry_at entries.now stored.at).item }
    requires ends { (k : ℕ) → k < length stays.old → ends_stay (spec.start_of entries.now (spec.stay_at stays.old k)) (entry_at entries.now stored.at).item ≡ true }
    requires ended { (k : ℕ) → k < from → spec.after entries.now clock (entry_at entries.now stored.at).item (spec.stay_at stays.old k) ≡ spec.stay_at stays.old k }
    requires sums { spec.HasSums entries.now sums.old stays.old }
    ensures stays { stays.new ≡ map (spec.after entries.now clock (entry_at entries.now stored.entry.at).item) stays.old }
    ensures sums { spec.HasSums entries.now sums.new stays.new }
    ensures spare { sums.new.users.spare ≡ sums.old.users.spare }
{
    for i in from..stays.len() {
        end_stay(stays, sums, i, entries, clock, stored, event);
    }
}

/// Ends the pending stays that the entry at a place ends. The latest login on its line is known, where it can end it.
pub(crate) fn end_pending(
    stays: &mut [TrackedStay],
    sums: &mut EndedSums,
    swept: usize,
    latest: Option<u64>,
    entries: &EntryList,
    stored: StoredRecord<'_>,
    clock: i64,
    event: Event,
    time: i32,
)
    requires swept_in { swept ≤ length stays.old }
    requires of { IsRecordOf entries.now stored }
    requires few { length entries.now ≤ ENTRY_LIMIT }
    requires few_stays { length stays.old ≤ ENTRY_LIMIT }
    requires tracked { (lines : List (List ℕ × ℕ)) × spec.AreTracked entries.now stored.at lines swept stays.old
        × (spec.ends_line_stay event ≡ true → latest ≡ lookup (bytes_eq (entry_at entries.now stored.at).item.line) lines) }
    requires now { spec.IsWithin ENTRY_LIMIT clock }
    requires told { event ≡ event_of (entry_at entries.now stored.at).item }
    requires timed { time ≡ (entry_at entries.now stored.at).item.time }
    requires sums { spec.HasSums entries.now sums.old stays.old }
    ensures stays { stays.new ≡ map (spec.after entries.now clock (entry_at entries.now stored.entry.at).item) stays.old }
    ensures sums { spec.HasSums entries.now sums.new stays.new }
    ensures spare { sums.new.users.spare ≡ sums.old.users.spare }
{
    if ends_every(event) {
        sweep(stays, sums, swept, entries, clock, stored, event);
    } else if ends_line(event) {
        if let Some(i) = latest {
            end_login(stays, sums, i as usize, entries, clock, stored, event, time);
        }
    }
}
