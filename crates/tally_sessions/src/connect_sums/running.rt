//! A count of sessions that goes forward over the records of a host.
ghost use Rattle.std.specs.Prelude.{◌≡◌, ◌≤◌, ◌<◌, ◌+◌, ◌-◌, ◌*◌, ◌^◌, [], ◌+ℤ◌, ℕ, List as Items, Option, None, OnOk, Some, length, slice_get, unwrap_or};
ghost use Rattle.std.specs.Cmp.Lexicographic.{slice_cmp};
ghost use Rattle.std.specs.Ordering.{nat_cmp};
ghost use Rattle.tally_records.specs.Event.{event_of};
ghost use Rattle.tally_records.specs.declared.login.LoginRecord.{LoginRecord};
ghost use Rattle.tally_sessions.specs.Clock.{shift_at};
ghost use Rattle.tally_sessions.specs.ConnectSums.{CountsMore, IsAbout, IsCountOf};
ghost use Rattle.tally_sessions.specs.Opens.{Open};
ghost use Rattle.tally_sessions.specs.Stays.{stays_from};
ghost use Rattle.tally_sessions.specs.inside.Ended.{Asked, measured};
ghost use Rattle.tally_sessions.specs.inside.Running.{HasPlaces, IsRunning, counted_in};
ghost use Rattle.tally_sessions.specs.inside.Slots.{weight_in};
ghost use Rattle.tally_sessions.specs.inside.Steps.{IsStep, leaving, opening, staying};
ghost use Rattle.tally_sessions.specs.inside.Sums.{sum_at};
ghost use Rattle.tally_sessions.specs.inside.Totals.{seconds_of};
ghost use Rattle.tally_sessions.specs.inside.Track.{IsWithin};
ghost use Rattle.tally_sessions.specs.inside.Tracking.{pending_at};

use crate::connect::name_key::NameKey;
use crate::connect_sums::ended::Ended;
use crate::connect_sums::slot::Slot;
use crate::sessions::ENTRY_LIMIT;
use crate::track::name_table::NameTable;
use crate::track::rules::{pending_after, shift_of};
use std::alloc::Global;
use std::collections::BTreeMap;
use std::hash::RandomState;
use tally_records::{Event, Key, Logins, Memory};

/// What is counted of the records so far.
#[derive(Drop)]
pub(crate) struct Running {
    /// The lines on which there was a login, each with its slot at the same place.
    pub(crate) lines: NameTable,
    pub(crate) slots: Vec<Slot>,
    /// The places of the lines whose sessions may be open, each once.
    pub(crate) listed: Vec<u32>,
    pub(crate) ended: Ended,
    pub(crate) count: usize,
    pub(crate) clock: i64,
    /// The old time that waits for its new one.
    pub(crate) old_time: Option<i32>,
    pub(crate) last: i32,
}

impl Running {
    /// Goes on by a record in what is kept of the times.
    fn tick(&mut self, time: i32, event: Event)
        requires moved { IsWithin ENTRY_LIMIT self.old.clock }
        ensures clock { self.new.clock ≡ self.old.clock +ℤ shift_at event self.old.old_time time }
        ensures moved { (n : ℕ) → IsWithin n self.old.clock → IsWithin (n + 1) self.new.clock }
        ensures old_time { self.new.old_time ≡ pending_at event time self.old.old_time }
        ensures last { self.new.last ≡ time }
        ensures rest { self.new ≡ record self.old { clock = self.new.clock; old_time = self.new.old_time; last = self.new.last } }
    {
        self.clock += shift_of(self.old_time, event, time);
        self.old_time = pending_after(self.old_time, event, time);
        self.last = time;
    }

    /// Goes on by a record's event. The clock has moved by it.
    fn follow(&mut self, records: &Logins, at: usize, event: Event, time: i32)
        requires at { at < length records.now }
        requires told { (x : LoginRecord) → slice_get records.now at ≡ Some x → (event ≡ event_of x) × (time ≡ x.time) }
        requires running { IsRunning self.old.count self.old }
        requires now { IsWithin (self.old.count + 1) self.old.clock }
        requires few { self.old.count < ENTRY_LIMIT }
        requires room { HasPlaces 1 self.old }
        ensures opens { (x : LoginRecord) → slice_get records.now at ≡ Some x → (weight : Open → ℕ) → weight_in weight self.new.slots.items ≡ weight_in (staying x weight) self.old.slots.items + opening x self.old.clock weight }
        ensures sums { (x : LoginRecord) → slice_get records.now at ≡ Some x → (asked : Asked) → measured self.new.ended asked ≡ measured self.old.ended asked + weight_in (leaving self.old.ended.keeps_sessions asked self.old.clock x) self.old.slots.items }
        ensures keeps { self.new.ended.keeps_sessions ≡ self.old.ended.keeps_sessions }
        ensures running { IsRunning (self.old.count + 1) self.new }
        ensures room_left { (k : ℕ) → HasPlaces (k + 1) self.old → HasPlaces k self.new }
        ensures rest { self.new ≡ record self.old { lines = self.new.lines; slots = self.new.slots; listed = self.new.listed; ended = self.new.ended } }
    {
        match event {
            Event::Login => {
                let line = records.line_key(at).unwrap();
                let user = records.user_key(at).unwrap();
                self.log_in(line, user, time);
            }
            Event::Logout => self.log_out(records.line_key(at).unwrap(), time),
            Event::Boot | Event::Down => self.end_all(time),
            Event::OldTime | Event::NewTime | Event::Nothing => {}
        }
    }

    /// Goes on by a record.
    fn advance(&mut self, records: &Logins, at: usize)
        requires at { at < length records.now }
        requires running { IsRunning self.old.count self.old }
        requires moved { IsWithin self.old.count self.old.clock }
        requires few { self.old.count < ENTRY_LIMIT }
        requires room { HasPlaces 1 self.old }
        ensures step { (x : LoginRecord) → slice_get records.now at ≡ Some x → IsStep (counted_in self.old) (counted_in self.new) x }
        ensures running { IsRunning self.new.count self.new }
        ensures moved { IsWithin self.new.count self.new.clock }
        ensures count { self.new.count ≡ self.old.count + 1 }
        ensures keeps { self.new.ended.keeps_sessions ≡ self.old.ended.keeps_sessions }
        ensures room_left { (k : ℕ) → HasPlaces (k + 1) self.old → HasPlaces k self.new }
    {
        let event = records.event(at).unwrap();
        let time = records.time(at).unwrap();
        self.tick(time, event);
        self.follow(records, at, event, time);
        self.count += 1;
    }

    /// Goes on by all of the records.
    pub(crate) fn go_over(&mut self, records: &Logins)
        requires running { IsRunning self.old.count self.old }
        requires moved { IsWithin self.old.count self.old.clock }
        requires few { self.old.count + length records.now ≤ ENTRY_LIMIT }
        requires room { HasPlaces (length records.now) self.old }
        ensures counted { CountsMore (counted_in self.old) (counted_in self.new) records.now }
        ensures running { IsRunning self.new.count self.new }
        ensures moved { IsWithin self.new.count self.new.clock }
        ensures count { self.new.count ≡ self.old.count + length records.now }
        ensures keeps { self.new.ended.keeps_sessions ≡ self.old.ended.keeps_sessions }
    {
        for at in 0..records.len() {
            self.advance(records, at);
        }
    }

    /// Makes room for so many records more. Nothing that is counted changes.
    pub(crate) fn reserve(&mut self, count: usize) -> Result<(), Memory>
        requires running { IsRunning self.old.count self.old }
        requires few { self.old.count + count ≤ ENTRY_LIMIT }
        ensures same { counted_in self.new ≡ counted_in self.old }
        ensures running { IsRunning self.new.count self.new }
        ensures room { OnOk result (HasPlaces count self.new) }
    {
        self.lines.reserve(count)?;
        self.slots.reserve(count)?;
        self.listed.reserve(count)?;
        self.ended.reserve(self.slots.len() + count)?;
        Ok(())
    }

    /// No record is counted yet. The tables of names are hashed by the keys. Sessions that end are kept, or only summed.
    pub(crate) fn new(alloc: Global, keys: RandomState, keeps_sessions: bool) -> Running
        ensures running { IsRunning 0 result }
        ensures moved { IsWithin 0 result.clock }
        ensures counted { IsCountOf (counted_in result) [] }
        ensures keeps { result.ended.keeps_sessions ≡ keeps_sessions }
    {
        Running {
            lines: NameTable::new(alloc, keys),
            slots: Vec::new(alloc),
            listed: Vec::new(alloc),
            ended: Ended::new(alloc, keys, keeps_sessions),
            count: 0,
            clock: 0,
            old_time: None,
            last: 0,
        }
    }

    /// The seconds of the sessions of all users, or of one. Those that are open are counted up to a moment, or else to the last record.
    pub(crate) fn seconds(&self, who: &Option<Key>, until: Option<i32>) -> u64
        requires running { IsRunning self.now.count self.now }
        requires moved { IsWithin self.now.count self.now.clock }
        requires few { self.now.count ≤ ENTRY_LIMIT }
        ensures value { IsAbout (counted_in self.now) (λ rs. seconds_of who.now (stays_from 0 [] rs until)) result }
        ensures each { result ≤ (2 ^ 32 - 1) * self.now.count }
    {
        let time = until.unwrap_or(self.last);
        let mut seconds = self.ended.sums.of(who);
        for k in 0..self.slots.len() {
            seconds += self.slots[k].seconds_of(who, self.clock, time);
        }
        seconds
    }

    /// Adds the seconds of each user's sessions to its sum, counted as `seconds` counts them.
    pub(crate) fn add_users(
        &self,
        sums: &mut BTreeMap<NameKey, u64>,
        until: Option<i32>,
    ) -> Result<(), Memory>
        requires running { IsRunning self.now.count self.now }
        requires moved { IsWithin self.now.count self.now.clock }
        requires few { self.now.count ≤ ENTRY_LIMIT }
        requires room { (user : Items ℕ) → sum_at (slice_cmp nat_cmp) sums.old.entries user < 2 ^ 63 }
        ensures value { OnOk result ((user : Items ℕ) (rs : Items LoginRecord) → IsCountOf (counted_in self.now) rs → sum_at (slice_cmp nat_cmp) sums.new.entries user
            ≡ sum_at (slice_cmp nat_cmp) sums.old.entries user + seconds_of (Some user) (stays_from 0 [] rs until)) }
        ensures small { OnOk result ((user : Items ℕ) → sum_at (slice_cmp nat_cmp) sums.new.entries user ≤ sum_at (slice_cmp nat_cmp) sums.old.entries user + (2 ^ 32 - 1) * self.now.count) }
    {
        let time = until.unwrap_or(self.last);
        self.ended.sums.add_to(sums)?;
        for k in 0..self.slots.len() {
            self.slots[k].add_seconds_to(sums, self.clock, time)?;
        }
        Ok(())
    }
}
