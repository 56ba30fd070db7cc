//! The latest session on a line.
ghost use Rattle.std.specs.Prelude.{◌≡◌, ◌≤◌, ◌<◌, ◌+◌, ◌-◌, ◌*◌, ◌≤ℤ◌, ◌+ℤ◌, ◌-ℤ◌, ◌^◌, ℕ, List as Items, None, OnOk, if◌then◌else◌, neg_ℤ, pos, true};
ghost use Rattle.std.specs.Cmp.Lexicographic.{slice_cmp};
ghost use Rattle.std.specs.Ordering.{is_eq, nat_cmp};
ghost use Rattle.tally_sessions.specs.Opens.{seconds_at};
ghost use Rattle.tally_sessions.specs.Stays.{clamped};
ghost use Rattle.tally_sessions.specs.inside.Slots.{length_of, one, weight_at};
ghost use Rattle.tally_sessions.specs.inside.Sums.{sum_at};
ghost use Rattle.tally_sessions.specs.inside.Track.{IsWithin};

use crate::connect::name_key::NameKey;
use crate::sessions::ENTRY_LIMIT;
use crate::sums::{Session, add_for};
use crate::track::rules::{begin_of, seconds_between};
use std::collections::BTreeMap;
use tally_records::{Key, Memory};

/// The latest session on a line.
#[derive(Clone, Copy)]
pub(crate) struct Slot {
    pub(crate) line: Key,
    pub(crate) user: Key,
    /// When its login was recorded.
    pub(crate) start: i32,
    /// By how much the clock had moved then.
    pub(crate) clock_at: i64,
    /// Whether nothing has ended it.
    pub(crate) is_open: bool,
    /// Whether the line is listed as one whose session may be open.
    pub(crate) is_listed: bool,
}

impl Slot {
    /// When the session began, by the clock that has moved so far.
    pub(crate) fn begin(&self, clock: i64) -> i32
        requires low { neg_ℤ (pos (2 ^ 62)) ≤ℤ (clock -ℤ self.now.clock_at) }
        requires high { (clock -ℤ self.now.clock_at) ≤ℤ pos (2 ^ 62) }
        ensures { result ≡ clamped (self.now.start +ℤ (clock -ℤ self.now.clock_at)) }
    {
        begin_of(self.start, clock - self.clock_at)
    }

    /// The seconds of the session up to a time, when the clock has moved so far.
    fn seconds(&self, clock: i64, time: i32) -> u32
        requires low { neg_ℤ (pos (2 ^ 62)) ≤ℤ (clock -ℤ self.now.clock_at) }
        requires high { (clock -ℤ self.now.clock_at) ≤ℤ pos (2 ^ 62) }
        ensures { result ≡ length_of clock time self.now }
    {
        seconds_between(self.begin(clock), time) as u32
    }

    /// The session up to a time, likewise.
    pub(crate) fn session(&self, clock: i64, time: i32) -> Session
        requires low { neg_ℤ (pos (2 ^ 62)) ≤ℤ (clock -ℤ self.now.clock_at) }
        requires high { (clock -ℤ self.now.clock_at) ≤ℤ pos (2 ^ 62) }
        ensures user { result.user ≡ self.now.user }
        ensures begin { result.begin ≡ clamped (self.now.start +ℤ (clock -ℤ self.now.clock_at)) }
        ensures end_time { result.end_time ≡ time }
    {
        Session {
            user: self.user.name(),
            begin: self.begin(clock),
            end_time: time,
        }
    }

    /// The seconds up to a time where the session is open and one of all users, or of this one, or else 0.
    pub(crate) fn seconds_of(&self, who: &Option<Key>, clock: i64, time: i32) -> u64
        requires now { IsWithin ENTRY_LIMIT clock }
        requires then { self.now.is_open ≡ true → IsWithin ENTRY_LIMIT self.now.clock_at }
        ensures value { result ≡ weight_at (seconds_at who.now clock time) self.now }
        ensures small { result ≤ (2 ^ 32 - 1) * weight_at one self.now }
    {
        let is_counted = self.is_open
            && match who {
                Some(user) => self.user == *user,
                None => true,
            };
        if is_counted {
            u64::from(self.seconds(clock, time))
        } else {
            0
        }
    }

    /// Adds the seconds of the session up to a time, where it is open, to the sum of its user.
    pub(crate) fn add_seconds_to(
        &self,
        sums: &mut BTreeMap<NameKey, u64>,
        clock: i64,
        time: i32,
    ) -> Result<(), Memory>
        requires now { IsWithin ENTRY_LIMIT clock }
        requires then { self.now.is_open ≡ true → IsWithin ENTRY_LIMIT self.now.clock_at }
        requires room { sum_at (slice_cmp nat_cmp) sums.old.entries self.now.user + (2 ^ 32 - 1) * weight_at one self.now < 2 ^ 64 }
        ensures value { OnOk result ((user : Items ℕ) → sum_at (slice_cmp nat_cmp) sums.new.entries user
            ≡ sum_at (slice_cmp nat_cmp) sums.old.entries user + (if is_eq (slice_cmp nat_cmp self.now.user user) then weight_at (seconds_at None clock time) self.now else 0)) }
        ensures small { weight_at (seconds_at None clock time) self.now ≤ (2 ^ 32 - 1) * weight_at one self.now }
    {
        let seconds = self.seconds_of(&None, clock, time);
        add_for(sums, &self.user.name(), seconds)?;
        Ok(())
    }
}
