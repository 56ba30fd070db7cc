//! The sums of a host's chosen sessions.
ghost use Rattle.std.specs.Cmp.Lexicographic.{slice_cmp};
ghost use Rattle.std.specs.List.{zip};
ghost use Rattle.std.specs.Map.{keys_of};
ghost use Rattle.std.specs.Ordering.{nat_cmp};
ghost use Rattle.std.specs.Prelude.{◌≡◌, ◌≤◌, ◌<◌, ◌+◌, ◌*◌, ◌^◌, [], ◌∷◌, ℕ, List, OnOk, length, slice_index, slice_set, sum_by, unwrap_or, vec_len};
ghost use Rattle.tally_sessions.specs.Hosts.{of_host};
ghost use Rattle.tally_sessions.specs.Lent.{entries_in};
ghost use Rattle.tally_sessions.specs.Sums.{seconds_in, seconds_of_user, sessions_among};
ghost use Rattle.tally_sessions.specs.Totals.{stays_of};
ghost use Rattle.tally_sessions.specs.inside.Chosen.{IsPick, number_of};
ghost use Rattle.tally_sessions.specs.inside.Sums.{sum_at};
ghost use Rattle.tally_sessions.specs.inside.Track as spec;

use crate::chosen::has_names;
use crate::connect::name_key::NameKey;
use crate::entries::Entries;
use crate::sessions::ENTRY_LIMIT;
use crate::track::Track;
use crate::track::parts::Pick;
use std::alloc::Global;
use std::collections::BTreeMap;
use tally_records::{LoginChoice, Memory};

/// Adds to the number at a place.
fn add_at(numbers: &mut [u64], place: usize, more: u64)
    requires within { place < length numbers.old }
    requires fits { slice_index numbers.old place + more < 2 ^ 64 }
    ensures { numbers.new ≡ slice_set numbers.old place (slice_index numbers.old place + more) }
{
    numbers[place] += more;
}

impl Track {
    /// The seconds of the session that the stay at a place is, none where it is no chosen one.
    fn seconds_at(
        &self,
        host: u32,
        entries: Entries<'_>,
        i: usize,
        choice: &LoginChoice,
        pick: &Pick,
        until: Option<i32>,
    ) -> u64
        requires pick { IsPick self.now.sums.users choice.now pick.now }
        requires i_in { i < vec_len self.now.stays }
        requires few { length (entries_in entries) ≤ ENTRY_LIMIT }
        requires track { spec.IsTrack host (entries_in entries) (length (entries_in entries)) self.now }
        ensures value { result ≡ seconds_in (sessions_among choice.now (spec.stay_now host (entries_in entries.entry) self.now.clock (unwrap_or until self.now.last) (spec.stay_at self.now.stays.items i) ∷ [])) }
        ensures fits { result < 2 ^ 32 }
    {
        match self.part_at(host, entries, i, choice, pick, until) {
            Some(part) => part.seconds(),
            None => 0,
        }
    }

    /// The seconds of the host's chosen sessions, counted stay by stay.
    fn walked_seconds(
        &self,
        host: u32,
        entries: Entries<'_>,
        choice: &LoginChoice,
        until: Option<i32>,
    ) -> u64
        requires few { length (entries_in entries) ≤ ENTRY_LIMIT }
        requires track { spec.IsTrack host (entries_in entries) (length (entries_in entries)) self.now }
        ensures value { result ≡ seconds_in (sessions_among choice.now (stays_of host (entries_in entries.entry) until)) }
        ensures fits { result ≤ 4294967295 * length (of_host host (entries_in entries.entry)) }
    {
        let pick = self.pick(choice, has_names(choice));
        let mut total = 0;
        for i in 0..self.stays.len() {
            total += self.seconds_at(host, entries, i, choice, &pick, until);
        }
        total
    }

    /// The seconds of the host's chosen sessions.
    pub(crate) fn chosen_seconds(
        &self,
        host: u32,
        entries: Entries<'_>,
        choice: &LoginChoice,
        until: Option<i32>,
    ) -> u64
        requires few { length (entries_in entries) ≤ ENTRY_LIMIT }
        requires track { spec.IsTrack host (entries_in entries) (length (entries_in entries)) self.now }
        ensures value { result ≡ seconds_in (sessions_among choice.now (stays_of host (entries_in entries.entry) until)) }
        ensures fits { result ≤ 4294967295 * length (of_host host (entries_in entries.entry)) }
    {
        if self.has_sums_of(choice) {
            self.seconds_of_users(host, entries, &choice.users, until)
        } else {
            self.walked_seconds(host, entries, choice, until)
        }
    }

    /// Adds the seconds of the session that the stay at a place is, if it is a chosen one, to the number at the place of its
    /// user.
    fn count_at(
        &self,
        numbers: &mut [u64],
        host: u32,
        entries: Entries<'_>,
        i: usize,
        choice: &LoginChoice,
        pick: &Pick,
        until: Option<i32>,
    )
        requires pick { IsPick self.now.sums.users choice.now pick.now }
        requires i_in { i < vec_len self.now.stays }
        requires few { length (entries_in entries) ≤ ENTRY_LIMIT }
        requires track { spec.IsTrack host (entries_in entries) (length (entries_in entries)) self.now }
        requires users { length numbers.old ≡ length self.now.sums.users.entries }
        requires small { (place : ℕ) → slice_index numbers.old place ≤ 4294967295 * i }
        ensures value { (user : List ℕ) → sum_by (number_of user) (zip (keys_of self.now.sums.users.entries) numbers.new)
            ≡ sum_by (number_of user) (zip (keys_of self.now.sums.users.entries) numbers.old)
            + seconds_of_user user (sessions_among choice.now (spec.stay_now host (entries_in entries.entry) self.now.clock (unwrap_or until self.now.last) (spec.stay_at self.now.stays.items i) ∷ [])) }
        ensures fits { (user : List ℕ) → seconds_of_user user (sessions_among choice.now (spec.stay_now host (entries_in entries.entry) self.now.clock (unwrap_or until self.now.last) (spec.stay_at self.now.stays.items i) ∷ [])) ≤ 4294967295 }
        ensures small { (place : ℕ) → slice_index numbers.new place ≤ 4294967295 * (i + 1) }
    {
        if let Some(part) = self.part_at(host, entries, i, choice, pick, until) {
            add_at(numbers, self.stays[i].user as usize, part.seconds());
        }
    }

    /// Adds the seconds of each chosen session to the number at the place of its user.
    fn count_users(
        &self,
        numbers: &mut [u64],
        host: u32,
        entries: Entries<'_>,
        choice: &LoginChoice,
        until: Option<i32>,
    )
        requires few { length (entries_in entries) ≤ ENTRY_LIMIT }
        requires track { spec.IsTrack host (entries_in entries) (length (entries_in entries)) self.now }
        requires users { length numbers.old ≡ length self.now.sums.users.entries }
        requires zeros { (place : ℕ) → slice_index numbers.old place ≡ 0 }
        ensures value { (user : List ℕ) → sum_by (number_of user) (zip (keys_of self.now.sums.users.entries) numbers.new)
            ≡ seconds_of_user user (sessions_among choice.now (stays_of host (entries_in entries.entry) until)) }
        ensures fits { (user : List ℕ) → seconds_of_user user (sessions_among choice.now (stays_of host (entries_in entries.entry) until))
            ≤ 4294967295 * length (of_host host (entries_in entries.entry)) }
        ensures all { seconds_in (sessions_among choice.now (stays_of host (entries_in entries.entry) until)) ≤ 4294967295 * length (of_host host (entries_in entries.entry)) }
    {
        let pick = self.pick(choice, has_names(choice));
        for i in 0..self.stays.len() {
            self.count_at(numbers, host, entries, i, choice, &pick, until);
        }
    }

    /// Adds the seconds of the host's chosen sessions to a sum for each user, counted stay by stay.
    fn add_walked(
        &self,
        alloc: Global,
        sums: &mut BTreeMap<NameKey, u64>,
        host: u32,
        entries: Entries<'_>,
        choice: &LoginChoice,
        until: Option<i32>,
    ) -> Result<(), Memory>
        requires few { length (entries_in entries) ≤ ENTRY_LIMIT }
        requires track { spec.IsTrack host (entries_in entries) (length (entries_in entries)) self.now }
        requires room { (user : List ℕ) → sum_at (slice_cmp nat_cmp) sums.old.entries user < 2 ^ 62 }
        ensures value { OnOk result ((user : List ℕ) → sum_at (slice_cmp nat_cmp) sums.new.entries user
            ≡ sum_at (slice_cmp nat_cmp) sums.old.entries user + seconds_of_user user (sessions_among choice.now (stays_of host (entries_in entries.entry) until))) }
        ensures fits { OnOk result ((user : List ℕ) → seconds_of_user user (sessions_among choice.now (stays_of host (entries_in entries.entry) until))
            ≤ 4294967295 * length (of_host host (entries_in entries.entry))) }
        ensures all { OnOk result (seconds_in (sessions_among choice.now (stays_of host (entries_in entries.entry) until)) ≤ 4294967295 * length (of_host host (entries_in entries.entry))) }
    {
        let mut numbers = vec![in alloc; 0; self.sums.users.len()]?;
        self.count_users(&mut numbers, host, entries, choice, until);
        self.sums.add_each(&numbers, sums)
    }

    /// Adds the seconds of the host's chosen sessions to a sum for each user.
    pub(crate) fn add_chosen(
        &self,
        alloc: Global,
        sums: &mut BTreeMap<NameKey, u64>,
        host: u32,
        entries: Entries<'_>,
        choice: &LoginChoice,
        until: Option<i32>,
    ) -> Result<(), Memory>
        requires few { length (entries_in entries) ≤ ENTRY_LIMIT }
        requires track { spec.IsTrack host (entries_in entries) (length (entries_in entries)) self.now }
        requires room { (user : List ℕ) → sum_at (slice_cmp nat_cmp) sums.old.entries user < 2 ^ 62 }
        ensures value { OnOk result ((user : List ℕ) → sum_at (slice_cmp nat_cmp) sums.new.entries user
            ≡ sum_at (slice_cmp nat_cmp) sums.old.entries user + seconds_of_user user (sessions_among choice.now (stays_of host (entries_in entries.entry) until))) }
        ensures fits { OnOk result ((user : List ℕ) → seconds_of_user user (sessions_among choice.now (stays_of host (entries_in entries.entry) until))
            ≤ 4294967295 * length (of_host host (entries_in entries.entry))) }
        ensures all { OnOk result (seconds_in (sessions_among choice.now (stays_of host (entries_in entries.entry) until)) ≤ 4294967295 * length (of_host host (entries_in entries.entry))) }
    {
        if self.has_sums_of(choice) {
            self.add_users(sums, host, entries, &choice.users, until)
        } else {
            self.add_walked(alloc, sums, host, entries, choice, until)
        }
    }
}
