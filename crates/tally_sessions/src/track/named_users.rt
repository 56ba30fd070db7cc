//! What a choice of users alone has of a host, from the sums that are kept of each user.
ghost use Rattle.std.specs.Cmp.Lexicographic.{slice_cmp};
ghost use Rattle.std.specs.Ordering.{nat_cmp};
ghost use Rattle.std.specs.Prelude.{◌≡◌, ◌≤◌, ◌<◌, ◌+◌, ◌*◌, ◌^◌, ℕ, List, Some, None, IfSome, OnOk, if◌then◌else◌, length, true};
ghost use Rattle.tally_records.specs.Choice.{is_name};
ghost use Rattle.tally_sessions.specs.Hosts.{of_host};
ghost use Rattle.tally_sessions.specs.Lent.{entries_in};
ghost use Rattle.tally_sessions.specs.Totals.{stays_of};
ghost use Rattle.tally_sessions.specs.inside.NamedUsers.{IsOfUsers, new_name, own_seconds, seconds_named, seconds_of_names, stands_before};
ghost use Rattle.tally_sessions.specs.inside.Sums.{sum_at};
ghost use Rattle.tally_sessions.specs.inside.Totals.{seconds_of};
ghost use Rattle.tally_sessions.specs.inside.Track as spec;

use crate::connect::name_key::NameKey;
use crate::entries::Entries;
use crate::sessions::ENTRY_LIMIT;
use crate::sums::add_for;
use crate::track::Track;
use std::collections::BTreeMap;
use tally_records::{Key, LoginChoice, Memory, NAMED_LIMIT, Name, Names, names_nothing};

/// How many stays a host has for each of its lines, at least, where the sums of users are asked. Each name that a choice can have takes a
/// pass over the lines, and a line takes longer than a stay: it leads to its stay, and that to its record.
const STAYS_FOR_A_LINE: usize = 8 * NAMED_LIMIT;

/// Whether what stands at a place stands before it too.
#[tactic(auto, unfolding(crate::specs::inside::NamedUsers::stands_before))]
fn stands_before(names: &Names, place: usize) -> bool
    requires { place < NAMED_LIMIT }
    ensures { result ≡ stands_before names.now place }
{
    names[..place].contains(&names[place])
}

/// The name at a place, where it stands at no place before.
fn new_name(names: &Names, place: usize) -> Option<Name>
    requires { place < NAMED_LIMIT }
    ensures { result ≡ new_name names.now place }
{
    if stands_before(names, place) {
        None
    } else {
        names[place]
    }
}

impl Track {
    /// Whether a choice is of users alone, and the sums of these take no longer than the host's stays. They take a pass over the host's
    /// lines for each name, for what is pending.
    pub(crate) fn has_sums_of(&self, choice: &LoginChoice) -> bool
        ensures { result ≡ true → IsOfUsers choice.now }
    {
        !names_nothing(&choice.users)
            && names_nothing(&choice.lines)
            && choice.period.is_always()
            && self.lines.len() <= self.stays.len() / STAYS_FOR_A_LINE
    }

    /// The seconds of the sessions of a named user, none without a name.
    fn seconds_named(
        &self,
        host: u32,
        entries: Entries<'_>,
        name: &Option<Name>,
        until: Option<i32>,
    ) -> u64
        requires few { length (entries_in entries) ≤ ENTRY_LIMIT }
        requires track { spec.IsTrack host (entries_in entries) (length (entries_in entries)) self.now }
        ensures value { result ≡ seconds_named name.now (stays_of host (entries_in entries.entry) until) }
        ensures fits { IfSome name.now (λ _. seconds_of None (stays_of host (entries_in entries.entry) until) ≤ 4294967295 * length (of_host host (entries_in entries.entry))) }
    {
        match name {
            Some(name) => self.seconds(host, entries, &Some(Key::of(name)), until),
            None => 0,
        }
    }

    /// The seconds of the sessions of named users.
    pub(crate) fn seconds_of_users(
        &self,
        host: u32,
        entries: Entries<'_>,
        users: &Names,
        until: Option<i32>,
    ) -> u64
        requires few { length (entries_in entries) ≤ ENTRY_LIMIT }
        requires track { spec.IsTrack host (entries_in entries) (length (entries_in entries)) self.now }
        ensures value { result ≡ seconds_of_names users.now (stays_of host (entries_in entries.entry) until) }
        ensures fits { result ≤ 4294967295 * length (of_host host (entries_in entries.entry)) }
    {
        let mut total = 0;
        for place in 0..NAMED_LIMIT {
            let name = new_name(users, place);
            total += self.seconds_named(host, entries, &name, until);
        }
        total
    }

    /// Adds the seconds of the sessions of a named user to its sum.
    fn add_named(
        &self,
        sums: &mut BTreeMap<NameKey, u64>,
        host: u32,
        entries: Entries<'_>,
        name: &Option<Name>,
        until: Option<i32>,
    ) -> Result<(), Memory>
        requires few { length (entries_in entries) ≤ ENTRY_LIMIT }
        requires track { spec.IsTrack host (entries_in entries) (length (entries_in entries)) self.now }
        requires room { (user : List ℕ) → sum_at (slice_cmp nat_cmp) sums.old.entries user < 2 ^ 63 }
        ensures value { OnOk result ((user : List ℕ) → sum_at (slice_cmp nat_cmp) sums.new.entries user
            ≡ sum_at (slice_cmp nat_cmp) sums.old.entries user + (if is_name user name.now then seconds_of (Some user) (stays_of host (entries_in entries.entry) until) else 0)) }
        ensures fits { OnOk result ((user : List ℕ) → (if is_name user name.now then seconds_of (Some user) (stays_of host (entries_in entries.entry) until) else 0)
            ≤ 4294967295 * length (of_host host (entries_in entries.entry))) }
        ensures all { OnOk result (IfSome name.now (λ _. seconds_of None (stays_of host (entries_in entries.entry) until) ≤ 4294967295 * length (of_host host (entries_in entries.entry)))) }
    {
        let Some(name) = name else {
            return Ok(());
        };
        let seconds = self.seconds(host, entries, &Some(Key::of(name)), until);
        add_for(sums, name, seconds)
    }

    /// Adds the seconds of the sessions of each named user to its sum.
    pub(crate) fn add_users(
        &self,
        sums: &mut BTreeMap<NameKey, u64>,
        host: u32,
        entries: Entries<'_>,
        users: &Names,
        until: Option<i32>,
    ) -> Result<(), Memory>
        requires few { length (entries_in entries) ≤ ENTRY_LIMIT }
        requires track { spec.IsTrack host (entries_in entries) (length (entries_in entries)) self.now }
        requires room { (user : List ℕ) → sum_at (slice_cmp nat_cmp) sums.old.entries user < 2 ^ 62 }
        ensures value { OnOk result ((user : List ℕ) → sum_at (slice_cmp nat_cmp) sums.new.entries user
            ≡ sum_at (slice_cmp nat_cmp) sums.old.entries user + own_seconds user users.now (stays_of host (entries_in entries.entry) until)) }
        ensures fits { OnOk result ((user : List ℕ) → own_seconds user users.now (stays_of host (entries_in entries.entry) until)
            ≤ 4294967295 * length (of_host host (entries_in entries.entry))) }
        ensures all { OnOk result (seconds_of_names users.now (stays_of host (entries_in entries.entry) until) ≤ 4294967295 * length (of_host host (entries_in entries.entry))) }
    {
        for place in 0..NAMED_LIMIT {
            let name = new_name(users, place);
            self.add_named(sums, host, entries, &name, until)?;
        }
        Ok(())
    }
}
