//! The lengths of sessions, summed as they end.
ghost use Rattle.std.specs.Prelude.{◌≡◌, ◌≤◌, ◌<◌, ◌+◌, ◌^◌, ℕ, List, Option, Some, OnOk, if◌then◌else◌, length, sum_by};
ghost use Rattle.std.specs.Cmp.Lexicographic.{slice_cmp};
ghost use Rattle.std.specs.List.{zip};
ghost use Rattle.std.specs.Map.{keys_of};
ghost use Rattle.std.specs.Ordering.{nat_cmp};
ghost use Rattle.tally_sessions.specs.inside.Chosen.{number_of};
ghost use Rattle.tally_sessions.specs.inside.Sums.{sum_at};
ghost use Rattle.tally_sessions.specs.inside.Numbers.{StandsAt};
ghost use Rattle.tally_sessions.specs.inside.Track.{covers, sum_of};

use crate::connect::name_key::NameKey;
use crate::sums::add_for;
use crate::track::name_table::NameTable;
use std::alloc::Global;
use std::collections::BTreeMap;
use std::hash::RandomState;
use tally_records::{Key, Memory};

/// The sums of the lengths of a host's ended sessions: of all, and of each user.
#[derive(Drop)]
pub(crate) struct EndedSums {
    pub(crate) all: u64,
    pub(crate) users: NameTable,
}

impl EndedSums {
    /// No session has ended.
    pub(crate) fn new(alloc: Global, keys: RandomState) -> EndedSums
        ensures sums { (who : Option (List ℕ)) → sum_of result who ≡ 0 }
        ensures none { length result.users.entries ≡ 0 }
    {
        EndedSums {
            all: 0,
            users: NameTable::new(alloc, keys),
        }
    }

    /// The sum of all users, or of one.
    pub(crate) fn of(&self, who: &Option<Key>) -> u64
        ensures { result ≡ sum_of self.now who.now }
    {
        match who {
            Some(user) => self.users.get(user).unwrap_or(0),
            None => self.all,
        }
    }

    /// Makes room for as many users more.
    pub(crate) fn reserve(&mut self, count: usize) -> Result<(), Memory>
        ensures all { self.new.all ≡ self.old.all }
        ensures users { self.new.users.entries ≡ self.old.users.entries }
        ensures room { OnOk result (count ≤ self.new.users.spare) }
    {
        self.users.reserve(count)?;
        Ok(())
    }

    /// Enters a user, with no seconds if it is new, and answers its place.
    pub(crate) fn enter(&mut self, user: Key) -> u32
        requires room { 0 < self.old.users.spare }
        requires few { length self.old.users.entries < 2 ^ 32 }
        ensures sums { (who : Option (List ℕ)) → sum_of self.new who ≡ sum_of self.old who }
        ensures entered { StandsAt self.new.users result user }
        ensures kept { (place : ℕ) (name : List ℕ) → StandsAt self.old.users place name → StandsAt self.new.users place name }
        ensures few { length self.new.users.entries ≤ length self.old.users.entries + 1 }
        ensures room { self.old.users.spare ≤ self.new.users.spare + 1 }
    {
        self.users.enter(user) as u32
    }

    /// Adds the seconds of a session of the user at a place.
    pub(crate) fn add(&mut self, user: u32, seconds: u32)
        requires entered { user < length self.old.users.entries }
        requires fits { (who : Option (List ℕ)) → sum_of self.old who < 2 ^ 63 }
        ensures sums { (name : List ℕ) → StandsAt self.old.users user name → (who : Option (List ℕ))
            → sum_of self.new who ≡ sum_of self.old who + (if covers who name then seconds else 0) }
        ensures kept { keys_of self.new.users.entries ≡ keys_of self.old.users.entries }
        ensures room { self.new.users.spare ≡ self.old.users.spare }
    {
        self.all += u64::from(seconds);
        self.users.add_at(user as usize, u64::from(seconds));
    }

    /// Adds the users.
    pub(crate) fn push_users(&self, users: &mut Vec<NameKey>) -> Result<(), Memory> {
        for place in 0..self.users.len() {
            let (name, _) = self.users.pair_at(place);
            users.push(NameKey::of(&name))?;
        }
        Ok(())
    }

    /// Adds the sum of each user to another.
    pub(crate) fn add_to(&self, sums: &mut BTreeMap<NameKey, u64>) -> Result<(), Memory>
        requires { (user : List ℕ) → sum_at (slice_cmp nat_cmp) sums.old.entries user + sum_of self.now (Some user) < 2 ^ 64 }
        ensures { OnOk result ((user : List ℕ) → sum_at (slice_cmp nat_cmp) sums.new.entries user
            ≡ sum_at (slice_cmp nat_cmp) sums.old.entries user + sum_of self.now (Some user)) }
    {
        for place in 0..self.users.len() {
            let (user, seconds) = self.users.pair_at(place);
            add_for(sums, &user, seconds)?;
        }
        Ok(())
    }

    /// Adds a number for each user, by its place, to another.
    pub(crate) fn add_each(
        &self,
        numbers: &[u64],
        sums: &mut BTreeMap<NameKey, u64>,
    ) -> Result<(), Memory>
        requires users { length numbers.now ≡ length self.now.users.entries }
        requires room { (user : List ℕ) → sum_at (slice_cmp nat_cmp) sums.old.entries user
            + sum_by (number_of user) (zip (keys_of self.now.users.entries) numbers.now) < 2 ^ 64 }
        ensures { OnOk result ((user : List ℕ) → sum_at (slice_cmp nat_cmp) sums.new.entries user
            ≡ sum_at (slice_cmp nat_cmp) sums.old.entries user + sum_by (number_of user) (zip (keys_of self.now.users.entries) numbers.now)) }
    {
        for place in 0..self.users.len() {
            let (user, _) = self.users.pair_at(place);
            add_for(sums, &user, numbers[place])?;
        }
        Ok(())
    }
}
