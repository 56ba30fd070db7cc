//! The sessions of a host that have ended: their seconds, and where reports by day are wanted the sessions too.
ghost use Rattle.std.specs.Prelude.{◌≡◌, ◌≤◌, ◌<◌, ◌+◌, ◌^◌, ◌++◌, ◌∷◌, [], ℕ, List as Items, Option, OnOk, if◌then◌else◌, length, vec_capacity, vec_len};
ghost use Rattle.std.specs.Map.{keys_of};
ghost use Rattle.tally_clock.specs.Days.{seconds_between};
ghost use Rattle.tally_sessions.specs.inside.Ended.{Asked, HasGrown, HasRoom, HaveUsers, gives, measured};
ghost use Rattle.tally_sessions.specs.inside.Numbers.{StandsAt};
ghost use Rattle.tally_sessions.specs.inside.Track.{covers, sum_of};

use crate::track::ended::EndedSums;
use crate::track::rules::seconds_between;
use std::alloc::Global;
use std::hash::RandomState;
use tally_records::{Key, Memory};

/// A session that has ended: where its user stands in the table of users, and its times.
#[derive(Clone, Copy)]
pub(crate) struct EndedSession {
    pub(crate) user: u32,
    pub(crate) begin: i32,
    pub(crate) end_time: i32,
}

/// What is kept of the sessions that have ended.
#[derive(Drop)]
pub(crate) struct Ended {
    /// The sums of their lengths.
    pub(crate) sums: EndedSums,
    /// Whether they are kept themselves.
    pub(crate) keeps_sessions: bool,
    pub(crate) sessions: Vec<EndedSession>,
}

/// Adds the seconds of a session of the user at a place.
#[tactic(auto, using(crate::proofs::connect_sums::EndedSeconds::seconds_added, crate::proofs::connect_sums::EndedSeconds::few_seconds))]
fn add_seconds(sums: &mut EndedSums, user: u32, begin: i32, end_time: i32)
    requires entered { user < length sums.old.users.entries }
    requires fits { (who : Option (Items ℕ)) → sum_of sums.old who < 2 ^ 63 }
    ensures sums { (name : Items ℕ) → StandsAt sums.old.users user name → (who : Option (Items ℕ))
        → sum_of sums.new who ≡ sum_of sums.old who + (if covers who name then seconds_between begin end_time else 0) }
    ensures few { seconds_between begin end_time < 2 ^ 32 }
    ensures kept { keys_of sums.new.users.entries ≡ keys_of sums.old.users.entries }
    ensures room { sums.new.users.spare ≡ sums.old.users.spare }
{
    sums.add(user, seconds_between(begin, end_time) as u32);
}

/// Keeps a session of the user at a place, in the room that there is for it.
fn keep(sessions: &mut Vec<EndedSession>, user: u32, begin: i32, end_time: i32)
    requires { vec_len sessions.old + 1 ≤ vec_capacity sessions.old }
    ensures items { sessions.new.items ≡ sessions.old.items ++ record { user = user; begin = begin; end_time = end_time } ∷ [] }
    ensures capacity { vec_capacity sessions.new ≡ vec_capacity sessions.old }
{
    sessions.push_reserved(EndedSession {
        user,
        begin,
        end_time,
    });
}

impl Ended {
    /// No session has ended.
    pub(crate) fn new(alloc: Global, keys: RandomState, keeps_sessions: bool) -> Ended
        ensures sums { (who : Option (Items ℕ)) → sum_of result.sums who ≡ 0 }
        ensures users { length result.sums.users.entries ≡ 0 }
        ensures sessions { result.sessions.items ≡ [] }
        ensures keeps { result.keeps_sessions ≡ keeps_sessions }
    {
        Ended {
            sums: EndedSums::new(alloc, keys),
            keeps_sessions,
            sessions: Vec::new(alloc),
        }
    }

    /// Makes room for so many sessions more. Nothing that is kept changes.
    pub(crate) fn reserve(&mut self, count: usize) -> Result<(), Memory>
        ensures all { self.new.sums.all ≡ self.old.sums.all }
        ensures users { self.new.sums.users.entries ≡ self.old.sums.users.entries }
        ensures sessions { self.new.sessions.items ≡ self.old.sessions.items }
        ensures keeps { self.new.keeps_sessions ≡ self.old.keeps_sessions }
        ensures room { OnOk result (HasRoom count self.new) }
    {
        self.sums.reserve(count)?;
        if self.keeps_sessions {
            self.sessions.reserve(count)?;
        }
        Ok(())
    }

    /// Adds a session of a user, in the room that there is for it.
    pub(crate) fn add(&mut self, user: Key, begin: i32, end_time: i32)
        requires fits { (who : Option (Items ℕ)) → sum_of self.old.sums who < 2 ^ 63 }
        requires few { length self.old.sums.users.entries < 2 ^ 32 }
        requires have { HaveUsers self.old }
        requires room { HasRoom 1 self.old }
        ensures sums { (asked : Asked) → measured self.new asked ≡ measured self.old asked + gives self.old.keeps_sessions asked (record { user = user; begin = begin; end_time = end_time }) }
        ensures grown { HasGrown 1 self.old self.new }
    {
        let place = self.sums.enter(user);
        add_seconds(&mut self.sums, place, begin, end_time);
        if self.keeps_sessions {
            keep(&mut self.sessions, place, begin, end_time);
        }
    }
}
