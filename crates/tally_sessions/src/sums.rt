//! Sums of seconds over sessions, one for each key.
ghost use Rattle.std.specs.Prelude.{◌≡◌, ◌<◌, ◌+◌, ◌^◌, List, ℕ, OnOk, if◌then◌else◌};
ghost use Rattle.std.specs.Cmp.Lexicographic.{slice_cmp};
ghost use Rattle.std.specs.Ordering.{is_eq, nat_cmp};
ghost use Rattle.tally_clock.specs.Days.{seconds_between};
ghost use Rattle.tally_sessions.specs.inside.Chosen.{part_of_user};
ghost use Rattle.tally_sessions.specs.inside.Sums.{sum_at};

use crate::connect::name_key::NameKey;
use crate::track::rules::seconds_between;
use std::collections::BTreeMap;
use tally_records::{Memory, Name};

/// What is counted of a login's stay: the part of it in the period that is asked for. Times are in seconds since 1970.
#[derive(Clone, Copy)]
pub(crate) struct Session {
    pub(crate) user: Name,
    pub(crate) begin: i32,
    pub(crate) end_time: i32,
}

/// A session, but for its user.
#[derive(Clone, Copy)]
pub(crate) struct Part {
    pub(crate) begin: i32,
    pub(crate) end_time: i32,
}

impl Part {
    /// Its seconds, none where it goes back.
    pub(crate) fn seconds(&self) -> u64
        ensures value { result ≡ seconds_between self.now.begin self.now.end_time }
        ensures fits { result < 2 ^ 32 }
    {
        seconds_between(self.begin, self.end_time)
    }

    /// The session of a user.
    pub(crate) fn of_user(&self, user: Name) -> Session
        ensures { result ≡ part_of_user user self.now }
    {
        Session {
            user,
            begin: self.begin,
            end_time: self.end_time,
        }
    }
}

/// Adds seconds to the sum of a key.
pub(crate) fn add<K: Ord + Copy + Drop>(
    sums: &mut BTreeMap<K, u64>,
    key: K,
    seconds: u64,
) -> Result<(), Memory>
    requires { sum_at K.cmp sums.old.entries key + seconds < 2 ^ 64 }
    ensures { OnOk result ((k : K) → sum_at K.cmp sums.new.entries k
        ≡ sum_at K.cmp sums.old.entries k + (if is_eq (K.cmp key k) then seconds else 0)) }
{
    match sums.get_mut(&key) {
        Some(sum) => {
            *sum += seconds;
            Ok(())
        }
        None => {
            sums.insert(key, seconds)?;
            Ok(())
        }
    }
}

/// Adds seconds to the sum of a user.
pub(crate) fn add_for(
    sums: &mut BTreeMap<NameKey, u64>,
    user: &Name,
    seconds: u64,
) -> Result<(), Memory>
    requires { sum_at (slice_cmp nat_cmp) sums.old.entries user.now + seconds < 2 ^ 64 }
    ensures { OnOk result ((k : List ℕ) → sum_at (slice_cmp nat_cmp) sums.new.entries k
        ≡ sum_at (slice_cmp nat_cmp) sums.old.entries k + (if is_eq (slice_cmp nat_cmp user.now k) then seconds else 0)) }
{
    add(sums, NameKey::of(user), seconds)
}
