//! Connect time by user and by day, as ac(1) gives it.
ghost use Rattle.std.specs.Prelude.{◌≡◌, ◌<◌, ◌≤◌, ◌-◌, ◌*◌, ◌^◌, ℕ, List as Items, All, IfOk, OnOk, filter, length, map, nat_lt, sum_by};
ghost use Rattle.std.specs.BTreeMap.{IsOrdered};
ghost use Rattle.std.specs.Cmp.Lexicographic.{slice_cmp};
ghost use Rattle.std.specs.Ordering.{int_cmp, nat_cmp};
ghost use Rattle.tally_sessions.specs.Days.{IsDay, IsOffset, local};
ghost use Rattle.tally_sessions.specs.inside.Sums.{above_zero, day_time_of, user_time_of, sum_at};
ghost use Rattle.tally_sessions.specs.Rows.{day_times, day_user_times, user_times};
ghost use Rattle.tally_sessions.specs.Sums.{seconds_in, seconds_of_user, sessions_of};
ghost use Rattle.tally_sessions.specs.Totals.{connect_of, total_of};

mod chosen_sums;
mod cut;
pub(crate) mod day_sums;
mod day_table;
mod day_table_rows;
pub(crate) mod day_table_size;
pub(crate) mod day_table_sums;
pub(crate) mod day_user_rows;
pub(crate) mod keys;
pub(crate) mod name_key;
pub(crate) mod source;
mod span;
mod user_sums;
pub(crate) mod walk;

use crate::connect::name_key::NameKey;
use crate::sessions::{HOST_LIMIT, Sessions};
use crate::times::{DayTime, DayUserTime, UserTime};
use std::alloc::{AllocError, Global};
use std::collections::BTreeMap;
use tally_clock::Clock;
use tally_records::{List, LoginChoice, Memory};

/// Whether a sum of seconds has a row.
fn has_row(seconds: u64) -> bool
    ensures { result ≡ nat_lt 0 seconds }
{
    seconds > 0
}

/// The rows of the users whose sum is above 0.
pub(crate) fn user_rows(
    alloc: Global,
    sums: &BTreeMap<NameKey, u64>,
) -> Result<Vec<UserTime>, AllocError>
    ensures rows { IfOk result (λ rows. rows.items ≡ map user_time_of (filter above_zero sums.now.entries)) }
    ensures ordered { IsOrdered (slice_cmp nat_cmp) sums.now }
{
    let mut rows = Vec::new(alloc);
    for (user, seconds) in sums {
        if has_row(*seconds) {
            rows.push(UserTime {
                user: user.name(),
                seconds: *seconds,
            })?;
        }
    }
    Ok(rows)
}

/// The rows of the days whose sum is above 0.
pub(crate) fn day_rows(alloc: Global, sums: &BTreeMap<i32, u64>) -> Result<Vec<DayTime>, AllocError>
    ensures rows { IfOk result (λ rows. rows.items ≡ map day_time_of (filter above_zero sums.now.entries)) }
    ensures ordered { IsOrdered int_cmp sums.now }
{
    sums.iter()
        .filter(|(_day, seconds)| has_row(**seconds))
        .map(|(day, seconds)| DayTime {
            day: *day,
            seconds: *seconds,
        })
        .collect(alloc)
}

impl Sessions {
    /// The seconds of each user's sessions, where all are chosen: those that have ended are counted already.
    fn all_user_sums(
        &self,
        alloc: Global,
        until: Option<i32>,
    ) -> Result<BTreeMap<NameKey, u64>, Memory>
        ensures value { IfOk result (λ sums. (user : Items ℕ) → sum_at (slice_cmp nat_cmp) sums.entries user ≡ connect_of user self.now.entries until) }
        ensures each { OnOk result (total_of self.now.entries until ≤ (2 ^ 32 - 1) * length self.now.entries) }
        ensures fits { OnOk result (total_of self.now.entries until < 2 ^ 56) }
    {
        let entries = self.entries();
        let mut sums = BTreeMap::new(alloc);
        for host in 0..HOST_LIMIT {
            self.tracks[host as usize].add_seconds(host, entries, &mut sums, until)?;
        }
        Ok(sums)
    }

    /// The seconds of each user's chosen sessions on all hosts.
    fn user_sums(
        &self,
        alloc: Global,
        choice: &LoginChoice,
        until: Option<i32>,
    ) -> Result<BTreeMap<NameKey, u64>, Memory>
        ensures value { IfOk result (λ sums. (user : Items ℕ) → sum_at (slice_cmp nat_cmp) sums.entries user ≡ seconds_of_user user (sessions_of choice.now self.now.entries until)) }
        ensures each { OnOk result (seconds_in (sessions_of choice.now self.now.entries until) ≤ (2 ^ 32 - 1) * length self.now.entries) }
        ensures fits { OnOk result (seconds_in (sessions_of choice.now self.now.entries until) < 2 ^ 56) }
    {
        if choice.is_every() {
            self.all_user_sums(alloc, until)
        } else {
            self.chosen_user_sums(alloc, choice, until)
        }
    }

    /// The seconds of the chosen sessions of all hosts, each cut to the period. Those that nothing has ended count up to
    /// a moment, in seconds since 1970, or else to their host's last record.
    pub fn total(&self, choice: &LoginChoice, until: Option<i32>) -> u64
        ensures value { result ≡ seconds_in (sessions_of choice.now self.now.entries until) }
        ensures each { result ≤ (2 ^ 32 - 1) * length self.now.entries }
        ensures fits { result < 2 ^ 56 }
    {
        if choice.is_every() {
            self.all_seconds(until)
        } else {
            self.chosen_seconds(choice, until)
        }
    }

    /// The connect time of each user that has any, in order of name bytes, over the chosen sessions, counted as in the total.
    pub fn connect_by_user(
        &self,
        alloc: Global,
        choice: &LoginChoice,
        until: Option<i32>,
    ) -> Result<List<UserTime>, Memory>
        ensures value { IfOk result (λ rows. rows ≡ user_times (sessions_of choice.now self.now.entries until)) }
        ensures each { IfOk result (λ rows. sum_by (λ row. row.seconds) rows ≤ (2 ^ 32 - 1) * length self.now.entries) }
        ensures fits { IfOk result (λ rows. sum_by (λ row. row.seconds) rows < 2 ^ 56) }
    {
        let sums = self.user_sums(alloc, choice, until)?;
        List::from_vec(alloc, user_rows(alloc, &sums)?)
    }

    /// The connect time of each day that has any, in order, by the days of a clock with an offset in minutes east of it, over
    /// the chosen sessions, counted as in the total.
    pub fn connect_by_day(
        &self,
        alloc: Global,
        clock: &Clock,
        offset: i32,
        choice: &LoginChoice,
        until: Option<i32>,
    ) -> Result<List<DayTime>, Memory>
        requires { IsOffset offset }
        ensures value { IfOk result (λ rows. rows ≡ day_times (local clock.now offset) (sessions_of choice.now self.now.entries until)) }
        ensures days { IfOk result (All (λ row. IsDay row.day)) }
    {
        let mut walk = self.walk(choice, until);
        let sums = day_sums::day_sums(alloc, clock, offset, &mut walk)?;
        List::from_vec(alloc, day_rows(alloc, &sums)?)
    }

    /// The connect time of each user on each day, where there is any, by day and then by name bytes, by the days of a clock
    /// with an offset in minutes east of it, over the chosen sessions, counted as in the total.
    pub fn connect_by_day_user(
        &self,
        alloc: Global,
        clock: &Clock,
        offset: i32,
        choice: &LoginChoice,
        until: Option<i32>,
    ) -> Result<List<DayUserTime>, Memory>
        requires { IsOffset offset }
        ensures value { IfOk result (λ rows. rows ≡ day_user_times (local clock.now offset) (sessions_of choice.now self.now.entries until)) }
        ensures days { IfOk result (All (λ row. IsDay row.day)) }
    {
        List::from_vec(
            alloc,
            self.rows_by_day_user(alloc, clock, offset, choice, until)?,
        )
    }
}
