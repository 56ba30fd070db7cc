//! The connect time of users on days, of several hosts that each have a count which keeps its sessions.
ghost use Rattle.std.specs.Prelude.{◌≡◌, ◌≤◌, All, IfOk, IfSome, length, sum_by, true};
ghost use Rattle.std.specs.Cmp.Lexicographic.{slice_cmp};
ghost use Rattle.std.specs.List.Sorted.{IsStrictlySortedBy};
ghost use Rattle.std.specs.Ordering.{nat_cmp};
ghost use Rattle.tally_records.specs.Choice.{every_login};
ghost use Rattle.tally_sessions.specs.ConnectSums.{IsAboutAll};
ghost use Rattle.tally_sessions.specs.Days.{IsDay, IsOffset, local};
ghost use Rattle.tally_sessions.specs.Rows.{day_user_times};
ghost use Rattle.tally_sessions.specs.Sums.{sessions_of};
ghost use Rattle.tally_sessions.specs.inside.Running.{IsRunning};
ghost use Rattle.tally_sessions.specs.inside.Track.{IsWithin};

use crate::connect::day_table_size::{Extent, each_once};
use crate::connect::day_table_sums::rows_from_table;
use crate::connect::day_user_rows::day_user_rows;
use crate::connect::name_key::NameKey;
use crate::connect_sums::ConnectSums;
use crate::connect_sums::hosts::sessions_of_counts;
use crate::connect_sums::running::Running;
use crate::sessions::{ENTRY_LIMIT, HOST_LIMIT};
use crate::times::DayUserTime;
use std::alloc::Global;
use tally_clock::Clock;
use tally_records::{List, Memory};

impl Running {
    /// Times with those of the sessions. Those that are open count up to a moment, or else to the last record.
    fn extend(&self, clock: &Clock, until: Option<i32>, extent: Extent) -> Extent
        requires running { IsRunning self.now.count self.now }
        requires moved { IsWithin self.now.count self.now.clock }
        requires few { self.now.count ≤ ENTRY_LIMIT }
    {
        let time = until.unwrap_or(self.last);
        let mut extent = extent;
        for session in &self.ended.sessions {
            extent = extent.with(clock, session.begin, session.end_time);
        }
        for k in 0..self.slots.len() {
            let slot = &self.slots[k];
            if slot.is_open {
                extent = extent.with(clock, slot.begin(self.clock), time);
            }
        }
        extent
    }

    /// Adds the users of the sessions, some more than once.
    fn push_users(&self, users: &mut Vec<NameKey>) -> Result<(), Memory> {
        self.ended.sums.push_users(users)?;
        for slot in &self.slots {
            if slot.is_open {
                users.push(NameKey::of(&slot.user.name()))?;
            }
        }
        Ok(())
    }
}

impl ConnectSums {
    /// The same of a count.
    fn extend(&self, clock: &Clock, until: Option<i32>, extent: Extent) -> Extent {
        self.running.extend(clock, until, extent)
    }

    /// How many users have a session that has ended.
    fn user_count(&self) -> usize {
        self.running.ended.sums.users.len()
    }

    /// How many more there may be, of sessions that are open.
    fn open_count(&self) -> usize {
        self.running.listed.len()
    }
}

/// The times of the sessions of these hosts.
fn extent_of(counts: &[ConnectSums], clock: &Clock, until: Option<i32>) -> Extent {
    let mut extent = Extent::none();
    for count in counts {
        extent = count.extend(clock, until, extent);
    }
    extent
}

/// The most users that have ended sessions on a host.
fn most_users(counts: &[ConnectSums]) -> usize {
    let mut most = 0;
    for count in counts {
        most = count.user_count().max(most);
    }
    most
}

/// How many users the hosts may have together, one of several hosts as often.
fn host_users(counts: &[ConnectSums]) -> usize {
    let mut users = 0usize;
    for count in counts {
        users = users
            .saturating_add(count.user_count())
            .saturating_add(count.open_count());
    }
    users
}

/// The users of these hosts, each once, in order of name bytes.
fn users_in_order(alloc: Global, counts: &[ConnectSums]) -> Result<Vec<NameKey>, Memory>
    ensures { IfOk result (λ users. IsStrictlySortedBy (slice_cmp nat_cmp) users.items) }
{
    let mut users = Vec::new(alloc);
    for count in counts {
        count.running.push_users(&mut users)?;
    }
    Ok(each_once(users))
}

/// The rows of the users on days that have any time, from a table with a cell for each user on each day, where that is small enough.
fn rows_by_table(
    alloc: Global,
    counts: &[ConnectSums],
    clock: &Clock,
    offset: i32,
    until: Option<i32>,
) -> Result<Option<Vec<DayUserTime>>, Memory>
    requires offset_in { IsOffset offset }
    requires few { length counts.now ≤ HOST_LIMIT }
    requires room { sum_by (λ c. c.count) counts.now ≤ ENTRY_LIMIT }
    requires kept { All (λ c. c.keeps_sessions ≡ true) counts.now }
    ensures rows { IfOk result (λ found. IfSome found (λ rows. IsAboutAll counts.now (λ es. day_user_times (local clock.now offset) (sessions_of every_login es until)) rows.items)) }
    ensures days { IfOk result (λ found. IfSome found (λ rows. All (λ row. IsDay row.day) rows.items)) }
{
    let extent = extent_of(counts, clock, until);
    let Some(table) = extent.table_days(host_users(counts)) else {
        return Ok(None);
    };
    if extent.cells(table.count, most_users(counts)).is_none() {
        return Ok(None);
    }
    let users = users_in_order(alloc, counts)?;
    let Some(count) = extent.cells(table.count, users.len()) else {
        return Ok(None);
    };
    let mut sessions = sessions_of_counts(alloc, counts, until)?;
    rows_from_table(
        alloc,
        &users,
        table.first,
        count,
        clock,
        offset,
        &mut sessions,
    )
}

/// The same, whatever their number.
fn rows_by_day_user(
    alloc: Global,
    counts: &[ConnectSums],
    clock: &Clock,
    offset: i32,
    until: Option<i32>,
) -> Result<Vec<DayUserTime>, Memory>
    requires offset_in { IsOffset offset }
    requires few { length counts.now ≤ HOST_LIMIT }
    requires room { sum_by (λ c. c.count) counts.now ≤ ENTRY_LIMIT }
    requires kept { All (λ c. c.keeps_sessions ≡ true) counts.now }
    ensures rows { IfOk result (λ rows. IsAboutAll counts.now (λ es. day_user_times (local clock.now offset) (sessions_of every_login es until)) rows.items) }
    ensures days { IfOk result (λ rows. All (λ row. IsDay row.day) rows.items) }
{
    if let Some(rows) = rows_by_table(alloc, counts, clock, offset, until)? {
        return Ok(rows);
    }
    let mut sessions = sessions_of_counts(alloc, counts, until)?;
    day_user_rows(alloc, clock, offset, &mut sessions)
}

/// The connect time of each user on each day, where there is any on these hosts, by day and then by name bytes, by the days of a
/// clock with an offset in minutes east of it, counted as in the total. The counts keep their sessions.
pub fn connect_by_day_user_of_counts(
    alloc: Global,
    counts: &[ConnectSums],
    clock: &Clock,
    offset: i32,
    until: Option<i32>,
) -> Result<List<DayUserTime>, Memory>
    requires offset_in { IsOffset offset }
    requires few { length counts.now ≤ HOST_LIMIT }
    requires room { sum_by (λ c. c.count) counts.now ≤ ENTRY_LIMIT }
    requires kept { All (λ c. c.keeps_sessions ≡ true) counts.now }
    ensures value { IfOk result (IsAboutAll counts.now (λ es. day_user_times (local clock.now offset) (sessions_of every_login es until))) }
    ensures days { IfOk result (All (λ row. IsDay row.day)) }
{
    List::from_vec(
        alloc,
        rows_by_day_user(alloc, counts, clock, offset, until)?,
    )
}
