//! Which days and users a table of seconds has, and when it is small enough to be made.
ghost use Rattle.std.specs.Prelude.{◌≡◌, ◌≤◌, ◌<◌, ◌*◌, ◌^◌, pos, neg_ℤ, ◌≤ℤ◌, IfOk, IfSome};
ghost use Rattle.std.specs.Cmp.Lexicographic.{slice_cmp};
ghost use Rattle.std.specs.List.Sorted.{IsStrictlySortedBy};
ghost use Rattle.std.specs.Ordering.{nat_cmp};
ghost use Rattle.tally_sessions.specs.Days as days;
ghost use Rattle.tally_sessions.specs.Lent.{entries_in};

use crate::chosen::{begin_in, end_time_in};
use crate::connect::day_table::days_between;
use crate::connect::name_key::NameKey;
use crate::connect::span::day_of;
use crate::entries::Entries;
use crate::sessions::{ENTRY_LIMIT, HOST_LIMIT, Sessions};
use crate::track::ending::{Ending, TrackedStay};
use std::alloc::Global;
use tally_clock::Clock;
use tally_records::{LoginChoice, Memory, Period};

/// A stay on more days than this may have a row of a clock whole, if the rows are no shorter than is usual.
const DAYS_OF_A_LONG_STAY: usize = 14;

/// How many cells a table may have for each stay.
const CELLS_FOR_A_STAY: usize = 2;

/// How many more it may have: so many for each of a few stays, so that a few on days far apart have none.
const FREE_CELLS_FOR_A_STAY: usize = 64;

/// How many more at most.
const MOST_FREE_CELLS: usize = 4096;

/// How many cells there have to be for each user of a host.
const CELLS_FOR_A_USER: usize = 4;

/// The first day that a time can have.
const FIRST_DAY: i32 = -24_858;

/// The day after the last.
const END_DAY: i32 = 24_858;

/// The days of a table: from one on, so many.
#[derive(Clone, Copy)]
pub(crate) struct TableDays {
    pub(crate) first: i32,
    pub(crate) count: usize,
}

/// The times of stays: the earliest and the latest, how many stays there are, the sum of the days that
/// each has, and whether a long one has a row of the clock whole.
#[derive(Clone, Copy)]
pub(crate) struct Extent {
    begin: i32,
    end_time: i32,
    stays: usize,
    days: usize,
    has_whole_row: bool,
}

/// The most days that a stay has.
fn days_over(begin: i32, end_time: i32) -> usize {
    let seconds = i64::from(end_time) - i64::from(begin);
    (seconds.max(0) / 86_400) as usize + 2
}

/// The end of a stay that has ended after few days.
fn short_ending(stay: &TrackedStay) -> Option<Ending> {
    let ending = stay.ended.get()?;
    if days_over(ending.begin, ending.end_time) > DAYS_OF_A_LONG_STAY {
        return None;
    }
    Some(ending)
}

/// Whether a stay begins before a row of the clock and ends after it.
fn has_whole_row(clock: &Clock, begin: i32, end_time: i32) -> bool {
    clock.count_at(begin).saturating_add(1) < clock.count_at(end_time)
}

/// The day two days before that of a second, or the first that a time can have.
fn first_day(time: i32) -> i32
    ensures { days.IsDay result }
{
    let day = day_of(i64::from(time));
    if day < FIRST_DAY + 2 {
        FIRST_DAY
    } else {
        day - 2
    }
}

/// The day three days after that of a second, or the one after the last that a time can have.
fn end_day(time: i32) -> i32
    ensures low { neg_ℤ (pos 24858) ≤ℤ result }
    ensures high { result ≤ℤ pos 24858 }
{
    let day = day_of(i64::from(time));
    if day < END_DAY - 3 { day + 3 } else { END_DAY }
}

impl Extent {
    /// The times of no stays.
    pub(crate) fn none() -> Extent {
        Extent {
            begin: i32::MAX,
            end_time: i32::MIN,
            stays: 0,
            days: 0,
            has_whole_row: false,
        }
    }

    /// These times with one more stay.
    pub(crate) fn with(self, clock: &Clock, begin: i32, end_time: i32) -> Extent {
        let days = days_over(begin, end_time);
        let is_long = days > DAYS_OF_A_LONG_STAY;
        Extent {
            begin: self.begin.min(begin),
            end_time: self.end_time.max(end_time),
            stays: self.stays.saturating_add(1),
            days: self.days.saturating_add(days),
            has_whole_row: self.has_whole_row || is_long && has_whole_row(clock, begin, end_time),
        }
    }

    /// These times within a period.
    pub(crate) fn within(self, period: &Period) -> Extent {
        Extent {
            begin: begin_in(period, self.begin),
            end_time: end_time_in(period, self.end_time),
            ..self
        }
    }

    /// How many cells are worth it for these stays.
    fn most_cells(&self) -> usize
        ensures { result ≤ 33_558_528 }
    {
        let stays = self.stays.min(ENTRY_LIMIT);
        let free = (stays * FREE_CELLS_FOR_A_STAY).min(MOST_FREE_CELLS);
        stays * CELLS_FOR_A_STAY + free
    }

    /// The days of a table, with two more at both ends for local time. There is none where the stays
    /// have too many days, or one has a row of the clock whole, or the hosts together have too many users.
    pub(crate) fn table_days(&self, host_users: usize) -> Option<TableDays>
        ensures first_in { IfSome result (λ table. days.IsDay table.first) }
        ensures few { IfSome result (λ table. table.count ≤ 2 ^ 17) }
    {
        let most = self.most_cells();
        if self.has_whole_row || self.days > most || host_users > most / CELLS_FOR_A_USER {
            return None;
        }
        let first = first_day(self.begin);
        Some(TableDays {
            first,
            count: days_between(first, end_day(self.end_time)),
        })
    }

    /// The number of cells for so many days and users, where there are some and it is small enough.
    pub(crate) fn cells(&self, days: usize, users: usize) -> Option<usize>
        ensures count { IfSome result (λ cells. cells ≡ days * users) }
        ensures some { IfSome result (λ _. 0 < users) }
        ensures few { IfSome result (λ _. users ≤ ENTRY_LIMIT) }
        ensures small { IfSome result (λ cells. cells ≤ 33_558_528) }
    {
        if users == 0 || users > ENTRY_LIMIT {
            return None;
        }
        let cells = days.checked_mul(users)?;
        if cells > self.most_cells() {
            return None;
        }
        Some(cells)
    }
}

/// These users, each once, in order of name bytes.
pub(crate) fn each_once(mut users: Vec<NameKey>) -> Vec<NameKey>
    ensures { IsStrictlySortedBy (slice_cmp nat_cmp) result.items }
{
    users.sort_unstable();
    users.dedup();
    users
}

impl Sessions {
    /// Times with those of a host's stays. The entry is read for a long one, since a boot's is no session, and for
    /// one that nothing has ended.
    fn with_stays(
        &self,
        entries: Entries<'_>,
        host: u32,
        clock: &Clock,
        until: Option<i32>,
        extent: Extent,
    ) -> Extent
        requires host_in { host < HOST_LIMIT }
        requires same { entries_in entries ≡ self.now.entries }
    {
        let track = &self.tracks[host as usize];
        let every = LoginChoice::every();
        let pick = track.pick(&every, false);
        let mut extent = extent;
        for i in 0..track.stays.len() {
            if let Some(ending) = short_ending(&track.stays[i]) {
                extent = extent.with(clock, ending.begin, ending.end_time);
            } else if let Some(part) = track.part_at(host, entries, i, &every, &pick, until) {
                extent = extent.with(clock, part.begin, part.end_time);
            }
        }
        extent
    }

    /// The times of all stays within the period of a choice.
    pub(crate) fn extent(&self, clock: &Clock, choice: &LoginChoice, until: Option<i32>) -> Extent {
        let entries = self.entries();
        let mut extent = Extent::none();
        for host in 0..self.hosts {
            extent = self.with_stays(entries, host, clock, until, extent);
        }
        extent.within(&choice.period)
    }

    /// The most users that a host has.
    pub(crate) fn most_users(&self) -> usize {
        let mut most = 0;
        for track in self.tracks.iter().take(self.hosts as usize) {
            most = track.sums.users.len().max(most);
        }
        most
    }

    /// How many users the hosts have together, one of several hosts as often.
    pub(crate) fn host_users(&self) -> usize {
        let mut count = 0usize;
        for track in self.tracks.iter().take(self.hosts as usize) {
            count = count.saturating_add(track.sums.users.len());
        }
        count
    }

    /// The users of all hosts, each once, in order of name bytes.
    pub(crate) fn users_in_order(&self, alloc: Global) -> Result<Vec<NameKey>, Memory>
        ensures { IfOk result (λ users. IsStrictlySortedBy (slice_cmp nat_cmp) users.items) }
    {
        let mut users = Vec::with_capacity(alloc, self.host_users())?;
        for track in self.tracks.iter().take(self.hosts as usize) {
            track.sums.push_users(&mut users)?;
        }
        Ok(each_once(users))
    }
}
