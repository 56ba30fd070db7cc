//! Connect time of several hosts, of which each has a count of its records.
ghost use Rattle.std.specs.Prelude.{◌≡◌, ◌≤◌, ◌<◌, ℕ, ℤ, List as Items, All, IfOk, length, sum_by, true};
ghost use Rattle.std.specs.Cmp.Lexicographic.{slice_cmp};
ghost use Rattle.std.specs.Ordering.{int_cmp, nat_cmp};
ghost use Rattle.tally_records.specs.Choice.{every_login};
ghost use Rattle.tally_sessions.specs.ConnectSums.{AreCountsOf, IsAboutAll};
ghost use Rattle.tally_sessions.specs.Days.{IsDay, IsOffset, local};
ghost use Rattle.tally_sessions.specs.Rows.{day_times, user_times};
ghost use Rattle.tally_sessions.specs.Sums.{seconds_in, seconds_of_day, seconds_of_user, sessions_of};
ghost use Rattle.tally_sessions.specs.declared.entry.Entry.{Entry};
ghost use Rattle.tally_sessions.specs.inside.Alike.{AreAlike};
ghost use Rattle.tally_sessions.specs.inside.KeptSessions.{chained_ahead, sessions_ahead};
ghost use Rattle.tally_sessions.specs.inside.Sums.{sum_at};

use crate::connect::day_sums::day_sums;
use crate::connect::name_key::NameKey;
use crate::connect::{day_rows, user_rows};
use crate::connect_sums::ConnectSums;
use crate::connect_sums::kept_sessions::KeptSessions;
use crate::connect_sums::kept_walk::ChainedSessions;
use crate::sessions::{ENTRY_LIMIT, HOST_LIMIT};
use crate::times::{DayTime, UserTime};
use std::alloc::Global;
use std::collections::BTreeMap;
use tally_clock::Clock;
use tally_records::{List, Memory};

/// The seconds of the sessions of several hosts, each of which has a count. Those that nothing has ended count up to a moment, in
/// seconds since 1970, or else to their host's last record.
pub fn total_of_counts(counts: &[ConnectSums], until: Option<i32>) -> u64
    requires few { length counts.now ≤ HOST_LIMIT }
    ensures value { IsAboutAll counts.now (λ es. seconds_in (sessions_of every_login es until)) result }
{
    let mut seconds = 0;
    for count in counts {
        seconds += count.total(until);
    }
    seconds
}

/// The seconds of each user's sessions on these hosts.
fn user_sums(
    alloc: Global,
    counts: &[ConnectSums],
    until: Option<i32>,
) -> Result<BTreeMap<NameKey, u64>, Memory>
    requires few { length counts.now ≤ HOST_LIMIT }
    ensures value { IfOk result (λ sums. (user : Items ℕ) → IsAboutAll counts.now (λ es. seconds_of_user user (sessions_of every_login es until)) (sum_at (slice_cmp nat_cmp) sums.entries user)) }
{
    let mut sums = BTreeMap::new(alloc);
    for count in counts {
        count.add_users(&mut sums, until)?;
    }
    Ok(sums)
}

/// The connect time of each user that has any on these hosts, in order of name bytes, counted as in the total.
pub fn connect_by_user_of_counts(
    alloc: Global,
    counts: &[ConnectSums],
    until: Option<i32>,
) -> Result<List<UserTime>, Memory>
    requires few { length counts.now ≤ HOST_LIMIT }
    ensures value { IfOk result (IsAboutAll counts.now (λ es. user_times (sessions_of every_login es until))) }
{
    let sums = user_sums(alloc, counts, until)?;
    List::from_vec(alloc, user_rows(alloc, &sums)?)
}

/// The sessions of these hosts, whose counts keep them.
pub(crate) fn sessions_of_counts<'a>(
    alloc: Global,
    counts: &'a [ConnectSums],
    until: Option<i32>,
) -> Result<ChainedSessions<KeptSessions<'a>>, Memory>
    requires few { length counts.now ≤ HOST_LIMIT }
    requires kept { All (λ c. c.keeps_sessions ≡ true) counts.now }
    ensures value { IfOk result (λ chain. (es : Items Entry) → AreCountsOf counts.now es → AreAlike (chained_ahead sessions_ahead chain) (sessions_of every_login es until)) }
    ensures few { IfOk result (λ chain. length (chained_ahead sessions_ahead chain) ≤ sum_by (λ c. c.count) counts.now) }
{
    let mut sources = Vec::with_capacity(alloc, counts.len())?;
    for count in counts {
        sources.push_reserved(count.sessions(until));
    }
    Ok(ChainedSessions::of(sources))
}

/// The seconds of the sessions on each day, on these hosts.
#[tactic(auto, using(crate::proofs::connect::AlikeDays::alike_on_day))]
fn day_sums_of_counts(
    alloc: Global,
    counts: &[ConnectSums],
    clock: &Clock,
    offset: i32,
    until: Option<i32>,
) -> Result<BTreeMap<i32, u64>, Memory>
    requires offset_in { IsOffset offset }
    requires few { length counts.now ≤ HOST_LIMIT }
    requires room { sum_by (λ c. c.count) counts.now ≤ ENTRY_LIMIT }
    requires kept { All (λ c. c.keeps_sessions ≡ true) counts.now }
    ensures value { IfOk result (λ sums. (day : ℤ) → IsAboutAll counts.now (λ es. seconds_of_day (local clock.now offset) day (sessions_of every_login es until)) (sum_at int_cmp sums.entries day)) }
    ensures days { IfOk result (λ sums. (day : ℤ) → 0 < sum_at int_cmp sums.entries day → IsDay day) }
{
    let mut sessions = sessions_of_counts(alloc, counts, until)?;
    let sums = day_sums(alloc, clock, offset, &mut sessions)?;
    Ok(sums)
}

/// The connect time of each day that has any on these hosts, in order, by the days of a clock with an offset in minutes east of it,
/// counted as in the total. The counts keep their sessions.
pub fn connect_by_day_of_counts(
    alloc: Global,
    counts: &[ConnectSums],
    clock: &Clock,
    offset: i32,
    until: Option<i32>,
) -> Result<List<DayTime>, Memory>
    requires offset_in { IsOffset offset }
    requires few { length counts.now ≤ HOST_LIMIT }
    requires room { sum_by (λ c. c.count) counts.now ≤ ENTRY_LIMIT }
    requires kept { All (λ c. c.keeps_sessions ≡ true) counts.now }
    ensures value { IfOk result (IsAboutAll counts.now (λ es. day_times (local clock.now offset) (sessions_of every_login es until))) }
    ensures days { IfOk result (All (λ row. IsDay row.day)) }
{
    let sums = day_sums_of_counts(alloc, counts, clock, offset, until)?;
    List::from_vec(alloc, day_rows(alloc, &sums)?)
}
