//! The answer on connect time of login records that were counted and let go.
ghost use Rattle.std.specs.Prelude.{◌≡◌, ◌≤◌, All, IfOk, IsTrue, length, sum_by, true};
ghost use Rattle.tally_answers.specs.Answers.{HasDay, HasDays, IsAnswerOfCounts, connect_rows};
ghost use Rattle.tally_records.specs.Choice.{every_login};
ghost use Rattle.tally_sessions.specs.ConnectSums.{IsAboutAll};
ghost use Rattle.tally_sessions.specs.Days.{IsOffset, local};

use crate::connect::{day_rows, day_user_rows, user_rows};
use std::alloc::Global;
use tally_answers::{Answer, ConnectRow};
use tally_clock::Clock;
use tally_records::{List, Memory};
use tally_sessions::{
    ConnectSums, ENTRY_LIMIT, HOST_LIMIT, connect_by_day_of_counts, connect_by_day_user_of_counts,
    connect_by_user_of_counts, every_session_is_chosen, total_of_counts,
};

/// The rows of connect times by day, by user, by both or none, with days by a clock and an offset in minutes east of it.
fn rows_of_counts(
    alloc: Global,
    counts: &[ConnectSums],
    clock: &Clock,
    offset: i32,
    by_day: bool,
    by_user: bool,
    until: Option<i32>,
) -> Result<List<ConnectRow>, Memory>
    requires offset_in { IsOffset offset }
    requires few { length counts.now ≤ HOST_LIMIT }
    requires room { sum_by (λ c. c.count) counts.now ≤ ENTRY_LIMIT }
    requires kept { IsTrue by_day → All (λ c. c.keeps_sessions ≡ true) counts.now }
    ensures value { IfOk result (IsAboutAll counts.now (λ es. connect_rows by_day by_user (local clock.now offset) every_login es until)) }
    ensures days { IfOk result (All HasDay) }
{
    match (by_day, by_user) {
        (false, false) => Ok(List::new(alloc)),
        (false, true) => {
            let times = connect_by_user_of_counts(alloc, counts, until)?;
            List::from_vec(alloc, user_rows(alloc, times.as_slice())?)
        }
        (true, false) => {
            let times = connect_by_day_of_counts(alloc, counts, clock, offset, until)?;
            List::from_vec(alloc, day_rows(alloc, times.as_slice())?)
        }
        (true, true) => {
            let times = connect_by_day_user_of_counts(alloc, counts, clock, offset, until)?;
            List::from_vec(alloc, day_user_rows(alloc, times.as_slice())?)
        }
    }
}

/// The answer on the connect time of all sessions of several hosts, in total, by day, by user or by both, from the counts of their
/// records. No record is needed. Days are those of a clock with an offset in minutes east of it, and want counts that keep their
/// sessions.
pub fn connect_of_counts(
    alloc: Global,
    counts: &[ConnectSums],
    clock: &Clock,
    offset: i32,
    by_day: bool,
    by_user: bool,
    until: Option<i32>,
) -> Result<Answer, Memory>
    requires offset_in { IsOffset offset }
    requires few { length counts.now ≤ HOST_LIMIT }
    requires room { sum_by (λ c. c.count) counts.now ≤ ENTRY_LIMIT }
    requires kept { IsTrue by_day → All (λ c. c.keeps_sessions ≡ true) counts.now }
    ensures value { IfOk result (IsAnswerOfCounts clock.now offset counts.now by_day by_user until) }
    ensures days { IfOk result HasDays }
{
    // Whichever choice leaves nothing out, the answer is the same.
    every_session_is_chosen();
    let rows = rows_of_counts(alloc, counts, clock, offset, by_day, by_user, until)?;
    let total = total_of_counts(counts, until);
    Ok(Answer::Connect { rows, total })
}
