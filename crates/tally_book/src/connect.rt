//! The rows of connect times.
ghost use Rattle.std.specs.Prelude.{◌≡◌, ◌<◌, ◌^◌, All, IfOk, false, map, sum_by, true};
ghost use Rattle.tally_answers.specs.Answers.{HasDay, connect_rows, row_of_day, row_of_day_user, row_of_user};
ghost use Rattle.tally_book.specs.inside.RowSums.{AddUpTo};
ghost use Rattle.tally_sessions.specs.Days.{IsDay, IsOffset, local};
ghost use Rattle.tally_sessions.specs.Sums.{seconds_in, sessions_of};

use std::alloc::{AllocError, Global};
use tally_answers::ConnectRow;
use tally_clock::Clock;
use tally_records::{List, LoginChoice, Memory};
use tally_sessions::{DayTime, DayUserTime, Sessions, UserTime, user_rows_add_up};

pub(crate) fn user_rows(alloc: Global, times: &[UserTime]) -> Result<Vec<ConnectRow>, AllocError>
    ensures { IfOk result (λ rows. rows.items ≡ map row_of_user times.now) }
{
    times
        .iter()
        .map(|time| ConnectRow {
            day: None,
            user: Some(time.user),
            seconds: time.seconds,
        })
        .collect(alloc)
}

pub(crate) fn day_rows(alloc: Global, times: &[DayTime]) -> Result<Vec<ConnectRow>, AllocError>
    ensures { IfOk result (λ rows. rows.items ≡ map row_of_day times.now) }
{
    times
        .iter()
        .map(|time| ConnectRow {
            day: Some(time.day),
            user: None,
            seconds: time.seconds,
        })
        .collect(alloc)
}

pub(crate) fn day_user_rows(
    alloc: Global,
    times: &[DayUserTime],
) -> Result<Vec<ConnectRow>, AllocError>
    ensures { IfOk result (λ rows. rows.items ≡ map row_of_day_user times.now) }
{
    times
        .iter()
        .map(|time| ConnectRow {
            day: Some(time.day),
            user: Some(time.user),
            seconds: time.seconds,
        })
        .collect(alloc)
}

/// The rows of users. They add up to the same seconds as the users do.
fn rows_of_users(alloc: Global, times: &[UserTime]) -> Result<List<ConnectRow>, Memory>
    requires fits { sum_by (λ time. time.seconds) times.now < 2 ^ 56 }
    ensures rows { IfOk result (λ rows. rows ≡ map row_of_user times.now) }
    ensures days { IfOk result (All HasDay) }
    ensures sum { IfOk result (AddUpTo (sum_by (λ time. time.seconds) times.now)) }
{
    List::from_vec(alloc, user_rows(alloc, times)?)
}

/// The rows of connect times of the chosen sessions by day, by user, by both or none, with days by a clock and an offset in
/// minutes east of it. Those by user alone add up to the total.
pub(crate) fn connect_rows(
    alloc: Global,
    clock: &Clock,
    sessions: &Sessions,
    by_day: bool,
    by_user: bool,
    offset: i32,
    choice: &LoginChoice,
    until: Option<i32>,
) -> Result<List<ConnectRow>, Memory>
    requires { IsOffset offset }
    ensures value { IfOk result (λ rows. rows ≡ connect_rows by_day by_user (local clock.now offset) choice.now sessions.now.entries until) }
    ensures days { IfOk result (All HasDay) }
    ensures users { IfOk result (λ rows. by_day ≡ false → by_user ≡ true → AddUpTo (seconds_in (sessions_of choice.now sessions.now.entries until)) rows) }
{
    match (by_day, by_user) {
        (false, false) => Ok(List::new(alloc)),
        (false, true) => {
            // The rows have the seconds of all chosen sessions.
            user_rows_add_up();
            let times = sessions.connect_by_user(alloc, choice, until)?;
            rows_of_users(alloc, times.as_slice())
        }
        (true, false) => {
            let times = sessions.connect_by_day(alloc, clock, offset, choice, until)?;
            List::from_vec(alloc, day_rows(alloc, times.as_slice())?)
        }
        (true, true) => {
            let times = sessions.connect_by_day_user(alloc, clock, offset, choice, until)?;
            List::from_vec(alloc, day_user_rows(alloc, times.as_slice())?)
        }
    }
}
