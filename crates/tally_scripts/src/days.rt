//! Users on days that are summed without a table: with days too far apart for one, with a session that has a row
//! of the clock whole, which a table meets only when it is filled, and with a longer one, for which none is made.
use crate::sessions::print_both;
use crate::stopped::{Stopped, stop};
use std::alloc::Global;
use tally_clock::{Clock, RuleFault};
use tally_records::{List, LoginChoice, Memory};
use tally_sessions::{DayUserTime, Sessions};

/// Each year an hour ahead from the beginning of the 4th of January to the end of the 5th.
const TWO_DAYS: &[u8] = b"AAA0BBB,J4/0,J6/0";

/// Ten, twenty and three thousand days after the beginning of 1970.
const TEN_DAYS: i32 = 864_000;

const TWENTY_DAYS: i32 = 1_728_000;

const MANY_DAYS: i32 = 259_200_000;

/// The clock of the rule, made again where memory was refused.
fn two_days(alloc: Global) -> Result<Clock, Stopped> {
    let made = match Clock::of_rule(alloc, TWO_DAYS) {
        Err(RuleFault::Memory) => Clock::of_rule(alloc, TWO_DAYS),
        made => made,
    };
    stop(made)
}

/// The rows up to a moment, asked for again where memory was refused.
fn rows_until(
    alloc: Global,
    sessions: &Sessions,
    clock: &Clock,
    until: i32,
) -> Result<List<DayUserTime>, Memory> {
    let every = LoginChoice::every();
    match sessions.connect_by_day_user(alloc, clock, 0, &every, Some(until)) {
        Err(_) => sessions.connect_by_day_user(alloc, clock, 0, &every, Some(until)),
        answered => answered,
    }
}

/// Prints how many rows there are, the seconds of all, and the last.
fn print_sum<R: Print>(rt: &R, rows: &[DayUserTime]) -> Result<(), Stopped> {
    let mut seconds = 0u64;
    for row in rows {
        seconds = seconds.saturating_add(row.seconds);
    }
    println!(rt; "days: {} rows, {seconds} seconds", rows.len())?;
    if let Some(last) = rows.last() {
        print_both(rt, &[*last])?;
    }
    Ok(())
}

/// Prints the rows up to a day, or their sum.
fn print_until<R: Print + AllocGlobal>(
    rt: &R,
    sessions: &Sessions,
    clock: &Clock,
    until: i32,
    is_sum: bool,
) -> Result<(), Stopped> {
    let rows = rows_until(rt.alloc(), sessions, clock, until)?;
    let printed = if is_sum {
        print_sum(rt, rows.as_slice())
    } else {
        print_both(rt, rows.as_slice())
    };
    drop(rows);
    printed
}

/// Prints the rows of a clock up to ten days, and the sum of those up to twenty.
fn print_twice<R: Print + AllocGlobal>(
    rt: &R,
    sessions: &Sessions,
    clock: &Clock,
) -> Result<(), Stopped> {
    print_until(rt, sessions, clock, TEN_DAYS, false)?;
    print_until(rt, sessions, clock, TWENTY_DAYS, true)
}

/// Prints the rows of sessions of which one has not ended, up to these days.
pub(crate) fn print_days<R: Print + AllocGlobal>(
    rt: &R,
    sessions: &Sessions,
) -> Result<(), Stopped> {
    let utc = Clock::utc(rt.alloc());
    let printed = print_until(rt, sessions, &utc, MANY_DAYS, true);
    drop(utc);
    printed?;
    let clock = two_days(rt.alloc())?;
    let printed = print_twice(rt, sessions, &clock);
    drop(clock);
    printed
}
