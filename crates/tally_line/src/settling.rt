//! The moments of a command line as seconds on the clock of a run.
ghost use Rattle.std.specs.Prelude.{◌≡◌, IfNone, IfOk, IfSome, None, true};
ghost use Rattle.tally_line.specs.Jobs.{IsRunnable, TakesUntil};
ghost use Rattle.tally_line.specs.Settled as Spec;
ghost use Rattle.tally_line.specs.Settled.{AreRefused, AreSecondsOf, IsSecondIn, Settles, SettlesChoice};
ghost use Rattle.tally_moments.specs.Seconds.{local};

use crate::job::{Job, Report};
use crate::times::Times;
use tally_clock::Clock;
use tally_moments::{Moment, second_of};
use tally_records::{LoginChoice, Period};
use tally_usage::{ProcChoice, Uids};
use thiserror::Error as ErrorText;

/// Why the moments of a command line are refused. The text says how to find more, as that of refused
/// words does.
#[derive(Clone, Copy, Debug, PartialEq, Eq, ErrorText)]
pub enum TimesFault {
    /// That of `--until` is no second from 0 to 2,147,483,647.
    #[error("error: --until is not from 1970-01-01 00:00:00 to 2038-01-19 03:14:07 by UTC\n\nFor more information, try '--help'.\n")]
    Until,
    /// That of `--from`, or the beginning of `--in`, is no second from -2^31 to 2^32 - 1.
    #[error("error: --from, or the beginning of --in, is not from 1901-12-13 20:45:52 to 2106-02-07 06:28:15 by UTC\n\nFor more information, try '--help'.\n")]
    From,
    /// That of `--to`, or the end of `--in`, is none.
    #[error("error: --to, or the end of --in, is not from 1901-12-13 20:45:52 to 2106-02-07 06:28:15 by UTC\n\nFor more information, try '--help'.\n")]
    To,
    /// That of `--at` is none.
    #[error("error: --at is not from 1901-12-13 20:45:52 to 2106-02-07 06:28:15 by UTC\n\nFor more information, try '--help'.\n")]
    At,
    /// That of `--from` comes after that of `--to`.
    #[error("error: --from is after --to\n\nFor more information, try '--help'.\n")]
    Backward,
}

/// The seconds of a command line's moments.
#[derive(Clone, Copy)]
pub(crate) struct Seconds {
    until: Option<i64>,
    from: Option<i64>,
    to: Option<i64>,
    at: Option<i64>,
}

/// What is wrong with moments on every clock, so that a command line is refused before its zone is read: seconds that need no
/// clock and are out of range or in the wrong order. `settle` names the same fault.
pub fn known_fault(times: &Times) -> Option<TimesFault>
    ensures value { result ≡ Spec.known_fault times.now }
    ensures refused { IfSome result (AreRefused times.now) }
{
    fault_of(known_seconds(times))
}

/// A job with the seconds of its moments, on a clock with the job's minutes east of it on top; `now` is the second at which
/// the words were read. It errs where a second is out of range, or where the period goes backward.
pub fn settle(job: &Job, times: &Times, clock: &Clock, now: i64) -> Result<Job, TimesFault>
    ensures value { Settles (local clock.now job.now.offset) now times.now job.now result }
    ensures runnable { IsRunnable job.now → TakesUntil job.now.report times.now.until → IfOk result IsRunnable }
{
    settled(times, job, seconds_of(times, clock, job.offset, now))
}

/// The processes of these users in the period of a command line's moments, on a clock with so many minutes east of it on top;
/// `now` is the second at which the words were read. It errs as `settle` does.
pub fn settle_choice(
    uids: Uids,
    times: &Times,
    clock: &Clock,
    minutes: i32,
    now: i64,
) -> Result<ProcChoice, TimesFault>
    ensures { SettlesChoice (local clock.now minutes) now times.now uids result }
{
    chosen_procs(times, uids, seconds_of(times, clock, minutes, now))
}

/// The second of a moment that needs no clock.
fn known(moment: Option<Moment>) -> Option<i64>
    ensures { result ≡ Spec.known moment }
{
    match moment {
        Some(Moment::Second(second)) => Some(second),
        _ => None,
    }
}

fn known_seconds(times: &Times) -> Seconds
    ensures { result ≡ Spec.known_seconds times.now }
{
    Seconds {
        until: known(times.until),
        from: known(times.from),
        to: known(times.to),
        at: known(times.at),
    }
}

/// The second of a moment, where there is one.
fn second_in(moment: Option<Moment>, clock: &Clock, minutes: i32, now: i64) -> Option<i64>
    ensures { IsSecondIn (local clock.now minutes) now moment result }
{
    Some(second_of(clock, minutes, moment?, now))
}

fn seconds_of(times: &Times, clock: &Clock, minutes: i32, now: i64) -> Seconds
    ensures { AreSecondsOf (local clock.now minutes) now times.now result }
{
    Seconds {
        until: second_in(times.until, clock, minutes, now),
        from: second_in(times.from, clock, minutes, now),
        to: second_in(times.to, clock, minutes, now),
        at: second_in(times.at, clock, minutes, now),
    }
}

/// The job with these seconds, or what is wrong with them: first what is wrong on every clock.
fn settled(times: &Times, job: &Job, seconds: Seconds) -> Result<Job, TimesFault>
    ensures { result ≡ Spec.settled times.now job.now seconds }
{
    match fault_in(times, seconds) {
        Some(fault) => Err(fault),
        None => Ok(with_seconds(job, seconds)),
    }
}

/// The processes of these users in the period of these seconds, or what is wrong with them, as `settled` finds it.
fn chosen_procs(times: &Times, uids: Uids, seconds: Seconds) -> Result<ProcChoice, TimesFault>
    ensures { result ≡ Spec.chosen_procs times.now uids seconds }
{
    match fault_in(times, seconds) {
        Some(found) => Err(found),
        None => Ok(ProcChoice {
            uids,
            period: period_of(seconds),
        }),
    }
}

/// What is wrong with moments that come to these seconds: first what is wrong on every clock.
fn fault_in(times: &Times, seconds: Seconds) -> Option<TimesFault>
    ensures value { result ≡ Spec.fault_in times.now seconds }
    ensures none { IfNone result (Spec.fault_of seconds ≡ None) }
{
    known_fault(times).or(fault_of(seconds))
}

/// What is wrong with seconds.
fn fault_of(seconds: Seconds) -> Option<TimesFault>
    ensures { result ≡ Spec.fault_of seconds }
{
    if !is_until(seconds.until) {
        Some(TimesFault::Until)
    } else if !is_moment(seconds.from) {
        Some(TimesFault::From)
    } else if !is_moment(seconds.to) {
        Some(TimesFault::To)
    } else if !is_moment(seconds.at) {
        Some(TimesFault::At)
    } else if goes_back(seconds.from, seconds.to) {
        Some(TimesFault::Backward)
    } else {
        None
    }
}

/// Whether a second is one that `--until` takes, where there is one.
fn is_until(second: Option<i64>) -> bool
    ensures { result ≡ Spec.is_until second }
{
    is_from_to(second, 0, 2_147_483_647)
}

/// Whether a second is one that a period takes, where there is one.
fn is_moment(second: Option<i64>) -> bool
    ensures { result ≡ Spec.is_moment second }
{
    is_from_to(second, -2_147_483_648, 4_294_967_295)
}

fn is_from_to(second: Option<i64>, least: i64, most: i64) -> bool
    ensures { result ≡ Spec.is_from_to least most second }
{
    match second {
        Some(second) => least <= second && second <= most,
        None => true,
    }
}

fn goes_back(from: Option<i64>, to: Option<i64>) -> bool
    ensures { result ≡ Spec.goes_back from to }
{
    match (from, to) {
        (Some(from), Some(to)) => to < from,
        _ => false,
    }
}

/// A job with its seconds.
fn with_seconds(job: &Job, seconds: Seconds) -> Job
    requires { Spec.fault_of seconds ≡ None }
    ensures { result ≡ Spec.with_seconds job.now seconds }
{
    Job {
        report: over(period_of(seconds), job.report),
        until: as_time(seconds.until),
        ..*job
    }
}

/// The period of these seconds: that of one second, or from one up to another.
fn period_of(seconds: Seconds) -> Period
    requires { Spec.is_moment seconds.at ≡ true }
    ensures { result ≡ Spec.period_of seconds }
{
    match seconds.at {
        Some(second) => Period {
            from: Some(second),
            to: Some(second + 1),
        },
        None => Period {
            from: seconds.from,
            to: seconds.to,
        },
    }
}

/// A report over a period.
fn over(period: Period, report: Report) -> Report
    ensures { result ≡ Spec.over period report }
{
    match report {
        Report::Last {
            limit,
            choice,
            within,
        } => Report::Last {
            limit,
            choice: LoginChoice { period, ..choice },
            within,
        },
        Report::Attempts { limit, choice } => Report::Attempts {
            limit,
            choice: LoginChoice { period, ..choice },
        },
        Report::AttemptSums { limit, choice } => Report::AttemptSums {
            limit,
            choice: LoginChoice { period, ..choice },
        },
        Report::Connect {
            by_day,
            by_user,
            choice,
        } => Report::Connect {
            by_day,
            by_user,
            choice: LoginChoice { period, ..choice },
        },
        Report::Commands { .. } | Report::Users { .. } | Report::All => report,
    }
}

fn as_time(second: Option<i64>) -> Option<i32>
    requires { Spec.is_until second ≡ true }
    ensures { result ≡ second }
{
    match second {
        Some(second) => Some(second as i32),
        None => None,
    }
}
