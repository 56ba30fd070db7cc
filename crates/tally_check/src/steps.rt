//! Steps back in time.
ghost use Rattle.std.specs.Prelude.{◌≡◌, ◌<◌, ◌^◌, ◌-ℤ◌, ◌≤ℤ◌, [], neg_ℤ, pos};
ghost use Rattle.tally_check.specs.Steps as Spec;
ghost use Rattle.tally_check.specs.inside.Stepping as Inside;
ghost use Rattle.tally_sessions.specs.Clock.{shift_at};

use tally_records::{Event, LoginRecord, event};

/// Login records with a time before that of the record before them, where no recorded clock
/// change says why.
#[derive(Clone, Copy, Debug, PartialEq, Eq)]
pub struct Steps {
    pub count: usize,
    /// The greatest step in seconds.
    pub greatest: u64,
}

/// What is kept on a walk over login records.
#[derive(Clone, Copy)]
pub(crate) struct Walk {
    /// The time of the last record.
    last: Option<i32>,
    /// The old time that waits for its new one.
    pending: Option<i32>,
    pub steps: Steps,
}

fn pending_after(pending: Option<i32>, event: Event, time: i32) -> Option<i32>
    ensures { result ≡ Inside.pending_after pending event time }
{
    match event {
        Event::OldTime => Some(time),
        Event::NewTime => None,
        _ => pending,
    }
}

/// By how many seconds a record moves the clock, where this old time waits for its new one.
fn shift_of(pending: Option<i32>, event: Event, time: i32) -> i64
    ensures value { result ≡ shift_at event pending time }
    ensures low { neg_ℤ (pos (2 ^ 32)) ≤ℤ result }
    ensures high { result ≤ℤ pos (2 ^ 32) }
{
    match (event, pending) {
        (Event::NewTime, Some(old)) => i64::from(time) - i64::from(old),
        _ => 0,
    }
}

/// The time of a record by the clock as it was before the record moved it.
fn unmoved(time: i32, shift: i64) -> i64
    requires low { neg_ℤ (pos (2 ^ 32)) ≤ℤ shift }
    requires high { shift ≤ℤ pos (2 ^ 32) }
    ensures value { result ≡ time -ℤ shift }
    ensures low { neg_ℤ (pos (2 ^ 40)) ≤ℤ result }
    ensures high { result ≤ℤ pos (2 ^ 40) }
{
    i64::from(time) - shift
}

/// How many seconds a time is before another.
fn seconds_back(last: Option<i32>, time: i64) -> u64
    requires low { neg_ℤ (pos (2 ^ 40)) ≤ℤ time }
    requires high { time ≤ℤ pos (2 ^ 40) }
    ensures { result ≡ Spec.seconds_back last time }
{
    match last {
        Some(last) => (i64::from(last) - time).max(0).unsigned_abs(),
        None => 0,
    }
}

fn with_step(steps: Steps, step: u64) -> Steps
    requires { steps.count < 2 ^ 60 }
    ensures { result ≡ Inside.with_step steps step }
{
    Steps {
        count: steps.count + usize::from(step > 0),
        greatest: steps.greatest.max(step),
    }
}

/// What is kept after one record more.
fn after(walk: &Walk, login: &LoginRecord) -> Walk
    requires { walk.now.steps.count < 2 ^ 60 }
    ensures { result ≡ Inside.after walk.now login.now }
{
    let event = event(login);
    let shift = shift_of(walk.pending, event, login.time);
    let step = seconds_back(walk.last, unmoved(login.time, shift));
    Walk {
        last: Some(login.time),
        pending: pending_after(walk.pending, event, login.time),
        steps: with_step(walk.steps, step),
    }
}

/// The same, where there is a record.
pub(crate) fn after_if(walk: &Walk, login: &Option<LoginRecord>) -> Walk
    requires { walk.now.steps.count < 2 ^ 60 }
    ensures { result ≡ Inside.after_if walk.now login.now }
{
    match login {
        Some(login) => after(walk, login),
        None => *walk,
    }
}

/// What is kept of no record.
pub(crate) fn no_walk() -> Walk
    ensures { result ≡ Inside.walk_of [] }
{
    Walk {
        last: None,
        pending: None,
        steps: Steps {
            count: 0,
            greatest: 0,
        },
    }
}
