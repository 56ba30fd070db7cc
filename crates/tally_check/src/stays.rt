//! Sessions that weigh in a report: those still open, and those that a boot ended.
ghost use Rattle.std.specs.Prelude.{◌≡◌, ◌<◌, ◌≤◌, ◌+◌, ◌*◌, ◌^◌, length};
ghost use Rattle.tally_check.specs.Stays as Spec;
ghost use Rattle.tally_check.specs.inside.Weights as Inside;

use tally_sessions::{ENTRY_LIMIT, End, Sessions as Kept, Stay};

/// How many sessions there are, and their seconds together.
#[derive(Clone, Copy, Debug, PartialEq, Eq)]
pub struct Stayed {
    pub count: usize,
    pub seconds: u64,
}

/// The sessions of login records that weigh in a report.
#[derive(Clone, Copy, Debug, PartialEq, Eq)]
pub struct Sessions {
    /// Those that nothing has ended. They count up to the last record.
    pub still_open: Stayed,
    /// Those that a boot ended, with no shutdown before it.
    pub crashed: Stayed,
}

const NONE: Stayed = Stayed {
    count: 0,
    seconds: 0,
};

fn is_open(stay: &Stay) -> bool
    ensures { result ≡ Spec.is_open_session stay.now }
{
    !stay.is_boot && matches!(stay.end, End::Still)
}

fn is_crashed(stay: &Stay) -> bool
    ensures { result ≡ Spec.is_crashed_session stay.now }
{
    !stay.is_boot && matches!(stay.end, End::Crash)
}

/// One more of this length, where it is of the sort.
fn with_stayed(stayed: Stayed, is_one: bool, length: u64) -> Stayed
    requires count { stayed.count < 2 ^ 60 }
    requires seconds { stayed.seconds < 2 ^ 60 }
    requires length { length < 2 ^ 32 }
    ensures { result ≡ Inside.with_stayed stayed is_one length }
{
    if !is_one {
        return stayed;
    }
    Stayed {
        count: stayed.count + 1,
        seconds: stayed.seconds + length,
    }
}

/// What weighs, with one stay more.
fn with_stay(sessions: &Sessions, stay: &Stay) -> Sessions
    requires light { Inside.AreLight sessions.now }
    requires length { stay.now.length < 2 ^ 32 }
    ensures { result ≡ Inside.with_stay sessions.now stay.now }
{
    Sessions {
        still_open: with_stayed(sessions.still_open, is_open(stay), stay.length),
        crashed: with_stayed(sessions.crashed, is_crashed(stay), stay.length),
    }
}

/// A stay that others are written over.
fn blank() -> Stay {
    Stay {
        host: 0,
        is_boot: false,
        user: [0; 32],
        line: [0; 32],
        remote: [0; 256],
        start: 0,
        begin: 0,
        end: End::Still,
        end_time: 0,
        length: 0,
    }
}

/// What weighs of the sessions of one host, looked at one after another.
pub(crate) fn weighed(kept: &Kept) -> Sessions
    requires host { kept.now.hosts ≡ 1 }
    requires few { length kept.now.entries ≤ ENTRY_LIMIT }
    ensures { result ≡ Spec.weighed (Spec.stays_among kept.now.entries) }
{
    let mut stay = blank();
    let mut sessions = Sessions {
        still_open: NONE,
        crashed: NONE,
    };
    for place in 0..kept.stay_count(0) {
        kept.put_latest_stay(0, place, None, &mut stay);
        sessions = with_stay(&sessions, &stay);
    }
    sessions
}
