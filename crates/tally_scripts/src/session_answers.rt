//! All that sessions of two hosts answer, to be compared.
ghost use Rattle.std.specs.Prelude.{◌≡◌};

use crate::stopped::both;
use std::alloc::Global;
use tally_clock::Clock;
use tally_records::{List, LoginChoice, Memory, Name};
use tally_sessions::{DayTime, DayUserTime, Entry, Sessions, Stay, UserTime};

/// What takes no memory to ask.
#[derive(Clone, Copy, PartialEq, Eq)]
pub(crate) struct Seen {
    pub(crate) entries: usize,
    pub(crate) total: u64,
    pub(crate) of_ann: u64,
    pub(crate) first: Option<i32>,
}

/// The stored entries and the answers to all questions.
#[derive(Drop)]
pub(crate) struct Answers {
    pub(crate) seen: Seen,
    entries: Vec<Entry>,
    of_first_host: List<Stay>,
    pub(crate) of_second_host: List<Stay>,
    pub(crate) by_user: List<UserTime>,
    pub(crate) by_day: List<DayTime>,
    pub(crate) by_both: List<DayUserTime>,
}

fn name(text: &str) -> Name {
    let mut name = [0; 32];
    for (to, from) in name.iter_mut().zip(text.as_bytes()) {
        *to = *from;
    }
    name
}

pub(crate) fn seen_of(sessions: &Sessions) -> Seen
    requires { sessions.now.hosts ≡ 2 }
{
    Seen {
        entries: sessions.entries().len(),
        total: sessions.total(&LoginChoice::every(), None),
        of_ann: sessions.connect(&name("ann"), None),
        first: sessions.first(1),
    }
}

fn ask_all(alloc: Global, sessions: &Sessions) -> Result<Answers, Memory>
    requires { sessions.now.hosts ≡ 2 }
{
    let every = LoginChoice::every();
    let entries = sessions.entries().iter().collect(alloc)?;
    let stays = both(
        sessions.stays(alloc, 0, None, &every, None),
        sessions.stays(alloc, 1, None, &every, None),
    );
    let days = both(
        sessions.connect_by_day(alloc, &Clock::utc(alloc), 0, &every, None),
        sessions.connect_by_day_user(alloc, &Clock::utc(alloc), 0, &every, None),
    );
    let times = both(sessions.connect_by_user(alloc, &every, None), days);
    let ((of_first_host, of_second_host), (by_user, (by_day, by_both))) = both(stays, times)?;
    Ok(Answers {
        seen: seen_of(sessions),
        entries,
        of_first_host,
        of_second_host,
        by_user,
        by_day,
        by_both,
    })
}

/// The answers, asked again where memory was refused.
pub(crate) fn answers_of(alloc: Global, sessions: &Sessions) -> Result<Answers, Memory>
    requires { sessions.now.hosts ≡ 2 }
{
    match ask_all(alloc, sessions) {
        Err(_) => ask_all(alloc, sessions),
        answered => answered,
    }
}

/// Whether entries and answers are the same.
pub(crate) fn are_same(a: &Answers, b: &Answers) -> bool {
    a.seen == b.seen
        && a.entries.as_slice() == b.entries.as_slice()
        && a.of_first_host.as_slice() == b.of_first_host.as_slice()
        && a.of_second_host.as_slice() == b.of_second_host.as_slice()
        && a.by_user.as_slice() == b.by_user.as_slice()
        && a.by_day.as_slice() == b.by_day.as_slice()
        && a.by_both.as_slice() == b.by_both.as_slice()
}
