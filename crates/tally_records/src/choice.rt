//! Which sessions a report is over: those of some users, on some lines, in a part of time.
ghost use Rattle.std.specs.Prelude.{◌≡◌};
ghost use Rattle.std.specs.List.{list_any};
ghost use Rattle.tally_records.specs.Choice.{every_login, is_among, is_every_login, is_name, names_nothing};

use crate::field::Name;
use crate::period::{ALWAYS, Period};

/// The most users that a choice names, and the most lines.
pub const NAMED_LIMIT: usize = 8;

/// The names of users or of lines: each of them is chosen. Where there is none, all are.
pub type Names = [Option<Name>; NAMED_LIMIT];

/// The sessions that a report is over: those of some users, on some lines, in a part of time.
#[derive(Clone, Copy, Debug, PartialEq, Eq)]
pub struct LoginChoice {
    pub users: Names,
    pub lines: Names,
    pub period: Period,
}

/// All sessions.
pub const EVERY_LOGIN: LoginChoice = LoginChoice {
    users: [None; NAMED_LIMIT],
    lines: [None; NAMED_LIMIT],
    period: ALWAYS,
};

/// Whether a choice of names has none.
pub fn names_nothing(names: &Names) -> bool
    ensures { result ≡ names_nothing names.now }
{
    names.iter().all(|name| name.is_none())
}

fn is_name(wanted: &Name, place: &Option<Name>) -> bool
    ensures { result ≡ is_name wanted.now place.now }
{
    match place {
        Some(name) => *name == *wanted,
        None => false,
    }
}

fn has_name(names: &Names, wanted: &Name) -> bool
    ensures { result ≡ list_any (is_name wanted.now) names.now }
{
    names.iter().any(|place| is_name(wanted, place))
}

/// Whether names choose a name.
pub fn is_among(names: &Names, wanted: &Name) -> bool
    ensures { result ≡ is_among names.now wanted.now }
{
    names_nothing(names) || has_name(names, wanted)
}

impl LoginChoice {
    /// All sessions.
    pub fn every() -> LoginChoice
        ensures { result ≡ every_login }
    {
        EVERY_LOGIN
    }

    /// Whether all sessions are chosen.
    pub fn is_every(&self) -> bool
        ensures { result ≡ is_every_login self.now }
    {
        names_nothing(&self.users) && names_nothing(&self.lines) && self.period.is_always()
    }
}
