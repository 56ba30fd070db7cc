ghost use Rattle.std.specs.Prelude.{◌≡◌, IfOk};

use std::alloc::Global;
use tally_attempts::{Attempt, AttemptSum};
use tally_records::{List, LoginChoice, Memory, Name};
use tally_sessions::Stay;
use tally_usage::{CommandRow, Order, UidRow, Usage};

/// A report that may be asked for.
#[derive(Clone, Copy, Debug, PartialEq, Eq)]
pub enum Question {
    /// The chosen stays of a host, the latest first, as last(1) lists them; the first `limit` of them. Those that nothing has
    /// ended count up to `until`, in seconds since 1970, or else to the host's last record.
    Last {
        host: u32,
        limit: Option<u32>,
        choice: LoginChoice,
        until: Option<i32>,
    },
    /// Connect times of the chosen sessions, as ac(1) sums them; days at an offset in minutes east of UTC. Sessions that
    /// nothing has ended count as in the list of stays.
    Connect {
        by_day: bool,
        by_user: bool,
        offset: i32,
        choice: LoginChoice,
        until: Option<i32>,
    },
    /// Usage by command, as sa(8) sums it.
    Commands {
        order: Order,
        reverse: bool,
        all: bool,
    },
    /// Usage by user.
    Users {
        order: Order,
        reverse: bool,
    },
    /// The chosen failed logins of a host, the latest first, as lastb(8) lists them; the first `limit` of them.
    Attempts {
        host: u32,
        limit: Option<u32>,
        choice: LoginChoice,
    },
    /// How many of the chosen failed logins each user has from each remote host, the most first; the first `limit` rows.
    AttemptSums {
        limit: Option<u32>,
        choice: LoginChoice,
    },
}

/// Connect time of a day, of a user, or of both.
#[derive(Clone, Copy, Debug, PartialEq, Eq)]
pub struct ConnectRow {
    /// Days since 1970-01-01.
    pub day: Option<i32>,
    pub user: Option<Name>,
    pub seconds: u64,
}

/// The answer to a question.
#[derive(Drop)]
pub enum Answer {
    /// `first` is the time of the host's first record.
    Last {
        rows: List<Stay>,
        first: Option<i32>,
    },
    /// The total is in seconds.
    Connect {
        rows: List<ConnectRow>,
        total: u64,
    },
    Commands {
        rows: List<CommandRow>,
        total: Usage,
    },
    Users {
        rows: List<UidRow>,
        total: Usage,
    },
    /// `first` is the time of the host's first record.
    Attempts {
        rows: List<Attempt>,
        first: Option<i32>,
    },
    AttemptSums {
        rows: List<AttemptSum>,
    },
}

impl Answer {
    /// An equal answer.
    pub fn try_copy(&self, alloc: Global) -> Result<Answer, Memory>
        ensures value { IfOk result (λ copy. copy ≡ self.now) }
    {
        match self {
            Answer::Last { rows, first } => Ok(Answer::Last {
                rows: rows.try_copy(alloc)?,
                first: *first,
            }),
            Answer::Connect { rows, total } => Ok(Answer::Connect {
                rows: rows.try_copy(alloc)?,
                total: *total,
            }),
            Answer::Commands { rows, total } => Ok(Answer::Commands {
                rows: rows.try_copy(alloc)?,
                total: *total,
            }),
            Answer::Users { rows, total } => Ok(Answer::Users {
                rows: rows.try_copy(alloc)?,
                total: *total,
            }),
            Answer::Attempts { rows, first } => {
                let rows = rows.try_copy(alloc)?;
                let first = *first;
                Ok(Answer::Attempts { rows, first })
            }
            Answer::AttemptSums { rows } => {
                let rows = rows.try_copy(alloc)?;
                Ok(Answer::AttemptSums { rows })
            }
        }
    }
}
