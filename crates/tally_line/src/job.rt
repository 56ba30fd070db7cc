//! What a run of the program is to do.
use tally_records::LoginChoice;
use tally_usage::Order;

/// The report that is asked for, and what it is over.
#[derive(Clone, Copy, Debug, PartialEq, Eq)]
pub enum Report {
    /// The stays of each file, the latest first, as last(1) lists them; as a table with the seconds
    /// within the period, where `within`.
    Last {
        limit: Option<u32>,
        choice: LoginChoice,
        within: bool,
    },
    /// The failed logins of each file, the latest first, as lastb(8) lists them.
    Attempts {
        limit: Option<u32>,
        choice: LoginChoice,
    },
    /// How many failed logins each user and remote host have over all files, the most first.
    AttemptSums {
        limit: Option<u32>,
        choice: LoginChoice,
    },
    /// Connect time over all files, as ac(1) sums it.
    Connect {
        by_day: bool,
        by_user: bool,
        choice: LoginChoice,
    },
    /// The usage of commands over all files, as sa(8) sums it.
    Commands {
        order: Order,
        reverse: bool,
        all: bool,
    },
    /// The usage of users over all files, as `sa -m` sums it.
    Users {
        order: Order,
        reverse: bool,
    },
    /// The stays of each login file, then connect time, then the usage of commands.
    All,
}

/// How a report is written.
#[derive(Clone, Copy, Debug, PartialEq, Eq)]
pub enum Form {
    /// Lines for the eye, as last(1), lastb(8), ac(1) and sa(8) have them.
    Text,
    /// One table in CSV, which a report of all has not.
    Csv,
}

/// A report and how it is made.
#[derive(Clone, Copy, Debug, PartialEq, Eq)]
pub struct Job {
    pub report: Report,
    pub form: Form,
    /// How many times 1,048,576 records a file may have, and all files together of each kind, 1 to 16.
    pub millions: u32,
    /// How many threads read the files, 1 to 64.
    pub feeders: u32,
    /// How many threads ask reports meanwhile, up to 128. Their reports are not printed.
    pub askers: u32,
    /// Minutes east of UTC.
    pub offset: i32,
    /// Up to when stays count that nothing has ended, in seconds since 1970: else up to the last
    /// record of their file. None where the report has no stays.
    pub until: Option<i32>,
}
