//! Failed logins, as reports list and count them.
use tally_records::{Name, Remote};

/// A failed login of btmp(5): a record of type 6 or 7 that names a line or a user.
#[derive(Clone, Copy, Debug, PartialEq, Eq)]
pub struct Attempt {
    /// The file that has it.
    pub host: u32,
    pub user: Name,
    pub line: Name,
    pub remote: Remote,
    /// Seconds since 1970-01-01 00:00:00 UTC.
    pub time: i32,
}

/// How many failed logins a user has from a remote host, in all files.
#[derive(Clone, Copy, Debug, PartialEq, Eq)]
pub struct AttemptSum {
    pub user: Name,
    pub remote: Remote,
    pub attempts: u64,
}
