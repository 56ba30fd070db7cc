//! Stored login records, and the stays that they make.
use tally_records::{LoginRecord, Name, Remote};

/// A stored login record of utmp(5), and the host that posted it.
#[derive(Clone, Copy, Debug, PartialEq, Eq)]
pub struct Entry {
    pub host: u32,
    pub item: LoginRecord,
}

/// What ended a stay, as last(1) names it.
#[derive(Clone, Copy, Debug, PartialEq, Eq)]
pub enum End {
    /// A logout on its line.
    Logout,
    /// The next login on its line.
    Next,
    /// A shutdown of its host.
    Down,
    /// A boot of its host, with no shutdown before it.
    Crash,
    /// Nothing yet.
    Still,
}

/// The session of a login, or the running time after a boot. Times are in seconds since 1970.
#[derive(Clone, Copy, Debug, PartialEq, Eq)]
pub struct Stay {
    pub host: u32,
    /// Whether a boot started it, and no login.
    pub is_boot: bool,
    pub user: Name,
    pub line: Name,
    pub remote: Remote,
    /// The recorded start.
    pub start: i32,
    /// The start by the clock of the end: clock changes during the stay have moved it.
    pub begin: i32,
    pub end: End,
    /// The time of the record that ended it; where nothing has, up to when it is counted.
    pub end_time: i32,
    /// Seconds from `begin` to `end_time`, or none where the end comes first.
    pub length: u64,
}
