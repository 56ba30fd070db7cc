//! Rows of connect time, in seconds. Day 0 is 1970-01-01.
use tally_records::Name;

/// The connect time of a user, as ac(1) gives it with `-p`.
#[derive(Clone, Copy, Debug, PartialEq, Eq)]
pub struct UserTime {
    pub user: Name,
    pub seconds: u64,
}

/// The connect time of a day, as ac(1) gives it with `-d`.
#[derive(Clone, Copy, Debug, PartialEq, Eq)]
pub struct DayTime {
    pub day: i32,
    pub seconds: u64,
}

/// The connect time of a user on a day, as ac(1) gives it with `-d` and `-p`.
#[derive(Clone, Copy, Debug, PartialEq, Eq)]
pub struct DayUserTime {
    pub day: i32,
    pub user: Name,
    pub seconds: u64,
}
