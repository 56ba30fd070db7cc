use std::alloc::{AllocError, AllocFailed};
use thiserror::Error;

/// Memory ran out.
#[derive(Debug, PartialEq, Eq, Drop, Error)]
#[error("out of memory")]
pub struct Memory;

impl From<AllocError> for Memory {
    fn from(_error: AllocError) -> Self {
        Memory
    }
}

impl<T: Drop> From<AllocFailed<T>> for Memory {
    fn from(_error: AllocFailed<T>) -> Self {
        Memory
    }
}

/// Why bytes are no record.
#[derive(Debug, PartialEq, Eq, Drop, Error)]
pub enum RecordFault {
    /// The type of a login record, `ut_type` of utmp(5), is outside 0 to 9.
    #[error("login type {0}")]
    LoginType(i16),
    /// A login record of this type is of no failed login: only 0, 6 and 7 of utmp(5) are.
    #[error("login type {0}, which no failed login has")]
    OtherLogin(u8),
    /// The version of a process record, `ac_version` of acct(5), is neither 2 nor 3.
    #[error("version {0}")]
    ProcVersion(u8),
}

/// Why bytes are no batch. The first of these that applies is named: `Length`, `TooMany`,
/// `Memory`, then `Bad`.
#[derive(Debug, PartialEq, Eq, Drop, Error)]
pub enum BatchFault {
    /// Memory was refused.
    #[error("out of memory")]
    Memory,
    /// The length, in bytes, is no multiple of the record's size.
    #[error("{0} bytes are no whole records")]
    Length(usize),
    /// There are more records than a batch holds; this many.
    #[error("{0} records are too many")]
    TooMany(usize),
    /// The first bad record, counted from 0.
    #[error("record {index} has {fault}")]
    Bad { index: usize, fault: RecordFault },
}
