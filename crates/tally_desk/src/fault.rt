//! Why no desk was opened or closed, and why an input is refused or not counted.
ghost use Rattle.std.specs.Prelude.{◌≡◌};
ghost use Rattle.tally_desk.specs.Feeds.{refusal_of};
ghost use Rattle.tally_desk.specs.declared.fault.FeedFault.TheVariants as fault;

use crate::feeding::input::InputFault;
use std::alloc::AllocError;
use tally_book::PostFault;
use tally_records::{Memory, RecordFault};
use thiserror::Error;

/// Why no desk was opened.
#[derive(Debug, PartialEq, Eq, Drop, Error)]
pub enum OpenFault {
    #[error("out of memory")]
    Memory,
    /// It is not 1 to 128.
    #[error("{0} callers, 1 to 128 are allowed")]
    Callers(u32),
}

/// Why a desk was not closed.
#[derive(Debug, PartialEq, Eq, Drop, Error)]
pub enum CloseFault {
    /// Not all passes were handed in.
    #[error("a pass is missing")]
    PassMissing,
}

/// Why an input was not counted to its end.
#[derive(Debug, PartialEq, Eq, Drop, Error)]
pub enum CountFault {
    #[error("out of memory")]
    Memory,
    /// The input failed.
    #[error("read failed")]
    Read,
    /// The input ends inside a record: the whole records before it, and the bytes of it.
    #[error("torn after {records} records, {rest} bytes left")]
    Torn { records: u64, rest: u64 },
    /// A byte follows the last record that is counted.
    #[error("more than {limit} records")]
    TooLong { limit: u64 },
    /// A record has no meaning; its number in the input counts from 0.
    #[error("record {at} has {fault}")]
    Bad { at: u64, fault: RecordFault },
}

/// Why an input was not fed to its end.
#[derive(Debug, PartialEq, Eq, Drop, Error)]
pub enum FeedFault {
    #[error("out of memory")]
    Memory,
    /// The input failed.
    #[error("read failed")]
    Read,
    /// The input ends inside a record: the whole records before it, and the bytes of it.
    #[error("torn after {records} records, {rest} bytes left")]
    Torn { records: u64, rest: u64 },
    /// A byte follows the last record that an input may have.
    #[error("more than {limit} records")]
    TooLong { limit: u64 },
    /// A record has no meaning; its number in the input counts from 0.
    #[error("record {at} has {fault}")]
    Bad { at: u64, fault: RecordFault },
    /// The stored login records and those of the next block are more than a book holds.
    #[error("too many login records")]
    LoginsFull { stored: u64 },
    /// The stored process records and those of the next block are more than a book holds.
    #[error("too many process records")]
    ProcsFull { stored: u64 },
    /// The history holds as many calls as it may.
    #[error("too many calls")]
    CallsFull,
}

/// Why an input's login records were not counted to its end, and how many were counted before.
#[derive(Debug, PartialEq, Eq, Drop)]
pub struct Uncounted {
    /// The records of the full blocks before the one with the fault, 1,024 of each.
    pub counted: u64,
    /// It is none of a book's: not `LoginsFull`, `ProcsFull` or `CallsFull`.
    pub fault: FeedFault,
}

impl From<AllocError> for FeedFault {
    ghost from_gives = { λ _ f. f ≡ fault.Memory };

    fn from(_error: AllocError) -> FeedFault {
        FeedFault::Memory
    }
}

impl From<Memory> for FeedFault {
    ghost from_gives = { λ _ f. f ≡ fault.Memory };

    fn from(_error: Memory) -> FeedFault {
        FeedFault::Memory
    }
}

impl From<InputFault> for FeedFault {
    ghost from_gives = { λ _ f. f ≡ fault.Read };

    fn from(_error: InputFault) -> FeedFault {
        FeedFault::Read
    }
}

impl From<PostFault> for FeedFault {
    ghost from_gives = { λ refusal f. f ≡ refusal_of refusal };

    fn from(refusal: PostFault) -> FeedFault {
        match refusal {
            PostFault::Memory => FeedFault::Memory,
            PostFault::LoginsFull { stored } => FeedFault::LoginsFull { stored },
            PostFault::ProcsFull { stored } => FeedFault::ProcsFull { stored },
            PostFault::CallsFull => FeedFault::CallsFull,
        }
    }
}
