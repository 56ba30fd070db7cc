ghost use Rattle.std.specs.Prelude.{◌≡◌};
ghost use Rattle.tally_book.specs.declared.fault.PostFault.TheVariants as post;
ghost use Rattle.tally_book.specs.declared.fault.AskFault.TheVariants as ask;

use std::alloc::AllocError;
use tally_records::Memory;
use thiserror::Error;

/// Why a post was refused. The first cause is named, in this order but with `Memory` last.
#[derive(Debug, PartialEq, Eq, Drop, Error)]
pub enum PostFault {
    #[error("out of memory")]
    Memory,
    /// The stored login records and the batch are more than a book holds.
    #[error("{stored} login records are stored, and the batch does not fit")]
    LoginsFull { stored: u64 },
    /// The stored process records and the batch are more than a book holds.
    #[error("{stored} process records are stored, and the batch does not fit")]
    ProcsFull { stored: u64 },
    /// The history holds as many calls as it may.
    #[error("too many calls")]
    CallsFull,
}

/// Why a report was refused. The first cause is named, in this order but with `Memory` last.
#[derive(Debug, PartialEq, Eq, Drop, Error)]
pub enum AskFault {
    #[error("out of memory")]
    Memory,
    /// The history holds as many calls as it may.
    #[error("too many calls")]
    CallsFull,
    /// No caller has the host's number.
    #[error("no host {0}")]
    NoSuchHost(u32),
}

impl From<Memory> for PostFault {
    ghost from_gives = { λ _ fault. fault ≡ post.Memory };

    fn from(_error: Memory) -> PostFault {
        PostFault::Memory
    }
}

impl From<AllocError> for PostFault {
    ghost from_gives = { λ _ fault. fault ≡ post.Memory };

    fn from(_error: AllocError) -> PostFault {
        PostFault::Memory
    }
}

impl From<Memory> for AskFault {
    ghost from_gives = { λ _ fault. fault ≡ ask.Memory };

    fn from(_error: Memory) -> AskFault {
        AskFault::Memory
    }
}

impl From<AllocError> for AskFault {
    ghost from_gives = { λ _ fault. fault ≡ ask.Memory };

    fn from(_error: AllocError) -> AskFault {
        AskFault::Memory
    }
}
