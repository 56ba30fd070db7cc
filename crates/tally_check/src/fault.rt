//! Why a file is not checked.
ghost use Rattle.std.specs.Prelude.{◌≡◌};
ghost use Rattle.tally_check.specs.declared.fault.CheckFault.TheVariants as fault;

use std::alloc::AllocError;
use tally_records::Memory;
use thiserror::Error;

/// Why a file is not checked.
#[derive(Debug, PartialEq, Eq, Drop, Error)]
pub enum CheckFault {
    #[error("out of memory")]
    Memory,
    #[error("read failed")]
    Read,
    /// It has more records than this.
    #[error("more than {0} records")]
    TooManyRecords(u64),
    /// It has more bytes than this, and shows no kind that may have more.
    #[error("more than {0} bytes")]
    TooManyBytes(u64),
}

impl From<AllocError> for CheckFault {
    ghost from_gives = { λ _ f. f ≡ fault.Memory };

    fn from(_error: AllocError) -> CheckFault {
        CheckFault::Memory
    }
}

impl From<Memory> for CheckFault {
    ghost from_gives = { λ _ f. f ≡ fault.Memory };

    fn from(_error: Memory) -> CheckFault {
        CheckFault::Memory
    }
}
