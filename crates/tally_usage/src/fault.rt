//! Why records are not counted.
ghost use Rattle.std.specs.Prelude.{◌≡◌};
ghost use Rattle.tally_usage.specs.declared.fault.SumsFault.TheVariants as fault;

use std::alloc::AllocError;
use thiserror::Error;

/// Why records are not counted. Where they are too many, that is named.
#[derive(Debug, PartialEq, Eq, Drop, Error)]
pub enum SumsFault {
    #[error("out of memory")]
    Memory,
    /// The records that are counted and those that come are more than `SUMS_LIMIT`.
    #[error("too many process records")]
    Full,
}

impl From<AllocError> for SumsFault {
    ghost from_gives = { λ _ found. found ≡ fault.Memory };

    fn from(_error: AllocError) -> SumsFault {
        SumsFault::Memory
    }
}
