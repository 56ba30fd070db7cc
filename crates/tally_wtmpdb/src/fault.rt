ghost use Rattle.std.specs.Prelude.{◌≡◌};
ghost use Rattle.tally_wtmpdb.specs.Causes.{as_fault};
ghost use Rattle.tally_wtmpdb.specs.declared.fault.WtmpdbFault.TheVariants.{Memory};

use crate::database::ReadError;
use std::alloc::{AllocError, AllocFailed};
use thiserror::Error;

/// Why a row has no login records. `id` is the row's number, ID.
#[derive(Clone, Copy, Debug, PartialEq, Eq, Error)]
pub enum RowFault {
    /// The user's name is longer than the 32 bytes of `ut_user`: cut, two users could become one.
    #[error("row {id} has a user of more than 32 bytes")]
    LongUser { id: i64 },
    /// Login or Logout is outside the seconds of 32 bits, 1901-12-13 to 2038-01-19.
    #[error("row {id} has a time outside 1901 to 2038")]
    Time { id: i64 },
}

/// Why a database has no login records.
#[derive(Debug, PartialEq, Eq, Drop, Error)]
pub enum WtmpdbFault {
    /// Memory was refused.
    #[error("out of memory")]
    Memory,
    /// The files are no sound database.
    #[error("a damaged database")]
    NoDatabase,
    /// The database does not list the table `wtmp` with the columns of wtmpdb.
    #[error("no table of wtmpdb")]
    NoTable,
    /// It lists the table, and is not sound as far as it is read: it is damaged, or a table or an index beside it is of a form that is
    /// not read.
    #[error("a damaged database, or one with a table or an index that is not read, run sqlite3 OLD '.dump wtmp' | sqlite3 NEW")]
    Unsound,
    /// The first row that has no login records.
    #[error("{0}")]
    BadRow(RowFault),
    /// There are more login records than the limit, this many.
    #[error("{0} login records are too many")]
    TooMany(usize),
}

impl From<AllocError> for WtmpdbFault {
    ghost from_gives = { λ _ fault. fault ≡ Memory };

    fn from(_error: AllocError) -> WtmpdbFault {
        WtmpdbFault::Memory
    }
}

impl From<ReadError> for WtmpdbFault {
    ghost from_gives = { λ error fault. fault ≡ as_fault error };

    fn from(error: ReadError) -> WtmpdbFault {
        match error {
            ReadError::OutOfMemory => WtmpdbFault::Memory,
            ReadError::NoDatabase => WtmpdbFault::NoDatabase,
            ReadError::NoTable => WtmpdbFault::NoTable,
            ReadError::Unsound => WtmpdbFault::Unsound,
        }
    }
}
