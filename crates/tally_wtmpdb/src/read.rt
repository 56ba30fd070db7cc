//! From the bytes of a database to the bytes of its login records.
ghost use Rattle.std.specs.Prelude.{◌≡◌, ◌≤◌, IfOk, IfErr, OnOk, length};
ghost use Rattle.tally_wtmpdb.specs.Causes.{AreLoginsOf, IsCause, IsCauseIn};
ghost use Rattle.tally_wtmpdb.specs.Made.{AreBytesOfMade};
ghost use Rattle.tally_wtmpdb.specs.Moments.{moments};
ghost use Rattle.tally_wtmpdb.specs.Rows.{first_fault};

use crate::database::{ReadError, rows};
use crate::fault::WtmpdbFault;
use crate::moment::ordered_moments;
use crate::record::records;
use crate::row::first_fault;
use sqlite_value::row::Row;
use std::alloc::Global;

/// The bytes of the login records that are made of the rows of wtmpdb's table, at most `limit` of them.
pub fn logins_of_rows(alloc: Global, rows: &[Row], limit: usize) -> Result<Vec<u8>, WtmpdbFault>
    ensures made { IfOk result (λ bytes. AreBytesOfMade rows.now bytes.items) }
    ensures sound { OnOk result (first_fault rows.now ≡ None) }
    ensures few { OnOk result (length (moments rows.now) ≤ limit) }
    ensures cause { IfErr result (IsCause rows.now limit) }
{
    if let Some(fault) = first_fault(rows) {
        return Err(WtmpdbFault::BadRow(fault));
    }
    let moments = ordered_moments(alloc, rows)?;
    let count = moments.len();
    if count > limit {
        return Err(WtmpdbFault::TooMany(count));
    }
    Ok(records(alloc, rows, &moments)?)
}

/// The bytes of the login records in the database of these bytes. `log` has those of its `-wal`, none where there is none.
pub fn read_logins(
    alloc: Global,
    log: &[u8],
    db: &[u8],
    limit: usize,
) -> Result<Vec<u8>, WtmpdbFault>
    ensures logins { IfOk result (λ bytes. AreLoginsOf log.now db.now bytes.items) }
    ensures cause { IfErr result (IsCauseIn log.now db.now limit) }
{
    let rows = rows(alloc, log, db)?;
    logins_of_rows(alloc, &rows, limit)
}
