//! A database as it stands beside its log and its journal, read until two readings agree.
ghost use Rattle.std.specs.Prelude.{◌≡◌, IfOk, IfSome, take};

use crate::refusal::DatabaseFault;
use std::alloc::Global;
use std::fs;
use std::io::{self, ErrorKind, Read};
use std::rt::Files;

/// The most bytes of a database, and of its log: 512 MiB.
const SIZE_LIMIT: usize = 536_870_912;

/// The bytes of a journal that say whether it is to be played back.
const JOURNAL_HEAD: u64 = 28;

/// How often a database is read until two readings agree.
const READINGS: u32 = 5;

/// The bytes of a database's three files; a file that is not there has none.
#[derive(PartialEq, Eq, Drop)]
pub(crate) struct Snapshot {
    /// The beginning of its `-journal`.
    pub(crate) journal: Vec<u8>,
    /// Its `-wal`.
    pub(crate) log: Vec<u8>,
    pub(crate) db: Vec<u8>,
}

/// The first bytes of a file, as many as there are up to a limit.
pub(crate) fn front_of<F: Read + Drop>(alloc: Global, file: F, limit: u64) -> io::Result<Vec<u8>>
    ensures { IfOk result (λ bytes. IfSome (F.remaining file) (λ all. bytes.items ≡ take limit all)) }
{
    let mut bytes = Vec::new(alloc);
    file.take(limit).read_to_end(&mut bytes)?;
    Ok(bytes)
}

/// The first bytes of the file of a path, none where there is no such file.
fn front_at<R: Files>(rt: &R, alloc: Global, path: &str, limit: u64) -> io::Result<Vec<u8>>
where
    R::File: Drop,
{
    match fs::open(rt, path) {
        Ok(file) => front_of(alloc, file, limit),
        Err(error) if error.kind() == ErrorKind::NotFound => Ok(Vec::new(alloc)),
        Err(error) => Err(error),
    }
}

/// The first bytes of a file beside the database.
fn beside<R: Files>(
    rt: &R,
    alloc: Global,
    path: &str,
    suffix: &str,
    limit: u64,
) -> Result<Vec<u8>, DatabaseFault>
where
    R::File: Drop,
{
    let path = format!(in alloc; "{path}{suffix}")?;
    Ok(front_at(rt, alloc, path.as_str(), limit)?)
}

/// Reads the three files once.
fn read_once<R: Files>(rt: &R, alloc: Global, path: &str) -> Result<Snapshot, DatabaseFault>
where
    R::File: Drop,
{
    let most = SIZE_LIMIT as u64 + 1;
    let journal = beside(rt, alloc, path, "-journal", JOURNAL_HEAD)?;
    let log = beside(rt, alloc, path, "-wal", most)?;
    let db = front_at(rt, alloc, path, most)?;
    if log.len() > SIZE_LIMIT || db.len() > SIZE_LIMIT {
        return Err(DatabaseFault::TooLarge);
    }
    Ok(Snapshot { journal, log, db })
}

/// Reads the three files until two readings agree.
pub(crate) fn settled<R: Files>(
    rt: &R,
    alloc: Global,
    path: &str,
) -> Result<Snapshot, DatabaseFault>
where
    R::File: Drop,
{
    let mut last = read_once(rt, alloc, path)?;
    for _ in 1..READINGS {
        let next = read_once(rt, alloc, path)?;
        if next == last {
            return Ok(next);
        }
        last = next;
    }
    Err(DatabaseFault::Changing)
}
