//! The login records in a file, where it is a database.
ghost use Rattle.std.specs.Prelude.{◌≡◌};
ghost use Rattle.tally_wtmpdb.specs.Headers.{is_database};

use crate::refusal::{DatabaseFault, made};
use crate::snapshot::{Snapshot, front_of, settled};
use std::alloc::Global;
use std::fs;
use std::io::{ErrorKind, Read};
use std::rt::Files;

/// The first bytes of a database.
const MARK: &[u8; 16] = b"SQLite format 3\0";

/// Whether the first bytes of a file are those of a database.
fn is_database(front: &[u8]) -> bool
    ensures { result ≡ is_database front.now }
{
    front.starts_with(MARK)
}

/// Whether a file begins as a database does.
fn begins_as_database<F: Read + Drop>(alloc: Global, file: F) -> Result<bool, DatabaseFault> {
    let front = front_of(alloc, file, MARK.len() as u64)?;
    Ok(is_database(&front))
}

/// Whether the file of a path is a database. What is no file of its own, as a pipe, is not looked at, nor what cannot be opened.
#[inline(never)]
fn is_database_at<R: Files>(rt: &R, alloc: Global, path: &str) -> Result<bool, DatabaseFault>
where
    R::File: Drop,
{
    match fs::metadata(rt, path) {
        Ok(found) if found.is_file() => {}
        _ => return Ok(false),
    }
    match fs::open(rt, path) {
        Ok(file) => begins_as_database(alloc, file),
        Err(error) if error.kind() == ErrorKind::OutOfMemory => Err(DatabaseFault::Memory),
        Err(_) => Ok(false),
    }
}

/// The bytes of the login records in the database of a path. Its log stands beside the file itself, which the path may lead to.
#[inline(never)]
fn logins_of<R: Files>(
    rt: &R,
    alloc: Global,
    path: &str,
    most: usize,
) -> Result<Vec<u8>, DatabaseFault>
where
    R::File: Drop,
{
    let real = rt.canonicalize(alloc, path)?;
    let Snapshot { journal, log, db } = settled(rt, alloc, real.as_str())?;
    made(alloc, &journal, &log, &db, most)
}

/// The bytes of the login records in the file of a path, where that is a database; `None` where it is none. A database of more than
/// `most` records is refused.
///
/// Nothing is written, locked or made beside it: the file, its `-wal` and its `-journal` are read until two readings agree.
pub fn logins_in<R: Files>(
    rt: &R,
    alloc: Global,
    path: &str,
    most: usize,
) -> Result<Option<Vec<u8>>, DatabaseFault>
where
    R::File: Drop,
{
    if !is_database_at(rt, alloc, path)? {
        return Ok(None);
    }
    let bytes = logins_of(rt, alloc, path, most)?;
    Ok(Some(bytes))
}
