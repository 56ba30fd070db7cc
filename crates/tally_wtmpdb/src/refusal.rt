//! Why the files of a database give no login records.
ghost use Rattle.std.specs.Prelude.{◌≡◌, ℕ, IfErr, IfOk, List, OnOk, false, slice_index};
ghost use Rattle.tally_wtmpdb.specs.Causes.{AreLoginsOf, IsCauseIn};
ghost use Rattle.tally_wtmpdb.specs.Headers.{AreRefused, IsCauseOf, has_auto_vacuum, has_other_texts, is_unfinished};

use crate::fault::WtmpdbFault;
use crate::read::read_logins;
use std::alloc::{AllocError, Global};
use std::io::{self, ErrorKind};
use thiserror::Error;

/// Why a database gives no login records.
#[derive(Debug, Drop, Error)]
pub enum DatabaseFault {
    /// Memory was refused.
    #[error("out of memory")]
    Memory,
    /// A read failed, of the database or of a file beside it.
    #[error("read failed")]
    NotRead,
    /// Its journal is not empty: a change goes on, or was cut off.
    #[error("an unfinished change, run wtmpdb once")]
    Unfinished,
    /// No two readings one after the other were the same.
    #[error("changes while it is read")]
    Changing,
    /// It, or its log, is too large.
    #[error("a database of more than 512 MiB")]
    TooLarge,
    /// It is refused, and has auto-vacuum.
    #[error("a database with auto-vacuum, run sqlite3 OLD '.dump wtmp' | sqlite3 NEW")]
    AutoVacuum,
    /// It is refused, and its texts are in UTF-16.
    #[error("a database in UTF-16, run sqlite3 OLD '.dump wtmp' | sqlite3 NEW")]
    OtherTexts,
    /// Of its bytes no login records are made.
    #[error("{0}")]
    NotMade(WtmpdbFault),
}

impl From<AllocError> for DatabaseFault {
    fn from(_error: AllocError) -> DatabaseFault {
        DatabaseFault::Memory
    }
}

impl From<io::Error> for DatabaseFault {
    fn from(error: io::Error) -> DatabaseFault {
        if error.kind() == ErrorKind::OutOfMemory {
            DatabaseFault::Memory
        } else {
            DatabaseFault::NotRead
        }
    }
}

/// Whether a journal's head is not empty: the change that it undoes was not finished.
fn is_unfinished(head: &[u8]) -> bool
    ensures { result ≡ is_unfinished head.now }
{
    head.iter().any(|byte| *byte != 0)
}

/// A byte of a database's header.
fn byte_at(db: &[u8], at: usize) -> u8
    ensures { result ≡ slice_index db.now at }
{
    db.get(at).copied().unwrap_or(0)
}

/// Whether a database has auto-vacuum, of which the store reads no file.
fn has_auto_vacuum(db: &[u8]) -> bool
    ensures { result ≡ has_auto_vacuum db.now }
{
    byte_at(db, 52) != 0 || byte_at(db, 53) != 0 || byte_at(db, 54) != 0 || byte_at(db, 55) != 0
}

/// Whether its texts are in UTF-16, which is not read either.
fn has_other_texts(db: &[u8]) -> bool
    ensures { result ≡ has_other_texts db.now }
{
    let encoding = byte_at(db, 59);
    encoding == 2 || encoding == 3
}

/// Why a database that is refused is so: by its header where that tells it, or else as it was found.
fn refused(db: &[u8], found: WtmpdbFault) -> DatabaseFault
    ensures { (most : ℕ) (journal log : List ℕ) → AreRefused log db.now → IsCauseIn log db.now most found → IsCauseOf most journal log db.now result }
{
    if has_auto_vacuum(db) {
        DatabaseFault::AutoVacuum
    } else if has_other_texts(db) {
        DatabaseFault::OtherTexts
    } else {
        DatabaseFault::NotMade(found)
    }
}

/// The bytes of the login records in a database of these bytes, beside a log and a journal that begins so. More than `most` are refused.
pub fn made(
    alloc: Global,
    journal: &[u8],
    log: &[u8],
    db: &[u8],
    most: usize,
) -> Result<Vec<u8>, DatabaseFault>
    ensures logins { IfOk result (λ bytes. AreLoginsOf log.now db.now bytes.items) }
    ensures finished { OnOk result (is_unfinished journal.now ≡ false) }
    ensures cause { IfErr result (IsCauseOf most journal.now log.now db.now) }
{
    if is_unfinished(journal) {
        return Err(DatabaseFault::Unfinished);
    }
    match read_logins(alloc, log, db, most) {
        Ok(bytes) => Ok(bytes),
        Err(WtmpdbFault::Memory) => Err(DatabaseFault::Memory),
        Err(WtmpdbFault::NoDatabase) => Err(refused(db, WtmpdbFault::NoDatabase)),
        Err(WtmpdbFault::Unsound) => Err(refused(db, WtmpdbFault::Unsound)),
        Err(found) => Err(DatabaseFault::NotMade(found)),
    }
}
