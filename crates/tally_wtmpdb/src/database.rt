//! The rows of wtmpdb's table in a database whose two files are held in memory, with no SQL.
ghost use Rattle.std.specs.Prelude.{◌≡◌, ◌++◌, ◌∷◌, [], IsTrue, IfErr, IfOk, OnOk, map};
ghost use Rattle.sqlite_disk.specs.Memory.{memory_bytes, memory_is_usable};
ghost use Rattle.sqlite_store.specs.Catalog.{wanted_of};
ghost use Rattle.sqlite_store.specs.Unopened.{AreUsable, HasSomeFile, image, state_of};
ghost use Rattle.sqlite_trees.specs.View.{IsClean};
ghost use Rattle.sqlite_wal.specs.PageSize.{bytes_of};
ghost use Rattle.tally_wtmpdb.specs.Causes.{IsReadCause};
ghost use Rattle.tally_wtmpdb.specs.Table.{AreListedIn, IsNamed, IsStoreOf, IsTableOf};
ghost use Rattle.tally_wtmpdb.specs.declared.database.ReadError.TheVariants.{NoDatabase, OutOfMemory};
ghost use Rattle.tally_wtmpdb.specs.inside.Files.{AreRowsOf, IsFailure, IsListing, IsListingCause, IsOpenCause, IsOver, IsRefusal, IsSizeCause, error_of};

use crate::catalog::{objects_in, wtmp_place};
use sqlite_disk::{Disk, Files, Memory};
use sqlite_pager::{Options, Pager};
use sqlite_store::{FileStore, OpenError, Unopened};
use sqlite_trees::error::StoreError;
use sqlite_trees::schema::Object;
use sqlite_trees::store::{Direction, Store};
use sqlite_value::row::Row;
use sqlite_wal::{PageSize, probe_page_size};
use std::alloc::{AllocError, Global};

/// Why no rows were read.
#[derive(Clone, Copy, Debug, PartialEq, Eq)]
pub enum ReadError {
    /// Memory was refused, or cannot hold what there is: files in memory fail for want of it alone, and so does a count of 32 bits of
    /// pages or of 64 of rows.
    OutOfMemory,
    /// The files are no sound database.
    NoDatabase,
    /// The database does not list the table of wtmpdb.
    NoTable,
    /// It lists the table, and is not sound as far as what it lists is read.
    Unsound,
}

/// A file of these bytes.
fn held(alloc: Global, bytes: &[u8]) -> Result<Memory, ReadError>
    ensures error { IfErr result IsFailure }
    ensures bytes { IfOk result (λ m. memory_bytes m ≡ bytes.now) }
    ensures usable { IfOk result (λ m. IsTrue (memory_is_usable m)) }
{
    let mut file = Memory::new(alloc);
    if bytes.is_empty() {
        return Ok(file);
    }
    match file.write_at(0, bytes) {
        Ok(()) => Ok(file),
        Err(_) => Err(ReadError::OutOfMemory),
    }
}

/// The page size of the files.
fn page_size(files: &mut Files<Memory>) -> Result<PageSize, ReadError>
    requires log_usable { IsTrue (memory_is_usable files.old.log) }
    requires db_usable { IsTrue (memory_is_usable files.old.db) }
    ensures named { IfOk result (λ size. IsNamed (memory_bytes files.old.log) (memory_bytes files.old.db) (bytes_of size)) }
    ensures cause { IfErr result (IsSizeCause (memory_bytes files.old.log) (memory_bytes files.old.db)) }
    ensures same_log { memory_bytes files.new.log ≡ memory_bytes files.old.log }
    ensures same_db { memory_bytes files.new.db ≡ memory_bytes files.old.db }
    ensures log_usable { memory_is_usable files.new.log ≡ memory_is_usable files.old.log }
    ensures db_usable { memory_is_usable files.new.db ≡ memory_is_usable files.old.db }
{
    match probe_page_size(files) {
        Ok(Some(size)) => Ok(size),
        Ok(None) => Err(ReadError::NoDatabase),
        Err(_) => Err(ReadError::OutOfMemory),
    }
}

/// The files, of which these objects are asked for.
fn unopened(
    alloc: Global,
    log: &[u8],
    db: &[u8],
    objects: &[Object<'_>],
) -> Result<Unopened<Memory>, ReadError>
    ensures over { IfOk result (IsOver log.now db.now (map wanted_of objects.now)) }
    ensures cause { IfErr result (IsSizeCause log.now db.now) }
{
    let mut files = Files {
        log: held(alloc, log)?,
        db: held(alloc, db)?,
    };
    let size = page_size(&mut files)?;
    let Ok(pager) = Pager::new(alloc, files, size, Options::new(1)) else {
        return Err(ReadError::OutOfMemory);
    };
    match Unopened::new(alloc, pager, objects) {
        Ok(files) => Ok(files),
        Err(_) => Err(ReadError::OutOfMemory),
    }
}

/// Why files were not opened: where they are refused, this is why.
fn error_of(error: OpenError, refused: ReadError) -> ReadError
    ensures { result ≡ error_of error refused }
{
    match error {
        OpenError::Refused => refused,
        OpenError::OutOfMemory | OpenError::Io | OpenError::Full => ReadError::OutOfMemory,
    }
}

/// What the database of the files lists.
fn objects_of(files: &mut Unopened<Memory>) -> Result<Vec<Row>, ReadError>
    requires { AreUsable files.old }
    ensures objects { IfOk result (λ objects. IsListing (state_of files.old).page_size (image files.old) objects.items) }
    ensures cause { IfErr result (IsRefusal NoDatabase (HasSomeFile files.old)) }
{
    match files.read_catalog() {
        Ok(objects) => Ok(objects),
        Err(error) => Err(error_of(error, ReadError::NoDatabase)),
    }
}

/// What the database lists.
fn listed(alloc: Global, log: &[u8], db: &[u8]) -> Result<Vec<Row>, ReadError>
    ensures objects { IfOk result (λ objects. AreListedIn log.now db.now objects.items) }
    ensures cause { IfErr result (IsListingCause log.now db.now) }
{
    let mut files = unopened(alloc, log, db, &[])?;
    objects_of(&mut files)
}

/// The database of these objects.
fn open(
    alloc: Global,
    log: &[u8],
    db: &[u8],
    objects: &[Object<'_>],
) -> Result<FileStore<Memory>, ReadError>
    ensures store { IfOk result (IsStoreOf log.now db.now (map wanted_of objects.now)) }
    ensures cause { IfErr result (IsOpenCause log.now db.now (map wanted_of objects.now)) }
{
    match unopened(alloc, log, db, objects)?.open() {
        Ok(store) => Ok(store),
        Err((error, _)) => Err(error_of(error, ReadError::Unsound)),
    }
}

impl From<StoreError> for ReadError {
    ghost from_gives = { λ _ error. error ≡ OutOfMemory };

    fn from(_error: StoreError) -> ReadError {
        ReadError::OutOfMemory
    }
}

impl From<AllocError> for ReadError {
    ghost from_gives = { λ _ error. error ≡ OutOfMemory };

    fn from(_error: AllocError) -> ReadError {
        ReadError::OutOfMemory
    }
}

fn add(alloc: Global, all: &mut Vec<Row>, row: &Row) -> Result<(), ReadError>
    ensures error { IfErr result IsFailure }
    ensures added { OnOk result (all.new.items ≡ all.old.items ++ row.now ∷ []) }
{
    let Ok(copy) = row.copy(alloc) else {
        return Err(ReadError::OutOfMemory);
    };
    match all.push(copy) {
        Ok(()) => Ok(()),
        Err(_) => Err(ReadError::OutOfMemory),
    }
}

/// The rows of a tree.
fn scan<S: Store>(alloc: Global, store: &mut S, tree: u32) -> Result<Vec<Row>, ReadError>
    ensures error { IfErr result IsFailure }
    ensures rows { IsClean (S.Store.view store.new) → IfOk result (λ rows. rows.items ≡ (S.Store.view store.old).trees tree) }
{
    let mut all = Vec::new(alloc);
    let mut row = Row::new(alloc);
    store.seek(0, tree, &row, Direction::Forward)?;
    'rows: for _ in 0..u64::MAX {
        if !store.next(0, &mut row)? {
            return Ok(all);
        }
        add(alloc, &mut all, &row)?;
    }
    Err(ReadError::OutOfMemory)
}

/// The rows of a tree in the database of these objects.
fn tree_rows(
    alloc: Global,
    log: &[u8],
    db: &[u8],
    objects: &[Object<'_>],
    tree: u32,
) -> Result<Vec<Row>, ReadError>
    ensures rows { IfOk result (λ rows. AreRowsOf log.now db.now (map wanted_of objects.now) tree rows.items) }
    ensures cause { IfErr result (IsOpenCause log.now db.now (map wanted_of objects.now)) }
{
    let mut store = open(alloc, log, db, objects)?;
    scan(alloc, &mut store, tree)
}

/// The rows of wtmpdb's table in the order of their numbers: the number, a NULL in the place of the column ID, and the other
/// columns. `log` has the bytes of the database's `-wal`, none where there is no such file, and `db` those of the database.
///
/// What else the database lists is passed over: a view, a trigger, another table, and an index whose columns all ascend by their bytes.
pub fn rows(alloc: Global, log: &[u8], db: &[u8]) -> Result<Vec<Row>, ReadError>
    ensures rows { IfOk result (λ rows. IsTableOf log.now db.now rows.items) }
    ensures cause { IfErr result (IsReadCause log.now db.now) }
{
    let listed = listed(alloc, log, db)?;
    let Some(place) = wtmp_place(&listed) else {
        return Err(ReadError::NoTable);
    };
    let Ok(tree) = u32::try_from(place) else {
        return Err(ReadError::OutOfMemory);
    };
    match objects_in(alloc, &listed)? {
        Some(objects) => tree_rows(alloc, log, db, &objects, tree),
        None => Err(ReadError::Unsound),
    }
}
