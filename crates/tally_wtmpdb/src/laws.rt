//! Laws of the records that are made, and of the sessions that they have, which hold of all rows, texts and times.
ghost use Rattle.tally_wtmpdb.specs.Laws.{LinesAreApart, RecordsReadBack, SecondsAreNear, SessionsAreNear, StaysAreOfRows, StaysAreOfTable, TablesHaveIds};

/// The bytes of a record are read back as that record.
pub fn records_read_back()
    ensures { RecordsReadBack }
{}

/// Of the sessions on a TTY that are open at one time, one at most has a line without a mark.
pub fn lines_are_apart()
    ensures { LinesAreApart }
{}

/// The rows of a table have numbers of their own, of 64 bits.
pub fn tables_have_ids()
    ensures { TablesHaveIds }
{}

/// The sessions of the records that are made are those of the rows, and so is the time that the host was up: each from its login on,
/// to its own logout, a shutdown or a boot, whichever is first.
pub fn sessions_are_of_rows()
    ensures { StaysAreOfRows }
{}

/// From the bytes of a database to sessions: where the entries of a host are read from the login records in it, its sessions are those
/// that the rows of the table mean.
pub fn sessions_are_of_table()
    ensures { StaysAreOfTable }
{}

/// In whole seconds a session is less than a second longer or shorter than in microseconds.
pub fn seconds_are_near()
    ensures { SecondsAreNear }
{}

/// So it is with all sessions that have ended, of rows without a fault: so many are together less than so many seconds off.
pub fn sessions_are_near()
    ensures { SessionsAreNear }
{}
