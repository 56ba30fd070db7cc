//! One stored record, where it is kept.
ghost use Rattle.std.specs.Prelude.{◌<◌, length};

use tally_records::Logins;

/// The record of a stored entry, lent.
#[derive(Clone, Copy)]
pub(crate) struct StoredRecord<'a> {
    /// Its place among all entries.
    pub(crate) at: usize,
    /// The records of its batch.
    pub(crate) records: &'a Logins,
    /// Its place among these.
    pub(crate) place: usize,
    ghost there: { place < length records.now },
}
