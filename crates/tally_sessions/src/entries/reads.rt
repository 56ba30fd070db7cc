//! What is read of a stored batch, and of one record.
ghost use Rattle.std.specs.Arc.{arc_value};
ghost use Rattle.std.specs.Prelude.{◌≡◌, ◌≤◌, ◌<◌, ◌+◌, List, length};
ghost use Rattle.tally_records.specs.Event.{event_of};
ghost use Rattle.tally_sessions.specs.declared.entry.Entry.{Entry};
ghost use Rattle.tally_sessions.specs.inside.Entries.{IsRecordOf, record_in};
ghost use Rattle.tally_sessions.specs.inside.Stored.{Holds};

use crate::entries::batches::StoredBatch;
use crate::entries::stored::StoredRecord;
use crate::sessions::ENTRY_LIMIT;
use std::ops::Deref;
use tally_records::{Event, Key, LoginRecord, Name, Remote};

impl StoredBatch {
    /// Where its entries end.
    pub(crate) fn end(&self) -> usize
        requires { self.now.first + self.now.count ≤ ENTRY_LIMIT }
        ensures { result ≡ self.now.first + self.now.count }
    {
        self.first + self.count
    }

    /// The record of its entry at a place.
    pub(crate) fn record(&self, at: usize) -> StoredRecord<'_>
        requires from { self.now.first ≤ at }
        requires to { at < self.now.first + self.now.count }
        requires stored { self.now.count ≤ length (arc_value self.now.records) }
        ensures at { result.at ≡ at }
        ensures of { (es : List Entry) → Holds es self.now → IsRecordOf es result }
    {
        StoredRecord {
            at,
            records: self.records.deref(),
            place: at - self.first,
        }
    }
}

impl<'a> StoredRecord<'a> {
    /// Its type.
    pub(crate) fn kind(self) -> u8
        ensures { result ≡ (record_in self.entry).kind }
    {
        self.records.kind(self.place).unwrap()
    }

    /// When it was written.
    pub(crate) fn time(self) -> i32
        ensures { result ≡ (record_in self.entry).time }
    {
        self.records.time(self.place).unwrap()
    }

    /// Its event.
    pub(crate) fn event(self) -> Event
        ensures { result ≡ event_of (record_in self.entry) }
    {
        self.records.event(self.place).unwrap()
    }

    /// Its line.
    pub(crate) fn line_key(self) -> Key
        ensures { result ≡ (record_in self.entry).line }
    {
        self.records.line_key(self.place).unwrap()
    }

    /// Its user.
    pub(crate) fn user_key(self) -> Key
        ensures { result ≡ (record_in self.entry).user }
    {
        self.records.user_key(self.place).unwrap()
    }

    /// The name of its user.
    pub(crate) fn user(self) -> Name
        ensures { result ≡ (record_in self.entry).user }
    {
        self.records.user(self.place).unwrap()
    }

    /// Writes its texts over others.
    pub(crate) fn put_texts(self, line: &mut Name, user: &mut Name, remote: &mut Remote)
        ensures line { line.new ≡ (record_in self.entry).line }
        ensures user { user.new ≡ (record_in self.entry).user }
        ensures remote { remote.new ≡ (record_in self.entry).remote }
    {
        self.records.put_texts(self.place, line, user, remote);
    }

    /// All of it.
    pub(crate) fn whole(self) -> LoginRecord
        ensures { result ≡ record_in self.entry }
    {
        self.records.get(self.place).unwrap()
    }
}
