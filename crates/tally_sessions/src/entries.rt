//! Stored entries, lent.
ghost use Rattle.std.specs.Prelude.{◌≡◌, ◌<◌, ◌↔◌, [], length, slice_get, take, IsTrue};
ghost use Rattle.tally_sessions.specs.inside.Entries.{entry_at, record_in};
ghost use Rattle.tally_sessions.specs.Lent.{entries_in};

pub(crate) mod batches;
mod hosts;
pub(crate) mod iter;
pub(crate) mod list;
mod reads;
pub(crate) mod stored;

use crate::entries::list::EntryList;
use crate::entries::stored::StoredRecord;
use crate::entry::Entry;

/// The first of some stored entries, lent.
#[derive(Clone, Copy)]
pub struct Entries<'a> {
    list: &'a EntryList,
    count: usize,
}

impl<'a> Entries<'a> {
    /// The first so many entries of a list.
    pub(crate) fn of(list: &'a EntryList, count: usize) -> Entries<'a>
        ensures { entries_in result ≡ take count list.now }
    {
        Entries { list, count }
    }

    /// How many there are.
    pub fn len(self) -> usize
        ensures { result ≡ length (entries_in self.entry) }
    {
        self.count.min(self.list.len())
    }

    /// Whether there are none.
    pub fn is_empty(self) -> bool
        ensures { IsTrue result ↔ (entries_in self.entry ≡ []) }
    {
        self.len() == 0
    }

    /// The entry at a place, counted from 0.
    #[tactic(auto, using(crate::proofs::entries::Lending::get_after, crate::proofs::entries::Lending::get_front))]
    pub fn get(self, index: usize) -> Option<Entry>
        ensures { result ≡ slice_get (entries_in self.entry) index }
    {
        if index >= self.count {
            return None;
        }
        self.list.get(index)
    }

    /// The record of the entry at a place.
    #[tactic(auto, using(crate::proofs::entries::Lending::read_lent))]
    pub(crate) fn record(self, at: usize) -> StoredRecord<'a>
        requires { at < length (entries_in self) }
        ensures { record_in result ≡ (entry_at (entries_in self.entry) at).item }
    {
        self.list.record(at)
    }
}

impl EntryList {
    /// All entries, lent.
    pub fn entries(&self) -> Entries<'_>
        ensures { entries_in result ≡ self.now }
    {
        Entries::of(self, self.len())
    }
}
