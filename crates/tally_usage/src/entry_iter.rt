//! Going over stored process records.
ghost use Rattle.std.specs.Prelude.{◌≡◌};
ghost use Rattle.tally_usage.specs.Lent.{Left, Left-prop};

use crate::entry::{ProcEntries, ProcEntry};

/// Goes over lent entries in stored order.
#[derive(Drop)]
pub struct ProcEntryIter<'a> {
    entries: ProcEntries<'a>,
    next: usize,
    ghost kept: { Left entries.kept.now next } by { Left-prop entries.kept.now next },
}

impl<'a> Iterator for ProcEntryIter<'a> {
    ghost use Rattle.std.specs.Iterator.{YieldsFirst, item_count};
    ghost use Rattle.tally_usage.specs.Entries.{entries_left};

    type Item = ProcEntry;

    ghost next_gives = { YieldsFirst entries_left };

    ghost remaining = { item_count entries_left };

    fn next(&mut self) -> Option<ProcEntry> {
        if self.next >= self.entries.len() {
            return None;
        }
        match self.entries.get(self.next) {
            Some(entry) => {
                self.next += 1;
                Some(entry)
            }
            None => None,
        }
    }
}

impl<'a> ProcEntries<'a> {
    ghost use Rattle.tally_usage.specs.Entries.{entries_in, entries_left};

    /// Goes over the entries, whose numbers are worked out one by one.
    pub fn iter(self) -> ProcEntryIter<'a>
        ensures { entries_left result ≡ entries_in self.entry }
    {
        ProcEntryIter {
            entries: self,
            next: 0,
        }
    }
}
