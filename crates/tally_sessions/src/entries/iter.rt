//! Going over stored entries.
ghost use Rattle.std.specs.Prelude.{◌≡◌};
ghost use Rattle.std.specs.Iterator.{YieldsFirst, item_count};
ghost use Rattle.tally_sessions.specs.Left.{entries_left};
ghost use Rattle.tally_sessions.specs.Lent.{entries_in};

use crate::entries::Entries;
use crate::entry::Entry;

/// Goes over lent entries in stored order.
#[derive(Drop)]
pub struct EntryIter<'a> {
    entries: Entries<'a>,
    next: usize,
}

impl<'a> Iterator for EntryIter<'a> {
    type Item = Entry;

    ghost next_gives = { YieldsFirst entries_left };

    ghost remaining = { item_count entries_left };

    #[tactic(auto, using(crate::proofs::entries::Lending::all_left, crate::proofs::entries::Lending::none_left, crate::proofs::entries::Lending::one_left, crate::proofs::entries::Lending::less_left))]
    fn next(&mut self) -> Option<Entry> {
        if self.next >= self.entries.len() {
            return None;
        }
        match self.entries.get(self.next) {
            Some(entry) => {
                self.next += 1;
                Some(entry)
            }
            None => None,
        }
    }
}

impl<'a> Entries<'a> {
    /// Goes over the entries, each at its full size.
    pub fn iter(self) -> EntryIter<'a>
        ensures { entries_left result ≡ entries_in self.entry }
    {
        EntryIter {
            entries: self,
            next: 0,
        }
    }
}
