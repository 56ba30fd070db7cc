//! Entries of one host among those that are lent, and what is read of them alone.
ghost use Rattle.std.specs.Prelude.{◌≡◌, ◌≢◌, ◌≤◌, ◌+◌, ◌<◌, IfNone, IfOk, IfSome, Some, drop, length, option_map, slice_get, take, true, false};
ghost use Rattle.tally_sessions.specs.Hosts.{entries_of_host, of_host};
ghost use Rattle.tally_sessions.specs.Lent.{entries_in};
ghost use Rattle.tally_sessions.specs.inside.Entries.{entry_at};

use crate::entries::Entries;
use crate::entries::list::EntryList;
use std::alloc::Global;
use tally_records::Memory;

impl<'a> Entries<'a> {
    /// Whether the entry at a place is a host's.
    fn is_of(self, host: u32, at: usize) -> bool
        requires { at < length (entries_in self) }
        ensures own { result ≡ true → option_map (λ e. e.host) (slice_get (entries_in self.entry) at) ≡ Some host }
        ensures other { result ≡ false → (entry_at self.entry.list.now at).host ≢ host }
    {
        self.list.host(at) == host
    }

    /// The place of a host's first entry from a place on.
    pub fn next_of(self, host: u32, from: usize) -> Option<usize>
        ensures later { IfSome result (λ at. from ≤ at) }
        ensures host { IfSome result (λ at. option_map (λ e. e.host) (slice_get (entries_in self.entry) at) ≡ Some host) }
        ensures first { IfSome result (λ at. of_host host (take at (entries_in self.entry)) ≡ of_host host (take from (entries_in self.entry))) }
        ensures none { IfNone result (of_host host (entries_in self.entry) ≡ of_host host (take from (entries_in self.entry))) }
    {
        let mut at = from;
        while at < self.len() {
            if self.is_of(host, at) {
                return Some(at);
            }
            at = self.list.batch_end(at);
        }
        None
    }

    /// The place of a host's last entry before a place.
    pub fn last_of(self, host: u32, before: usize) -> Option<usize>
        ensures earlier { IfSome result (λ at. at < before) }
        ensures host { IfSome result (λ at. option_map (λ e. e.host) (slice_get (entries_in self.entry) at) ≡ Some host) }
        ensures last { IfSome result (λ at. of_host host (drop (at + 1) (entries_in self.entry)) ≡ of_host host (drop before (entries_in self.entry))) }
        ensures none { IfNone result (of_host host (entries_in self.entry) ≡ of_host host (drop before (entries_in self.entry))) }
    {
        let mut end = before.min(self.len());
        while end > 0 {
            let last = end - 1;
            if self.is_of(host, last) {
                return Some(last);
            }
            end = self.list.batch_start(last);
        }
        None
    }

    /// The entries of one host, in stored order. Both lists share the records.
    #[tactic(auto, unfolding(crate::specs::Lent::entries_in))]
    pub fn only(self, alloc: Global, host: u32) -> Result<EntryList, Memory>
        ensures value { IfOk result (λ list. list ≡ entries_of_host host (entries_in self.entry)) }
    {
        self.list.of_host(alloc, host, self.count)
    }

    /// The type of the record of the entry at a place, `ut_type` of utmp(5).
    pub fn kind(self, index: usize) -> Option<u8>
        ensures { result ≡ option_map (λ e. e.item.kind) (slice_get (entries_in self.entry) index) }
    {
        if index >= self.len() {
            return None;
        }
        Some(self.record(index).kind())
    }

    /// When the record of the entry at a place was written.
    pub fn time(self, index: usize) -> Option<i32>
        ensures { result ≡ option_map (λ e. e.item.time) (slice_get (entries_in self.entry) index) }
    {
        if index >= self.len() {
            return None;
        }
        Some(self.record(index).time())
    }
}
