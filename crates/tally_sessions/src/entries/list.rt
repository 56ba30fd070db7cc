//! Stored login records and their hosts, each batch as it came.
ghost use Rattle.std.specs.Arc.{arc_value};
ghost use Rattle.std.specs.Prelude.{◌≡◌, ◌≤◌, ◌<◌, ◌+◌, ◌-◌, ◌++◌, [], length, slice_get, take, IfOk, IsTrue, OnOk, OnErr, ◌↔◌};
ghost use Rattle.tally_records.specs.Records.{IsLogins, logins_in, record_count};
ghost use Rattle.tally_sessions.specs.inside.Entries.{AreOf, IsRecordOf, entry_at, record_in};
ghost use Rattle.tally_sessions.specs.inside.Stored.{Holds, entries_of};
ghost use Rattle.tally_sessions.specs.Hosts.{entries_of_host, posted_by};

use crate::entries::batches::{
    ENTRIES_FOR_A_MARK, StoredBatch, batch_of, keep_before, push_batch, push_times,
};
use crate::entries::stored::StoredRecord;
use crate::entry::Entry;
use crate::sessions::ENTRY_LIMIT;
use std::alloc::Global;
use std::marker::Model;
use std::ops::Deref;
use std::sync::Arc;
use tally_records::{Batch, Logins, Memory};

/// Stored entries, handed out.
#[derive(Drop)]
pub struct EntryList {
    batches: Vec<StoredBatch>,
    /// For each so many entries the number of a batch that begins at the first of them or earlier.
    marks: Vec<usize>,
    count: usize,
}

impl Model for EntryList {
    ghost use Rattle.std.specs.Prelude.{List};
    ghost use Rattle.tally_sessions.specs.declared.entry.Entry.{Entry as Item};
    ghost use Rattle.tally_sessions.specs.inside.Stored.{IsSound, kept};

    ghost Value = { List Item };

    ghost view = { kept };

    ghost invariant = { IsSound };
}

impl EntryList {
    /// No entries, which take no memory.
    pub fn new(alloc: Global) -> EntryList
        ensures { result ≡ [] }
    {
        EntryList {
            batches: Vec::new(alloc),
            marks: Vec::new(alloc),
            count: 0,
        }
    }

    /// How many entries it holds.
    pub fn len(&self) -> usize
        ensures { result ≡ length self.now }
    {
        self.count
    }

    /// Whether it holds none.
    pub fn is_empty(&self) -> bool
        ensures { IsTrue result ↔ (self.now ≡ []) }
    {
        self.len() == 0
    }

    /// The batch of the entry at a place.
    pub(crate) fn batch(&self, at: usize) -> &StoredBatch
        requires { at < length self.now }
        ensures held { Holds self.now result.now }
        ensures stored { result.now.count ≤ length (arc_value result.now.records) }
        ensures from { result.now.first ≤ at }
        ensures to { at < result.now.first + result.now.count }
        ensures few { result.now.first + result.now.count ≤ ENTRY_LIMIT }
    {
        let batches = self.batches.as_slice();
        &batches[batch_of(batches, self.marks.as_slice(), at)]
    }

    /// The record of the entry at a place.
    pub(crate) fn record(&self, at: usize) -> StoredRecord<'_>
        requires { at < length self.now }
        ensures of { IsRecordOf self.now result }
        ensures at { result.at ≡ at }
        ensures is { record_in result ≡ (entry_at self.now at).item }
    {
        self.batch(at).record(at)
    }

    /// The entry at a place, counted from 0.
    pub fn get(&self, index: usize) -> Option<Entry>
        ensures { result ≡ slice_get self.now index }
    {
        if index >= self.count {
            return None;
        }
        Some(Entry {
            host: self.host(index),
            item: self.record(index).whole(),
        })
    }

    /// The host of the entry at a place.
    pub(crate) fn host(&self, at: usize) -> u32
        requires { at < length self.now }
        ensures { result ≡ (entry_at self.now at).host }
    {
        self.batch(at).host
    }

    /// Where the batch of the entry at a place ends. Its entries are of one host.
    pub(crate) fn batch_end(&self, at: usize) -> usize
        requires { at < length self.now }
        ensures further { at < result }
        ensures within { result ≤ length self.now }
        ensures same { AreOf (entry_at self.now at).host self.now at result }
    {
        self.batch(at).end()
    }

    /// Where the batch of the entry at a place begins. Its entries are of one host.
    pub(crate) fn batch_start(&self, at: usize) -> usize
        requires { at < length self.now }
        ensures before { result ≤ at }
        ensures same { AreOf (entry_at self.now at).host self.now result (at + 1) }
    {
        self.batch(at).first
    }

    /// Adds the first so many records as those of a host, or none.
    fn append(
        &mut self,
        host: u32,
        records: Arc<Logins, Global>,
        count: usize,
    ) -> Result<(), Memory>
        requires stored { count ≤ length (arc_value records) }
        requires room { length self.old + count ≤ ENTRY_LIMIT }
        ensures added { OnOk result (self.new ≡ self.old ++ posted_by host (take count (arc_value records))) }
        ensures refused { OnErr result (self.new ≡ self.old) }
    {
        // No batch is empty, so that few begin between two marks.
        if count == 0 {
            return Ok(());
        }
        let end = self.count + count;
        let marks = end
            .div_ceil(ENTRIES_FOR_A_MARK)
            .saturating_sub(self.marks.len());
        self.marks.reserve(marks)?;
        self.batches.reserve(1)?;
        push_times(&mut self.marks, self.batches.len(), marks);
        push_batch(&mut self.batches, host, self.count, count, records);
        self.count = end;
        Ok(())
    }

    /// Adds the login records of a batch as those of a host, or none. The list and the batch share them.
    pub fn append_batch(&mut self, host: u32, b: &Batch) -> Result<(), Memory>
        requires kind { IsLogins b.now }
        requires room { length self.old + record_count b.now ≤ ENTRY_LIMIT }
        ensures stored { OnOk result (self.new ≡ self.old ++ posted_by host (logins_in b.now)) }
        ensures refused { OnErr result (self.new ≡ self.old) }
    {
        match b.share_logins()? {
            Some(records) => {
                let count = records.len();
                self.append(host, records, count)
            }
            None => Ok(()),
        }
    }

    /// Adds the entries of a batch before a place, if they are a host's. The lists share their records.
    #[tactic(auto, using(crate::proofs::entries::OfHost::nothing_added, crate::proofs::entries::OfHost::own_part))]
    fn append_part(&mut self, host: u32, batch: &StoredBatch, count: usize) -> Result<(), Memory>
        requires stored { batch.now.count ≤ length (arc_value batch.now.records) }
        requires room { length self.old + batch.now.count ≤ ENTRY_LIMIT }
        ensures added { OnOk result (self.new ≡ self.old ++ entries_of_host host (take (count - batch.now.first) (entries_of batch.now))) }
        ensures refused { OnErr result (self.new ≡ self.old) }
    {
        if batch.host != host {
            return Ok(());
        }
        let part = batch.count.min(count.saturating_sub(batch.first));
        self.append(host, Arc::try_clone(&batch.records)?, part)
    }

    /// The entries of a host among the first so many. The lists share their records.
    pub(crate) fn of_host(
        &self,
        alloc: Global,
        host: u32,
        count: usize,
    ) -> Result<EntryList, Memory>
        ensures { IfOk result (λ list. list ≡ entries_of_host host (take count self.now)) }
    {
        let mut list = EntryList::new(alloc);
        for number in 0..self.batches.len() {
            list.append_part(host, &self.batches[number], count)?;
        }
        Ok(list)
    }

    /// Keeps the first so many entries.
    pub(crate) fn truncate(&mut self, count: usize)
        ensures { self.new ≡ take count self.old }
    {
        if count >= self.count {
            return;
        }
        let number = batch_of(self.batches.as_slice(), self.marks.as_slice(), count);
        keep_before(&mut self.batches, &mut self.marks, number, count);
        self.count = count;
    }
}
