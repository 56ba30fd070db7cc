//! Five whole batches of process records, which are more than a summary keeps in one block.
ghost use Rattle.std.specs.Prelude.{IfOk};
ghost use Rattle.tally_records.specs.Records.{IsProcs};

use crate::bytes::{make_record, procs};
use crate::stopped::{Stopped, stop};
use crate::window::{grant_growths, refuse_growths};
use std::alloc::{AllocError, Global};
use std::hash::RandomState;
use tally_records::{BATCH_LIMIT, Batch, read_proc};
use tally_usage::{ENTRY_LIMIT, ProcEntries, ProcEntry, Summary};

/// How many batches there are, by three hosts in turn.
const BATCHES: usize = 5;

/// The record of a number: a call of one of three commands, with as many ticks elapsed.
fn record(number: usize) -> [u8; 64] {
    let [low, high, ..] = number.to_le_bytes();
    let mut bytes = make_record(low % 2, &[1, 0, 0, 0, low, high, 0, 0, 0, 0]);
    bytes[36] = b'a' + low % 3;
    bytes
}

fn host_of(number: usize) -> u32 {
    (number / BATCH_LIMIT % 3) as u32
}

/// The entry that the record of a place is to be.
fn made(place: usize) -> Option<ProcEntry> {
    let item = read_proc(&record(place)).ok()?;
    Some(ProcEntry {
        host: host_of(place),
        item,
    })
}

/// The bytes of a batch whose first record has a number.
fn batch_bytes(alloc: Global, first: usize) -> Result<Vec<u8>, AllocError> {
    let mut bytes = Vec::with_capacity(alloc, 65_536)?;
    for at in 0..BATCH_LIMIT {
        bytes.extend_from_slice(&record(first.saturating_add(at)))?;
    }
    Ok(bytes)
}

/// The batch, made again where memory was refused.
fn batch(alloc: Global, first: usize) -> Result<Batch, Stopped>
    ensures { IfOk result IsProcs }
{
    let bytes = match batch_bytes(alloc, first) {
        Err(_) => batch_bytes(alloc, first),
        made => made,
    };
    let bytes = bytes?;
    let made = procs(alloc, bytes.as_slice());
    drop(bytes);
    stop(made)
}

/// Whether the entries in order are those that are made.
fn are_made_in_order(entries: ProcEntries<'_>) -> bool {
    for (place, entry) in entries.iter().enumerate() {
        if Some(entry) != made(place) {
            return false;
        }
    }
    true
}

/// Whether the entries are the first of those that are made, at each place and in order.
fn are_made(entries: ProcEntries<'_>, count: usize) -> bool {
    for place in 0..count {
        if entries.get(place) != made(place) {
            return false;
        }
    }
    entries.len() == count && entries.get(count).is_none() && are_made_in_order(entries)
}

/// Adds a batch, made ready again where memory was refused, which left the entries as they were; to add it takes none.
fn add(alloc: Global, summary: &mut Summary, host: u32, batch: &Batch) -> Result<(), Stopped>
    requires { IsProcs batch.now }
{
    let count = summary.entries().len();
    if count + batch.len() > ENTRY_LIMIT {
        return Err(Stopped::Refused("batch"));
    }
    if summary.prepare(host, batch).is_err() {
        if !are_made(summary.entries(), count) {
            return Err(Stopped::Changed("kept entries"));
        }
        summary.prepare(host, batch)?;
    }
    refuse_growths(alloc);
    summary.add(host, batch);
    grant_growths(alloc);
    Ok(())
}

/// How many entries a summary hands out, and whether all and the last are those that are made.
fn hand_out(summary: Summary) -> (usize, bool, bool) {
    let count = BATCHES * BATCH_LIMIT;
    let entries = summary.into_entries();
    let are_given = are_made(entries.as_entries(), count);
    let last = entries.get(count - 1) == made(count - 1);
    let given = (entries.len(), are_given, last);
    drop(entries);
    given
}

/// Prints whether the entries are those that are made, lent and handed out, once all are added.
fn print_entries<R: Print + AllocGlobal>(
    rt: &R,
    added: Result<(), Stopped>,
    summary: Summary,
) -> Result<(), Stopped> {
    let alloc = rt.alloc();
    refuse_growths(alloc);
    let are_lent = are_made(summary.entries(), BATCHES * BATCH_LIMIT);
    let (count, are_given, last) = hand_out(summary);
    grant_growths(alloc);
    added?;
    stop(println!(rt; "entries: {count} {are_lent} {are_given} {last}"))
}

/// Adds the batch whose first record has a number.
fn add_from(alloc: Global, summary: &mut Summary, first: usize) -> Result<(), Stopped> {
    let batch = batch(alloc, first)?;
    let added = add(alloc, summary, host_of(first), &batch);
    drop(batch);
    added
}

/// Adds all batches.
fn add_all(alloc: Global, summary: &mut Summary) -> Result<(), Stopped> {
    for number in 0..BATCHES {
        add_from(alloc, summary, number * BATCH_LIMIT)?;
    }
    Ok(())
}

/// Prints what a summary keeps of all batches.
pub(crate) fn script<R: Print + AllocGlobal>(rt: &R, keys: RandomState) -> Result<(), Stopped> {
    let mut summary = Summary::new(rt.alloc(), keys);
    let added = add_all(rt.alloc(), &mut summary);
    print_entries(rt, added, summary)
}
