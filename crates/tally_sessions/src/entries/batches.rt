//! Batches as they were stored, and the way from a place to the batch of its entry.
ghost use Rattle.std.specs.Prelude.{◌≡◌, ◌≤◌, ◌<◌, ◌+◌, ◌++◌, ◌∷◌, [], length, replicate, take, vec_len, vec_capacity};
ghost use Rattle.tally_sessions.specs.inside.Stored.{AreMarked, IsBatchOf, all_of};

use std::alloc::Global;
use std::sync::Arc;
use tally_records::Logins;

/// How many entries share a mark, the number of a batch that begins at the first of them or earlier.
pub(crate) const ENTRIES_FOR_A_MARK: usize = 16;

/// Login records that were stored together, as those of a host.
#[derive(Drop)]
pub(crate) struct StoredBatch {
    pub(crate) host: u32,
    /// The place of the first entry.
    pub(crate) first: usize,
    /// How many of the records are stored.
    pub(crate) count: usize,
    pub(crate) records: Arc<Logins, Global>,
}

/// The number of the batch of the entry at a place: from its mark on, the last that begins there or earlier.
pub(crate) fn batch_of(batches: &[StoredBatch], marks: &[usize], at: usize) -> usize
    requires marked { AreMarked batches.now marks.now }
    requires within { at < length (all_of batches.now) }
    ensures { IsBatchOf batches.now at result }
{
    let mut number = marks[at / ENTRIES_FOR_A_MARK];
    while number + 1 < batches.len() && batches[number + 1].first <= at {
        number += 1;
    }
    number
}

/// Adds a mark so many times.
pub(crate) fn push_times(marks: &mut Vec<usize>, mark: usize, count: usize)
    requires { vec_len marks.old + count ≤ vec_capacity marks.old }
    ensures { marks.new.items ≡ marks.old.items ++ replicate count mark }
{
    for _time in 0..count {
        marks.push_reserved(mark);
    }
}

/// Puts so many records of a host after the batches, in the room that there is for one batch more.
pub(crate) fn push_batch(
    batches: &mut Vec<StoredBatch>,
    host: u32,
    first: usize,
    count: usize,
    records: Arc<Logins, Global>,
)
    requires { vec_len batches.old + 1 ≤ vec_capacity batches.old }
    ensures { batches.new.items ≡ batches.old.items ++ record { host = host; first = first; count = count; records = records } ∷ [] }
{
    batches.push_reserved(StoredBatch {
        host,
        first,
        count,
        records,
    });
}

/// Keeps so many entries, the batch of the next of which has this number.
pub(crate) fn keep_before(
    batches: &mut Vec<StoredBatch>,
    marks: &mut Vec<usize>,
    number: usize,
    count: usize,
)
    requires marked { AreMarked batches.old.items marks.old.items }
    requires of { IsBatchOf batches.old.items count number }
    ensures marked { AreMarked batches.new.items marks.new.items }
    ensures kept { all_of batches.new.items ≡ take count (all_of batches.old.items) }
{
    let batch = &mut batches[number];
    batch.count = count - batch.first;
    let kept = if batch.count == 0 { number } else { number + 1 };
    batches.truncate(kept);
    marks.truncate(count.div_ceil(ENTRIES_FOR_A_MARK));
}
