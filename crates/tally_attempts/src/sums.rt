//! How many failed logins each user has from each remote host.
ghost use Rattle.std.specs.Prelude.{◌≡◌, IfOk, map};
ghost use Rattle.indexmap.specs.IndexMap.{IsUnique};
ghost use Rattle.tally_attempts.specs.Sums.{attempt_sum_cmp, attempt_sums};
ghost use Rattle.tally_attempts.specs.inside.Counts.{IsSumRows, row_of};
ghost use Rattle.tally_attempts.specs.inside.Sources.{is_same};
ghost use Rattle.tally_sessions.specs.Lent.{entries_in};
ghost use Rattle.tally_sessions.specs.Totals.{limited};

use crate::attempt::AttemptSum;
use crate::source::Source;
use crate::table::count_chosen;
use indexmap::IndexMap;
use std::alloc::{AllocError, Global};
use std::cmp::Ordering;
use std::hash::RandomState;
use tally_records::{List, LoginChoice, Memory};
use tally_sessions::Entries;

/// Which row comes first: that of the most failed logins, and at a tie by user, then by remote host.
fn compare(a: &AttemptSum, b: &AttemptSum) -> Ordering
    ensures { result ≡ attempt_sum_cmp a.now b.now }
{
    let by_number = b.attempts.cmp(&a.attempts);
    by_number
        .then(a.user.cmp(&b.user))
        .then(a.remote.cmp(&b.remote))
}

/// The rows of a table, in the table's order.
fn rows_of(
    alloc: Global,
    table: &IndexMap<Source, u64, RandomState>,
) -> Result<Vec<AttemptSum>, AllocError>
    ensures rows { IfOk result (λ rows. rows.items ≡ map row_of table.now.entries) }
    ensures unique { IsUnique is_same table.now }
{
    table
        .iter()
        .map(|(source, attempts)| AttemptSum {
            user: source.user,
            remote: source.remote,
            attempts: *attempts,
        })
        .collect(alloc)
}

/// The rows of a table, in their order.
fn ordered_rows(
    alloc: Global,
    table: &IndexMap<Source, u64, RandomState>,
) -> Result<Vec<AttemptSum>, AllocError>
    ensures { IfOk result (λ rows. IsSumRows table.now.entries rows.items) }
{
    let mut rows = rows_of(alloc, table)?;
    rows.sort_unstable_by(|a, b| compare(a, b));
    Ok(rows)
}

/// Leaves the first so many rows, or all.
fn cut(rows: &mut Vec<AttemptSum>, limit: Option<u32>)
    ensures { rows.new.items ≡ limited limit rows.old.items }
{
    if let Some(limit) = limit {
        rows.truncate(limit as usize);
    }
}

/// How many of the chosen failed logins of all hosts each user has from each remote host: the most first, at a tie by the bytes
/// of the user, and then of the remote host; the first `limit` rows. They are counted in a table that is hashed by the keys. It
/// errs where memory runs out.
pub fn attempt_sums(
    alloc: Global,
    keys: RandomState,
    entries: Entries<'_>,
    limit: Option<u32>,
    choice: &LoginChoice,
) -> Result<List<AttemptSum>, Memory>
    ensures { IfOk result (λ rows. rows ≡ attempt_sums limit choice.now (entries_in entries.entry)) }
{
    let table = count_chosen(alloc, keys, entries, choice)?;
    let mut rows = ordered_rows(alloc, &table)?;
    cut(&mut rows, limit);
    List::from_vec(alloc, rows)
}
