//! Tables that count failed logins by their users and remote hosts.
ghost use Rattle.std.specs.Prelude.{◌≡◌, ◌<◌, ◌+◌, ◌^◌, IfOk, OnOk};
ghost use Rattle.tally_attempts.specs.Sums.{chosen_attempts};
ghost use Rattle.tally_attempts.specs.inside.Counts.{HasCounts, HasOneMore, count_at};
ghost use Rattle.tally_sessions.specs.Lent.{entries_in};

use crate::chosen::chosen_at;
use crate::source::Source;
use indexmap::IndexMap;
use std::alloc::Global;
use std::hash::RandomState;
use tally_records::{LoginChoice, Memory};
use tally_sessions::Entries;

/// Counts one more of a source.
fn count(table: &mut IndexMap<Source, u64, RandomState>, source: Source) -> Result<(), Memory>
    requires { count_at table.old.entries source + 1 < 2 ^ 64 }
    ensures { OnOk result (HasOneMore table.old.entries table.new.entries source) }
{
    *table.entry(source)?.or_insert(0) += 1;
    Ok(())
}

/// Counts the chosen failed logins of all hosts in a table that is hashed by the keys.
pub(crate) fn count_chosen(
    alloc: Global,
    keys: RandomState,
    entries: Entries<'_>,
    choice: &LoginChoice,
) -> Result<IndexMap<Source, u64, RandomState>, Memory>
    ensures { IfOk result (λ table. HasCounts table.entries (chosen_attempts choice.now (entries_in entries.entry))) }
{
    let mut table = IndexMap::with_hasher(alloc, keys);
    for index in 0..entries.len() {
        if let Some(record) = chosen_at(entries, choice, index) {
            count(&mut table, Source::of(&record))?;
        }
    }
    Ok(table)
}
