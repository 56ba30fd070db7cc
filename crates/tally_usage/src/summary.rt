//! The sums of each command and of each user over the stored process records.
ghost use Rattle.std.specs.Prelude.{◌≡◌, ◌+◌, ◌≤◌, [], ◌++◌, None, Some, IfOk, OnOk, OnErr, if◌then◌else◌, length, reverse};
ghost use Rattle.tally_records.specs.Records.{IsProcs, procs_in, record_count};
ghost use Rattle.tally_usage.specs.Command.{command_rows};
ghost use Rattle.tally_usage.specs.Entries.{entries_in};
ghost use Rattle.tally_usage.specs.Summary.{entries_of};
ghost use Rattle.tally_usage.specs.Totals.{records_of};
ghost use Rattle.tally_usage.specs.Usage.{usage_of};
ghost use Rattle.tally_usage.specs.User.{user_rows};

use crate::command::{self, CommandRow};
use crate::entry::{ENTRY_LIMIT, ProcEntries, ProcList};
use crate::kept_list::KeptList;
use crate::order::Order;
use crate::table::{Commands, count_records};
use crate::usage::Usage;
use crate::user::{self, UidRow};
use indexmap::IndexMap;
use std::alloc::Global;
use std::hash::RandomState;
use std::marker::Model;
use std::sync::Arc;
use tally_records::{Batch, Guesses, Hints, List, Memory, PackedProc};

/// What `prepare` has made the summary ready for: a host, and the records of a batch, shared with it. `add` reads them from
/// the batch; they stand here to say what it is ready for.
#[derive(Drop)]
pub(crate) struct Waiting {
    pub(crate) host: u32,
    pub(crate) records: Arc<Vec<PackedProc>, Global>,
}

/// The stored process records, with the sums of each command, of each user and of all.
#[derive(Drop)]
pub struct Summary {
    /// The stored entries.
    kept: KeptList,
    /// What the summary is ready for.
    waiting: Option<Waiting>,
    commands: Commands,
    users: IndexMap<u32, Usage, RandomState>,
    total: Usage,
    command_guesses: Hints,
    user_guesses: Guesses,
}

impl Model for Summary {
    ghost use Rattle.tally_usage.specs.Summary.{Contents};

    ghost Value = { Contents };

    ghost use Rattle.tally_usage.specs.inside.Sound.{contents_of, IsSound};

    ghost view = { contents_of };

    ghost invariant = { IsSound };
}

impl Summary {
    /// A summary of no records. Its tables are hashed by the keys.
    pub fn new(alloc: Global, keys: RandomState) -> Summary
        ensures entries { result.entries ≡ [] }
        ensures ready { result.ready ≡ None }
    {
        Summary {
            kept: KeptList::new(alloc),
            waiting: None,
            commands: IndexMap::with_hasher(alloc, keys),
            users: IndexMap::with_hasher(alloc, keys),
            total: Usage::none(),
            command_guesses: Hints::new(alloc),
            user_guesses: Guesses::new(alloc),
        }
    }

    /// Makes every growth that adding the batch needs, so that `add` with the same host and batch
    /// cannot fail. Where memory is refused, no answer has changed.
    pub fn prepare(&mut self, host: u32, batch: &Batch) -> Result<(), Memory>
        requires kind { IsProcs batch.now }
        requires room { length self.old.entries + record_count batch.now ≤ ENTRY_LIMIT }
        ensures entries { self.new.entries ≡ self.old.entries }
        ensures ready { OnOk result
            (self.new.ready ≡ Some (record { host = host; records = procs_in batch.now })) }
        ensures refused { OnErr result (self.new.ready ≡ None) }
    {
        self.waiting = None;
        let count = batch.len();
        self.kept.reserve(count)?;
        self.commands.reserve(count)?;
        self.users.reserve(count)?;
        self.command_guesses.make_room()?;
        self.user_guesses.make_room()?;
        if let Some(records) = batch.share_procs()? {
            self.waiting = Some(Waiting { host, records });
        }
        Ok(())
    }

    /// Adds the batch that `prepare` made the summary ready for. Takes no memory, and time for this
    /// batch alone, however much is stored.
    pub fn add(&mut self, host: u32, batch: &Batch)
        requires ready { self.old.ready ≡ Some (record { host = host; records = procs_in batch.now }) }
        ensures entries { self.new.entries ≡ self.old.entries ++ entries_of host (procs_in batch.now) }
        ensures ready { self.new.ready ≡ None }
    {
        count_records(
            &mut self.kept,
            &mut self.commands,
            &mut self.users,
            &mut self.total,
            &mut self.command_guesses,
            &mut self.user_guesses,
            host,
            batch.packed_procs(),
        );
        self.waiting = None;
    }

    /// The stored entries, in the order in which they were added.
    pub fn entries(&self) -> ProcEntries<'_>
        ensures value { entries_in result ≡ self.now.entries }
    {
        ProcEntries::of(&self.kept, &self.commands)
    }

    /// The stored entries, by value.
    pub fn into_entries(self) -> ProcList
        ensures value { result ≡ self.entries }
    {
        let Summary {
            kept,
            waiting: _,
            commands,
            users: _,
            total: _,
            command_guesses: _,
            user_guesses: _,
        } = self;
        ProcList::of(kept, commands)
    }

    /// The rows by command, as sa(8) sums them: the greatest number first, or last where `reverse`.
    /// Without `all`, commands of one call or with a name that does not print are one row.
    pub fn by_command(
        &self,
        alloc: Global,
        order: Order,
        all: bool,
        reverse: bool,
    ) -> Result<List<CommandRow>, Memory>
        ensures value { IfOk result
            (λ rows. rows ≡ command_rows order all reverse (records_of self.now.entries)) }
    {
        let mut rows = Vec::with_capacity(alloc, self.commands.len() + 1)?;
        command::push_rows(&mut rows, &self.commands, all)?;
        rows.sort_unstable_by(|a, b| command::compare(order, a, b));
        turned(alloc, rows, reverse)
    }

    /// The rows by user: the greatest number first, or last where `reverse`.
    pub fn by_user(
        &self,
        alloc: Global,
        order: Order,
        reverse: bool,
    ) -> Result<List<UidRow>, Memory>
        ensures value { IfOk result
            (λ rows. rows ≡ user_rows order reverse (records_of self.now.entries)) }
    {
        let mut rows = user::rows_of(alloc, &self.users)?;
        rows.sort_unstable_by(|a, b| user::compare(order, a, b));
        turned(alloc, rows, reverse)
    }

    /// What all stored records used.
    pub fn total(&self) -> Usage
        ensures value { result ≡ usage_of (records_of self.now.entries) }
    {
        self.total
    }
}

/// The rows in their order, or in the opposite one.
pub(crate) fn turned<T: Copy>(
    alloc: Global,
    mut rows: Vec<T>,
    is_opposite: bool,
) -> Result<List<T>, Memory>
    ensures { IfOk result (λ turned. turned ≡ if is_opposite then reverse rows.items else rows.items) }
{
    if is_opposite {
        rows.reverse();
    }
    List::from_vec(alloc, rows)
}
