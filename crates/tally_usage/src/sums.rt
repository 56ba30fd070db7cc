//! The sums of each command and of each user over process records that are not kept.
ghost use Rattle.std.specs.Prelude.{◌≡◌, ◌+◌, [], IfErr, IfOk, OnErr, OnOk};
ghost use Rattle.tally_records.specs.Records.{IsProcs, procs_in, record_count};
ghost use Rattle.tally_usage.specs.Choice.{chosen};
ghost use Rattle.tally_usage.specs.Command.{command_rows};
ghost use Rattle.tally_usage.specs.Sums.{AreSums, AreSumsOf, CountsBoth, CountsMore, IsAbout, IsCauseAt};
ghost use Rattle.tally_usage.specs.Usage.{usage_of};
ghost use Rattle.tally_usage.specs.User.{user_rows};

use crate::choice::ProcChoice;
use crate::command::{self, CommandRow};
use crate::fault::SumsFault;
use crate::order::Order;
use crate::summary::turned;
use crate::table::{Commands, count_chosen, count_groups};
use crate::usage::{SUMS_LIMIT, Usage};
use crate::user::{self, UidRow};
use indexmap::IndexMap;
use std::alloc::Global;
use std::hash::RandomState;
use std::marker::Model;
use tally_records::{Batch, Guesses, Hints, List, Memory};

/// The sums of each command, of each user and of all, over process records that it does not keep.
#[derive(Drop)]
pub struct Sums {
    commands: Commands,
    users: IndexMap<u32, Usage, RandomState>,
    total: Usage,
    command_guesses: Hints,
    user_guesses: Guesses,
}

impl Model for Sums {
    ghost use Rattle.tally_usage.specs.Sums.{AreSums, Counted};

    ghost Value = { Counted };

    ghost use Rattle.tally_usage.specs.inside.Counted.{counted_in};

    ghost view = { counted_in };

    ghost invariant = { λ s. AreSums (counted_in s) };
}

impl Sums {
    /// The sums of no records. Its tables are hashed by the keys.
    pub fn new(alloc: Global, keys: RandomState) -> Sums
        ensures { AreSumsOf result [] }
    {
        Sums {
            commands: IndexMap::with_hasher(alloc, keys),
            users: IndexMap::with_hasher(alloc, keys),
            total: Usage::none(),
            command_guesses: Hints::new(alloc),
            user_guesses: Guesses::new(alloc),
        }
    }

    /// Counts the records of a batch too, or none of them. It may ask for memory: for room in each table for as many new
    /// groups as the batch has records, and the first time for guesses of their places.
    pub fn add(&mut self, batch: &Batch) -> Result<(), SumsFault>
        requires kind { IsProcs batch.now }
        ensures added { OnOk result (CountsMore self.old self.new (procs_in batch.now)) }
        ensures refused { OnErr result (self.new ≡ self.old) }
        ensures cause { IfErr result (IsCauseAt (self.old.total.count + record_count batch.now)) }
    {
        self.add_chosen(batch, &ProcChoice::every())
    }

    /// Counts the chosen records of a batch too, or none of them. It asks for memory, and refuses a batch, as `add` does: there
    /// has to be room for all its records.
    pub fn add_chosen(&mut self, batch: &Batch, choice: &ProcChoice) -> Result<(), SumsFault>
        requires kind { IsProcs batch.now }
        ensures added { OnOk result (CountsMore self.old self.new (chosen choice.now (procs_in batch.now))) }
        ensures refused { OnErr result (self.new ≡ self.old) }
        ensures cause { IfErr result (IsCauseAt (self.old.total.count + record_count batch.now)) }
    {
        let count = batch.len();
        if self.total.count + count as u64 > SUMS_LIMIT as u64 {
            return Err(SumsFault::Full);
        }
        self.commands.reserve(count)?;
        self.users.reserve(count)?;
        self.command_guesses.make_room()?;
        self.user_guesses.make_room()?;
        count_chosen(
            &mut self.commands,
            &mut self.users,
            &mut self.total,
            &mut self.command_guesses,
            &mut self.user_guesses,
            batch.packed_procs(),
            choice,
        );
        Ok(())
    }

    /// Counts what other sums count too, or nothing of it. Sums of no records take the others as they are. Else it may ask for
    /// memory: for room in each table for as many new groups as the other has.
    pub fn merge(&mut self, other: Sums) -> Result<(), SumsFault>
        ensures merged { OnOk result (CountsBoth self.old other self.new) }
        ensures refused { OnErr result (self.new ≡ self.old) }
        ensures cause { IfErr result (IsCauseAt (self.old.total.count + other.total.count)) }
    {
        if self.total.count == 0 {
            *self = other;
            return Ok(());
        }
        self.merge_groups(&other)
    }

    /// The same, by the groups of the others.
    fn merge_groups(&mut self, other: &Sums) -> Result<(), SumsFault>
        ensures merged { OnOk result (CountsBoth self.old other.now self.new) }
        ensures refused { OnErr result (self.new ≡ self.old) }
        ensures cause { IfErr result (IsCauseAt (self.old.total.count + other.now.total.count)) }
    {
        if self.total.count + other.total.count > SUMS_LIMIT as u64 {
            return Err(SumsFault::Full);
        }
        self.commands.reserve(other.commands.len())?;
        self.users.reserve(other.users.len())?;
        count_groups(&mut self.commands, &other.commands);
        count_groups(&mut self.users, &other.users);
        self.total.add(&other.total);
        Ok(())
    }

    /// The rows by command, as those of a summary of the same records.
    pub fn by_command(
        &self,
        alloc: Global,
        order: Order,
        all: bool,
        reverse: bool,
    ) -> Result<List<CommandRow>, Memory>
        ensures value { IfOk result (IsAbout self.now (command_rows order all reverse)) }
    {
        let mut rows = Vec::with_capacity(alloc, self.commands.len() + 1)?;
        command::push_rows(&mut rows, &self.commands, all)?;
        rows.sort_unstable_by(|a, b| command::compare(order, a, b));
        turned(alloc, rows, reverse)
    }

    /// The rows by user, as those of a summary of the same records.
    pub fn by_user(
        &self,
        alloc: Global,
        order: Order,
        reverse: bool,
    ) -> Result<List<UidRow>, Memory>
        ensures value { IfOk result (IsAbout self.now (user_rows order reverse)) }
    {
        let mut rows = user::rows_of(alloc, &self.users)?;
        rows.sort_unstable_by(|a, b| user::compare(order, a, b));
        turned(alloc, rows, reverse)
    }

    /// What all the records used.
    pub fn total(&self) -> Usage
        ensures value { IsAbout self.now usage_of result }
        ensures some { AreSums self.now }
    {
        self.total
    }
}
