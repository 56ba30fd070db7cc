//! The stored login entries, and their sessions from the first question on.
ghost use Rattle.std.specs.Prelude.{◌≡◌, ◌≤◌, ◌<◌, ◌+◌, ◌++◌, ◌↔◌, ℕ, [], All, IfErr, IfNone, IfOk, IfSome, IsOk, MatchOption, MatchResult, OnErr, OnOk, false, true, length};
ghost use Rattle.tally_records.specs.Records.{IsLogins, logins_in, record_count};
ghost use Rattle.tally_sessions.specs.Hosts.{entries_of_host, posted_by};
ghost use Rattle.tally_sessions.specs.Lent.{entries_in};
ghost use Rattle.tally_book.specs.inside.LoginStores.{entries_of, hosts_of, is_counted};
ghost use Rattle.tally_book.specs.inside.Ready.{IsReady};

use std::alloc::Global;
use std::hash::RandomState;
use std::marker::Model;
use std::mem;
use std::thread::Threads;
use tally_answers::Question;
use tally_records::{Batch, Memory};
use tally_sessions::{ENTRY_LIMIT, Entries, EntryList, HOST_LIMIT, Sessions};

/// Entries that nobody has asked about are a list alone.
#[derive(Drop)]
enum Kept {
    Listed(EntryList),
    Counted(Sessions),
}

impl Kept {
    /// Stores a batch as a host's, or nothing of it.
    fn store(&mut self, host: u32, batch: &Batch) -> Result<(), Memory>
        requires host { host < hosts_of HOST_LIMIT self.old }
        requires kind { IsLogins batch.now }
        requires room { length (entries_of self.old) + record_count batch.now ≤ ENTRY_LIMIT }
        ensures stored { OnOk result (entries_of self.new ≡ entries_of self.old ++ posted_by host (logins_in batch.now)) }
        ensures refused { OnErr result (entries_of self.new ≡ entries_of self.old) }
        ensures form { is_counted self.new ≡ is_counted self.old }
        ensures hosts { (hosts : ℕ) → hosts_of hosts self.new ≡ hosts_of hosts self.old }
    {
        match self {
            Kept::Listed(entries) => entries.append_batch(host, batch),
            Kept::Counted(sessions) => {
                sessions.prepare(host, batch)?;
                sessions.add(host, batch);
                Ok(())
            }
        }
    }
}

/// The stored login entries of so many hosts.
#[derive(Drop)]
pub(crate) struct LoginStore {
    hosts: u32,
    keys: RandomState,
    kept: Kept,
}

impl Model for LoginStore {
    ghost use Rattle.tally_book.specs.inside.LoginStates.{LoginState};

    ghost Value = { LoginState };

    ghost use Rattle.tally_book.specs.inside.LoginStores.{state_of, IsSound};

    ghost view = { state_of };

    ghost invariant = { IsSound };
}

impl LoginStore {
    /// No entries. The tables of their sessions will be hashed by the keys.
    pub(crate) fn new(alloc: Global, keys: RandomState, hosts: u32) -> LoginStore
        requires some { 0 < hosts }
        requires few { hosts ≤ HOST_LIMIT }
        ensures { result ≡ record { hosts = hosts; entries = []; is_counted = false } }
    {
        LoginStore {
            hosts,
            keys,
            kept: Kept::Listed(EntryList::new(alloc)),
        }
    }

    /// The entries, in stored order.
    pub(crate) fn entries(&self) -> Entries<'_>
        ensures { entries_in result ≡ self.now.entries }
    {
        match &self.kept {
            Kept::Listed(entries) => entries.entries(),
            Kept::Counted(sessions) => sessions.entries(),
        }
    }

    /// Hands out the entries.
    pub(crate) fn into_entries(self) -> EntryList
        ensures { result ≡ self.entries }
    {
        let LoginStore {
            hosts: _,
            keys: _,
            kept,
        } = self;
        match kept {
            Kept::Listed(entries) => entries,
            Kept::Counted(sessions) => sessions.into_entries(),
        }
    }

    /// Hands out the sessions, where they are kept.
    pub(crate) fn into_sessions(self) -> Option<Sessions>
        ensures { MatchOption result (self.is_counted ≡ false) (λ sessions. (sessions.entries ≡ self.entries) × (sessions.hosts ≡ self.hosts)) }
    {
        let LoginStore {
            hosts: _,
            keys: _,
            kept,
        } = self;
        match kept {
            Kept::Listed(_) => None,
            Kept::Counted(counted) => Some(counted),
        }
    }

    /// Stores a batch as a host's, or nothing of it.
    pub(crate) fn store(&mut self, host: u32, batch: &Batch) -> Result<(), Memory>
        requires host { host < self.old.hosts }
        requires kind { IsLogins batch.now }
        requires room { length self.old.entries + record_count batch.now ≤ ENTRY_LIMIT }
        ensures stored { OnOk result (self.new ≡ record self.old { entries = self.old.entries ++ posted_by host (logins_in batch.now) }) }
        ensures refused { OnErr result (self.new ≡ self.old) }
    {
        self.kept.store(host, batch)
    }

    /// Takes out the entries, if they are a list alone.
    fn take_listed(&mut self, alloc: Global) -> Option<EntryList>
        ensures listed { IfSome result (λ entries. (entries ≡ self.old.entries) × (self.new ≡ record self.old { entries = [] }) × (self.old.is_counted ≡ false)) }
        ensures within { IfSome result (All (λ e. e.host < self.old.hosts)) }
        ensures few { IfSome result (λ entries. length entries ≤ ENTRY_LIMIT) }
        ensures some { (0 < self.old.hosts) × (self.old.hosts ≤ HOST_LIMIT) }
        ensures counted { IfNone result ((self.new ≡ self.old) × (self.old.is_counted ≡ true)) }
    {
        match mem::replace(&mut self.kept, Kept::Listed(EntryList::new(alloc))) {
            Kept::Listed(entries) => Some(entries),
            Kept::Counted(sessions) => {
                self.kept = Kept::Counted(sessions);
                None
            }
        }
    }

    /// Keeps sessions, or the entries alone where memory was refused.
    fn keep(&mut self, counted: Result<Sessions, EntryList>) -> Result<(), Memory>
        requires hosts { IfOk counted (λ sessions. sessions.hosts ≡ self.old.hosts) }
        requires within { IfErr counted (All (λ e. e.host < self.old.hosts)) }
        requires few { IfErr counted (λ entries. length entries ≤ ENTRY_LIMIT) }
        ensures kept { MatchResult counted
            (λ sessions. self.new ≡ record self.old { entries = sessions.entries; is_counted = true })
            (λ entries. self.new ≡ record self.old { entries = entries; is_counted = false }) }
        ensures same { IsOk result ↔ IsOk counted }
    {
        match counted {
            Ok(sessions) => {
                self.kept = Kept::Counted(sessions);
                Ok(())
            }
            Err(entries) => {
                self.kept = Kept::Listed(entries);
                Err(Memory)
            }
        }
    }

    /// Sees that the sessions are kept.
    pub(crate) fn count(&mut self, alloc: Global) -> Result<(), Memory>
        ensures counted { OnOk result (self.new ≡ record self.old { is_counted = true }) }
        ensures refused { OnErr result (self.new ≡ self.old) }
    {
        let Some(entries) = self.take_listed(alloc) else {
            return Ok(());
        };
        self.keep(Sessions::of_entries(alloc, self.keys, self.hosts, entries))
    }

    /// Sees that the sessions are kept where a question is about them.
    pub(crate) fn count_for(&mut self, alloc: Global, question: &Question) -> Result<(), Memory>
        ensures ready { OnOk result (IsReady question.now self.new.is_counted) }
        ensures entries { self.new.entries ≡ self.old.entries }
        ensures hosts { self.new.hosts ≡ self.old.hosts }
    {
        match question {
            Question::Last { .. } | Question::Connect { .. } => self.count(alloc),
            Question::Commands { .. }
            | Question::Users { .. }
            | Question::Attempts { .. }
            | Question::AttemptSums { .. } => Ok(()),
        }
    }

    /// Sees that the sessions are kept, counted by so many threads at most.
    pub(crate) fn count_by<R: Threads + Sync>(
        &mut self,
        rt: &R,
        alloc: Global,
        threads: u32,
    ) -> Result<(), Memory>
        ensures counted { OnOk result (self.new ≡ record self.old { is_counted = true }) }
        ensures refused { OnErr result (self.new ≡ self.old) }
    {
        let Some(entries) = self.take_listed(alloc) else {
            return Ok(());
        };
        let (keys, hosts) = (self.keys, self.hosts);
        self.keep(Sessions::of_entries_by(rt, alloc, keys, hosts, entries, threads))
    }

    /// The sessions that are kept.
    pub(crate) fn counted(&self) -> &Sessions
        requires { self.now.is_counted ≡ true }
        ensures entries { result.now.entries ≡ self.now.entries }
        ensures hosts { result.now.hosts ≡ self.now.hosts }
    {
        match &self.kept {
            Kept::Listed(_) => unreachable!(),
            Kept::Counted(sessions) => sessions,
        }
    }

    /// The sessions of the entries of one host alone, counted anew.
    pub(crate) fn sessions_of(&self, alloc: Global, host: u32) -> Result<Sessions, Memory>
        ensures { IfOk result (λ sessions. sessions.entries ≡ entries_of_host host self.now.entries) }
    {
        let entries = self.entries().only(alloc, host)?;
        match Sessions::of_entries(alloc, self.keys, self.hosts, entries) {
            Ok(sessions) => Ok(sessions),
            Err(_) => Err(Memory),
        }
    }

    /// The keys that tables are hashed by.
    pub(crate) fn keys(&self) -> RandomState {
        self.keys
    }
}
