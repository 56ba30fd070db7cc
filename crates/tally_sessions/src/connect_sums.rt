//! Connect time of login records, which are counted and let go: of one host, and of several.
ghost use Rattle.std.specs.Prelude.{◌≡◌, ◌≤◌, ◌<◌, ◌+◌, ◌-◌, ◌*◌, ◌^◌, ◌↔◌, [], ℕ, List as Items, IfOk, IsTrue, OnErr, OnOk, false, length, true};
ghost use Rattle.std.specs.Cmp.Lexicographic.{slice_cmp};
ghost use Rattle.std.specs.Ordering.{nat_cmp};
ghost use Rattle.tally_records.specs.Choice.{every_login};
ghost use Rattle.tally_records.specs.declared.login.LoginRecord.{LoginRecord};
ghost use Rattle.tally_records.specs.Records.{IsLogins, logins_in, record_count};
ghost use Rattle.tally_sessions.specs.ConnectSums.{CountsMore, IsAbout, IsCountOf};
ghost use Rattle.tally_sessions.specs.Rows.{user_times};
ghost use Rattle.tally_sessions.specs.Stays.{stays_from};
ghost use Rattle.tally_sessions.specs.Sums.{sessions_among};
ghost use Rattle.tally_sessions.specs.Totals.{session_seconds, user_seconds};
ghost use Rattle.tally_sessions.specs.inside.Alike.{AreAlike};
ghost use Rattle.tally_sessions.specs.inside.KeptSessions.{sessions_ahead};
ghost use Rattle.tally_sessions.specs.inside.Sums.{sum_at};

pub(crate) mod day_users;
mod ended;
pub(crate) mod hosts;
mod kept_sessions;
mod kept_walk;
mod lines;
mod running;
mod slot;

use crate::connect::name_key::NameKey;
use crate::connect::user_rows;
use crate::connect_sums::kept_sessions::KeptSessions;
use crate::connect_sums::running::Running;
use crate::sessions::ENTRY_LIMIT;
use crate::times::UserTime;
use std::alloc::Global;
use std::collections::BTreeMap;
use std::hash::RandomState;
use std::marker::Model;
use std::ops::Deref;
use tally_records::{Batch, Key, List, Memory, Name};

/// The connect time of the sessions of one host's login records, as ac(1) counts it. No record is kept: its memory goes by
/// the lines and the users of logins, and not by how many records there were.
#[derive(Drop)]
pub struct ConnectSums {
    pub(crate) running: Running,
}

impl Model for ConnectSums {
    ghost use Rattle.tally_sessions.specs.ConnectSums.{Counted};

    ghost Value = { Counted };

    ghost use Rattle.tally_sessions.specs.inside.Running.{counted_in, IsSound};

    ghost view = { λ s. counted_in s.running };

    ghost invariant = { λ s. IsSound s.running };
}

impl ConnectSums {
    /// The connect time of no records. Its tables are hashed by the keys.
    pub fn new(alloc: Global, keys: RandomState) -> ConnectSums
        ensures counted { IsCountOf result [] }
        ensures keeps { result.keeps_sessions ≡ false }
    {
        ConnectSums {
            running: Running::new(alloc, keys, false),
        }
    }

    /// The same, which keeps the user and the times of each session that ends too, for reports by day: 12 bytes a session.
    pub fn with_sessions(alloc: Global, keys: RandomState) -> ConnectSums
        ensures counted { IsCountOf result [] }
        ensures keeps { result.keeps_sessions ≡ true }
    {
        ConnectSums {
            running: Running::new(alloc, keys, true),
        }
    }

    /// How many records are counted.
    pub fn len(&self) -> usize
        ensures count { result ≡ self.now.count }
        ensures few { result ≤ ENTRY_LIMIT }
    {
        self.running.count
    }

    /// Whether none is.
    pub fn is_empty(&self) -> bool
        ensures { IsTrue result ↔ (self.now.count ≡ 0) }
    {
        self.len() == 0
    }

    /// Counts the records of a batch too, or none of them. It may ask for memory: for as many new lines and users as the batch has
    /// records, and where sessions are kept for as many as it may end.
    pub fn add(&mut self, batch: &Batch) -> Result<(), Memory>
        requires kind { IsLogins batch.now }
        requires room { self.old.count + record_count batch.now ≤ ENTRY_LIMIT }
        ensures added { OnOk result (CountsMore self.old self.new (logins_in batch.now)) }
        ensures count { OnOk result (self.new.count ≡ self.old.count + record_count batch.now) }
        ensures keeps { self.new.keeps_sessions ≡ self.old.keeps_sessions }
        ensures refused { OnErr result (self.new ≡ self.old) }
    {
        let Some(records) = batch.share_logins()? else {
            return Ok(());
        };
        self.running.reserve(records.len())?;
        self.running.go_over(records.deref());
        Ok(())
    }

    /// The seconds of all sessions. A session that nothing has ended counts up to a moment, in seconds since 1970, or else to the
    /// last record.
    pub fn total(&self, until: Option<i32>) -> u64
        ensures value { IsAbout self.now (λ rs. session_seconds (stays_from 0 [] rs until)) result }
        ensures each { result ≤ (2 ^ 32 - 1) * self.now.count }
        ensures fits { result < 2 ^ 56 }
    {
        self.running.seconds(&None, until)
    }

    /// The seconds of a user's sessions, counted as in the total.
    pub fn connect(&self, user: &Name, until: Option<i32>) -> u64
        ensures value { IsAbout self.now (λ rs. user_seconds user.now (stays_from 0 [] rs until)) result }
        ensures each { result ≤ (2 ^ 32 - 1) * self.now.count }
    {
        self.running.seconds(&Some(Key::of(user)), until)
    }

    /// The sessions, where they are kept: those that have ended, and then those that are open, counted as in the total.
    pub(crate) fn sessions(&self, until: Option<i32>) -> KeptSessions<'_>
        ensures value { self.now.keeps_sessions ≡ true → (rs : Items LoginRecord) → IsCountOf self.now rs → AreAlike (sessions_ahead result) (sessions_among every_login (stays_from 0 [] rs until)) }
        ensures few { length (sessions_ahead result) ≤ self.now.count }
    {
        self.running.sessions(until)
    }

    /// Adds the seconds of each user's sessions to its sum, counted as in the total.
    fn add_users(&self, sums: &mut BTreeMap<NameKey, u64>, until: Option<i32>) -> Result<(), Memory>
        requires room { (user : Items ℕ) → sum_at (slice_cmp nat_cmp) sums.old.entries user < 2 ^ 63 }
        ensures value { OnOk result ((user : Items ℕ) → IsAbout self.now (λ rs. sum_at (slice_cmp nat_cmp) sums.old.entries user + user_seconds user (stays_from 0 [] rs until)) (sum_at (slice_cmp nat_cmp) sums.new.entries user)) }
        ensures fits { OnOk result ((user : Items ℕ) → sum_at (slice_cmp nat_cmp) sums.new.entries user < sum_at (slice_cmp nat_cmp) sums.old.entries user + 2 ^ 56) }
    {
        self.running.add_users(sums, until)
    }

    /// The seconds of each user's sessions, counted as in the total.
    fn user_sums(&self, alloc: Global, until: Option<i32>) -> Result<BTreeMap<NameKey, u64>, Memory>
        ensures { IfOk result (λ sums. (user : Items ℕ) → IsAbout self.now (λ rs. user_seconds user (stays_from 0 [] rs until)) (sum_at (slice_cmp nat_cmp) sums.entries user)) }
    {
        let mut sums = BTreeMap::new(alloc);
        self.add_users(&mut sums, until)?;
        Ok(sums)
    }

    /// The connect time of each user that has any, in order of name bytes, counted as in the total.
    pub fn by_user(&self, alloc: Global, until: Option<i32>) -> Result<List<UserTime>, Memory>
        ensures value { IfOk result (IsAbout self.now (λ rs. user_times (sessions_among every_login (stays_from 0 [] rs until)))) }
    {
        let sums = self.user_sums(alloc, until)?;
        List::from_vec(alloc, user_rows(alloc, &sums)?)
    }
}
