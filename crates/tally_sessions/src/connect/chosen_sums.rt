//! Sums over the chosen sessions of all hosts.
ghost use Rattle.std.specs.Cmp.Lexicographic.{slice_cmp};
ghost use Rattle.std.specs.Ordering.{nat_cmp};
ghost use Rattle.std.specs.Prelude.{◌≡◌, ◌<◌, ◌≤◌, ◌-◌, ◌*◌, ◌^◌, ℕ, List, IfOk, OnOk, length};
ghost use Rattle.tally_sessions.specs.Sums.{seconds_in, seconds_of_user, sessions_of};
ghost use Rattle.tally_sessions.specs.inside.Sums.{sum_at};

use crate::connect::name_key::NameKey;
use crate::sessions::{HOST_LIMIT, Sessions};
use std::alloc::Global;
use std::collections::BTreeMap;
use tally_records::{LoginChoice, Memory};

impl Sessions {
    /// The seconds of each user's chosen sessions.
    pub(crate) fn chosen_user_sums(
        &self,
        alloc: Global,
        choice: &LoginChoice,
        until: Option<i32>,
    ) -> Result<BTreeMap<NameKey, u64>, Memory>
        ensures value { IfOk result (λ sums. (user : List ℕ) → sum_at (slice_cmp nat_cmp) sums.entries user ≡ seconds_of_user user (sessions_of choice.now self.now.entries until)) }
        ensures each { OnOk result (seconds_in (sessions_of choice.now self.now.entries until) ≤ (2 ^ 32 - 1) * length self.now.entries) }
        ensures fits { OnOk result (seconds_in (sessions_of choice.now self.now.entries until) < 2 ^ 56) }
    {
        let entries = self.entries();
        let mut sums = BTreeMap::new(alloc);
        for host in 0..HOST_LIMIT {
            self.tracks[host as usize].add_chosen(alloc, &mut sums, host, entries, choice, until)?;
        }
        Ok(sums)
    }

    /// The seconds of the chosen sessions.
    pub(crate) fn chosen_seconds(&self, choice: &LoginChoice, until: Option<i32>) -> u64
        ensures value { result ≡ seconds_in (sessions_of choice.now self.now.entries until) }
        ensures each { result ≤ (2 ^ 32 - 1) * length self.now.entries }
        ensures fits { result < 2 ^ 56 }
    {
        let entries = self.entries();
        let mut total = 0;
        for host in 0..HOST_LIMIT {
            total += self.tracks[host as usize].chosen_seconds(host, entries, choice, until);
        }
        total
    }
}
