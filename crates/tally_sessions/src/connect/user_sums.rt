//! The seconds of a host's sessions, added to a sum for each user.
ghost use Rattle.std.specs.Prelude.{◌≡◌, ◌≤◌, ◌<◌, ◌+◌, ◌*◌, ◌^◌, ℕ, List, Option, Some, OnOk, length, unwrap_or, vec_len};
ghost use Rattle.std.specs.Cmp.Lexicographic.{slice_cmp};
ghost use Rattle.std.specs.Ordering.{nat_cmp};
ghost use Rattle.tally_sessions.specs.Hosts.{of_host};
ghost use Rattle.tally_sessions.specs.Lent.{entries_in};
ghost use Rattle.tally_sessions.specs.inside.Sums.{sum_at};
ghost use Rattle.tally_sessions.specs.inside.Totals.{seconds_of};
ghost use Rattle.tally_sessions.specs.Totals.{stays_of};
ghost use Rattle.tally_sessions.specs.inside.Track as spec;

use crate::connect::name_key::NameKey;
use crate::entries::Entries;
use crate::sessions::ENTRY_LIMIT;
use crate::sums::add_for;
use crate::track::Track;
use std::collections::BTreeMap;
use tally_records::{Memory, Name};

impl Track {
    /// The user of the stay at a place.
    fn user_at(&self, host: u32, entries: Entries<'_>, i: usize) -> Name
        requires i_in { i < vec_len self.now.stays }
        requires few { length (entries_in entries) ≤ ENTRY_LIMIT }
        requires track { spec.IsTrack host (entries_in entries) (length (entries_in entries)) self.now }
        ensures { result ≡ (spec.start_of (entries_in entries.entry) (spec.stay_at self.now.stays.items i)).user }
    {
        entries.record(self.stays[i].entry as usize).user()
    }

    /// Adds the lengths of the host's sessions. Each that is pending is the latest login on its line.
    pub(crate) fn add_seconds(
        &self,
        host: u32,
        entries: Entries<'_>,
        sums: &mut BTreeMap<NameKey, u64>,
        until: Option<i32>,
    ) -> Result<(), Memory>
        requires few { length (entries_in entries) ≤ ENTRY_LIMIT }
        requires track { spec.IsTrack host (entries_in entries) (length (entries_in entries)) self.now }
        requires room { (user : List ℕ) → sum_at (slice_cmp nat_cmp) sums.old.entries user < 2 ^ 62 }
        ensures value { OnOk result ((user : List ℕ) → sum_at (slice_cmp nat_cmp) sums.new.entries user
            ≡ sum_at (slice_cmp nat_cmp) sums.old.entries user + seconds_of (Some user) (stays_of host (entries_in entries.entry) until)) }
        ensures fits { OnOk result ((who : Option (List ℕ)) → seconds_of who (stays_of host (entries_in entries.entry) until)
            ≤ 4294967295 * length (of_host host (entries_in entries.entry))) }
    {
        let time = self.time_now(until);
        self.sums.add_to(sums)?;
        for k in 0..self.lines.len() {
            let i = self.on_line(host, entries, k);
            let seconds = self.pending_length(host, entries, i, time, &None);
            add_for(sums, &self.user_at(host, entries, i), seconds)?;
        }
        Ok(())
    }
}
