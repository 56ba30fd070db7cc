//! Which of a host's stays a choice shows.
ghost use Rattle.std.specs.Prelude.{◌≡◌, ◌≤◌, ◌<◌, ◌+◌, [], ◌∷◌, IfNone, IfSome, drop, filter, length, reverse, slice_index_or, true, unwrap_or, vec_len};
ghost use Rattle.tally_records.specs.Event.{event_of};
ghost use Rattle.tally_sessions.specs.Choice.{is_shown};
ghost use Rattle.tally_sessions.specs.Lent.{entries_in};
ghost use Rattle.tally_sessions.specs.Stays.{starts_stay};
ghost use Rattle.tally_sessions.specs.Totals.{stays_of};
ghost use Rattle.tally_sessions.specs.declared.entry.Stay.{Stay};
ghost use Rattle.tally_sessions.specs.inside.Chosen.{IsPick, is_shown_by};
ghost use Rattle.tally_sessions.specs.inside.Track as spec;

use crate::chosen::{has_names, has_part_of, is_boot_named};
use crate::entries::Entries;
use crate::sessions::ENTRY_LIMIT;
use crate::track::Track;
use crate::track::ending::{NO_USER, TrackedStay};
use crate::track::parts::Pick;
use tally_records::LoginChoice;

impl Track {
    /// Whether a stay of the host is of a chosen user and on a chosen line.
    fn is_named(
        &self,
        entries: Entries<'_>,
        stay: &TrackedStay,
        choice: &LoginChoice,
        pick: &Pick,
    ) -> bool
        requires pick { IsPick self.now.sums.users choice.now pick.now }
        requires placed { stay.now.entry < length (entries_in entries) }
        requires starts { starts_stay (event_of (spec.start_of (entries_in entries) stay.now)) ≡ true }
        requires user { spec.HasUser (entries_in entries) self.now.sums.users stay.now }
        requires few { length self.now.sums.users.entries ≤ ENTRY_LIMIT }
        ensures { result ≡ is_shown_by choice.now (spec.start_of (entries_in entries.entry) stay.now) }
    {
        if stay.user == NO_USER {
            is_boot_named(choice)
        } else {
            self.is_picked(entries, stay, choice, pick)
        }
    }

    /// Whether the stay at a place is shown.
    fn is_shown_at(
        &self,
        host: u32,
        entries: Entries<'_>,
        i: usize,
        choice: &LoginChoice,
        pick: &Pick,
        until: Option<i32>,
    ) -> bool
        requires pick { IsPick self.now.sums.users choice.now pick.now }
        requires i_in { i < vec_len self.now.stays }
        requires few { length (entries_in entries) ≤ ENTRY_LIMIT }
        requires track { spec.IsTrack host (entries_in entries) (length (entries_in entries)) self.now }
        ensures { result ≡ is_shown choice.now until (spec.stay_now host (entries_in entries.entry) self.now.clock (unwrap_or until self.now.last) (spec.stay_at self.now.stays.items i)) }
    {
        let stay = &self.stays[i];
        self.is_named(entries, stay, choice, pick)
            && has_part_of(
                choice,
                until,
                self.ending(entries, stay, self.time_now(until)),
            )
    }

    /// The place of the next stay of the host that is shown, from a place on, counted from that of the latest record back.
    pub(crate) fn next_shown(
        &self,
        host: u32,
        entries: Entries<'_>,
        from: usize,
        choice: &LoginChoice,
        until: Option<i32>,
    ) -> Option<usize>
        requires few { length (entries_in entries) ≤ ENTRY_LIMIT }
        requires track { spec.IsTrack host (entries_in entries) (length (entries_in entries)) self.now }
        ensures place { IfSome result (λ place. place < vec_len self.now.stays) }
        ensures next { IfSome result (λ place. (stay : Stay) → filter (is_shown choice.now until) (drop from (reverse (stays_of host (entries_in entries.entry) until)))
            ≡ slice_index_or (reverse (stays_of host (entries_in entries.entry) until)) place stay ∷ filter (is_shown choice.now until) (drop (place + 1) (reverse (stays_of host (entries_in entries.entry) until)))) }
        ensures end { IfNone result (filter (is_shown choice.now until) (drop from (reverse (stays_of host (entries_in entries.entry) until))) ≡ []) }
    {
        let pick = self.pick(choice, has_names(choice));
        let count = self.stays.len();
        let mut place = from;
        while place < count {
            if self.is_shown_at(host, entries, count - place - 1, choice, &pick, until) {
                return Some(place);
            }
            place += 1;
        }
        None
    }
}
