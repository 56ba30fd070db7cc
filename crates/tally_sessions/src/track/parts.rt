//! What a choice has of a host's sessions.
ghost use Rattle.std.specs.List.{list_any};
ghost use Rattle.std.specs.Prelude.{◌≡◌, ◌≤◌, ◌<◌, [], ◌∷◌, IfNone, IfSome, drop, length, nat_eq, true, unwrap_or, vec_len};
ghost use Rattle.tally_records.specs.Event.{event_of};
ghost use Rattle.tally_sessions.specs.Lent.{entries_in};
ghost use Rattle.tally_sessions.specs.Stays.{starts_stay};
ghost use Rattle.tally_sessions.specs.Sums.{sessions_among};
ghost use Rattle.tally_sessions.specs.Totals.{stays_of};
ghost use Rattle.tally_sessions.specs.inside.Chosen.{IsPick, has_names, is_of, part_of_user};
ghost use Rattle.tally_sessions.specs.inside.Track as spec;

use crate::chosen::{cut, is_record_on_line};
use crate::entries::Entries;
use crate::sessions::ENTRY_LIMIT;
use crate::sums::{Part, Session};
use crate::track::Track;
use crate::track::ending::{NO_USER, TrackedStay};
use tally_records::{LoginChoice, NAMED_LIMIT, names_nothing};

/// What is worked out of a choice for a host, once.
#[derive(Clone, Copy)]
pub(crate) struct Pick {
    /// Whether users are named, and where these stand.
    pub(crate) by_user: bool,
    pub(crate) places: [u32; NAMED_LIMIT],
    /// Whether lines are named.
    pub(crate) by_line: bool,
}

/// Whether a place is one of these.
fn is_place(places: &[u32; NAMED_LIMIT], place: u32) -> bool
    ensures { result ≡ list_any (λ p. nat_eq p place) places.now }
{
    places.iter().any(|p| *p == place)
}

impl Track {
    /// What is worked out of a choice, which names users or lines or does not.
    #[inline(always)]
    pub(crate) fn pick(&self, choice: &LoginChoice, named: bool) -> Pick
        requires named { named ≡ has_names choice.now }
        requires few { length self.now.sums.users.entries ≤ ENTRY_LIMIT }
        ensures { IsPick self.now.sums.users choice.now result }
    {
        if !named {
            return Pick {
                by_user: false,
                places: [NO_USER; NAMED_LIMIT],
                by_line: false,
            };
        }
        Pick {
            by_user: !names_nothing(&choice.users),
            places: self.sums.users.places_among(&choice.users),
            by_line: !names_nothing(&choice.lines),
        }
    }

    /// Whether a stay of the host is a session of a chosen user on a chosen line. Its record is looked at where lines are named.
    pub(crate) fn is_picked(
        &self,
        entries: Entries<'_>,
        stay: &TrackedStay,
        choice: &LoginChoice,
        pick: &Pick,
    ) -> bool
        requires pick { IsPick self.now.sums.users choice.now pick.now }
        requires placed { stay.now.entry < length (entries_in entries) }
        requires starts { starts_stay (event_of (spec.start_of (entries_in entries) stay.now)) ≡ true }
        requires user { spec.HasUser (entries_in entries) self.now.sums.users stay.now }
        requires few { length self.now.sums.users.entries ≤ ENTRY_LIMIT }
        ensures { result ≡ is_of choice.now (spec.start_of (entries_in entries.entry) stay.now) }
    {
        stay.user != NO_USER
            && (!pick.by_user || is_place(&pick.places, stay.user))
            && (!pick.by_line || is_record_on_line(choice, entries.record(stay.entry as usize)))
    }

    /// What the period has of the session that the stay at a place is, if it is a chosen one.
    pub(crate) fn part_at(
        &self,
        host: u32,
        entries: Entries<'_>,
        i: usize,
        choice: &LoginChoice,
        pick: &Pick,
        until: Option<i32>,
    ) -> Option<Part>
        requires pick { IsPick self.now.sums.users choice.now pick.now }
        requires i_in { i < vec_len self.now.stays }
        requires few { length (entries_in entries) ≤ ENTRY_LIMIT }
        requires track { spec.IsTrack host (entries_in entries) (length (entries_in entries)) self.now }
        ensures part { IfSome result (λ p. sessions_among choice.now (spec.stay_now host (entries_in entries.entry) self.now.clock (unwrap_or until self.now.last) (spec.stay_at self.now.stays.items i) ∷ [])
            ≡ part_of_user (spec.start_of (entries_in entries.entry) (spec.stay_at self.now.stays.items i)).user p ∷ []) }
        ensures none { IfNone result (sessions_among choice.now (spec.stay_now host (entries_in entries.entry) self.now.clock (unwrap_or until self.now.last) (spec.stay_at self.now.stays.items i) ∷ []) ≡ []) }
    {
        let stay = &self.stays[i];
        if !self.is_picked(entries, stay, choice, pick) {
            return None;
        }
        let ending = self.ending(entries, stay, self.time_now(until));
        Some(cut(&choice.period, ending))
    }

    /// The session that the stay at a place is, cut to the period, if it is a chosen one.
    fn session_at(
        &self,
        host: u32,
        entries: Entries<'_>,
        i: usize,
        choice: &LoginChoice,
        pick: &Pick,
        until: Option<i32>,
    ) -> Option<Session>
        requires pick { IsPick self.now.sums.users choice.now pick.now }
        requires i_in { i < vec_len self.now.stays }
        requires few { length (entries_in entries) ≤ ENTRY_LIMIT }
        requires track { spec.IsTrack host (entries_in entries) (length (entries_in entries)) self.now }
        ensures session { IfSome result (λ s. sessions_among choice.now (spec.stay_now host (entries_in entries.entry) self.now.clock (unwrap_or until self.now.last) (spec.stay_at self.now.stays.items i) ∷ []) ≡ s ∷ []) }
        ensures none { IfNone result (sessions_among choice.now (spec.stay_now host (entries_in entries.entry) self.now.clock (unwrap_or until self.now.last) (spec.stay_at self.now.stays.items i) ∷ []) ≡ []) }
    {
        let part = self.part_at(host, entries, i, choice, pick, until)?;
        let record = entries.record(self.stays[i].entry as usize);
        Some(part.of_user(record.user()))
    }

    /// Goes on from a place to the one after the next chosen session, if the host has one more, and cuts it to the period.
    pub(crate) fn next_session(
        &self,
        host: u32,
        entries: Entries<'_>,
        stay: &mut usize,
        choice: &LoginChoice,
        named: bool,
        until: Option<i32>,
    ) -> Option<Session>
        requires named { named ≡ has_names choice.now }
        requires few { length (entries_in entries) ≤ ENTRY_LIMIT }
        requires track { spec.IsTrack host (entries_in entries) (length (entries_in entries)) self.now }
        ensures next { IfSome result (λ s. sessions_among choice.now (drop stay.old (stays_of host (entries_in entries.entry) until))
            ≡ s ∷ sessions_among choice.now (drop stay.new (stays_of host (entries_in entries.entry) until))) }
        ensures end { IfNone result (sessions_among choice.now (drop stay.old (stays_of host (entries_in entries.entry) until)) ≡ []) }
    {
        let pick = self.pick(choice, named);
        while *stay < self.stays.len() {
            let i = *stay;
            *stay = i + 1;
            if let Some(session) = self.session_at(host, entries, i, choice, &pick, until) {
                return Some(session);
            }
        }
        None
    }
}
