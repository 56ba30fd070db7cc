//! Going over the sessions of counts that keep them.
ghost use Rattle.std.specs.Prelude.{◌≡◌, ◌≤◌, ◌∷◌, [], IfNone, IfSome, length};
ghost use Rattle.tally_sessions.specs.inside.KeptSessions.{chained_ahead, ended_ahead, open_ahead, sessions_ahead, sessions_now};
ghost use Rattle.tally_sessions.specs.inside.Running.{IsRunning, counted_in};
ghost use Rattle.tally_sessions.specs.inside.Track.{IsWithin};

use crate::connect::source::SessionSource;
use crate::connect_sums::kept_sessions::KeptSessions;
use crate::connect_sums::running::Running;
use crate::sessions::ENTRY_LIMIT;
use crate::sums::Session;

impl<'a> KeptSessions<'a> {
    /// The next that has ended.
    fn next_ended(&mut self) -> Option<Session>
        ensures next { IfSome result (λ s. ended_ahead self.old ≡ s ∷ ended_ahead self.new) }
        ensures end { IfNone result (ended_ahead self.old ≡ []) }
        ensures none { IfNone result (ended_ahead self.new ≡ []) }
        ensures rest { open_ahead self.new ≡ open_ahead self.old }
    {
        let ended = &self.running.ended;
        if self.ended >= ended.sessions.len() {
            return None;
        }
        let session = ended.sessions[self.ended];
        self.ended += 1;
        let (user, _) = ended.sums.users.pair_at(session.user as usize);
        Some(Session {
            user,
            begin: session.begin,
            end_time: session.end_time,
        })
    }

    /// The next that is open.
    fn next_open(&mut self) -> Option<Session>
        ensures next { IfSome result (λ s. open_ahead self.old ≡ s ∷ open_ahead self.new) }
        ensures end { IfNone result (open_ahead self.old ≡ []) }
        ensures rest { ended_ahead self.new ≡ ended_ahead self.old }
    {
        while self.slot < self.running.slots.len() {
            let slot = &self.running.slots[self.slot];
            self.slot += 1;
            if slot.is_open {
                return Some(slot.session(self.running.clock, self.time));
            }
        }
        None
    }
}

impl<'a> SessionSource for KeptSessions<'a> {
    ghost ahead = { sessions_ahead };

    fn next_session(&mut self) -> Option<Session> {
        match self.next_ended() {
            Some(session) => Some(session),
            None => self.next_open(),
        }
    }
}

impl Running {
    /// The sessions, where they are kept. Those that are open are counted up to a moment, or else to the last record.
    pub(crate) fn sessions(&self, until: Option<i32>) -> KeptSessions<'_>
        requires running { IsRunning self.now.count self.now }
        requires moved { IsWithin self.now.count self.now.clock }
        requires few { self.now.count ≤ ENTRY_LIMIT }
        ensures value { sessions_ahead result ≡ sessions_now (counted_in self.now) until }
        ensures few { length (sessions_ahead result) ≤ self.now.count }
    {
        KeptSessions::of(self, until.unwrap_or(self.last))
    }
}

/// The sessions of several sources, one source after the other.
#[derive(Drop)]
pub(crate) struct ChainedSessions<S> {
    pub(crate) sources: Vec<S>,
    /// How many sources are passed.
    pub(crate) at: usize,
}

impl<S> ChainedSessions<S> {
    /// These sources, of which none is passed.
    pub(crate) fn of(sources: Vec<S>) -> ChainedSessions<S>
        ensures { result ≡ record { sources = sources; at = 0 } }
    {
        ChainedSessions { sources, at: 0 }
    }
}

impl<S: SessionSource> SessionSource for ChainedSessions<S> {
    ghost ahead = { chained_ahead S.ahead };

    fn next_session(&mut self) -> Option<Session> {
        while self.at < self.sources.len() {
            if let Some(session) = self.sources[self.at].next_session() {
                return Some(session);
            }
            self.at += 1;
        }
        None
    }
}
