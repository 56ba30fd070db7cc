//! Going over the chosen sessions of all hosts.
ghost use Rattle.std.specs.Prelude.{◌≡◌, ◌≤◌, ℤ, List, Option, length};
ghost use Rattle.tally_records.specs.declared.choice.LoginChoice.{LoginChoice as Choice};
ghost use Rattle.tally_sessions.specs.declared.entry.Entry.{Entry as Stored};
ghost use Rattle.tally_sessions.specs.Lent.{entries_in};
ghost use Rattle.tally_sessions.specs.Sums.{sessions_of};
ghost use Rattle.tally_sessions.specs.inside.Chosen.{has_names};

use crate::chosen::has_names;
use crate::connect::source::SessionSource;
use crate::entries::Entries;
use crate::sessions::{ENTRY_LIMIT, HOST_LIMIT, Sessions};
use crate::sums::Session;
use tally_records::LoginChoice;

/// A place among the stays of all hosts.
#[derive(Clone, Copy)]
pub(crate) struct Place {
    pub(crate) host: u32,
    pub(crate) stay: usize,
}

impl Place {
    ghost use Rattle.tally_sessions.specs.inside.Walk.{sessions_ahead};

    /// The place before all stays.
    #[tactic(auto, using(crate::proofs::connect::Ahead::all_ahead))]
    pub(crate) fn first() -> Place
        ensures { (choice : Choice) (entries : List Stored) (until : Option ℤ) → sessions_ahead result choice entries until ≡ sessions_of choice entries until }
    {
        Place { host: 0, stay: 0 }
    }
}

/// The chosen sessions of all hosts from a place on, each cut to the period.
#[derive(Drop)]
pub(crate) struct Walk<'a> {
    sessions: &'a Sessions,
    entries: Entries<'a>,
    choice: &'a LoginChoice,
    named: bool,
    until: Option<i32>,
    at: Place,
    ghost lent: { entries_in entries ≡ sessions.now.entries },
    ghost names: { named ≡ has_names choice.now },
}

impl Sessions {
    ghost use Rattle.tally_sessions.specs.inside.Walk.{ahead_of};

    /// The chosen sessions of all hosts.
    pub(crate) fn walk<'a>(&'a self, choice: &'a LoginChoice, until: Option<i32>) -> Walk<'a>
        ensures ahead { ahead_of result ≡ sessions_of choice.now self.now.entries until }
        ensures few { length (ahead_of result) ≤ ENTRY_LIMIT }
    {
        Walk {
            sessions: self,
            entries: self.entries(),
            choice,
            named: has_names(choice),
            until,
            at: Place::first(),
        }
    }
}

impl<'a> SessionSource for Walk<'a> {
    ghost use Rattle.tally_sessions.specs.inside.Walk.{ahead_of};

    ghost ahead = { ahead_of };

    fn next_session(&mut self) -> Option<Session> {
        while self.at.host < HOST_LIMIT {
            let host = self.at.host;
            let sessions = self.sessions;
            let track = &sessions.tracks[host as usize];
            if let Some(session) = track.next_session(
                host,
                self.entries,
                &mut self.at.stay,
                self.choice,
                self.named,
                self.until,
            ) {
                return Some(session);
            }
            self.at.host += 1;
            self.at.stay = 0;
        }
        None
    }
}
