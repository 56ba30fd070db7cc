//! The stays of a host one by one, for those who do not keep them all.
ghost use Rattle.std.specs.Prelude.{◌≡◌, ◌<◌, ◌+◌, ◌^◌, ◌∷◌, [], ℕ, ℤ, IfNone, IfSome, IsTrue, Option, drop, filter, length, reverse, slice_index_or};
ghost use Rattle.tally_records.specs.Choice.{is_every_login};
ghost use Rattle.tally_sessions.specs.Choice.{is_shown};
ghost use Rattle.tally_sessions.specs.Totals.{latest_stays, limited, stays_of};
ghost use Rattle.tally_sessions.specs.declared.entry.Stay.{Stay as Found};

use crate::entry::Stay;
use crate::sessions::Sessions;
use tally_records::LoginChoice;

impl Sessions {
    /// How many stays a host has.
    pub fn stay_count(&self, host: u32) -> usize
        requires { host < self.now.hosts }
        ensures { (until : Option ℤ) → result ≡ length (stays_of host self.now.entries until) }
    {
        self.tracks[host as usize].stays.len()
    }

    /// The stay at a place among those of a host, counted from 0 at that of the latest record. One that nothing
    /// has ended counts up to a moment, in seconds since 1970, or else to the host's last record.
    pub fn latest_stay(&self, host: u32, place: usize, until: Option<i32>) -> Stay
        requires host { host < self.now.hosts }
        requires place { place < length (stays_of host self.now.entries until) }
        ensures value { result ≡ slice_index_or (reverse (stays_of host self.now.entries until)) place result }
        ensures fits { result.length < 2 ^ 32 }
    {
        self.tracks[host as usize].latest_at(host, self.entries(), place, until)
    }

    /// Writes the stay that `latest_stay` answers over another, which may be any: where stays are looked at one after another,
    /// no large value is moved.
    pub fn put_latest_stay(&self, host: u32, place: usize, until: Option<i32>, stay: &mut Stay)
        requires host { host < self.now.hosts }
        requires place { place < length (stays_of host self.now.entries until) }
        ensures value { stay.new ≡ slice_index_or (reverse (stays_of host self.now.entries until)) place stay.new }
        ensures fits { stay.new.length < 2 ^ 32 }
    {
        self.tracks[host as usize].put_latest_at(host, self.entries(), place, until, stay);
    }

    /// Whether a choice leaves out no stay, so that each place has one that is shown.
    #[tactic(auto, using(crate::proofs::sums::EveryStay::every_stay))]
    pub fn shows_all(&self, choice: &LoginChoice) -> bool
        ensures value { result ≡ is_every_login choice.now }
        ensures all { IsTrue result → (host : ℕ) (limit : Option ℕ) (until : Option ℤ)
            → latest_stays host limit choice.now self.now.entries until ≡ limited limit (reverse (stays_of host self.now.entries until)) }
    {
        choice.is_every()
    }

    /// The place of the next stay of a host that a choice shows, from a place on, if there is one more; places are counted
    /// as `latest_stay` does. Names are looked up once, and no stay is written.
    pub fn next_shown(
        &self,
        host: u32,
        from: usize,
        choice: &LoginChoice,
        until: Option<i32>,
    ) -> Option<usize>
        requires { host < self.now.hosts }
        ensures place { IfSome result (λ place. place < length (stays_of host self.now.entries until)) }
        ensures next { IfSome result (λ place. (stay : Found) → filter (is_shown choice.now until) (drop from (reverse (stays_of host self.now.entries until)))
            ≡ slice_index_or (reverse (stays_of host self.now.entries until)) place stay ∷ filter (is_shown choice.now until) (drop (place + 1) (reverse (stays_of host self.now.entries until)))) }
        ensures end { IfNone result (filter (is_shown choice.now until) (drop from (reverse (stays_of host self.now.entries until))) ≡ []) }
    {
        self.tracks[host as usize].next_shown(host, self.entries(), from, choice, until)
    }
}
