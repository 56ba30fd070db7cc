//! What a login, a logout and the end of all sessions do to the lines of a count.
ghost use Rattle.std.specs.Prelude.{◌≡◌, ◌≤◌, ◌<◌, ◌+◌, ◌*◌, ◌^◌, ◌++◌, ◌∷◌, [], ℕ, List as Items, Option, None, Some, bytes_eq, if◌then◌else◌, length, set, true, vec_len, vec_capacity};
ghost use Rattle.std.specs.Map.{lookup};
ghost use Rattle.tally_sessions.specs.Opens.{Open};
ghost use Rattle.tally_sessions.specs.inside.Ended.{Asked, HasGrown, HasRoom, HaveUsers, measured, weighed};
ghost use Rattle.tally_sessions.specs.inside.Running.{HasPlaces, IsRunning};
ghost use Rattle.tally_sessions.specs.inside.Slots.{begun, closed, off_line, on_line, one, slot_at, unlisted, weight_at, weight_in};
ghost use Rattle.tally_sessions.specs.inside.Track.{IsWithin, sum_of};

use crate::connect_sums::running::Running;
use crate::connect_sums::slot::Slot;
use crate::sessions::ENTRY_LIMIT;
use tally_records::Key;

impl Running {
    /// Ends the session of a slot, where it is open.
    fn end(&mut self, place: usize, time: i32)
        requires place { place < vec_len self.old.slots }
        requires now { IsWithin ENTRY_LIMIT self.old.clock }
        requires then { (slot_at self.old.slots.items place).is_open ≡ true → IsWithin ENTRY_LIMIT (slot_at self.old.slots.items place).clock_at }
        requires fits { (who : Option (Items ℕ)) → sum_of self.old.ended.sums who < 2 ^ 63 }
        requires few { length self.old.ended.sums.users.entries < 2 ^ 32 }
        requires have { HaveUsers self.old.ended }
        requires room { (slot_at self.old.slots.items place).is_open ≡ true → HasRoom 1 self.old.ended }
        ensures slots { self.new.slots.items ≡ set self.old.slots.items place (closed (slot_at self.old.slots.items place)) }
        ensures sums { (asked : Asked) → measured self.new.ended asked ≡ measured self.old.ended asked + weight_at (weighed self.old.ended.keeps_sessions asked self.old.clock time) (slot_at self.old.slots.items place) }
        ensures grown { HasGrown (weight_at one (slot_at self.old.slots.items place)) self.old.ended self.new.ended }
        ensures rest { self.new ≡ record self.old { slots = self.new.slots; ended = self.new.ended } }
        ensures capacity { vec_capacity self.new.slots ≡ vec_capacity self.old.slots }
    {
        let slot = &self.slots[place];
        if slot.is_open {
            let begin = slot.begin(self.clock);
            self.ended.add(slot.user, begin, time);
            self.slots[place].is_open = false;
        }
    }

    /// Begins a session in a slot whose session has ended.
    fn begin(&mut self, place: usize, user: Key, time: i32)
        requires place { place < vec_len self.old.slots }
        requires few { vec_len self.old.slots ≤ ENTRY_LIMIT }
        requires room { vec_len self.old.listed < vec_capacity self.old.listed }
        ensures slots { self.new.slots.items ≡ set self.old.slots.items place (begun (record { line = (slot_at self.old.slots.items place).line; user = user; start = time; clock_at = self.old.clock })) }
        ensures listed { self.new.listed.items ≡ (if (slot_at self.old.slots.items place).is_listed then self.old.listed.items else self.old.listed.items ++ place ∷ []) }
        ensures rest { self.new ≡ record self.old { slots = self.new.slots; listed = self.new.listed } }
        ensures capacity { vec_capacity self.new.slots ≡ vec_capacity self.old.slots }
        ensures room_left { vec_capacity self.new.listed ≡ vec_capacity self.old.listed }
    {
        if !self.slots[place].is_listed {
            self.listed.push_reserved(place as u32);
        }
        self.slots[place] = Slot {
            line: self.slots[place].line,
            user,
            start: time,
            clock_at: self.clock,
            is_open: true,
            is_listed: true,
        };
    }

    /// Begins the first session of a line.
    fn begin_first(&mut self, line: Key, user: Key, time: i32)
        requires new { lookup (bytes_eq line) self.old.lines.entries ≡ None }
        requires few { vec_len self.old.slots ≤ ENTRY_LIMIT }
        requires room { HasPlaces 1 self.old }
        ensures lines { self.new.lines.entries ≡ self.old.lines.entries ++ (line, 0) ∷ [] }
        ensures slots { self.new.slots.items ≡ self.old.slots.items ++ begun (record { line = line; user = user; start = time; clock_at = self.old.clock }) ∷ [] }
        ensures listed { self.new.listed.items ≡ self.old.listed.items ++ vec_len self.old.slots ∷ [] }
        ensures rest { self.new ≡ record self.old { lines = self.new.lines; slots = self.new.slots; listed = self.new.listed } }
        ensures capacity { vec_capacity self.new.slots ≡ vec_capacity self.old.slots }
        ensures room_left { (vec_capacity self.new.listed ≡ vec_capacity self.old.listed) × (self.old.lines.spare ≤ self.new.lines.spare + 1) }
    {
        self.lines.push(line, 0);
        self.listed.push_reserved(self.slots.len() as u32);
        self.slots.push_reserved(Slot {
            line,
            user,
            start: time,
            clock_at: self.clock,
            is_open: true,
            is_listed: true,
        });
    }

    /// Goes on by a login. It ends the session on its line.
    pub(crate) fn log_in(&mut self, line: Key, user: Key, time: i32)
        requires running { IsRunning self.old.count self.old }
        requires now { IsWithin (self.old.count + 1) self.old.clock }
        requires few { self.old.count < ENTRY_LIMIT }
        requires room { HasPlaces 1 self.old }
        ensures opens { (weight : Open → ℕ) → weight_in weight self.new.slots.items ≡ weight_in (off_line line weight) self.old.slots.items + weight (record { line = line; user = user; start = time; clock_at = self.old.clock }) }
        ensures sums { (asked : Asked) → measured self.new.ended asked ≡ measured self.old.ended asked + weight_in (on_line line (weighed self.old.ended.keeps_sessions asked self.old.clock time)) self.old.slots.items }
        ensures keeps { self.new.ended.keeps_sessions ≡ self.old.ended.keeps_sessions }
        ensures running { IsRunning (self.old.count + 1) self.new }
        ensures room_left { (k : ℕ) → HasPlaces (k + 1) self.old → HasPlaces k self.new }
        ensures rest { self.new ≡ record self.old { lines = self.new.lines; slots = self.new.slots; listed = self.new.listed; ended = self.new.ended } }
    {
        match self.lines.find(&line) {
            Some(place) => {
                self.end(place, time);
                self.begin(place, user, time);
            }
            None => self.begin_first(line, user, time),
        }
    }

    /// Goes on by a logout. It ends the session on its line.
    pub(crate) fn log_out(&mut self, line: Key, time: i32)
        requires running { IsRunning self.old.count self.old }
        requires now { IsWithin (self.old.count + 1) self.old.clock }
        requires few { self.old.count < ENTRY_LIMIT }
        requires room { HasPlaces 1 self.old }
        ensures opens { (weight : Open → ℕ) → weight_in weight self.new.slots.items ≡ weight_in (off_line line weight) self.old.slots.items }
        ensures sums { (asked : Asked) → measured self.new.ended asked ≡ measured self.old.ended asked + weight_in (on_line line (weighed self.old.ended.keeps_sessions asked self.old.clock time)) self.old.slots.items }
        ensures keeps { self.new.ended.keeps_sessions ≡ self.old.ended.keeps_sessions }
        ensures running { IsRunning self.old.count self.new }
        ensures room_left { (k : ℕ) → HasPlaces k self.old → HasPlaces k self.new }
        ensures rest { self.new ≡ record self.old { lines = self.new.lines; slots = self.new.slots; ended = self.new.ended } }
    {
        if let Some(place) = self.lines.find(&line) {
            self.end(place, time);
        }
    }

    /// Ends the session of a slot, where it is open, and takes its line from those that are listed.
    fn end_listed(&mut self, place: usize, time: i32)
        requires place { place < vec_len self.old.slots }
        requires now { IsWithin ENTRY_LIMIT self.old.clock }
        requires then { (slot_at self.old.slots.items place).is_open ≡ true → IsWithin ENTRY_LIMIT (slot_at self.old.slots.items place).clock_at }
        requires fits { (who : Option (Items ℕ)) → sum_of self.old.ended.sums who < 2 ^ 63 }
        requires few { length self.old.ended.sums.users.entries < 2 ^ 32 }
        requires have { HaveUsers self.old.ended }
        requires room { (slot_at self.old.slots.items place).is_open ≡ true → HasRoom 1 self.old.ended }
        ensures slots { self.new.slots.items ≡ set self.old.slots.items place (unlisted (slot_at self.old.slots.items place)) }
        ensures sums { (asked : Asked) → measured self.new.ended asked ≡ measured self.old.ended asked + weight_at (weighed self.old.ended.keeps_sessions asked self.old.clock time) (slot_at self.old.slots.items place) }
        ensures grown { HasGrown (weight_at one (slot_at self.old.slots.items place)) self.old.ended self.new.ended }
        ensures rest { self.new ≡ record self.old { slots = self.new.slots; ended = self.new.ended } }
        ensures capacity { vec_capacity self.new.slots ≡ vec_capacity self.old.slots }
    {
        self.end(place, time);
        self.slots[place].is_listed = false;
    }

    /// Ends each open session. All of them are of lines that are listed.
    pub(crate) fn end_all(&mut self, time: i32)
        requires running { IsRunning self.old.count self.old }
        requires now { IsWithin (self.old.count + 1) self.old.clock }
        requires few { self.old.count < ENTRY_LIMIT }
        requires room { HasPlaces 1 self.old }
        ensures opens { (weight : Open → ℕ) → weight_in weight self.new.slots.items ≡ 0 }
        ensures sums { (asked : Asked) → measured self.new.ended asked ≡ measured self.old.ended asked + weight_in (weighed self.old.ended.keeps_sessions asked self.old.clock time) self.old.slots.items }
        ensures keeps { self.new.ended.keeps_sessions ≡ self.old.ended.keeps_sessions }
        ensures running { IsRunning self.old.count self.new }
        ensures room_left { (k : ℕ) → HasPlaces k self.old → HasPlaces k self.new }
        ensures rest { self.new ≡ record self.old { slots = self.new.slots; listed = self.new.listed; ended = self.new.ended } }
    {
        for i in 0..self.listed.len() {
            let place = self.listed[i] as usize;
            self.end_listed(place, time);
        }
        self.listed.clear();
    }
}
