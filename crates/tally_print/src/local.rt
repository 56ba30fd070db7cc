//! Local time.
ghost use Rattle.std.specs.Prelude.{◌≡◌, ◌≤◌, ◌<◌, ◌-◌, pos, ◌+ℤ◌, ◌*ℤ◌, ◌≤ℤ◌, ◌<ℤ◌, length};
ghost use Rattle.std.specs.Bool.{OnTrue};
ghost use Rattle.tally_clock.specs.Rows.{count_at, offset_after, row_at};
ghost use Rattle.tally_sessions.specs.Days.{IsOffset};

use tally_clock::{Clock, Row};

/// Local time: a clock, and an offset in minutes east of it.
#[derive(Drop)]
pub(crate) struct Local<'a> {
    pub(crate) clock: &'a Clock,
    pub(crate) offset: i32,
    ghost in_range: { IsOffset offset },
}

/// Whether the last of so many rows has begun at a second.
fn has_begun(rows: &[Row], count: usize, time: i32) -> bool
    requires { count ≤ length rows.now }
    ensures { OnTrue result (0 < count → (row_at rows.now (count - 1)).from ≤ℤ time) }
{
    if count == 0 {
        return true;
    }
    rows[count - 1].from <= time
}

/// Whether the row after so many begins later, where there is one.
fn ends_there(rows: &[Row], count: usize, time: i32) -> bool
    requires { count ≤ length rows.now }
    ensures { OnTrue result (count < length rows.now → time <ℤ (row_at rows.now count).from) }
{
    if count == rows.len() {
        return true;
    }
    time < rows[count].from
}

impl Local<'_> {
    ghost use Rattle.tally_print.specs.inside.LocalTime.{IsAhead, clock_of};

    /// How many rows of the clock have begun at a second, which is looked at first for a guess.
    fn count_near(&self, guess: usize, time: i32) -> usize
        ensures value { result ≡ count_at self.now.clock.now.rows time }
        ensures bound { result ≤ length self.now.clock.now.rows }
    {
        let rows = self.clock.rows();
        if guess <= rows.len() && has_begun(rows, guess, time) && ends_there(rows, guess, time) {
            return guess;
        }
        self.clock.count_at(time)
    }

    /// How far local time is ahead of UTC after so many rows of the clock, in seconds.
    #[tactic(auto, using(crate::proofs::LocalLemmas::ahead_is))]
    fn ahead_after(&self, count: usize) -> i32
        requires { count ≤ length self.now.clock.now.rows }
        ensures value { result ≡ (offset_after self.now.clock.now.first self.now.clock.now.rows count).seconds +ℤ pos 60 *ℤ self.now.offset }
        ensures in_range { IsAhead result }
    {
        self.clock.offset_after(count).seconds + 60 * self.offset
    }

    /// How far local time is ahead of UTC at a second, in seconds. `begun` is how many rows of the clock
    /// had begun at the second before, or any other guess.
    pub(crate) fn ahead_at(&self, begun: &mut usize, time: i32) -> i32
        ensures value { result ≡ clock_of self.now time }
        ensures in_range { IsAhead result }
    {
        let count = self.count_near(*begun, time);
        *begun = count;
        self.ahead_after(count)
    }
}
