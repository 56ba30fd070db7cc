//! Local time.
ghost use Rattle.std.specs.Prelude.{◌≡◌, pos};
ghost use Rattle.std.specs.Int.{int_min};
ghost use Rattle.tally_check_text.specs.Moments as Spec;
ghost use Rattle.tally_check_text.specs.inside.Moments.{IsAhead, IsRecorded};
ghost use Rattle.tally_sessions.specs.Days.{IsOffset};

use tally_clock::Clock;

/// Local time: a clock, and an offset in minutes east of it.
#[derive(Drop)]
pub(crate) struct Local<'a> {
    pub(crate) clock: &'a Clock,
    pub(crate) offset: i32,
    ghost in_range: { IsOffset offset },
}

/// The nearest second that a record can have.
pub(crate) fn recorded(time: i64) -> i64
    ensures value { result ≡ Spec.recorded time }
    ensures in_range { IsRecorded result }
{
    time.min(4_294_967_295).max(-2_147_483_648)
}

/// The nearest second that a login record can have.
fn narrowed(time: i64) -> i32
    requires { IsRecorded time }
    ensures { result ≡ int_min time (pos 2_147_483_647) }
{
    time.min(2_147_483_647) as i32
}

impl Local<'_> {
    ghost use Rattle.tally_check_text.specs.inside.LocalTime.{clock_of};

    /// How far local time is ahead of UTC at a second.
    pub(crate) fn ahead_of(&self, time: i64) -> i32
        requires { IsRecorded time }
        ensures value { result ≡ Spec.ahead_of (clock_of self.now) time }
        ensures in_range { IsAhead result }
    {
        self.clock.offset_at(narrowed(time)).seconds + 60 * self.offset
    }
}
