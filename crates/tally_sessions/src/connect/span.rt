//! Spans of local time, where each day has 86,400 seconds.
ghost use Rattle.std.specs.Prelude.{◌≡◌, ◌≤◌, ℤ, pos, neg_ℤ, ◌+ℤ◌, ◌*ℤ◌, ◌≤ℤ◌};
ghost use Rattle.tally_clock.specs.Days.{seconds_between};
ghost use Rattle.tally_sessions.specs.Days.{IsDay};
ghost use Rattle.tally_sessions.specs.inside.Spans.{day_start, IsLocal, span_change, span_day, span_on};

/// The seconds of a day.
const DAY: i64 = 86_400;

/// From one local second up to another. A span that goes back has none.
#[derive(Clone, Copy)]
pub(crate) struct Span {
    pub(crate) begin: i64,
    pub(crate) end_time: i64,
    pub(crate) ghost begin_in: { IsLocal begin },
    pub(crate) ghost end_in: { IsLocal end_time },
}

/// The day of a local second.
pub(crate) fn day_of(time: i64) -> i32
    requires { IsLocal time }
    ensures value { result ≡ span_day time }
    ensures range { IsDay result }
{
    time.div_euclid(DAY) as i32
}

impl Span {
    /// The seconds that a day has of the span.
    pub(crate) fn seconds_on(&self, day: i32) -> i64
        ensures value { result ≡ pos (span_on day self.now.begin self.now.end_time) }
        ensures low { pos 0 ≤ℤ result }
        ensures high { result ≤ℤ pos 86400 }
    {
        let start = DAY * i64::from(day);
        let from = self.begin.max(start);
        let to = self.end_time.min(start + DAY);
        (to - from).max(0)
    }

    /// How many seconds more a day has of the span than the day before it, so many times.
    pub(crate) fn change_on(&self, day: i32, times: i64) -> i64
        requires after_first { neg_ℤ (pos 24858) ≤ℤ day }
        requires times_low { neg_ℤ (pos 33554432) ≤ℤ times }
        requires times_high { times ≤ℤ pos 33554432 }
        ensures value { result ≡ times *ℤ span_change day self.now.begin self.now.end_time }
        ensures low { neg_ℤ (pos 2899102924800) ≤ℤ result }
        ensures high { result ≤ℤ pos 2899102924800 }
    {
        times * (self.seconds_on(day) - self.seconds_on(day - 1))
    }
}
