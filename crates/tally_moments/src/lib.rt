//! Moments, as words say them, periods between two, and the second of each moment on a clock.
//!
//! A `moment` is said by `dates` of the calendar and a `time` of day, whose `shapes` are looked at first, or by
//! seconds. `second` finds it on a clock.
#![tactic(auto)]

mod dates;
mod moment;
mod second;
mod shapes;
mod time;

pub use moment::{Moment, clear_moment_of, moment_of, period_of};
pub use second::{second_of, seconds_agree};
