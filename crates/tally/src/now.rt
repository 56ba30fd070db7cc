//! The machine's clock, which is asked where a moment is `now` and nowhere else.
ghost use Rattle.std.specs.Prelude.{◌≡◌, Some, false, pos};
ghost use Rattle.tally_line.specs.Times.{ask_now};

use std::rt::Clock;
use std::time::{SystemTime, UNIX_EPOCH};
use tally_line::Times;

/// The second at which the moments are read, which none needs where none is `now`. Without it the
/// machine's clock is set before 1970.
pub(crate) fn now_for<R: Clock>(rt: &R, times: &Times) -> Option<i64>
    ensures { ask_now times.now ≡ false → result ≡ Some (pos 0) }
{
    if times.ask_now() { now(rt) } else { Some(0) }
}

fn now<R: Clock>(rt: &R) -> Option<i64> {
    let now = SystemTime::now(rt).ok()?;
    let since = now.duration_since(UNIX_EPOCH).ok()?;
    i64::try_from(since.as_secs()).ok()
}
