ghost use Rattle.std.specs.Prelude.{◌≡◌};
ghost use Rattle.tally_records.specs.Event.{event_of};

use crate::field::Name;
use crate::login::{Event, LoginRecord};

const SHUTDOWN: Name = *b"shutdown\0\0\0\0\0\0\0\0\0\0\0\0\0\0\0\0\0\0\0\0\0\0\0\0";

/// The event of a login record.
#[tactic(auto, unfolding(crate::specs::Event::event_of))]
pub fn event(r: &LoginRecord) -> Event
    ensures { result ≡ event_of r.now }
{
    let has_user = r.user[0] != 0;
    let has_line = r.line[0] != 0;
    match r.kind {
        7 if has_user && has_line => Event::Login,
        7 | 8 if has_line && (r.kind == 8 || !has_user) => Event::Logout,
        2 => Event::Boot,
        1 if r.user == SHUTDOWN && r.line[0] == b'~' => Event::Down,
        4 => Event::OldTime,
        3 => Event::NewTime,
        _ => Event::Nothing,
    }
}
