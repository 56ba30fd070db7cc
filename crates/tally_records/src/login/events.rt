//! The event of a record, from its head and the words of its texts.
ghost use Rattle.std.specs.Prelude.{◌≡◌, ◌≤◌, ◌+◌, ◌*◌, bytes_eq, codes, length, slice_index};
ghost use Rattle.tally_records.specs.Event.{event_of};
ghost use Rattle.tally_records.specs.Text.{padded};
ghost use Rattle.tally_records.specs.inside.Compact.Layout.{IsHead, field_of, record_at, size};

use crate::login::Event;
use crate::login::head::{Head, line_words, user_words};
use crate::login::key::Key;

/// The words of "shutdown".
const SHUTDOWN: u64 = 0x6e77_6f64_7475_6873;

/// The first byte of a text, 0 where it has none.
fn first_byte(words: &[u64]) -> u8
    ensures { result ≡ slice_index (field_of 32 words.now) 0 }
{
    if words.len() == 0 {
        return 0;
    }
    (words[0] % 256) as u8
}

fn line_byte(words: &[u64], head: Head) -> u8
    requires within { head.start + size head ≤ length words.now }
    requires small { IsHead head }
    ensures { result ≡ slice_index (record_at words.now head).line 0 }
{
    first_byte(line_words(words, head))
}

fn user_byte(words: &[u64], head: Head) -> u8
    requires within { head.start + size head ≤ length words.now }
    requires small { IsHead head }
    ensures { result ≡ slice_index (record_at words.now head).user 0 }
{
    first_byte(user_words(words, head))
}

fn is_shutdown(words: &[u64], head: Head) -> bool
    requires within { head.start + size head ≤ length words.now }
    requires small { IsHead head }
    ensures { result ≡ bytes_eq (record_at words.now head).user (padded 32 (codes "shutdown")) }
{
    let wanted = [SHUTDOWN];
    Key::of_words(user_words(words, head)) == Key::of_words(&wanted)
}

/// The event of a head.
#[tactic(auto, unfolding(crate::specs::Event::event_of, crate::specs::inside::Compact::Layout::record_at))]
pub(crate) fn event_at(words: &[u64], head: Head) -> Event
    requires within { head.start + size head ≤ length words.now }
    requires small { IsHead head }
    ensures { result ≡ event_of (record_at words.now head) }
{
    let line = line_byte(words, head);
    let user = user_byte(words, head);
    match head.kind {
        7 if user != 0 && line != 0 => Event::Login,
        7 | 8 if line != 0 && (head.kind == 8 || user == 0) => Event::Logout,
        2 => Event::Boot,
        1 if line == b'~' && is_shutdown(words, head) => Event::Down,
        4 => Event::OldTime,
        3 => Event::NewTime,
        _ => Event::Nothing,
    }
}
