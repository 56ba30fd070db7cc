//! The texts of a record, written over others.
ghost use Rattle.std.specs.Prelude.{◌≡◌, ◌≤◌, ◌+◌, ◌*◌, length};
ghost use Rattle.tally_records.specs.inside.Compact.Layout.{IsHead, field_of, record_at, size};

use crate::field::{Name, Remote};
use crate::login::head::{Head, lay, line_words, remote_words, user_words};

/// Writes the field of a text over another.
fn unpack_over<const N: usize>(field: &mut [u8; N], words: &[u64])
    requires { 8 * length words.now ≤ N }
    ensures { field.new ≡ field_of N words.now }
{
    let zeros = [0; N];
    *field = zeros;
    lay(field, words);
}

/// Writes the texts of a head over others.
pub(crate) fn put_texts(
    words: &[u64],
    head: Head,
    line: &mut Name,
    user: &mut Name,
    remote: &mut Remote,
)
    requires within { head.start + size head ≤ length words.now }
    requires small { IsHead head }
    ensures line { line.new ≡ (record_at words.now head).line }
    ensures user { user.new ≡ (record_at words.now head).user }
    ensures remote { remote.new ≡ (record_at words.now head).remote }
{
    unpack_over(line, line_words(words, head));
    unpack_over(user, user_words(words, head));
    unpack_over(remote, remote_words(words, head));
}
