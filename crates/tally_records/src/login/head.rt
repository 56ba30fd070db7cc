ghost use Rattle.std.specs.Prelude.{◌≡◌, ◌≤◌, ◌<◌, ◌+◌, ◌*◌, ◌++◌, ◌^◌, All, drop, length, map, slice_get, take, vec_len, vec_capacity, OnOk, OnErr};
ghost use Rattle.tally_records.specs.inside.Compact.Layout.{IsHead, bytes_of, field_of, moved, part, record_at, size};

use crate::field::Name;
use crate::login::LoginRecord;

/// A record but for its texts, which stand one after another as words from a place on.
#[derive(Clone, Copy)]
pub(crate) struct Head {
    pub(crate) time: i32,
    pub(crate) start: u32,
    pub(crate) kind: u8,
    /// How many words each text has.
    pub(crate) line: u8,
    pub(crate) user: u8,
    pub(crate) remote: u8,
}

/// Writes the bytes of words over the first of a field.
pub(crate) fn lay(field: &mut [u8], words: &[u64])
    requires { 8 * length words.now ≤ length field.old }
    ensures { field.new ≡ bytes_of words.now ++ drop (8 * length words.now) field.old }
{
    for (k, word) in words.iter().enumerate() {
        field[8 * k..8 * k + 8].copy_from_slice(&word.to_le_bytes());
    }
}

/// The field of a text.
pub(crate) fn unpack<const N: usize>(words: &[u64]) -> [u8; N]
    requires { 8 * length words.now ≤ N }
    ensures { result ≡ field_of N words.now }
{
    let mut field = [0; N];
    lay(&mut field, words);
    field
}

/// The head at a place.
pub(crate) fn head_at(heads: &[Head], index: usize) -> Option<Head>
    ensures { result ≡ slice_get heads.now index }
{
    heads.get(index).copied()
}

/// The words of the line of a head.
pub(crate) fn line_words(words: &[u64], head: Head) -> &[u64]
    requires within { head.start + size head ≤ length words.now }
    requires small { IsHead head }
    ensures { result.now ≡ part head.start head.line words.now }
{
    let line = head.start as usize;
    let user = line + usize::from(head.line);
    &words[line..user]
}

/// The words of the user of a head.
pub(crate) fn user_words(words: &[u64], head: Head) -> &[u64]
    requires within { head.start + size head ≤ length words.now }
    requires small { IsHead head }
    ensures { result.now ≡ part (head.start + head.line) head.user words.now }
{
    let user = head.start as usize + usize::from(head.line);
    let remote = user + usize::from(head.user);
    &words[user..remote]
}

/// The words of the remote host of a head.
pub(crate) fn remote_words(words: &[u64], head: Head) -> &[u64]
    requires within { head.start + size head ≤ length words.now }
    requires small { IsHead head }
    ensures { result.now ≡ part (head.start + head.line + head.user) head.remote words.now }
{
    let remote = head.start as usize + usize::from(head.line) + usize::from(head.user);
    let end = remote + usize::from(head.remote);
    &words[remote..end]
}

/// The user of a head.
#[tactic(auto, unfolding(crate::specs::inside::Compact::Layout::record_at))]
pub(crate) fn user_of(words: &[u64], head: Head) -> Name
    requires within { head.start + size head ≤ length words.now }
    requires small { IsHead head }
    ensures { result ≡ (record_at words.now head).user }
{
    unpack(user_words(words, head))
}

/// The record of a head.
pub(crate) fn record(words: &[u64], head: Head) -> LoginRecord
    requires within { head.start + size head ≤ length words.now }
    requires small { IsHead head }
    ensures { result ≡ record_at words.now head }
{
    LoginRecord {
        kind: head.kind,
        line: unpack(line_words(words, head)),
        user: unpack(user_words(words, head)),
        remote: unpack(remote_words(words, head)),
        time: head.time,
    }
}
