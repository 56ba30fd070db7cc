ghost use Rattle.std.specs.Prelude.{◌≡◌, ◌≤◌, ◌<◌, ◌+◌, ◌/◌, ◌%◌, ◌^◌, ◌++◌, length, vec_len, vec_capacity};
ghost use Rattle.std.specs.Int.{w64, trailing_zeros};
ghost use Rattle.tally_records.specs.Text.{text_of, field_words, word_of};
ghost use Rattle.tally_records.specs.inside.Compact.Layout.{field_of};
ghost use Rattle.tally_records.specs.inside.Compact.Words.{nul_at, text_words};

const HIGH_BITS: u64 = 0x8080_8080_8080_8080;

const LOW_BITS: u64 = 0x7f7f_7f7f_7f7f_7f7f;

pub(crate) fn word_of(bytes: &[u8; 8]) -> u64
    ensures { result ≡ word_of bytes.now }
{
    u64::from_le_bytes(*bytes)
}

/// A word with the high bit of each byte that is NUL. No sum carries into the next byte, so each byte's high bit says
/// whether the byte is NUL.
fn nul_flags(word: u64) -> u64
    ensures none { result ≡ 0 → nul_at word ≡ 8 }
    ensures lowest { 0 < result → trailing_zeros w64 result / 8 ≡ nul_at word }
    ensures within { 0 < result → nul_at word < 8 }
{
    (((word & LOW_BITS) + LOW_BITS | word) & HIGH_BITS) ^ HIGH_BITS
}

/// The first bytes of a word, and then zeros.
fn first_bytes(word: u64, count: u32) -> u64
    requires { count < 8 }
    ensures { result ≡ word % 256 ^ count }
{
    word % (1 << (8 * count))
}

/// The bytes of a word before its first NUL, by its flags, and then zeros.
fn last_word(word: u64, nuls: u64) -> u64
    requires lowest { trailing_zeros w64 nuls / 8 ≡ nul_at word }
    requires within { nul_at word < 8 }
    ensures { result ≡ word % 256 ^ nul_at word }
{
    first_bytes(word, nuls.trailing_zeros() / 8)
}

/// Adds the words of a field's text, which ends at the first NUL.
fn push_words(words: &mut Vec<u64>, field: &[u8])
    requires room { vec_len words.old + length field.now / 8 ≤ vec_capacity words.old }
    ensures items { words.new.items ≡ words.old.items ++ text_words (field_words field.now) }
    ensures capacity { vec_capacity words.new ≡ vec_capacity words.old }
{
    let (chunks, _) = field.as_chunks::<8>();
    for chunk in chunks {
        let word = word_of(chunk);
        let nuls = nul_flags(word);
        if nuls != 0 {
            let last = last_word(word, nuls);
            if last != 0 {
                words.push_reserved(last);
            }
            return;
        }
        words.push_reserved(word);
    }
}

/// The same, with what the words stand for.
pub(crate) fn push_text(words: &mut Vec<u64>, field: &[u8])
    requires whole { length field.now % 8 ≡ 0 }
    requires room { vec_len words.old + length field.now / 8 ≤ vec_capacity words.old }
    ensures items { words.new.items ≡ words.old.items ++ text_words (field_words field.now) }
    ensures len { vec_len words.new ≡ vec_len words.old + length (text_words (field_words field.now)) }
    ensures few { length (text_words (field_words field.now)) ≤ length field.now / 8 }
    ensures text { field_of (length field.now) (text_words (field_words field.now)) ≡ text_of (length field.now) field.now }
    ensures capacity { vec_capacity words.new ≡ vec_capacity words.old }
{
    push_words(words, field);
}
