//! Words that name a zone.
ghost use Rattle.std.specs.Prelude.{◌≡◌};
ghost use Rattle.tally_clock.specs.Words as Spec;

/// What a word names a zone by.
#[derive(Clone, Copy, Debug, PartialEq, Eq)]
pub enum ZoneWord {
    /// The zone of the machine.
    Local,
    /// A file at this path.
    Path,
    /// A file with this name below the folder of zones. Where there is none, the word is a text.
    Name,
    /// A text.
    Text,
}

/// What a word is that names no file.
#[derive(Clone, Copy, Debug, PartialEq, Eq)]
pub enum ZoneText {
    /// A rule of POSIX, if it is anything.
    Rule,
    /// An offset from UTC that POSIX reads the other way round, as `UTC+2`.
    MistakenOffset,
}

/// What a word names a zone by.
pub fn zone_word(word: &str) -> ZoneWord
    ensures { result ≡ Spec.zone_word word.now }
{
    if word == "local" {
        ZoneWord::Local
    } else if is_path(word.as_bytes()) {
        ZoneWord::Path
    } else if is_name(word.as_bytes()) {
        ZoneWord::Name
    } else {
        ZoneWord::Text
    }
}

fn is_path(word: &[u8]) -> bool
    ensures { result ≡ Spec.is_path word.now }
{
    match word {
        [first, ..] => *first == b'/' || *first == b'.',
        [] => false,
    }
}

fn is_name(word: &[u8]) -> bool
    ensures { result ≡ Spec.is_name word.now }
{
    let [first, ..] = word else {
        return false;
    };
    let last = word[word.len() - 1];
    has_name_bytes(word) && !has_slashes(word) && *first != b'/' && last != b'/'
}

/// Whether a word has no bytes but those of names and the slash.
fn has_name_bytes(word: &[u8]) -> bool
    ensures { result ≡ Spec.has_name_bytes word.now }
{
    word.iter().all(|byte| {
        byte.is_ascii_alphanumeric()
            || *byte == b'_'
            || *byte == b'-'
            || *byte == b'+'
            || *byte == b'/'
    })
}

/// Whether a word has two slashes in a row.
fn has_slashes(word: &[u8]) -> bool
    ensures { result ≡ Spec.has_slashes word.now }
{
    match word {
        [_, rest @ ..] => meet_in_slash(word, rest),
        [] => false,
    }
}

/// Whether two texts have a slash at the same place.
fn meet_in_slash(text: &[u8], other: &[u8]) -> bool
    ensures { result ≡ Spec.meet_in_slash text.now other.now }
{
    text.iter()
        .zip(other)
        .any(|(byte, beside)| *byte == b'/' && *beside == b'/')
}

/// What a word is that names no file.
pub fn zone_text(word: &str) -> ZoneText
    ensures { result ≡ Spec.zone_text word.now }
{
    let word = word.as_bytes();
    if is_offset_from(b"UTC", word) || is_offset_from(b"GMT", word) || is_offset_from(b"UT", word) {
        ZoneText::MistakenOffset
    } else {
        ZoneText::Rule
    }
}

/// Whether a word is a name of UTC and an offset.
fn is_offset_from(zone: &[u8], word: &[u8]) -> bool
    ensures { result ≡ Spec.is_offset_from zone.now word.now }
{
    match word.strip_prefix(zone) {
        Some(text) => is_offset(text),
        None => false,
    }
}

fn is_offset(text: &[u8]) -> bool
    ensures { result ≡ Spec.is_offset text.now }
{
    match text {
        [first, rest @ ..] => {
            (is_sign(*first) || first.is_ascii_digit()) && has_offset_bytes(rest)
        }
        [] => false,
    }
}

fn has_offset_bytes(text: &[u8]) -> bool
    ensures { result ≡ Spec.has_offset_bytes text.now }
{
    text.iter().all(|byte| *byte == b'+' || *byte == b'-' || byte.is_ascii_digit() || *byte == b':')
}

fn is_sign(byte: u8) -> bool
    ensures { result ≡ Spec.is_sign byte }
{
    byte == b'+' || byte == b'-'
}
