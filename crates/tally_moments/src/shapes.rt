//! Texts with digits at fixed places, and numbers.
ghost use Rattle.std.specs.Prelude.{◌≡◌, ◌-◌, ◌≤◌, ◌<◌, drop, option_map, pos, slice_index, take};
ghost use Rattle.std.specs.Char.{is_ascii_digit};
ghost use Rattle.std.specs.List.{list_all, zip};
ghost use Rattle.std.specs.Str.Parse.{without_leading_plus};
ghost use Rattle.tally_moments.specs.Shapes as Spec;

/// Whether a text has the shape of a picture: a digit where that has 0, and else the same byte.
pub(crate) fn is_like(picture: &[u8], text: &[u8]) -> bool
    ensures { result ≡ Spec.is_like picture.now text.now }
{
    picture.len() == text.len() && fits(picture, text)
}

fn fits(picture: &[u8], text: &[u8]) -> bool
    ensures { result ≡ list_all (λ p. Spec.fits_place p.0 p.1) (zip picture.now text.now) }
{
    picture
        .iter()
        .zip(text)
        .all(|(place, byte)| fits_place(*place, *byte))
}

fn fits_place(place: u8, byte: u8) -> bool
    ensures { result ≡ Spec.fits_place place byte }
{
    if place == b'0' {
        byte.is_ascii_digit()
    } else {
        byte == place
    }
}

/// So many bytes of a text, or all where it has no more.
pub(crate) fn front(text: &[u8], count: usize) -> &[u8]
    ensures { result.now ≡ take count text.now }
{
    &text[..count.min(text.len())]
}

/// What follows so many bytes of a text.
pub(crate) fn rest(text: &[u8], count: usize) -> &[u8]
    ensures { result.now ≡ drop count text.now }
{
    &text[count.min(text.len())..]
}

/// The byte at a place, or 0 past the end.
pub(crate) fn byte_at(text: &[u8], at: usize) -> u8
    ensures { result ≡ slice_index text.now at }
{
    match text.get(at) {
        Some(byte) => *byte,
        None => 0,
    }
}

fn digit_at(text: &[u8], at: usize) -> u32
    ensures value { result ≡ Spec.digit_at text.now at }
    ensures bound { result ≤ 207 }
{
    u32::from(byte_at(text, at).saturating_sub(b'0'))
}

/// The number that two digits write at a place.
pub(crate) fn two_at(text: &[u8], at: usize) -> u32
    requires { at < 100 }
    ensures value { result ≡ Spec.two_at text.now at }
    ensures bound { result < 10_000 }
{
    digit_at(text, at) * 10 + digit_at(text, at + 1)
}

/// The number that the first four digits write.
pub(crate) fn first_four(text: &[u8]) -> u32
    ensures { result ≡ Spec.first_four text.now }
{
    two_at(text, 0) * 100 + two_at(text, 2)
}

fn are_digits(text: &[u8]) -> bool
    ensures { result ≡ Spec.is_digits text.now }
{
    !text.is_empty() && all_digits(text)
}

fn all_digits(text: &[u8]) -> bool
    ensures { result ≡ list_all is_ascii_digit text.now }
{
    text.iter().all(|byte| byte.is_ascii_digit())
}

/// The number that digits write, where 63 bits hold it.
pub(crate) fn number_of(text: &str) -> Option<i64>
    ensures { result ≡ option_map pos (Spec.number_of text.now) }
{
    if !are_digits(text.as_bytes()) {
        return None;
    }
    text.parse::<i64>().ok()
}

/// What follows an at sign that a text begins with.
pub(crate) fn after_at<'a>(text: &'a str) -> Option<&'a str>
    ensures { option_map (λ s. s.now) result ≡ Spec.after 64 text.entry.now }
{
    text.strip_prefix('@')
}

/// What follows a minus that a text begins with.
pub(crate) fn after_minus<'a>(text: &'a str) -> Option<&'a str>
    ensures { option_map (λ s. s.now) result ≡ Spec.after 45 text.entry.now }
{
    text.strip_prefix('-')
}

/// A text without a plus that it begins with.
pub(crate) fn without_plus<'a>(text: &'a str) -> &'a str
    ensures { result.now ≡ without_leading_plus text.entry.now }
{
    text.strip_prefix('+').unwrap_or(text)
}

/// Whether a word is as many digits as a date has without signs, or a date and a time.
pub(crate) fn looks_like_date(word: &str) -> bool
    ensures { result ≡ Spec.looks_like_date word.now }
{
    let digits = without_plus(word).as_bytes();
    are_digits(digits) && (digits.len() == 8 || digits.len() == 14)
}
