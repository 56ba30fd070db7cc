//! Lines of passwd(5).
ghost use Rattle.std.specs.Prelude.{◌≡◌, ◌==◌, ◌∷◌, None, Some, if◌then◌else◌, count_by, length, position};
ghost use Rattle.std.specs.Str.Parse.{digits_value};
ghost use Rattle.tally_usage.specs.Names.{fields_of, is_uid};
ghost use Rattle.tally_usage.specs.inside.Names.{fields_left, lent_user, user_of};

fn colon_of(text: &[u8]) -> Option<usize>
    ensures { result ≡ position (λ byte. byte == 58) text.now }
{
    text.iter().position(|byte| *byte == b':')
}

fn count_colons(text: &[u8]) -> usize
    ensures { result ≡ count_by (λ byte. byte == 58) text.now }
{
    text.iter().filter(|byte| **byte == b':').count()
}

/// The first field of a text, and what follows the colon after it, where there is one.
fn first_field(text: &[u8]) -> (&[u8], Option<&[u8]>)
    ensures { fields_of text.now ≡ result.0.now ∷ fields_left result.1 }
{
    match colon_of(text) {
        Some(at) => (&text[..at], Some(&text[at + 1..])),
        None => (text, None),
    }
}

/// The number of a user that a text says.
fn uid_in(text: &[u8]) -> Option<u32>
    ensures { result ≡ if is_uid text.now then Some (digits_value 10 text.now) else None }
{
    if text.is_empty() {
        return None;
    }
    let mut number = 0u64;
    for byte in text {
        if !byte.is_ascii_digit() {
            return None;
        }
        number = (number * 10 + u64::from(*byte - b'0')).min(1 << 32);
    }
    u32::try_from(number).ok()
}

/// The number and the name of a user, where the line has the seven fields of passwd(5).
pub(crate) fn user_in(line: &[u8]) -> Option<(u32, &[u8])>
    ensures { lent_user result ≡ user_of (fields_of line.now) }
{
    let (name, rest) = first_field(line);
    let (_, rest) = first_field(rest?);
    let (number, rest) = first_field(rest?);
    if name.is_empty() || count_colons(rest?) != 3 {
        return None;
    }
    Some((uid_in(number)?, name))
}
