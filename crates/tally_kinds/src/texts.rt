//! Texts, and fields that hold them.
ghost use Rattle.std.specs.Prelude.{◌≡◌, ◌==◌};
ghost use Rattle.std.specs.List.{list_all};
ghost use Rattle.tally_kinds.specs.Texts as Spec;

/// Whether all bytes are zero.
pub(crate) fn are_zeros(bytes: &[u8]) -> bool
    ensures { result ≡ Spec.are_zeros bytes.now }
{
    bytes.iter().all(|byte| *byte == 0)
}

/// Where a field has its first zero.
fn first_zero(field: &[u8]) -> Option<usize>
    ensures { result ≡ Spec.first_zero field.now }
{
    field.iter().position(|byte| *byte == 0)
}

/// Whether a field holds a text and then zeros.
pub(crate) fn is_padded(field: &[u8]) -> bool
    ensures { result ≡ Spec.is_padded field.now }
{
    match first_zero(field) {
        Some(end) => are_zeros(&field[end..]),
        None => true,
    }
}

fn is_text_byte(byte: u8) -> bool
    ensures { result ≡ Spec.is_text_byte byte }
{
    match byte {
        b'\t' | b'\n' | b'\r' | b' '..=b'~' | 0x80..=0xff => true,
        _ => false,
    }
}

/// Whether all bytes are of texts.
pub(crate) fn is_text(bytes: &[u8]) -> bool
    ensures { result ≡ list_all Spec.is_text_byte bytes.now }
{
    bytes.iter().all(|byte| is_text_byte(*byte))
}
