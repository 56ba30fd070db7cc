ghost use Rattle.std.specs.Prelude.{◌≡◌, ◌≤◌, ◌+◌, ◌==◌, length, position};
ghost use Rattle.tally_records.specs.Text.{text_of, u32_at, whole_words};

use byteorder::{ByteOrder, LittleEndian};

/// A line or a user, `ut_line` and `ut_user` of utmp(5): the text's bytes, then zeros.
pub type Name = [u8; 32];

/// A remote host, `ut_host` of utmp(5): the text's bytes, then zeros.
pub type Remote = [u8; 256];

/// The name of a command, `ac_comm` of acct(5): the text's bytes, then zeros.
pub type Comm = [u8; 17];

/// Where a field has its first NUL.
fn first_nul(field: &[u8]) -> Option<usize>
    ensures { result ≡ position (λ b. b == 0) field.now }
{
    field.iter().position(|byte| *byte == 0)
}

/// The words of eight bytes of a field up to that with its first NUL, or the whole field: what
/// differs between two fields that hold texts and then zeros, in as few words as that takes.
pub fn whole_words(field: &[u8]) -> &[u8]
    ensures { result.now ≡ whole_words field.now }
{
    let end = first_nul(field).unwrap_or(field.len());
    match field.get(..end / 8 * 8 + 8) {
        Some(words) => words,
        None => field,
    }
}

/// The text of a field, which ends at its first NUL or fills the field.
pub(crate) fn text<const N: usize>(field: &[u8]) -> [u8; N]
    requires { length field.now ≤ N }
    ensures { result ≡ text_of N field.now }
{
    let end = first_nul(field).unwrap_or(field.len());
    let mut kept = [0; N];
    kept[..end].copy_from_slice(&field[..end]);
    kept
}

/// The number in the four bytes at an offset, the low byte first.
pub(crate) fn number_at(bytes: &[u8], offset: usize) -> u32
    requires { offset + 4 ≤ length bytes.now }
    ensures { result ≡ u32_at offset bytes.now }
{
    let field = &bytes[offset..];
    LittleEndian::read_u32(field)
}
