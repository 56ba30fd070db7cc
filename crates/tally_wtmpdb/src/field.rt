//! What the fields of a login record keep of texts.
ghost use Rattle.std.specs.Prelude.{◌≡◌, ◌≤◌, ◌==◌, length, position};
ghost use Rattle.tally_records.specs.Text.{padded};
ghost use Rattle.tally_wtmpdb.specs.Fields as Spec;

use tally_records::Name;

/// The bytes of `ut_line` and of `ut_user`.
pub(crate) const NAME_SIZE: usize = 32;

/// Where a text has its first NUL.
fn first_nul(text: &[u8]) -> Option<usize>
    ensures { result ≡ position (λ b. b == 0) text.now }
{
    text.iter().position(|byte| *byte == 0)
}

/// What a field of so many bytes keeps of a text.
pub(crate) fn kept(size: usize, text: &[u8]) -> &[u8]
    ensures value { result.now ≡ Spec.kept size text.now }
    ensures short { length result.now ≤ size }
{
    let end = first_nul(text).unwrap_or(text.len());
    &text[..end.min(size)]
}

/// A text that fits, followed by zeros.
fn padded(text: &[u8]) -> Name
    requires { length text.now ≤ 32 }
    ensures { result ≡ padded 32 text.now }
{
    let mut name = [0; NAME_SIZE];
    name[..text.len()].copy_from_slice(text);
    name
}

/// A text in a field of 32 bytes.
pub(crate) fn name(text: &[u8]) -> Name
    ensures { result ≡ Spec.field 32 text.now }
{
    padded(kept(NAME_SIZE, text))
}
