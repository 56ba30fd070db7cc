//! Numbers and lengths of time.
ghost use Rattle.std.specs.Prelude.{◌≡◌, ◌<◌, ◌++◌, OnOk};
ghost use Rattle.tally_check_text.specs.Moments.{length_text};
ghost use Rattle.tally_print.specs.Text.{two};

use itoa::{Buffer, Integer};
use std::alloc::AllocError;

/// A number in two digits.
pub(crate) fn two(number: u8) -> [u8; 2]
    requires { number < 100 }
    ensures { result ≡ two number }
{
    [b'0' + number / 10, b'0' + number % 10]
}

pub(crate) fn push_number<I: Integer>(text: &mut Vec<u8>, number: I) -> Result<(), AllocError>
    ensures { OnOk result (text.new.items ≡ text.old.items ++ I.text number) }
{
    text.extend_from_slice(Buffer::new().format(number).as_bytes())
}

/// Appends seconds as `1:45:00`.
pub(crate) fn push_length(text: &mut Vec<u8>, seconds: u64) -> Result<(), AllocError>
    ensures { OnOk result (text.new.items ≡ text.old.items ++ length_text seconds) }
{
    push_number(text, seconds / 3600)?;
    let [m, mm] = two((seconds / 60 % 60) as u8);
    let [s, ss] = two((seconds % 60) as u8);
    text.extend_from_slice(&[b':', m, mm, b':', s, ss])
}
