//! Fields of the table, as the crate `csv` writes them.
ghost use Rattle.std.specs.Prelude.{◌≡◌, ◌++◌, ◌∷◌, [], OnOk, decimal};
ghost use Rattle.std.specs.Fmt.{signed_decimal};
ghost use Rattle.csv.specs.Writing.{default_writer, escaped, field_text, needs_byte, needs_quotes};
ghost use Rattle.tally_check_text.specs.Moments.{iso_moment};
ghost use Rattle.tally_check_text.specs.inside.LocalTime.{clock_of};
ghost use Rattle.tally_check_text.specs.inside.Rows.{before};
ghost use Rattle.tally_print.specs.Text.{shown, shown_byte};

use crate::local::Local;
use crate::moments::push_iso;
use crate::numbers::push_number;
use crate::paths::{push_shown, shown_byte};
use std::alloc::AllocError;

/// Whether a byte, as it is printed, is a mark of the format. No line end is printed.
fn is_mark(byte: u8) -> bool
    ensures { result ≡ needs_byte default_writer (shown_byte byte) }
{
    byte == b',' || byte == b'"'
}

/// Whether a text, as it is printed, has a mark of the format.
fn has_mark(field: &[u8]) -> bool
    ensures { result ≡ needs_quotes default_writer (shown field.now) }
{
    for byte in field {
        if *byte == 0 {
            return false;
        }
        if is_mark(*byte) {
            return true;
        }
    }
    false
}

/// Appends a text as it is printed, each quote twice.
fn push_escaped(text: &mut Vec<u8>, field: &[u8]) -> Result<(), AllocError>
    ensures { OnOk result (text.new.items ≡ text.old.items ++ escaped default_writer (shown field.now)) }
{
    for byte in field {
        if *byte == 0 {
            break;
        }
        if *byte == b'"' {
            text.push(b'"')?;
        }
        text.push(shown_byte(*byte))?;
    }
    Ok(())
}

/// Appends a text as it is printed, in quotes where it has a mark of the format.
fn push_field(text: &mut Vec<u8>, field: &[u8]) -> Result<(), AllocError>
    ensures { OnOk result (text.new.items ≡ text.old.items ++ field_text default_writer (shown field.now)) }
{
    if !has_mark(field) {
        return push_shown(text, field);
    }
    text.push(b'"')?;
    push_escaped(text, field)?;
    text.push(b'"')?;
    Ok(())
}

/// Appends a text as it is printed, and the mark after it.
pub(crate) fn push_text(text: &mut Vec<u8>, field: &[u8]) -> Result<(), AllocError>
    ensures { OnOk result (text.new.items ≡ text.old.items ++ before (shown field.now)) }
{
    push_field(text, field)?;
    text.push(b',')?;
    Ok(())
}

/// Appends a count, and the mark after it.
#[tactic(auto, using(tally_print::proofs::PlainLemmas::number_as_field))]
pub(crate) fn push_count(text: &mut Vec<u8>, count: u64) -> Result<(), AllocError>
    ensures { OnOk result (text.new.items ≡ text.old.items ++ before (decimal count)) }
{
    push_number(text, count)?;
    text.push(b',')?;
    Ok(())
}

/// Appends a second, and the mark after it.
#[tactic(auto, using(tally_print::proofs::PlainLemmas::signed_as_field))]
pub(crate) fn push_second(text: &mut Vec<u8>, second: i64) -> Result<(), AllocError>
    ensures { OnOk result (text.new.items ≡ text.old.items ++ before (signed_decimal second)) }
{
    push_number(text, second)?;
    text.push(b',')?;
    Ok(())
}

/// Appends a moment, and the mark after it.
#[tactic(auto, using(crate::proofs::FieldLemmas::iso_as_field))]
pub(crate) fn push_at(text: &mut Vec<u8>, second: i64, local: &Local<'_>) -> Result<(), AllocError>
    ensures { OnOk result (text.new.items ≡ text.old.items ++ before (iso_moment (clock_of local.now) second)) }
{
    push_iso(text, second, local)?;
    text.push(b',')?;
    Ok(())
}
