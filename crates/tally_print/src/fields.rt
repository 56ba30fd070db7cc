//! Fields of a table, as the crate `csv` writes them.
ghost use Rattle.std.specs.Prelude.{◌≡◌, ◌++◌, ◌∷◌, [], OnOk, decimal, true};
ghost use Rattle.csv.specs.Writing.{default_writer, escaped, field_text, needs_byte, needs_quotes};
ghost use Rattle.tally_print.specs.Text.{date, shown, shown_byte};
ghost use Rattle.tally_sessions.specs.Days.{IsDay};

use crate::date::push_date;
use crate::plain::{is_over, plain_len};
use crate::text::{push_shown, shown_byte};
use itoa::{Buffer, Integer};
use std::alloc::AllocError;

/// Whether a byte, as it is printed, is a mark of the format. No line end is printed.
fn is_mark(byte: u8) -> bool
    ensures { result ≡ needs_byte default_writer (shown_byte byte) }
{
    byte == b',' || byte == b'"'
}

/// Whether the text of a field, as it is printed, has a mark of the format.
fn has_mark(field: &[u8]) -> bool
    ensures { result ≡ needs_quotes default_writer (shown field.now) }
{
    for byte in field {
        if *byte == 0 {
            return false;
        }
        if is_mark(*byte) {
            return true;
        }
    }
    false
}

/// Appends the text of a field as it is printed, each quote twice.
fn push_escaped(line: &mut Vec<u8>, field: &[u8]) -> Result<(), AllocError>
    ensures { OnOk result (line.new.items ≡ line.old.items ++ escaped default_writer (shown field.now)) }
{
    for byte in field {
        if *byte == 0 {
            break;
        }
        if *byte == b'"' {
            line.push(b'"')?;
        }
        line.push(shown_byte(*byte))?;
    }
    Ok(())
}

/// Appends the text of any field as it is printed, in quotes where it has a mark of the format.
fn push_unusual_field(line: &mut Vec<u8>, field: &[u8]) -> Result<(), AllocError>
    ensures { OnOk result (line.new.items ≡ line.old.items ++ field_text default_writer (shown field.now)) }
{
    if !has_mark(field) {
        return push_shown(line, field);
    }
    line.push(b'"')?;
    push_escaped(line, field)?;
    line.push(b'"')?;
    Ok(())
}

/// Appends the text of a field as it is printed, in quotes where it has a mark of the format.
pub(crate) fn push_shown_field(line: &mut Vec<u8>, field: &[u8]) -> Result<(), AllocError>
    ensures { OnOk result (line.new.items ≡ line.old.items ++ field_text default_writer (shown field.now)) }
{
    let plain = plain_len(field);
    if is_over(field, plain) {
        return line.extend_from_slice(&field[..plain]);
    }
    push_unusual_field(line, field)
}

/// Appends a number, which needs no quotes.
pub(crate) fn push_number<I: Integer>(line: &mut Vec<u8>, number: I) -> Result<(), AllocError>
    ensures { OnOk result (line.new.items ≡ line.old.items ++ I.text number) }
{
    line.extend_from_slice(Buffer::new().format(number).as_bytes())
}

/// Appends seconds, which need no quotes, and ends the line.
pub(crate) fn push_seconds(line: &mut Vec<u8>, seconds: u64) -> Result<(), AllocError>
    ensures { OnOk result (line.new.items ≡ line.old.items ++ (decimal seconds ++ 10 ∷ [])) }
{
    push_number(line, seconds)?;
    line.push(b'\n')?;
    Ok(())
}

/// Appends the civil date of a day, which needs no quotes.
#[tactic(auto, using(crate::proofs::PlainLemmas::date_as_field))]
pub(crate) fn push_date_field(line: &mut Vec<u8>, day: i32) -> Result<(), AllocError>
    requires { IsDay day }
    ensures { OnOk result (line.new.items ≡ line.old.items ++ field_text default_writer (date day)) }
{
    push_date(line, day)
}
