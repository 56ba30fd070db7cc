//! The text of what is found of the files of a check.
ghost use Rattle.std.specs.Prelude.{◌≡◌, ◌++◌, OnOk};
ghost use Rattle.tally.specs.Checks.{gap_text, head_text, with_found};
ghost use Rattle.tally_sessions.specs.Days.{IsOffset, local};

use std::alloc::AllocError;
use tally_check::Findings;
use tally_check_text::{Origin, push_header, push_row, push_section};
use tally_clock::Clock;
use tally_line::{Check, Form};
use tally_print::FileColumns;

/// The text before what is found of the first file.
pub(crate) fn push_head(text: &mut Vec<u8>, asked: &Check) -> Result<(), AllocError>
    ensures { OnOk result (text.new.items ≡ text.old.items ++ head_text asked.now.form asked.now.paths) }
{
    match asked.form {
        Form::Csv => push_header(text, asked.paths),
        Form::Text => Ok(()),
    }
}

/// Appends an empty line, unless a file is the first.
fn push_gap(text: &mut Vec<u8>, number: u32) -> Result<(), AllocError>
    ensures { OnOk result (text.new.items ≡ text.old.items ++ gap_text number) }
{
    if number > 1 {
        text.push(b'\n')?;
    }
    Ok(())
}

/// Appends what is found of the file of a path: its row, or its section, after an empty line where it is not the first.
pub(crate) fn push_found(
    text: &mut Vec<u8>,
    asked: &Check,
    clock: &Clock,
    number: u32,
    path: &str,
    origin: Origin<'_>,
    findings: &Findings,
) -> Result<(), AllocError>
    requires { IsOffset asked.now.offset }
    ensures { OnOk result (text.new.items
        ≡ with_found asked.now.form asked.now.paths (local clock.now asked.now.offset) number path.now origin.entry findings.now text.old.items) }
{
    match asked.form {
        Form::Csv => {
            let path = if asked.paths { Some(path) } else { None };
            let file = FileColumns { number, path };
            push_row(text, clock, file, origin, findings, asked.offset)
        }
        Form::Text => {
            push_gap(text, number)?;
            push_section(text, clock, path, origin, findings, asked.offset)
        }
    }
}
