//! From when on a host has records.
ghost use Rattle.std.specs.Prelude.{◌≡◌, ◌++◌, OnOk, codes};
ghost use Rattle.tally_print.specs.Text.{beginning, moment};
ghost use Rattle.tally_print.specs.inside.LocalTime.{clock_of};

use crate::date::push_moment;
use crate::local::Local;
use crate::printed_day::PrintedDay;
use std::alloc::AllocError;

fn push_first(
    line: &mut Vec<u8>,
    file: &[u8],
    first: i32,
    local: &Local<'_>,
) -> Result<(), AllocError>
    ensures { OnOk result (line.new.items ≡ line.old.items
        ++ (codes "\n" ++ file.now ++ codes " begins " ++ moment first (clock_of local.now) ++ codes "\n")) }
{
    line.push(b'\n')?;
    line.extend_from_slice(file)?;
    line.extend_from_slice(b" begins ")?;
    push_moment(line, &mut PrintedDay::first(), first, local)?;
    line.push(b'\n')?;
    Ok(())
}

fn push_none(line: &mut Vec<u8>, file: &[u8]) -> Result<(), AllocError>
    ensures { OnOk result (line.new.items ≡ line.old.items ++ (file.now ++ codes " has no records\n")) }
{
    line.extend_from_slice(file)?;
    line.extend_from_slice(b" has no records\n")
}

/// Appends the time of a host's first record, whose file is so named, or that it has none.
#[tactic(auto, unfolding(crate::specs::Text::beginning))]
pub(crate) fn push_beginning(
    line: &mut Vec<u8>,
    file: &[u8],
    first: Option<i32>,
    local: &Local<'_>,
) -> Result<(), AllocError>
    ensures { OnOk result (line.new.items ≡ line.old.items ++ beginning file.now first (clock_of local.now)) }
{
    match first {
        None => push_none(line, file),
        Some(first) => push_first(line, file, first, local),
    }
}
