//! Stays as CSV, with the seconds that a period has of each.
ghost use Rattle.std.specs.Prelude.{◌≡◌, ◌++◌, ◌∷◌, [], OnOk, decimal, drop, ⊤, refl};
ghost use Rattle.csv.specs.Writing.{default_writer, row_text};
ghost use Rattle.tally_print.specs.StayTable.{part_fields, part_header};
ghost use Rattle.tally_print.specs.inside.LocalTime.{clock_of};
ghost use Rattle.tally_sessions.specs.Choice.{seconds_within};

use crate::fields::{push_number, push_seconds};
use crate::lines::{Fields, Line};
use crate::local::Local;
use crate::printed_day::PrintedDays;
use crate::stay_table::{push_ending, push_start, push_user_at, push_who};
use std::alloc::AllocError;
use tally_records::Period;
use tally_sessions::Stay;

/// Appends the length of a stay, and the mark after it.
fn push_length(line: &mut Vec<u8>, stay: &Stay) -> Result<(), AllocError>
    ensures { OnOk result (line.new.items ≡ line.old.items ++ (decimal stay.now.length ++ 44 ∷ [])) }
{
    push_number(line, stay.length)?;
    line.push(b',')?;
    Ok(())
}

/// Appends the seconds that a period has of a stay, and ends the line.
fn push_within(line: &mut Vec<u8>, stay: &Stay, period: &Period) -> Result<(), AllocError>
    ensures { OnOk result (line.new.items ≡ line.old.items ++ (decimal (seconds_within period.now stay.now) ++ 10 ∷ [])) }
{
    push_seconds(line, stay.seconds_within(period))
}

fn push_row(
    line: &mut Vec<u8>,
    days: &mut PrintedDays,
    stay: &Stay,
    local: &Local<'_>,
    period: &Period,
) -> Result<(), AllocError>
    ensures { OnOk result (line.new.items
        ≡ line.old.items ++ row_text default_writer (part_fields (clock_of local.now) period.now stay.now)) }
{
    push_who(line, stay)?;
    push_start(line, &mut days.start, stay, local)?;
    push_ending(line, &mut days.end, stay, local)?;
    push_length(line, stay)?;
    push_within(line, stay, period)
}

/// Appends the fields of a stay after that of its file, and its seconds in a period.
pub(crate) fn push_part_after_file(
    line: &mut Vec<u8>,
    days: &mut PrintedDays,
    stay: &Stay,
    local: &Local<'_>,
    period: &Period,
) -> Result<(), AllocError>
    ensures { OnOk result (line.new.items
        ≡ line.old.items ++ row_text default_writer (drop 1 (part_fields (clock_of local.now) period.now stay.now))) }
{
    push_user_at(line, stay)?;
    push_start(line, &mut days.start, stay, local)?;
    push_ending(line, &mut days.end, stay, local)?;
    push_length(line, stay)?;
    push_within(line, stay, period)
}

/// The fields of a stay, and its seconds in a period.
#[derive(Drop)]
pub(crate) struct PartFields<'a> {
    pub(crate) local: Local<'a>,
    pub(crate) period: Period,
}

impl Line<Stay> for PartFields<'_> {
    ghost prints = { λ _. ⊤ };

    ghost text = { λ fields stay. row_text default_writer (part_fields (clock_of fields.local) fields.period stay) };

    fn push(
        &self,
        page: &mut Vec<u8>,
        days: &mut PrintedDays,
        stay: &Stay,
    ) -> Result<(), AllocError> {
        push_row(page, days, stay, &self.local, &self.period)
    }
}

impl Fields<Stay> for PartFields<'_> {
    ghost fields = { λ fields stay. part_fields (clock_of fields.local) fields.period stay };

    ghost line_is = { λ _ _. refl };
}

/// The names of the columns.
#[tactic(auto, unfolding(crate::specs::StayTable::part_header, crate::specs::StayTable::stay_header, csv::specs::Writing::fields_text, csv::specs::Writing::is_blank))]
pub(crate) fn part_header() -> &'static [u8]
    ensures { result.now ≡ row_text default_writer part_header }
{
    b"file,user,line,remote,start,start_at,begin,end,end_time,end_at,seconds,within\n"
}
