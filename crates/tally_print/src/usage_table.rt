//! Usage as CSV.
ghost use Rattle.std.specs.Prelude.{◌≡◌, ◌++◌, ◌∷◌, [], OnOk, decimal, ⊤, refl};
ghost use Rattle.csv.specs.Writing.{default_writer, field_text, row_text};
ghost use Rattle.tally_print.specs.Text.{shown};
ghost use Rattle.tally_print.specs.UsageTable.{command_fields, command_header, mark_field, user_fields, user_header};

use crate::fields::{push_number, push_shown_field};
use crate::lines::{Fields, Line};
use crate::printed_day::PrintedDays;
use std::alloc::AllocError;
use tally_usage::{CommandRow, UidRow, Usage};

fn push_mark(line: &mut Vec<u8>, mark: bool) -> Result<(), AllocError>
    ensures { OnOk result (line.new.items ≡ line.old.items ++ mark_field mark) }
{
    if mark {
        line.push(b'1')?;
    } else {
        line.push(b'0')?;
    }
    Ok(())
}

/// Appends what was used, and ends the line.
pub(crate) fn push_usage(line: &mut Vec<u8>, usage: &Usage) -> Result<(), AllocError>
    ensures { OnOk result (line.new.items ≡ line.old.items ++ (decimal usage.now.count ++ 44 ∷ []
        ++ decimal usage.now.real ++ 44 ∷ [] ++ decimal usage.now.cpu ++ 44 ∷ []
        ++ decimal usage.now.io ++ 44 ∷ [] ++ decimal usage.now.mem_cpu ++ 10 ∷ [])) }
{
    push_number(line, usage.count)?;
    line.push(b',')?;
    push_number(line, usage.real)?;
    line.push(b',')?;
    push_number(line, usage.cpu)?;
    line.push(b',')?;
    push_number(line, usage.io)?;
    line.push(b',')?;
    push_number(line, usage.mem_cpu)?;
    line.push(b'\n')?;
    Ok(())
}

fn push_name(line: &mut Vec<u8>, row: &CommandRow) -> Result<(), AllocError>
    ensures { OnOk result (line.new.items ≡ line.old.items ++ (field_text default_writer (shown row.now.name)
        ++ 44 ∷ [] ++ mark_field row.now.forked ++ 44 ∷ [] ++ mark_field row.now.other ++ 44 ∷ [])) }
{
    push_shown_field(line, &row.name)?;
    line.push(b',')?;
    push_mark(line, row.forked)?;
    line.push(b',')?;
    push_mark(line, row.other)?;
    line.push(b',')?;
    Ok(())
}

fn push_command(line: &mut Vec<u8>, row: &CommandRow) -> Result<(), AllocError>
    ensures { OnOk result (line.new.items ≡ line.old.items ++ row_text default_writer (command_fields row.now)) }
{
    push_name(line, row)?;
    push_usage(line, &row.usage)
}

pub(crate) fn push_uid(line: &mut Vec<u8>, row: &UidRow) -> Result<(), AllocError>
    ensures { OnOk result (line.new.items ≡ line.old.items ++ (decimal row.now.uid ++ 44 ∷ [])) }
{
    push_number(line, row.uid)?;
    line.push(b',')?;
    Ok(())
}

fn push_user(line: &mut Vec<u8>, row: &UidRow) -> Result<(), AllocError>
    ensures { OnOk result (line.new.items ≡ line.old.items ++ row_text default_writer (user_fields row.now)) }
{
    push_uid(line, row)?;
    push_usage(line, &row.usage)
}

/// The names of the columns of usage by command.
#[tactic(auto, unfolding(crate::specs::UsageTable::command_header, csv::specs::Writing::fields_text, csv::specs::Writing::is_blank))]
pub(crate) fn command_header() -> &'static [u8]
    ensures { result.now ≡ row_text default_writer command_header }
{
    b"command,forked,other,calls,real_ticks,cpu_ticks,io,mem_cpu\n"
}

/// The names of the columns of usage by user.
#[tactic(auto, unfolding(crate::specs::UsageTable::user_header, csv::specs::Writing::fields_text, csv::specs::Writing::is_blank))]
pub(crate) fn user_header() -> &'static [u8]
    ensures { result.now ≡ row_text default_writer user_header }
{
    b"uid,calls,real_ticks,cpu_ticks,io,mem_cpu\n"
}

/// The fields of a command.
pub(crate) struct CommandFields;

impl Line<CommandRow> for CommandFields {
    ghost prints = { λ _. ⊤ };

    ghost text = { λ _ row. row_text default_writer (command_fields row) };

    fn push(
        &self,
        page: &mut Vec<u8>,
        _days: &mut PrintedDays,
        row: &CommandRow,
    ) -> Result<(), AllocError> {
        push_command(page, row)
    }
}

impl Fields<CommandRow> for CommandFields {
    ghost fields = { λ _ row. command_fields row };

    ghost line_is = { λ _ _. refl };
}

/// The fields of a user.
pub(crate) struct UserFields;

impl Line<UidRow> for UserFields {
    ghost prints = { λ _. ⊤ };

    ghost text = { λ _ row. row_text default_writer (user_fields row) };

    fn push(
        &self,
        page: &mut Vec<u8>,
        _days: &mut PrintedDays,
        row: &UidRow,
    ) -> Result<(), AllocError> {
        push_user(page, row)
    }
}

impl Fields<UidRow> for UserFields {
    ghost fields = { λ _ row. user_fields row };

    ghost line_is = { λ _ _. refl };
}
