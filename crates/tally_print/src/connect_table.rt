//! Connect times as CSV.
ghost use Rattle.std.specs.Prelude.{◌≡◌, ◌++◌, IfSome, OnOk, refl};
ghost use Rattle.csv.specs.Writing.{default_writer, row_text};
ghost use Rattle.tally_answers.specs.Answers.{HasDay};
ghost use Rattle.tally_sessions.specs.Days.{IsDay};
ghost use Rattle.tally_print.specs.ConnectTable.{connect_fields, connect_header, day_field, user_field};
ghost use Rattle.tally_print.specs.Tables.{asked};
ghost use Rattle.tally_print.specs.inside.Tables.{before_last};

use crate::fields::{push_date_field, push_seconds, push_shown_field};
use crate::lines::{Fields, Line};
use crate::printed_day::PrintedDays;
use std::alloc::AllocError;
use tally_answers::ConnectRow;
use tally_records::Name;

fn push_day(line: &mut Vec<u8>, by_day: bool, day: Option<i32>) -> Result<(), AllocError>
    requires { IfSome day IsDay }
    ensures { OnOk result (line.new.items ≡ line.old.items ++ before_last (asked by_day (day_field day))) }
{
    if !by_day {
        return Ok(());
    }
    if let Some(day) = day {
        push_date_field(line, day)?;
    }
    line.push(b',')?;
    Ok(())
}

fn push_user(line: &mut Vec<u8>, by_user: bool, user: &Option<Name>) -> Result<(), AllocError>
    ensures { OnOk result (line.new.items ≡ line.old.items ++ before_last (asked by_user (user_field user.now))) }
{
    if !by_user {
        return Ok(());
    }
    if let Some(user) = user {
        push_shown_field(line, user)?;
    }
    line.push(b',')?;
    Ok(())
}

fn push_row(
    line: &mut Vec<u8>,
    by_day: bool,
    by_user: bool,
    row: &ConnectRow,
) -> Result<(), AllocError>
    requires { HasDay row.now }
    ensures { OnOk result (line.new.items ≡ line.old.items ++ row_text default_writer (connect_fields by_day by_user row.now)) }
{
    push_day(line, by_day, row.day)?;
    push_user(line, by_user, &row.user)?;
    push_seconds(line, row.seconds)
}

/// The fields of a connect time that are asked for.
#[derive(Drop)]
pub(crate) struct ConnectFields {
    pub(crate) by_day: bool,
    pub(crate) by_user: bool,
}

impl Line<ConnectRow> for ConnectFields {
    ghost prints = { HasDay };

    ghost text = { λ asked row. row_text default_writer (connect_fields asked.by_day asked.by_user row) };

    fn push(
        &self,
        page: &mut Vec<u8>,
        _days: &mut PrintedDays,
        row: &ConnectRow,
    ) -> Result<(), AllocError> {
        push_row(page, self.by_day, self.by_user, row)
    }
}

impl Fields<ConnectRow> for ConnectFields {
    ghost fields = { λ asked row. connect_fields asked.by_day asked.by_user row };

    ghost line_is = { λ _ _. refl };
}

/// The names of the columns that are asked for.
#[tactic(auto, unfolding(crate::specs::ConnectTable::connect_header, csv::specs::Writing::fields_text, csv::specs::Writing::is_blank))]
pub(crate) fn connect_header(by_day: bool, by_user: bool) -> &'static [u8]
    ensures { result.now ≡ row_text default_writer (connect_header by_day by_user) }
{
    match (by_day, by_user) {
        (true, true) => b"day,user,seconds\n",
        (true, false) => b"day,seconds\n",
        (false, true) => b"user,seconds\n",
        (false, false) => b"seconds\n",
    }
}
