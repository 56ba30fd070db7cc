ghost use Rattle.std.specs.Prelude.{◌≡◌, ◌++◌, All, IfSome, None, OnOk};
ghost use Rattle.tally_answers.specs.Answers.{HasDay};
ghost use Rattle.tally_sessions.specs.Days.{IsDay};
ghost use Rattle.tally_print.specs.Output.{IsWritable, Prints, failed_calls};
ghost use Rattle.tally_print.specs.Text.{left};
ghost use Rattle.tally_print.specs.ConnectText.{day_column, user_column, connect_line, connect_text};

use crate::date::push_date;
use crate::lines::{Line, put_lines};
use crate::printed_day::PrintedDays;
use crate::put::{new_page, put_all};
use crate::text::{push_left, push_left_shown, push_right_hours};
use crate::{Output, PrintFault};
use std::alloc::{AllocError, Global};
use tally_answers::ConnectRow;
use tally_records::Name;

fn push_day(line: &mut Vec<u8>, day: Option<i32>) -> Result<(), AllocError>
    requires { IfSome day IsDay }
    ensures { OnOk result (line.new.items ≡ line.old.items ++ day_column day) }
{
    if let Some(day) = day {
        push_date(line, day)?;
        line.push(b' ')?;
    }
    Ok(())
}

fn push_user(line: &mut Vec<u8>, user: &Option<Name>) -> Result<(), AllocError>
    ensures { OnOk result (line.new.items ≡ line.old.items ++ left (user_column user.now) 20) }
{
    match user {
        Some(user) => push_left_shown(line, user, 20),
        None => push_left(line, b"total", 20),
    }
}

#[tactic(auto, unfolding(crate::specs::ConnectText::connect_line))]
fn push_row(line: &mut Vec<u8>, row: &ConnectRow) -> Result<(), AllocError>
    requires { HasDay row.now }
    ensures { OnOk result (line.new.items ≡ line.old.items ++ connect_line row.now) }
{
    push_day(line, row.day)?;
    push_user(line, &row.user)?;
    line.push(b' ')?;
    push_right_hours(line, row.seconds, 12)?;
    line.push(b'\n')?;
    Ok(())
}

/// The row of the total.
pub(crate) fn total_row(total: u64) -> ConnectRow
    ensures { result ≡ record { day = None; user = None; seconds = total } }
{
    ConnectRow {
        day: None,
        user: None,
        seconds: total,
    }
}

/// The line of a connect time.
struct ConnectLine;

impl Line<ConnectRow> for ConnectLine {
    ghost prints = { HasDay };

    ghost text = { λ _ row. connect_line row };

    fn push(
        &self,
        page: &mut Vec<u8>,
        _days: &mut PrintedDays,
        row: &ConnectRow,
    ) -> Result<(), AllocError> {
        push_row(page, row)
    }
}

/// Prints connect times as ac(1) does: a line for each row, then the total, in hours. `Write`
/// is a failure of the output in this call; a first part of the text was written then.
pub fn print_connect<O: Output>(
    alloc: Global,
    rows: &[ConnectRow],
    total: u64,
    out: &mut O,
) -> Result<(), PrintFault>
    requires writable { IsWritable (O.state out.old) }
    requires days { All HasDay rows.now }
    ensures writes { Prints (O.state out.old) (O.state out.new) result (failed_calls result)
        (connect_text rows.now total) }
{
    let mut page = new_page(alloc)?;
    put_lines(&mut page, &ConnectLine, rows, out)?;
    push_row(&mut page, &total_row(total))?;
    put_all(page.as_slice(), out)
}
