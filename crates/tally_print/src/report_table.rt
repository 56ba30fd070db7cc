//! A report as one table.
ghost use Rattle.std.specs.Prelude.{◌≡◌, All};
ghost use Rattle.csv.specs.Writing.{default_writer, row_text};
ghost use Rattle.tally_answers.specs.Answers.{HasDays};
ghost use Rattle.tally_sessions.specs.Days.{IsOffset, local};
ghost use Rattle.tally_print.specs.Output.{IsWritable, Prints, failed_calls};
ghost use Rattle.tally_print.specs.ReportTable.{answer_rows, header, table_text};
ghost use Rattle.tally_print.specs.Tables.{csv_text};

use crate::attempt_table::{AttemptFields, AttemptSumFields, attempt_header, attempt_sum_header};
use crate::connect::total_row;
use crate::connect_table::{ConnectFields, connect_header};
use crate::lines::print_fields;
use crate::local::Local;
use crate::part_table::{PartFields, part_header};
use crate::put::put_all;
use crate::stay_table::{StayFields, stay_header};
use crate::usage_table::{CommandFields, UserFields, command_header, user_header};
use crate::{Output, PrintFault};
use std::alloc::Global;
use tally_answers::Answer;
use tally_clock::Clock;
use tally_records::Period;

/// Which table a report is as CSV: this says its columns.
#[derive(Clone, Copy, Debug, PartialEq, Eq)]
pub enum Table {
    /// A row for each stay, of all answers, and in it the seconds that a period has of the stay, if one is given.
    Stays { within: Option<Period> },
    /// A row for each failed login, of all answers.
    Attempts,
    /// A row for each user and remote host of failed logins.
    AttemptSums,
    /// Connect times by day, by user, by both, or the total alone.
    Connect { by_day: bool, by_user: bool },
    /// A row for each command.
    Commands,
    /// A row for each user.
    Users,
}

pub(crate) fn header(table: Table) -> &'static [u8]
    ensures { result.now ≡ row_text default_writer (header table) }
{
    match table {
        Table::Stays { within: None } => stay_header(),
        Table::Stays { within: Some(_) } => part_header(),
        Table::Attempts => attempt_header(),
        Table::AttemptSums => attempt_sum_header(),
        Table::Connect { by_day, by_user } => connect_header(by_day, by_user),
        Table::Commands => command_header(),
        Table::Users => user_header(),
    }
}

/// Prints the rows of an answer.
pub(crate) fn print_answer_rows<O: Output>(
    alloc: Global,
    clock: &Clock,
    table: Table,
    answer: &Answer,
    offset: i32,
    out: &mut O,
) -> Result<(), PrintFault>
    requires writable { IsWritable (O.state out.old) }
    requires offset { IsOffset offset }
    requires days { HasDays answer.now }
    ensures writes { Prints (O.state out.old) (O.state out.new) result (failed_calls result)
        (csv_text (answer_rows table (local clock.now offset) answer.now)) }
{
    match (table, answer) {
        (Table::Stays { within }, Answer::Last { rows, .. }) => {
            let local = Local { clock, offset };
            match within {
                None => print_fields(alloc, &StayFields { local }, rows.as_slice(), out),
                Some(period) => {
                    print_fields(alloc, &PartFields { local, period }, rows.as_slice(), out)
                }
            }
        }
        (Table::Attempts, Answer::Attempts { rows, .. }) => {
            let local = Local { clock, offset };
            print_fields(alloc, &AttemptFields { local }, rows.as_slice(), out)
        }
        (Table::AttemptSums, Answer::AttemptSums { rows }) => {
            print_fields(alloc, &AttemptSumFields, rows.as_slice(), out)
        }
        (Table::Connect { by_day, by_user }, Answer::Connect { rows, total }) => {
            let fields = ConnectFields { by_day, by_user };
            if by_day || by_user {
                print_fields(alloc, &fields, rows.as_slice(), out)
            } else {
                print_fields(alloc, &fields, &[total_row(*total)], out)
            }
        }
        (Table::Commands, Answer::Commands { rows, .. }) => {
            print_fields(alloc, &CommandFields, rows.as_slice(), out)
        }
        (Table::Users, Answer::Users { rows, .. }) => {
            print_fields(alloc, &UserFields, rows.as_slice(), out)
        }
        _ => Ok(()),
    }
}

/// Prints the answers of a report as one table in CSV: the header, and then a row for each row of
/// each answer, moments by a clock with an offset in minutes east of it. A moment has the offset
/// that held at that second, its seconds cut off. `Write` is a failure of the output in this call; a
/// first part of the text was written then.
pub fn print_table<O: Output>(
    alloc: Global,
    clock: &Clock,
    table: Table,
    answers: &[Answer],
    offset: i32,
    out: &mut O,
) -> Result<(), PrintFault>
    requires writable { IsWritable (O.state out.old) }
    requires offset { IsOffset offset }
    requires days { All HasDays answers.now }
    ensures writes { Prints (O.state out.old) (O.state out.new) result (failed_calls result)
        (table_text table (local clock.now offset) answers.now) }
{
    put_all(header(table), out)?;
    for answer in answers {
        print_answer_rows(alloc, clock, table, answer, offset, out)?;
    }
    Ok(())
}
