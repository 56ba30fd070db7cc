//! Stays and failed logins as tables with the path of each file.
ghost use Rattle.std.specs.Prelude.{◌≡◌, ◌∷◌, [], All, map};
ghost use Rattle.csv.specs.Writing.{default_writer, row_text};
ghost use Rattle.tally_attempts.specs.Attempts.{latest_attempts};
ghost use Rattle.tally_attempts.specs.declared.attempt.Attempt.{Attempt as AttemptNow};
ghost use Rattle.tally_answers.specs.Answers.{HasDays};
ghost use Rattle.tally_print.specs.AttemptSections.{attempt_answer};
ghost use Rattle.tally_print.specs.Output.{IsWritable, Prints, failed_calls};
ghost use Rattle.tally_print.specs.PathTable.{path_header, path_rows, with_path};
ghost use Rattle.tally_print.specs.Section.{NamesHostBelow, answer_in};
ghost use Rattle.tally_print.specs.Tables.{csv_text};
ghost use Rattle.tally_print.specs.inside.Paths.{stays_in};
ghost use Rattle.tally_sessions.specs.Days.{IsOffset, local};
ghost use Rattle.tally_sessions.specs.Lent.{entries_in};
ghost use Rattle.tally_sessions.specs.declared.entry.Stay.{Stay as StayNow};

use crate::all_attempts::print_host_attempts;
use crate::attempt_table::AttemptFields;
use crate::lines::{Fields, print_fields};
use crate::local::Local;
use crate::part_table::PartFields;
use crate::path_fields::{NumberedFields, PathFields, path_text};
use crate::put::put_all;
use crate::report_table::header;
use crate::section::{print_section_rows, print_stay_rows};
use crate::stay_table::StayFields;
use crate::{Output, PrintFault, Section, Table};
use std::alloc::Global;
use tally_answers::Answer;
use tally_attempts::Attempt;
use tally_clock::Clock;
use tally_records::{LoginChoice, Period};
use tally_sessions::{Entries, Sessions, Stay};

/// The names of the columns of a table, with that of the path where rows have a file.
#[tactic(auto, unfolding(crate::specs::StayTable::part_header, crate::specs::StayTable::stay_header, crate::specs::AttemptTable::attempt_header, csv::specs::Writing::fields_text, csv::specs::Writing::is_blank))]
fn path_header(table: Table) -> &'static [u8]
    ensures { result.now ≡ row_text default_writer (path_header table) }
{
    match table {
        Table::Stays { within: None } => {
            b"file,path,user,line,remote,start,start_at,begin,end,end_time,end_at,seconds\n"
        }
        Table::Stays { within: Some(_) } => {
            b"file,path,user,line,remote,start,start_at,begin,end,end_time,end_at,seconds,within\n"
        }
        Table::Attempts => b"file,path,user,line,remote,time,at\n",
        _ => header(table),
    }
}

/// Prints the names of the columns of a table, with that of the path after that of the file. A table whose rows
/// have no file is as without paths. `Write` is a failure of the output in this call; a first part of the text
/// was written then.
pub fn print_path_header<O: Output>(table: Table, out: &mut O) -> Result<(), PrintFault>
    requires writable { IsWritable (O.state out.old) }
    ensures writes { Prints (O.state out.old) (O.state out.new) result (failed_calls result)
        (csv_text (path_header table ∷ [])) }
{
    put_all(path_header(table), out)
}

/// Prints a row of a table for each row, with the path of its file.
fn print_path_rows<X, F: NumberedFields<X>, O: Output>(
    alloc: Global,
    fields: &F,
    path: &str,
    rows: &[X],
    out: &mut O,
) -> Result<(), PrintFault>
    requires writable { IsWritable (O.state out.old) }
    requires printed { All F.Line.prints rows.now }
    ensures writes { Prints (O.state out.old) (O.state out.new) result (failed_calls result)
        (csv_text (map (with_path path.now) (map (F.fields fields.now) rows.now))) }
{
    let text = path_text(alloc, path)?;
    let fields = PathFields {
        path,
        text: text.as_slice(),
        fields,
    };
    print_fields(alloc, &fields, rows, out)
}

/// Prints a row of a table for each stay of a section.
fn print_section_stays<F: Fields<Stay>, O: Output>(
    alloc: Global,
    fields: &F,
    sessions: &Sessions,
    section: &Section,
    out: &mut O,
) -> Result<(), PrintFault>
    requires writable { IsWritable (O.state out.old) }
    requires host { NamesHostBelow sessions.now.hosts section.now }
    requires printed { (stay : StayNow) → F.Line.prints stay }
    ensures writes { Prints (O.state out.old) (O.state out.new) result (failed_calls result)
        (csv_text (map (F.fields fields.now) (stays_in (answer_in sessions.now.entries section.now)))) }
{
    match section {
        Section::Answered(Answer::Last { rows, .. }) => {
            print_fields(alloc, fields, rows.as_slice(), out)
        }
        Section::Answered(_) => Ok(()),
        Section::Stays {
            host,
            limit,
            choice,
            until,
        } => print_stay_rows(alloc, fields, sessions, *host, *limit, choice, *until, out),
    }
}

/// Prints them with the path of their file.
fn print_path_stays<F: NumberedFields<Stay>, O: Output>(
    alloc: Global,
    fields: &F,
    sessions: &Sessions,
    path: &str,
    section: &Section,
    out: &mut O,
) -> Result<(), PrintFault>
    requires writable { IsWritable (O.state out.old) }
    requires host { NamesHostBelow sessions.now.hosts section.now }
    requires printed { (stay : StayNow) → F.Line.prints stay }
    ensures writes { Prints (O.state out.old) (O.state out.new) result (failed_calls result)
        (csv_text (map (with_path path.now) (map (F.fields fields.now) (stays_in (answer_in sessions.now.entries section.now))))) }
{
    let text = path_text(alloc, path)?;
    let fields = PathFields {
        path,
        text: text.as_slice(),
        fields,
    };
    print_section_stays(alloc, &fields, sessions, section, out)
}

/// Prints the stays of a section with the path of their file, and with their seconds in a period if one is given.
fn print_stays_within<O: Output>(
    alloc: Global,
    clock: &Clock,
    sessions: &Sessions,
    within: Option<Period>,
    path: &str,
    section: &Section,
    offset: i32,
    out: &mut O,
) -> Result<(), PrintFault>
    requires writable { IsWritable (O.state out.old) }
    requires offset { IsOffset offset }
    requires host { NamesHostBelow sessions.now.hosts section.now }
    ensures writes { Prints (O.state out.old) (O.state out.new) result (failed_calls result)
        (csv_text (path_rows (Table.Stays within) (local clock.now offset) path.now (answer_in sessions.now.entries section.now))) }
{
    let local = Local { clock, offset };
    match within {
        None => print_path_stays(alloc, &StayFields { local }, sessions, path, section, out),
        Some(period) => {
            let fields = PartFields { local, period };
            print_path_stays(alloc, &fields, sessions, path, section, out)
        }
    }
}

/// Prints the failed logins of an answer with the path of their file.
fn print_attempts_in<O: Output>(
    alloc: Global,
    clock: &Clock,
    path: &str,
    answer: &Answer,
    offset: i32,
    out: &mut O,
) -> Result<(), PrintFault>
    requires writable { IsWritable (O.state out.old) }
    requires offset { IsOffset offset }
    ensures writes { Prints (O.state out.old) (O.state out.new) result (failed_calls result)
        (csv_text (path_rows Table.Attempts (local clock.now offset) path.now answer.now)) }
{
    match answer {
        Answer::Attempts { rows, .. } => {
            let local = Local { clock, offset };
            print_path_rows(alloc, &AttemptFields { local }, path, rows.as_slice(), out)
        }
        _ => Ok(()),
    }
}

/// Prints the rows of a section on a file, each with the path of the file after its number, over sessions that it
/// does not copy. A table whose rows have no file is as without paths. `Write` is a failure of the output in this
/// call; a first part of the text was written then.
pub fn print_path_section<O: Output>(
    alloc: Global,
    clock: &Clock,
    sessions: &Sessions,
    table: Table,
    path: &str,
    section: &Section,
    offset: i32,
    out: &mut O,
) -> Result<(), PrintFault>
    requires writable { IsWritable (O.state out.old) }
    requires offset { IsOffset offset }
    requires host { NamesHostBelow sessions.now.hosts section.now }
    requires days { HasDays (answer_in sessions.now.entries section.now) }
    ensures writes { Prints (O.state out.old) (O.state out.new) result (failed_calls result)
        (csv_text (path_rows table (local clock.now offset) path.now (answer_in sessions.now.entries section.now))) }
{
    match table {
        Table::Stays { within } => {
            print_stays_within(alloc, clock, sessions, within, path, section, offset, out)
        }
        Table::Attempts => match section {
            Section::Answered(answer) => print_attempts_in(alloc, clock, path, answer, offset, out),
            Section::Stays { .. } => Ok(()),
        },
        _ => print_section_rows(alloc, clock, sessions, table, section, offset, out),
    }
}

/// Prints a row of a table for each of the latest chosen failed logins of a host up to a limit, with the path of its
/// file.
fn print_path_latest<F: NumberedFields<Attempt>, O: Output>(
    alloc: Global,
    fields: &F,
    entries: Entries<'_>,
    host: u32,
    limit: Option<u32>,
    choice: &LoginChoice,
    path: &str,
    out: &mut O,
) -> Result<(), PrintFault>
    requires writable { IsWritable (O.state out.old) }
    requires printed { (attempt : AttemptNow) → F.Line.prints attempt }
    ensures writes { Prints (O.state out.old) (O.state out.new) result (failed_calls result)
        (csv_text (map (with_path path.now) (map (F.fields fields.now) (latest_attempts host limit choice.now (entries_in entries.entry))))) }
{
    let text = path_text(alloc, path)?;
    let fields = PathFields {
        path,
        text: text.as_slice(),
        fields,
    };
    print_host_attempts(alloc, &fields, entries, host, limit, choice, out)
}

/// Prints the latest chosen failed logins of a file, no more than the limit, each with the path of the file after
/// its number. No list is made: each is looked up when its row is printed. `Write` is a failure of the output in
/// this call; a first part of the text was written then.
pub fn print_path_attempts<O: Output>(
    alloc: Global,
    clock: &Clock,
    entries: Entries<'_>,
    host: u32,
    limit: Option<u32>,
    choice: &LoginChoice,
    path: &str,
    offset: i32,
    out: &mut O,
) -> Result<(), PrintFault>
    requires writable { IsWritable (O.state out.old) }
    requires offset_in_range { IsOffset offset }
    ensures writes { Prints (O.state out.old) (O.state out.new) result (failed_calls result)
        (csv_text (path_rows Table.Attempts (local clock.now offset) path.now (attempt_answer limit choice.now (entries_in entries.entry) host))) }
{
    let local = Local { clock, offset };
    print_path_latest(
        alloc,
        &AttemptFields { local },
        entries,
        host,
        limit,
        choice,
        path,
        out,
    )
}
