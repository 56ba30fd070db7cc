//! Sections of an output, of which those of stays hold no list.
ghost use Rattle.std.specs.Prelude.{◌≡◌, ◌<◌, All, map};
ghost use Rattle.tally_answers.specs.Answers.{HasDays};
ghost use Rattle.tally_print.specs.AnswerText.{answer_text};
ghost use Rattle.tally_print.specs.Output.{IsWritable, Prints, failed_calls};
ghost use Rattle.tally_print.specs.ReportTable.{answer_rows, table_text};
ghost use Rattle.tally_print.specs.Section.{NamesHostBelow, answer_in};
ghost use Rattle.tally_print.specs.Sections.{sections_text};
ghost use Rattle.tally_print.specs.Tables.{csv_text};
ghost use Rattle.tally_sessions.specs.Days.{IsOffset, local};
ghost use Rattle.tally_sessions.specs.Totals.{latest_stays};
ghost use Rattle.tally_sessions.specs.declared.entry.Stay.{Stay as Row};

use crate::last::print_stays;
use crate::lines::Fields;
use crate::local::Local;
use crate::part_table::PartFields;
use crate::put::{new_page, put_all};
use crate::report_table::{header, print_answer_rows};
use crate::stay_table::StayFields;
use crate::stays::put_stays;
use crate::{Output, PrintFault, Table, print_answer};
use std::alloc::Global;
use tally_answers::Answer;
use tally_clock::Clock;
use tally_records::LoginChoice;
use tally_sessions::{Sessions, Stay};

/// A section of an output.
#[derive(Drop)]
pub enum Section {
    /// What an answer says.
    Answered(Answer),
    /// The latest chosen stays of a host up to a limit, as the question for them has these.
    Stays {
        host: u32,
        limit: Option<u32>,
        choice: LoginChoice,
        until: Option<i32>,
    },
}

/// Prints a section as its kind of report.
fn print_section<O: Output>(
    alloc: Global,
    clock: &Clock,
    sessions: &Sessions,
    section: &Section,
    offset: i32,
    out: &mut O,
    until: Option<i32>,
) -> Result<(), PrintFault>
    requires writable { IsWritable (O.state out.old) }
    requires offset { IsOffset offset }
    requires host { NamesHostBelow sessions.now.hosts section.now }
    requires days { HasDays (answer_in sessions.now.entries section.now) }
    ensures writes { Prints (O.state out.old) (O.state out.new) result (failed_calls result)
        (answer_text (answer_in sessions.now.entries section.now) (local clock.now offset) until) }
{
    match section {
        Section::Answered(answer) => print_answer(alloc, clock, answer, offset, out, until),
        Section::Stays {
            host,
            limit,
            choice,
            until: counted,
        } => print_stays(
            alloc, clock, sessions, *host, *limit, choice, *counted, offset, out, until,
        ),
    }
}

/// Prints the sections as `print_sections` does the answers that they stand for, over sessions that it does not copy.
/// `Write` is a failure of the output in this call; a first part of the text was written then.
pub fn print_all_sections<O: Output>(
    alloc: Global,
    clock: &Clock,
    sessions: &Sessions,
    sections: &[Section],
    offset: i32,
    out: &mut O,
    until: Option<i32>,
) -> Result<(), PrintFault>
    requires writable { IsWritable (O.state out.old) }
    requires offset { IsOffset offset }
    requires hosts { All (NamesHostBelow sessions.now.hosts) sections.now }
    requires days { All (λ s. HasDays (answer_in sessions.now.entries s)) sections.now }
    ensures writes { Prints (O.state out.old) (O.state out.new) result (failed_calls result)
        (sections_text (map (answer_in sessions.now.entries) sections.now) (local clock.now offset) until) }
{
    let Some((first, others)) = sections.split_first() else {
        return Ok(());
    };
    print_section(alloc, clock, sessions, first, offset, out, until)?;
    for section in others {
        put_all(b"\n", out)?;
        print_section(alloc, clock, sessions, section, offset, out, until)?;
    }
    Ok(())
}

/// Prints a row of a table for each of the latest chosen stays of a host up to a limit.
pub(crate) fn print_stay_rows<F: Fields<Stay>, O: Output>(
    alloc: Global,
    fields: &F,
    sessions: &Sessions,
    host: u32,
    limit: Option<u32>,
    choice: &LoginChoice,
    until: Option<i32>,
    out: &mut O,
) -> Result<(), PrintFault>
    requires writable { IsWritable (O.state out.old) }
    requires host { host < sessions.now.hosts }
    requires printed { (stay : Row) → F.Line.prints stay }
    ensures writes { Prints (O.state out.old) (O.state out.new) result (failed_calls result)
        (csv_text (map (F.fields fields.now) (latest_stays host limit choice.now sessions.now.entries until))) }
{
    let mut page = new_page(alloc)?;
    put_stays(&mut page, fields, sessions, host, limit, choice, until, out)?;
    put_all(page.as_slice(), out)
}

/// Prints the rows of a section.
pub(crate) fn print_section_rows<O: Output>(
    alloc: Global,
    clock: &Clock,
    sessions: &Sessions,
    table: Table,
    section: &Section,
    offset: i32,
    out: &mut O,
) -> Result<(), PrintFault>
    requires writable { IsWritable (O.state out.old) }
    requires offset { IsOffset offset }
    requires host { NamesHostBelow sessions.now.hosts section.now }
    requires days { HasDays (answer_in sessions.now.entries section.now) }
    ensures writes { Prints (O.state out.old) (O.state out.new) result (failed_calls result)
        (csv_text (answer_rows table (local clock.now offset) (answer_in sessions.now.entries section.now))) }
{
    match (table, section) {
        (_, Section::Answered(answer)) => {
            print_answer_rows(alloc, clock, table, answer, offset, out)
        }
        (
            Table::Stays { within },
            Section::Stays {
                host,
                limit,
                choice,
                until,
            },
        ) => {
            let local = Local { clock, offset };
            match within {
                None => {
                    let fields = StayFields { local };
                    print_stay_rows(alloc, &fields, sessions, *host, *limit, choice, *until, out)
                }
                Some(period) => {
                    let fields = PartFields { local, period };
                    print_stay_rows(alloc, &fields, sessions, *host, *limit, choice, *until, out)
                }
            }
        }
        _ => Ok(()),
    }
}

/// Prints the sections as `print_table` does the answers that they stand for, over sessions that it does not copy. `Write`
/// is a failure of the output in this call; a first part of the text was written then.
pub fn print_section_table<O: Output>(
    alloc: Global,
    clock: &Clock,
    sessions: &Sessions,
    table: Table,
    sections: &[Section],
    offset: i32,
    out: &mut O,
) -> Result<(), PrintFault>
    requires writable { IsWritable (O.state out.old) }
    requires offset { IsOffset offset }
    requires hosts { All (NamesHostBelow sessions.now.hosts) sections.now }
    requires days { All (λ s. HasDays (answer_in sessions.now.entries s)) sections.now }
    ensures writes { Prints (O.state out.old) (O.state out.new) result (failed_calls result)
        (table_text table (local clock.now offset) (map (answer_in sessions.now.entries) sections.now)) }
{
    put_all(header(table), out)?;
    for section in sections {
        print_section_rows(alloc, clock, sessions, table, section, offset, out)?;
    }
    Ok(())
}
