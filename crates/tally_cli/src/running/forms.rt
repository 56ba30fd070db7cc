//! The two forms of a report: text in sections, and one table in CSV.
ghost use Rattle.std.specs.Prelude.{◌≡◌, ◌≤◌, map};
ghost use Rattle.std.specs.List.{All};
ghost use Rattle.tally_answers.specs.Answers.{HasDays};
ghost use Rattle.tally_line.specs.declared.job.Report.TheVariants as reports;
ghost use Rattle.tally_print.specs.AttemptSections.{attempt_answers};
ghost use Rattle.tally_print.specs.Output.{IsWritable, Prints, failed_calls};
ghost use Rattle.tally_print.specs.Section.{NamesHostBelow, answer_in};
ghost use Rattle.tally_sessions.specs.Days.{IsOffset, local};
ghost use Rattle.tally_sessions.specs.Lent.{entries_in};
ghost use Rattle.tally_cli.specs.Output.{form_text, table_of};

use std::alloc::Global;
use tally_book::Answer;
use tally_clock::Clock;
use tally_line::{Form, Job, Report};
use tally_print::{
    Output, PrintFault, Section, Table, print_all_attempts, print_all_sections,
    print_attempt_table, print_section_table, print_sections, print_table,
};
use tally_records::LoginChoice;
use tally_sessions::{Entries, HOST_LIMIT, Sessions};

/// The table that a report is as CSV, with the seconds in the period where they are asked for.
pub(crate) fn table_of(report: &Report) -> Option<Table>
    ensures { result ≡ table_of report.now }
{
    match report {
        Report::Last { choice, within, .. } => Some(Table::Stays {
            within: if *within { Some(choice.period) } else { None },
        }),
        Report::Attempts { .. } => Some(Table::Attempts),
        Report::AttemptSums { .. } => Some(Table::AttemptSums),
        Report::Connect {
            by_day,
            by_user,
            ..
        } => Some(Table::Connect {
            by_day: *by_day,
            by_user: *by_user,
        }),
        Report::Commands { .. } => Some(Table::Commands),
        Report::Users { .. } => Some(Table::Users),
        Report::All => None,
    }
}

/// Prints the answers to a job's questions in its form, in the time of a clock.
pub(crate) fn print_answers<O: Output>(
    alloc: Global,
    clock: &Clock,
    job: &Job,
    answers: &[Answer],
    out: &mut O,
) -> Result<(), PrintFault>
    requires writable { IsWritable (O.state out.old) }
    requires offset { IsOffset job.now.offset }
    requires days { All HasDays answers.now }
    ensures writes { Prints (O.state out.old) (O.state out.new) result (failed_calls result)
        (form_text job.now.form job.now.report (local clock.now job.now.offset) job.now.until answers.now) }
{
    match (job.form, table_of(&job.report)) {
        (Form::Text, _) => { print_sections(alloc, clock, answers, job.offset, out, job.until) },
        (Form::Csv, Some(table)) => { print_table(alloc, clock, table, answers, job.offset, out) },
        (Form::Csv, None) => Ok(()),
    }
}

/// Prints the sections of a job's report in its form, over sessions and in the time of a clock.
pub(crate) fn print_report<O: Output>(
    alloc: Global,
    clock: &Clock,
    job: &Job,
    sessions: &Sessions,
    sections: &[Section],
    out: &mut O,
) -> Result<(), PrintFault>
    requires writable { IsWritable (O.state out.old) }
    requires offset { IsOffset job.now.offset }
    requires hosts { All (NamesHostBelow sessions.now.hosts) sections.now }
    requires days { All (λ s. HasDays (answer_in sessions.now.entries s)) sections.now }
    ensures writes { Prints (O.state out.old) (O.state out.new) result (failed_calls result)
        (form_text job.now.form job.now.report (local clock.now job.now.offset) job.now.until (map (answer_in sessions.now.entries) sections.now)) }
{
    let offset = job.offset;
    match (job.form, table_of(&job.report)) {
        (Form::Text, _) => print_all_sections(
            alloc, clock, sessions, sections, offset, out, job.until,
        ),
        (Form::Csv, Some(table)) => print_section_table(
            alloc, clock, sessions, table, sections, offset, out,
        ),
        (Form::Csv, None) => Ok(()),
    }
}

/// Prints the latest chosen failed logins of each of so many hosts up to a limit, in a job's form and in the time of a clock. They are found
/// among the entries one by one.
pub(crate) fn print_attempts<O: Output>(
    alloc: Global,
    clock: &Clock,
    job: &Job,
    entries: Entries<'_>,
    hosts: u32,
    limit: Option<u32>,
    choice: &LoginChoice,
    out: &mut O,
) -> Result<(), PrintFault>
    requires writable { IsWritable (O.state out.old) }
    requires offset { IsOffset job.now.offset }
    requires report { job.now.report ≡ reports.Attempts limit choice.now }
    ensures writes { Prints (O.state out.old) (O.state out.new) result (failed_calls result)
        (form_text job.now.form job.now.report (local clock.now job.now.offset) job.now.until (attempt_answers hosts limit choice.now (entries_in entries.entry))) }
{
    let offset = job.offset;
    match job.form {
        Form::Text => print_all_attempts(alloc, clock, entries, hosts, limit, choice, offset, out),
        Form::Csv => print_attempt_table(alloc, clock, entries, hosts, limit, choice, offset, out),
    }
}
