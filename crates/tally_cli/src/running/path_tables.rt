//! A report as a table with the paths of files.
ghost use Rattle.std.specs.Prelude.{◌≡◌, ◌<◌, ◌≤◌, IfErr, length, map};
ghost use Rattle.std.specs.List.{All, enumerate_from, flat_map};
ghost use Rattle.tally_answers.specs.Answers.{HasDays};
ghost use Rattle.tally_cli.specs.Apart.{apart_of, path_csv_of};
ghost use Rattle.tally_cli.specs.Output.{answers_of, table_of};
ghost use Rattle.tally_cli.specs.Runs.{failed_writes};
ghost use Rattle.tally_cli.specs.inside.Paths.{section_text};
ghost use Rattle.tally_cli.specs.Reading.{most_calls};
ghost use Rattle.tally_cli.specs.inside.RunSteps.{IsPrintFault};
ghost use Rattle.tally_line.specs.Jobs.{IsRunnable};
ghost use Rattle.tally_print.specs.AttemptSections.{attempt_answers};
ghost use Rattle.tally_print.specs.Output.{IsWritable, Prints, failed_calls};
ghost use Rattle.tally_print.specs.PathTable.{path_table_text};
ghost use Rattle.tally_print.specs.Section.{NamesHostBelow, answer_in};
ghost use Rattle.tally_print.specs.declared.report_table.Table.TheVariants as tables;
ghost use Rattle.tally_sessions.specs.Days.{IsOffset, local};
ghost use Rattle.tally_sessions.specs.Lent.{entries_in};

use crate::fault::RunFault;
use crate::running::apart::FilesApart;
use crate::running::forms::table_of;
use crate::running::reporting::sections_of;
use std::alloc::Global;
use std::thread::Threads;
use tally_book::Book;
use tally_clock::Clock;
use tally_line::Job;
use tally_print::{
    Output, PrintFault, Section, Table, print_path_attempts, print_path_header, print_path_section,
};
use tally_records::{Kind, LoginChoice};
use tally_sessions::{Entries, HOST_LIMIT, Sessions};

/// Prints the rows of sections, of which each is of the file at its place.
fn print_rows<O: Output>(
    alloc: Global,
    clock: &Clock,
    job: &Job,
    apart: FilesApart<'_>,
    table: Table,
    sessions: &Sessions,
    sections: &[Section],
    out: &mut O,
) -> Result<(), PrintFault>
    requires writable { IsWritable (O.state out.old) }
    requires offset { IsOffset job.now.offset }
    requires hosts { All (NamesHostBelow sessions.now.hosts) sections.now }
    requires days { All (λ s. HasDays (answer_in sessions.now.entries s)) sections.now }
    ensures writes { Prints (O.state out.old) (O.state out.new) result (failed_calls result)
        (flat_map (section_text table (local clock.now job.now.offset) (apart_of apart.entry).files sessions.now.entries) (enumerate_from 0 sections.now)) }
{
    for file in 0..sections.len() {
        let path = apart.path(file);
        let section = &sections[file];
        print_path_section(
            alloc, clock, sessions, table, path, section, job.offset, out,
        )?;
    }
    Ok(())
}

/// Prints the sections of a job's report as a table with the paths of files, over sessions and in the time of a clock. Each section is of
/// the file at its place.
fn print_path_table<O: Output>(
    alloc: Global,
    clock: &Clock,
    job: &Job,
    apart: FilesApart<'_>,
    sessions: &Sessions,
    sections: &[Section],
    out: &mut O,
) -> Result<(), PrintFault>
    requires writable { IsWritable (O.state out.old) }
    requires offset { IsOffset job.now.offset }
    requires hosts { All (NamesHostBelow sessions.now.hosts) sections.now }
    requires days { All (λ s. HasDays (answer_in sessions.now.entries s)) sections.now }
    ensures writes { Prints (O.state out.old) (O.state out.new) result (failed_calls result)
        (path_csv_of (table_of job.now.report) (local clock.now job.now.offset) (apart_of apart.entry).files (map (answer_in sessions.now.entries) sections.now)) }
{
    let Some(table) = table_of(&job.report) else {
        return Ok(());
    };
    print_path_header(table, out)?;
    print_rows(alloc, clock, job, apart, table, sessions, sections, out)
}

/// Prints the sections with the paths of files over the sessions that they are of, and lets both go.
fn print_paths_and_drop<O: Output>(
    alloc: Global,
    clock: &Clock,
    job: &Job,
    apart: FilesApart<'_>,
    sessions: Sessions,
    sections: Vec<Section>,
    out: &mut O,
) -> Result<(), PrintFault>
    requires writable { IsWritable (O.state out.old) }
    requires offset { IsOffset job.now.offset }
    requires hosts { All (NamesHostBelow sessions.hosts) sections.items }
    requires days { All (λ s. HasDays (answer_in sessions.entries s)) sections.items }
    ensures writes { Prints (O.state out.old) (O.state out.new) result (failed_calls result)
        (path_csv_of (table_of job.now.report) (local clock.now job.now.offset) (apart_of apart.entry).files (map (answer_in sessions.entries) sections.items)) }
{
    print_path_table(
        alloc,
        clock,
        job,
        apart,
        &sessions,
        sections.as_slice(),
        out,
    )
}

/// Prints the job's report of the book, of which each file is a host, as a table with the paths of files.
pub(crate) fn print_paths_of<R: Threads + Sync, O: Output>(
    rt: &R,
    alloc: Global,
    clock: &Clock,
    job: &Job,
    apart: FilesApart<'_>,
    kinds: &[Kind],
    book: Book,
    out: &mut O,
) -> Result<(), RunFault>
    requires runnable { IsRunnable job.now }
    requires hosts { length kinds.now ≤ book.callers }
    requires few { book.callers ≤ HOST_LIMIT }
    requires some { 0 < book.callers }
    requires calls { length book.calls ≤ most_calls }
    requires clock { book.clock ≡ clock.now }
    requires writable { IsWritable (O.state out.old) }
    ensures writes { Prints (O.state out.old) (O.state out.new) result (failed_writes result)
        (path_csv_of (table_of job.now.report) (local clock.now job.now.offset) (apart_of apart.entry).files (answers_of clock.now job.now kinds.now book.logins book.procs)) }
    ensures cause { IfErr result IsPrintFault }
{
    let (sections, sessions) = sections_of(rt, alloc, job, kinds, book)?;
    print_paths_and_drop(alloc, clock, job, apart, sessions, sections, out)?;
    Ok(())
}

/// Prints the latest chosen failed logins of each of so many hosts up to a limit as a table with the paths of files, in the time of a clock.
/// Each host is the file at its place. They are found among the entries one by one.
pub(crate) fn print_attempt_paths<O: Output>(
    alloc: Global,
    clock: &Clock,
    job: &Job,
    apart: FilesApart<'_>,
    entries: Entries<'_>,
    hosts: u32,
    limit: Option<u32>,
    choice: &LoginChoice,
    out: &mut O,
) -> Result<(), PrintFault>
    requires writable { IsWritable (O.state out.old) }
    requires offset { IsOffset job.now.offset }
    ensures writes { Prints (O.state out.old) (O.state out.new) result (failed_calls result)
        (path_table_text tables.Attempts (local clock.now job.now.offset) (apart_of apart.entry).files (attempt_answers hosts limit choice.now (entries_in entries.entry))) }
{
    print_path_header(Table::Attempts, out)?;
    for host in 0..hosts {
        let path = apart.path(host as usize);
        print_path_attempts(
            alloc, clock, entries, host, limit, choice, path, job.offset, out,
        )?;
    }
    Ok(())
}
