//! Connect time by file: that of each file alone, and then that of all.
ghost use Rattle.std.specs.Prelude.{◌≡◌, ◌++◌, ◌<◌, ◌≤◌, None, IfErr, IfOk, length, map, true};
ghost use Rattle.std.specs.List.{All, flat_map, range_with_len};
ghost use Rattle.tally_answers.specs.Answers.{HasDays};
ghost use Rattle.tally_cli.specs.Apart.{apart_of, by_file_text, file_table, files_head, files_tail, is_by_file};
ghost use Rattle.tally_cli.specs.Output.{report_text};
ghost use Rattle.tally_cli.specs.Runs.{failed_writes};
ghost use Rattle.tally_cli.specs.inside.Parts.{HasPart, part_alone, part_text};
ghost use Rattle.tally_cli.specs.Reading.{most_calls};
ghost use Rattle.tally_cli.specs.inside.RunSteps.{IsPrintFault};
ghost use Rattle.tally_line.specs.Jobs.{IsRunnable};
ghost use Rattle.tally_line.specs.declared.job.Report.TheVariants as reports;
ghost use Rattle.tally_print.specs.Output.{IsWritable, Prints, failed_calls};
ghost use Rattle.tally_sessions.specs.Days.{IsOffset};

use crate::fault::RunFault;
use crate::running::apart::FilesApart;
use crate::running::forms::print_answers;
use crate::running::parts::{FilePart, file_table, print_parts};
use crate::running::reporting::answers_in;
use std::alloc::Global;
use std::thread::Threads;
use tally_book::Book;
use tally_clock::Clock;
use tally_line::{Form, Job, Report};
use tally_print::{Output, PrintFault, print_file_header};
use tally_records::{Kind, LoginChoice, Memory};
use tally_sessions::HOST_LIMIT;

/// The part of a file: its connect time alone, of a book of which each file is a host.
fn part_of(
    alloc: Global,
    job: &Job,
    by_day: bool,
    by_user: bool,
    choice: &LoginChoice,
    file: u32,
    book: &Book,
) -> Result<FilePart, Memory>
    requires offset { IsOffset job.now.offset }
    ensures value { IfOk result (λ part. part ≡ part_alone book.now.clock by_day by_user choice.now job.now book.now.logins file) }
    ensures days { IfOk result (λ part. HasDays part.answer) }
{
    let answer = book.connect_of_host(alloc, file, by_day, by_user, job.offset, choice, job.until)?;
    Ok(FilePart { file, answer })
}

/// The parts of so many files, in their order.
fn parts_of(
    alloc: Global,
    job: &Job,
    by_day: bool,
    by_user: bool,
    choice: &LoginChoice,
    files: usize,
    book: &Book,
) -> Result<Vec<FilePart>, Memory>
    requires offset { IsOffset job.now.offset }
    requires few { files ≤ HOST_LIMIT }
    ensures value { IfOk result (λ parts. parts.items ≡ map (part_alone book.now.clock by_day by_user choice.now job.now book.now.logins) (range_with_len 0 files)) }
    ensures parts { IfOk result (λ parts. All HasPart parts.items) }
{
    let mut parts = Vec::with_capacity(alloc, files)?;
    for file in 0..files {
        let part = part_of(alloc, job, by_day, by_user, choice, file as u32, book)?;
        parts.push_reserved(part);
    }
    Ok(parts)
}

/// Prints the parts of files, and in a table the names of its columns above them.
fn print_files<O: Output>(
    alloc: Global,
    clock: &Clock,
    job: &Job,
    apart: FilesApart<'_>,
    parts: &[FilePart],
    out: &mut O,
) -> Result<(), PrintFault>
    requires writable { IsWritable (O.state out.old) }
    requires offset { IsOffset job.now.offset }
    requires parts { All HasPart parts.now }
    ensures writes { Prints (O.state out.old) (O.state out.new) result (failed_calls result)
        (files_head job.now.form (apart_of apart.entry).paths (file_table job.now.report None)
        ++ flat_map (part_text clock.now job.now None (apart_of apart.entry)) parts.now) }
{
    match job.form {
        Form::Text => print_parts(alloc, clock, job, None, apart, parts, out),
        Form::Csv => {
            print_file_header(file_table(&job.report, None), apart.asked.paths, out)?;
            print_parts(alloc, clock, job, None, apart, parts, out)
        }
    }
}

/// Prints the report on all files in text: a table has none.
fn print_all<R: Threads + Sync, O: Output>(
    rt: &R,
    alloc: Global,
    clock: &Clock,
    job: &Job,
    kinds: &[Kind],
    book: &mut Book,
    out: &mut O,
) -> Result<(), RunFault>
    requires runnable { IsRunnable job.now }
    requires hosts { length kinds.now ≤ book.old.callers }
    requires few { book.old.callers ≤ HOST_LIMIT }
    requires some { 0 < book.old.callers }
    requires calls { length book.old.calls ≤ most_calls }
    requires clock { book.old.clock ≡ clock.now }
    requires writable { IsWritable (O.state out.old) }
    ensures writes { Prints (O.state out.old) (O.state out.new) result (failed_writes result)
        (files_tail job.now.form (report_text clock.now job.now kinds.now book.old.logins book.old.procs)) }
    ensures cause { IfErr result IsPrintFault }
{
    if job.form == Form::Csv {
        return Ok(());
    }
    let answers = answers_in(rt, alloc, job, kinds, book)?;
    print_answers(alloc, clock, job, answers.as_slice(), out)?;
    Ok(())
}

/// Prints a report of connect time by file, of a book of which each file is a host, in the time of the book's clock.
fn print_by_file<R: Threads + Sync, O: Output>(
    rt: &R,
    alloc: Global,
    clock: &Clock,
    job: &Job,
    by_day: bool,
    by_user: bool,
    choice: &LoginChoice,
    apart: FilesApart<'_>,
    kinds: &[Kind],
    book: &mut Book,
    out: &mut O,
) -> Result<(), RunFault>
    requires runnable { IsRunnable job.now }
    requires report { job.now.report ≡ reports.Connect by_day by_user choice.now }
    requires hosts { length kinds.now ≤ book.old.callers }
    requires few { book.old.callers ≤ HOST_LIMIT }
    requires some { 0 < book.old.callers }
    requires calls { length book.old.calls ≤ most_calls }
    requires clock { book.old.clock ≡ clock.now }
    requires writable { IsWritable (O.state out.old) }
    ensures writes { Prints (O.state out.old) (O.state out.new) result (failed_writes result)
        (by_file_text clock.now (apart_of apart.entry) job.now kinds.now book.old.logins book.old.procs) }
    ensures cause { IfErr result IsPrintFault }
{
    let parts = parts_of(alloc, job, by_day, by_user, choice, kinds.len(), book)?;
    print_files(alloc, clock, job, apart, parts.as_slice(), out)?;
    print_all(rt, alloc, clock, job, kinds, book, out)
}

/// The same, and lets the book go.
pub(crate) fn print_files_of<R: Threads + Sync, O: Output>(
    rt: &R,
    alloc: Global,
    clock: &Clock,
    job: &Job,
    apart: FilesApart<'_>,
    kinds: &[Kind],
    mut book: Book,
    out: &mut O,
) -> Result<(), RunFault>
    requires runnable { IsRunnable job.now }
    requires by_file { is_by_file (apart_of apart) job.now.report ≡ true }
    requires hosts { length kinds.now ≤ book.callers }
    requires few { book.callers ≤ HOST_LIMIT }
    requires some { 0 < book.callers }
    requires calls { length book.calls ≤ most_calls }
    requires clock { book.clock ≡ clock.now }
    requires writable { IsWritable (O.state out.old) }
    ensures writes { Prints (O.state out.old) (O.state out.new) result (failed_writes result)
        (by_file_text clock.now (apart_of apart.entry) job.now kinds.now book.logins book.procs) }
    ensures cause { IfErr result IsPrintFault }
{
    match &job.report {
        Report::Connect {
            by_day,
            by_user,
            choice,
        } => print_by_file(
            rt, alloc, clock, job, *by_day, *by_user, choice, apart, kinds, &mut book, out,
        ),
        _ => unreachable!(),
    }
}
