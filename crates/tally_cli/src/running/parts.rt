//! A report by file: each file's part of it.
ghost use Rattle.std.specs.Prelude.{◌≡◌, ◌++◌, ◌∷◌, ◌<◌, [], IfSome, OnOk, codes};
ghost use Rattle.std.specs.List.{All, flat_map};
ghost use Rattle.tally_answers.specs.Answers.{HasDays};
ghost use Rattle.tally_cli.specs.Apart.{answers_text, apart_of, columns_at, file_rows, file_table, names_given};
ghost use Rattle.tally_cli.specs.Usages.{IsUsage};
ghost use Rattle.tally_cli.specs.inside.Parts.{HasPart, IsWithPart, part_text, report_lent};
ghost use Rattle.tally_print.specs.FileColumns.{columns_of};
ghost use Rattle.tally_print.specs.FileUsage.{path_line};
ghost use Rattle.tally_print.specs.Output.{IsWritable, Prints, failed_calls};
ghost use Rattle.tally_print.specs.Tables.{csv_text};
ghost use Rattle.tally_sessions.specs.Days.{IsOffset};

use crate::running::apart::FilesApart;
use crate::running::counting::ProcCount;
use crate::running::files::Count;
use crate::running::naming::print_usage;
use crate::running::usage::answer_of_sums;
use std::alloc::Global;
use tally_book::Answer;
use tally_clock::Clock;
use tally_line::{Form, Job, Report};
use tally_print::{
    FileColumns, FileTable, Output, PrintFault, print_empty_line, print_file_commands,
    print_file_connect, print_file_named_users, print_file_users, print_path_line,
};
use tally_records::Memory;
use tally_usage::UserNames;

/// A file, counted from 0, and the answer to the report on it alone.
#[derive(Drop)]
pub(crate) struct FilePart {
    pub(crate) file: u32,
    pub(crate) answer: Answer,
}

/// Adds the part of a file whose count has sums, where parts are wanted for a report.
pub(crate) fn add_part(
    alloc: Global,
    wanted: Option<&Report>,
    file: u32,
    count: &ProcCount,
    parts: &mut Vec<FilePart>,
) -> Result<(), Memory>
    requires usage { IfSome wanted (λ report. IsUsage report.now) }
    ensures { OnOk result (IsWithPart (report_lent wanted.entry) file count.now parts.old.items parts.new.items) }
{
    match (wanted, count) {
        (Some(report), Count::Sums(sums)) => {
            let answer = answer_of_sums(alloc, report, sums)?;
            match parts.push(FilePart { file, answer }) {
                Ok(()) => Ok(()),
                Err(_) => Err(Memory),
            }
        }
        (Some(_), Count::Untried) | (Some(_), Count::Fault(_)) | (None, _) => Ok(()),
    }
}

/// The table of a report by file.
pub(crate) fn file_table(report: &Report, names: Option<&UserNames>) -> FileTable
    ensures { result ≡ file_table report.now (names_given names.entry) }
{
    match (report, names) {
        (Report::Users { .. }, Some(_)) => FileTable::NamedUsers,
        (Report::Users { .. }, None) => FileTable::Users,
        (
            Report::Connect {
                by_day,
                by_user,
                ..
            },
            _,
        ) => FileTable::Connect {
            by_day: *by_day,
            by_user: *by_user,
        },
        (Report::Last { .. }, _)
        | (Report::Attempts { .. }, _)
        | (Report::AttemptSums { .. }, _)
        | (Report::Commands { .. }, _)
        | (Report::All, _) => FileTable::Commands,
    }
}

/// The columns of a file in a table: its number from 1, and its path, where paths are asked for.
fn columns_at(apart: FilesApart<'_>, file: u32) -> FileColumns<'_>
    requires { file < 128 }
    ensures { columns_of result ≡ columns_at (apart_of apart.entry) file }
{
    FileColumns {
        number: file + 1,
        path: if apart.asked.paths {
            Some(apart.path(file as usize))
        } else {
            None
        },
    }
}

/// Prints the rows of a file, where the answer to a report on it alone is given.
fn print_rows<O: Output>(
    alloc: Global,
    report: &Report,
    names: Option<&UserNames>,
    file: FileColumns<'_>,
    answer: &Answer,
    out: &mut O,
) -> Result<(), PrintFault>
    requires writable { IsWritable (O.state out.old) }
    requires days { HasDays answer.now }
    ensures writes { Prints (O.state out.old) (O.state out.new) result (failed_calls result)
        (csv_text (file_rows (answer.now ∷ []) report.now (names_given names.entry) (columns_of file.entry))) }
{
    match (answer, names, report) {
        (Answer::Commands { rows, .. }, _, _) => {
            print_file_commands(alloc, file, rows.as_slice(), out)
        }
        (Answer::Users { rows, .. }, None, _) => {
            print_file_users(alloc, file, rows.as_slice(), out)
        }
        (Answer::Users { rows, .. }, Some(names), _) => {
            print_file_named_users(alloc, file, names, rows.as_slice(), out)
        }
        (
            Answer::Connect { rows, total },
            _,
            Report::Connect {
                by_day,
                by_user,
                ..
            },
        ) => print_file_connect(alloc, file, *by_day, *by_user, rows.as_slice(), *total, out),
        _ => Ok(()),
    }
}

/// Prints the report on a file below its path, and an empty line.
fn print_section<O: Output>(
    alloc: Global,
    clock: &Clock,
    job: &Job,
    names: Option<&UserNames>,
    path: &str,
    answer: &Answer,
    out: &mut O,
) -> Result<(), PrintFault>
    requires writable { IsWritable (O.state out.old) }
    requires offset { IsOffset job.now.offset }
    requires days { HasDays answer.now }
    ensures writes { Prints (O.state out.old) (O.state out.new) result (failed_calls result)
        (path_line path.now ++ (answers_text clock.now job.now (names_given names.entry) (answer.now ∷ []) ++ codes "\n")) }
{
    print_path_line(alloc, path, out)?;
    print_usage(alloc, clock, job, names, answer, out)?;
    print_empty_line(out)
}

/// Prints the part of a file in the job's form.
fn print_part<O: Output>(
    alloc: Global,
    clock: &Clock,
    job: &Job,
    names: Option<&UserNames>,
    apart: FilesApart<'_>,
    part: &FilePart,
    out: &mut O,
) -> Result<(), PrintFault>
    requires writable { IsWritable (O.state out.old) }
    requires offset { IsOffset job.now.offset }
    requires part { HasPart part.now }
    ensures writes { Prints (O.state out.old) (O.state out.new) result (failed_calls result)
        (part_text clock.now job.now (names_given names.entry) (apart_of apart.entry) part.now) }
{
    match job.form {
        Form::Text => {
            let path = apart.path(part.file as usize);
            print_section(alloc, clock, job, names, path, &part.answer, out)
        }
        Form::Csv => {
            let file = columns_at(apart, part.file);
            print_rows(alloc, &job.report, names, file, &part.answer, out)
        }
    }
}

/// Prints the parts of files in their order.
pub(crate) fn print_parts<O: Output>(
    alloc: Global,
    clock: &Clock,
    job: &Job,
    names: Option<&UserNames>,
    apart: FilesApart<'_>,
    parts: &[FilePart],
    out: &mut O,
) -> Result<(), PrintFault>
    requires writable { IsWritable (O.state out.old) }
    requires offset { IsOffset job.now.offset }
    requires parts { All HasPart parts.now }
    ensures writes { Prints (O.state out.old) (O.state out.new) result (failed_calls result)
        (flat_map (part_text clock.now job.now (names_given names.entry) (apart_of apart.entry)) parts.now) }
{
    for part in parts {
        print_part(alloc, clock, job, names, apart, part, out)?;
    }
    Ok(())
}
