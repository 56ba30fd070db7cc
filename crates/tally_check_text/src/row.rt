//! What is found of files as a table.
ghost use Rattle.std.specs.Prelude.{◌≡◌, ◌++◌, ◌∷◌, [], OnOk, decimal};
ghost use Rattle.csv.specs.Writing.{default_writer, row_text};
ghost use Rattle.tally_check_text.specs.CheckTable as Spec;
ghost use Rattle.tally_check_text.specs.CheckTable.{check_header, check_row};
ghost use Rattle.tally_check_text.specs.inside.LocalTime.{clock_of};
ghost use Rattle.tally_check_text.specs.inside.Rows.{before_last};
ghost use Rattle.tally_print.specs.FileColumns.{columns_of, path_column, path_lent};
ghost use Rattle.tally_print.specs.Tables.{csv_text};
ghost use Rattle.tally_sessions.specs.Days.{IsOffset, local};

use crate::cells::{Cell, place_cell, push_cells, push_counts};
use crate::fields::{push_count, push_text};
use crate::kinds::kind_word;
use crate::local::Local;
use crate::numbers::push_number;
use crate::origin::Origin;
use std::alloc::AllocError;
use tally_check::{Content, Counts, Findings, LoginFindings, ProcFindings, Sessions, Span};
use tally_clock::Clock;
use tally_print::FileColumns;

/// The names of the columns, with that of the path after that of the file where rows have it.
#[tactic(auto, unfolding(crate::specs::CheckTable::check_names, csv::specs::Writing::fields_text, csv::specs::Writing::is_blank))]
fn header(paths: bool) -> &'static [u8]
    ensures { result.now ≡ row_text default_writer (check_header paths) }
{
    if paths {
        b"file,path,kind,size,records,\
              empty,run_lvl,boot_time,new_time,old_time,init_process,login_process,user_process,dead_process,accounting,\
              version_2,version_3,first,first_at,last,last_at,open,open_seconds,crashed,crashed_seconds,\
              zeros,zeros_at_end,first_zeros,unknown,first_unknown,steps_back,greatest_step,rest,doubtful\n"
    } else {
        b"file,kind,size,records,\
              empty,run_lvl,boot_time,new_time,old_time,init_process,login_process,user_process,dead_process,accounting,\
              version_2,version_3,first,first_at,last,last_at,open,open_seconds,crashed,crashed_seconds,\
              zeros,zeros_at_end,first_zeros,unknown,first_unknown,steps_back,greatest_step,rest,doubtful\n"
    }
}

/// Appends the names of the columns of a table of findings to a text, with that of the path after that of the file where rows have
/// it. It errs where memory runs out, and the text is as before then.
pub fn push_header(text: &mut Vec<u8>, paths: bool) -> Result<(), AllocError>
    ensures { OnOk result (text.new.items ≡ text.old.items ++ csv_text (check_header paths ∷ [])) }
{
    text.extend_from_slice(header(paths))
}

/// Appends the path of a file, where rows have it.
fn push_path(text: &mut Vec<u8>, path: Option<&str>) -> Result<(), AllocError>
    ensures { OnOk result (text.new.items ≡ text.old.items ++ before_last (path_column (path_lent path.entry))) }
{
    match path {
        Some(path) => push_text(text, path.as_bytes()),
        None => Ok(()),
    }
}

/// Appends the number of a file, and its path where rows have it.
fn push_file(text: &mut Vec<u8>, file: FileColumns<'_>) -> Result<(), AllocError>
    ensures { OnOk result (text.new.items ≡ text.old.items ++ before_last (columns_of file.entry)) }
{
    push_count(text, u64::from(file.number))?;
    push_path(text, file.path)
}

/// Appends how many records there are of each type.
fn push_login_counts(
    text: &mut Vec<u8>,
    found: &LoginFindings,
    local: &Local<'_>,
) -> Result<(), AllocError>
    ensures { OnOk result (text.new.items ≡ text.old.items ++ before_last (Spec.login_counts found.now)) }
{
    push_cells(text, &[Cell::Count(found.counts.records as u64)], local)?;
    push_counts(text, &found.types)?;
    push_cells(text, &[Cell::Nothing; 2], local)
}

/// Appends how many records there are of each version.
fn push_proc_counts(
    text: &mut Vec<u8>,
    found: &ProcFindings,
    local: &Local<'_>,
) -> Result<(), AllocError>
    ensures { OnOk result (text.new.items ≡ text.old.items ++ before_last (Spec.proc_counts found.now)) }
{
    push_cells(text, &[Cell::Count(found.counts.records as u64)], local)?;
    push_cells(text, &[Cell::Nothing; 10], local)?;
    push_cells(
        text,
        &[
            Cell::Count(found.version_2 as u64),
            Cell::Count(found.version_3 as u64),
        ],
        local,
    )
}

/// Appends the times that records name.
fn push_span(text: &mut Vec<u8>, span: Option<Span>, local: &Local<'_>) -> Result<(), AllocError>
    ensures { OnOk result (text.new.items ≡ text.old.items ++ before_last (Spec.span_fields (clock_of local.now) span)) }
{
    let cells = match span {
        None => [Cell::Nothing; 4],
        Some(span) => [
            Cell::Second(span.first),
            Cell::At(span.first),
            Cell::Second(span.last),
            Cell::At(span.last),
        ],
    };
    push_cells(text, &cells, local)
}

/// Appends the sessions that weigh.
fn push_sessions(
    text: &mut Vec<u8>,
    sessions: Sessions,
    local: &Local<'_>,
) -> Result<(), AllocError>
    ensures { OnOk result (text.new.items ≡ text.old.items ++ before_last (Spec.sessions_fields sessions)) }
{
    push_cells(
        text,
        &[
            Cell::Count(sessions.still_open.count as u64),
            Cell::Count(sessions.still_open.seconds),
            Cell::Count(sessions.crashed.count as u64),
            Cell::Count(sessions.crashed.seconds),
        ],
        local,
    )
}

/// Appends the records that say nothing.
fn push_silent(text: &mut Vec<u8>, counts: &Counts, local: &Local<'_>) -> Result<(), AllocError>
    ensures { OnOk result (text.new.items ≡ text.old.items ++ before_last (Spec.silent_fields counts.now)) }
{
    push_cells(
        text,
        &[
            Cell::Count(counts.zeros.all.count as u64),
            Cell::Count(counts.zeros.at_end as u64),
            place_cell(counts.zeros.all.first),
            Cell::Count(counts.unknown.count as u64),
            place_cell(counts.unknown.first),
        ],
        local,
    )
}

/// Appends what makes login records doubtful.
fn push_login_doubts(
    text: &mut Vec<u8>,
    found: &LoginFindings,
    local: &Local<'_>,
) -> Result<(), AllocError>
    ensures { OnOk result (text.new.items ≡ text.old.items ++ before_last (Spec.login_doubts found.now)) }
{
    push_silent(text, &found.counts, local)?;
    push_cells(
        text,
        &[
            Cell::Count(found.steps.count as u64),
            Cell::Count(found.steps.greatest),
            Cell::Count(found.rest as u64),
        ],
        local,
    )
}

/// Appends what makes process records doubtful.
fn push_proc_doubts(
    text: &mut Vec<u8>,
    found: &ProcFindings,
    local: &Local<'_>,
) -> Result<(), AllocError>
    ensures { OnOk result (text.new.items ≡ text.old.items ++ before_last (Spec.proc_doubts found.now)) }
{
    push_silent(text, &found.counts, local)?;
    push_cells(
        text,
        &[Cell::Nothing, Cell::Nothing, Cell::Count(found.rest as u64)],
        local,
    )
}

fn push_logins(
    text: &mut Vec<u8>,
    found: &LoginFindings,
    local: &Local<'_>,
) -> Result<(), AllocError>
    ensures { OnOk result (text.new.items ≡ text.old.items ++ before_last (Spec.login_fields (clock_of local.now) found.now)) }
{
    push_login_counts(text, found, local)?;
    push_span(text, found.counts.span, local)?;
    push_sessions(text, found.sessions, local)?;
    push_login_doubts(text, found, local)
}

fn push_procs(text: &mut Vec<u8>, found: &ProcFindings, local: &Local<'_>) -> Result<(), AllocError>
    ensures { OnOk result (text.new.items ≡ text.old.items ++ before_last (Spec.proc_fields (clock_of local.now) found.now)) }
{
    push_proc_counts(text, found, local)?;
    push_span(text, found.counts.span, local)?;
    push_cells(text, &[Cell::Nothing; 4], local)?;
    push_proc_doubts(text, found, local)
}

fn push_content(text: &mut Vec<u8>, content: &Content, local: &Local<'_>) -> Result<(), AllocError>
    ensures { OnOk result (text.new.items ≡ text.old.items ++ before_last (Spec.content_fields (clock_of local.now) content.now)) }
{
    match content {
        Content::Logins(found) => push_logins(text, found, local),
        Content::Processes(found) => push_procs(text, found, local),
        Content::Other(_) => push_cells(text, &[Cell::Nothing; 29], local),
    }
}

/// Appends the kind of a file and its size.
fn push_kind(text: &mut Vec<u8>, origin: Origin<'_>, findings: &Findings) -> Result<(), AllocError>
    ensures { OnOk result (text.new.items ≡ text.old.items ++ before_last (Spec.kind_fields origin.entry findings.now)) }
{
    text.extend_from_slice(kind_word(origin, &findings.content))?;
    text.push(b',')?;
    push_count(text, findings.size)
}

/// Appends whether something is doubtful, and ends the line.
fn push_verdict(text: &mut Vec<u8>, findings: &Findings) -> Result<(), AllocError>
    ensures { OnOk result (text.new.items ≡ text.old.items ++ (Spec.doubt_field findings.now.content ++ 10 ∷ [])) }
{
    push_number(text, u64::from(findings.is_doubtful()))?;
    text.push(b'\n')?;
    Ok(())
}

fn push_all(
    text: &mut Vec<u8>,
    file: FileColumns<'_>,
    origin: Origin<'_>,
    findings: &Findings,
    local: &Local<'_>,
) -> Result<(), AllocError>
    ensures { OnOk result (text.new.items
        ≡ text.old.items ++ row_text default_writer (check_row (clock_of local.now) (columns_of file.entry) origin.entry findings.now)) }
{
    push_file(text, file)?;
    push_kind(text, origin, findings)?;
    push_content(text, &findings.content, local)?;
    push_verdict(text, findings)
}

/// Appends the row of a file to a text, with moments by a clock and an offset in minutes east of it. The findings are as those of a
/// section. It errs where memory runs out; a first part of the row may have joined the text then.
pub fn push_row(
    text: &mut Vec<u8>,
    clock: &Clock,
    file: FileColumns<'_>,
    origin: Origin<'_>,
    findings: &Findings,
    offset: i32,
) -> Result<(), AllocError>
    requires { IsOffset offset }
    ensures { OnOk result (text.new.items
        ≡ text.old.items ++ csv_text (check_row (local clock.now offset) (columns_of file.entry) origin.entry findings.now ∷ [])) }
{
    push_all(text, file, origin, findings, &Local { clock, offset })
}
