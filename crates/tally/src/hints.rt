//! Hints on a terminal, after a fault line or a report.
ghost use Rattle.std.specs.Prelude.{◌≡◌};
ghost use Rattle.std.specs.Process.{exit_status};

use crate::faults::not_opened;
use crate::looking::{about_unread, looks_of};
use crate::room::wider_room;
use crate::subject::{Cause, Subject};
use std::process::ExitCode;
use std::rt::Files;
use tally_cli::{FileArg, Job, Report};
use tally_kinds::Looks;
use tally_terminal::{About, ErrorsTo, FileHint, Shown, about_looks};

/// Prints a hint on a file, where there is one.
fn hint<R: Eprint>(rt: &R, path: Shown<'_>, about: Option<About>) {
    if let Some(about) = about {
        let shown = FileHint::new(path, about);
        let _ = eprintln!(rt; "hint: {shown}");
    }
}

/// What is said of a file that a report did not read to its end.
fn about_file<R: Files + AllocGlobal>(
    rt: &R,
    report: &Report,
    file: &FileArg,
    cause: Cause,
) -> Option<About>
where
    R::File: Drop,
{
    let path = file.path.as_str();
    match cause {
        Cause::Content => about_looks(report, file.kind, looks_of(rt, path)?),
        Cause::Reading => about_unread(rt, path),
        Cause::Room => None,
    }
}

/// Prints a hint on a file that was not read to its end: on what it looks like, or on the room for its records.
fn hint_cause<R: Files + Eprint + AllocGlobal>(
    rt: &R,
    to: ErrorsTo,
    job: &Job,
    files: &[FileArg],
    file: &FileArg,
    cause: Cause,
)
where
    R::File: Drop,
{
    if let Cause::Room = cause {
        if let Some(wider) = wider_room(rt, job.millions, file.kind, files) {
            let _ = eprintln!(rt; "hint: {wider}");
        }
    }
    let about = about_file(rt, &job.report, file, cause);
    hint(rt, Shown::new(file.path.as_str(), to), about);
}

/// Prints a hint on the file of a fault, where there is one. It stays apart, so that a run needs no stack for it.
#[inline(never)]
pub(crate) fn hint_on<R: Files + Eprint + AllocGlobal>(
    rt: &R,
    to: ErrorsTo,
    job: &Job,
    files: &[FileArg],
    subject: Option<Subject>,
)
where
    R::File: Drop,
{
    let (ErrorsTo::Terminal, Some(subject)) = (to, subject) else {
        return;
    };
    if let Some(file) = files.get(subject.host as usize) {
        hint_cause(rt, to, job, files, file, subject.cause);
    }
}

/// Prints that a file could not be opened, and on a terminal why, where the system says it.
pub(crate) fn hinted_not_opened<R: Files + Eprint>(rt: &R, to: ErrorsTo, path: &str) -> ExitCode
where
    R::File: Drop,
    ensures { exit_status result ≡ 1 }
{
    let status = not_opened(rt, Shown::new(path, to));
    hint_unread(rt, to, path);
    status
}

/// Prints on a terminal why a file could not be read, where the system says it.
pub(crate) fn hint_unread<R: Files + Eprint>(rt: &R, to: ErrorsTo, path: &str)
where
    R::File: Drop,
{
    if let ErrorsTo::Terminal = to {
        hint(rt, Shown::new(path, to), about_unread(rt, path));
    }
}

/// Prints a hint on a file that was read as one of logins, where it seems to have failed logins.
fn hint_failed_logins<R: Files + Eprint + AllocGlobal>(
    rt: &R,
    to: ErrorsTo,
    report: &Report,
    file: &FileArg,
)
where
    R::File: Drop,
{
    let path = file.path.as_str();
    if let Some(Looks::FailedLogins) = looks_of(rt, path) {
        let about = about_looks(report, file.kind, Looks::FailedLogins);
        hint(rt, Shown::new(path, to), about);
    }
}

/// Prints on a terminal, after a report on logins, a hint on each file that seems to have failed logins.
#[inline(never)]
pub(crate) fn hint_after<R: Files + Eprint + AllocGlobal>(
    rt: &R,
    to: ErrorsTo,
    report: &Report,
    files: &[FileArg],
)
where
    R::File: Drop,
{
    let (ErrorsTo::Terminal, Report::Last { .. } | Report::Connect { .. }) = (to, report) else {
        return;
    };
    for file in files {
        hint_failed_logins(rt, to, report, file);
    }
}
