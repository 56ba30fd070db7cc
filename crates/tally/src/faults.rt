//! Fault lines on standard error, and the statuses. Where standard error fails, the status
//! still shows it.
ghost use Rattle.std.specs.Prelude.{◌≡◌, ℕ, length};
ghost use Rattle.std.specs.Process.{exit_status};
ghost use Rattle.tally.specs.Faults.{is_other_login};
ghost use Rattle.tally.specs.Statuses.{zone_status};
ghost use Rattle.tally_cli.specs.Runs.{IsNamed};
ghost use Rattle.tally_cli.specs.Usages.{IsNamedFile};

use std::fmt::Display;
use std::process::ExitCode;
use tally_cli::{FileArg, RunFault, UsageFault};
use tally_desk::FeedFault;
use tally_line::TimesFault;
use tally_records::{Memory, RecordFault};
use tally_terminal::{ErrorsTo, Shown};
use tally_wtmpdb::DatabaseFault;
use tally_zones::{ZoneFault, hint_on};

/// The status of a fault.
pub(crate) const FAULT: u8 = 1;

/// The status of a command line that is refused.
pub(crate) const REFUSED: u8 = 2;

/// Prints a fault of the whole run.
pub(crate) fn fault<R: Eprint, F: Display + Drop>(rt: &R, status: u8, found: F) -> ExitCode
    ensures { exit_status result ≡ status }
{
    let _ = eprintln!(rt; "tally: {found}");
    ExitCode::from(status)
}

/// Prints a fault of a file.
pub(crate) fn file_fault<R: Eprint, F: Display + Drop>(
    rt: &R,
    status: u8,
    path: Shown<'_>,
    found: F,
) -> ExitCode
    ensures { exit_status result ≡ status }
{
    let _ = eprintln!(rt; "tally: {path}: {found}");
    ExitCode::from(status)
}

/// Prints that a file could not be opened.
pub(crate) fn not_opened<R: Eprint>(rt: &R, path: Shown<'_>) -> ExitCode
    ensures { exit_status result ≡ 1 }
{
    file_fault(rt, FAULT, path, "cannot be opened")
}

/// Prints why a database gives no login records. It stays apart, so that a run needs no stack for it.
#[inline(never)]
pub(crate) fn database_fault<R: Eprint>(rt: &R, path: Shown<'_>, found: DatabaseFault) -> ExitCode
    ensures { exit_status result ≡ 1 }
{
    match found {
        DatabaseFault::Memory => fault(rt, FAULT, Memory),
        found => file_fault(rt, FAULT, path, found),
    }
}

/// Prints why a word names no zone.
pub(crate) fn zone_fault<R: Eprint>(rt: &R, to: ErrorsTo, word: &str, found: ZoneFault) -> ExitCode
    ensures { exit_status result ≡ zone_status found }
{
    let shown = Shown::new(word, to);
    match found {
        ZoneFault::Memory => fault(rt, FAULT, Memory),
        ZoneFault::NotFound => file_fault(rt, FAULT, shown, "no such zone"),
        ZoneFault::NoZone => file_fault(rt, FAULT, shown, "no time zone file"),
        ZoneFault::Mistaken => file_fault(rt, REFUSED, shown, hint_on(word)),
    }
}

/// Prints why moments are refused, as it is printed of a refused command line.
pub(crate) fn times_fault<R: Eprint>(rt: &R, found: TimesFault) -> ExitCode
    ensures { exit_status result ≡ 2 }
{
    let _ = eprint!(rt; "{found}");
    ExitCode::from(REFUSED)
}

/// Prints the text of a refused command line.
pub(crate) fn usage<R: Eprint>(rt: &R, text: &str) -> ExitCode
    ensures { exit_status result ≡ 2 }
{
    let _ = rt.eprint(text);
    ExitCode::from(REFUSED)
}

/// Whether a file has a record of a type that no failed login has.
fn is_other_login(found: &FeedFault) -> bool
    ensures { result ≡ is_other_login found.now }
{
    match found {
        FeedFault::Bad {
            fault: RecordFault::OtherLogin(_),
            ..
        } => true,
        _ => false,
    }
}

/// Prints why a file was not read to its end.
fn read_fault<R: Eprint>(rt: &R, path: Shown<'_>, found: FeedFault) -> ExitCode
    ensures { exit_status result ≡ 1 }
{
    if is_other_login(&found) {
        return file_fault(rt, FAULT, path, "no file of failed logins");
    }
    file_fault(rt, FAULT, path, found)
}

/// Prints why a run over these files gave no whole output. A file is named by its path. Where
/// whoever read the output has gone, nothing is said of it.
pub(crate) fn run_fault<R: Eprint>(
    rt: &R,
    to: ErrorsTo,
    files: &[FileArg],
    found: RunFault,
    is_reader_gone: bool,
) -> ExitCode
    requires { (callers : ℕ) × IsNamed (length files.now) callers found }
    ensures { exit_status result ≡ 1 }
{
    match found {
        RunFault::File { host, fault } => {
            let path = Shown::new(files[host as usize].path.as_str(), to);
            read_fault(rt, path, fault)
        }
        RunFault::Write if is_reader_gone => ExitCode::from(FAULT),
        found => fault(rt, FAULT, found),
    }
}

/// Prints why a count of these files gave no whole output, as `run_fault` does.
pub(crate) fn usage_fault<R: Eprint>(
    rt: &R,
    to: ErrorsTo,
    files: &[FileArg],
    found: UsageFault,
    is_reader_gone: bool,
) -> ExitCode
    requires { IsNamedFile (length files.now) found }
    ensures { exit_status result ≡ 1 }
{
    match found {
        UsageFault::File { host, fault } => {
            let path = Shown::new(files[host as usize].path.as_str(), to);
            file_fault(rt, FAULT, path, fault)
        }
        UsageFault::Full { host } => {
            let path = Shown::new(files[host as usize].path.as_str(), to);
            file_fault(rt, FAULT, path, UsageFault::Full { host })
        }
        UsageFault::Write if is_reader_gone => ExitCode::from(FAULT),
        found => fault(rt, FAULT, found),
    }
}
