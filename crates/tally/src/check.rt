//! The check of files before a report of them is believed.
ghost use Rattle.std.specs.Prelude.{◌≡◌, ◌≤◌, if◌then◌else◌};
ghost use Rattle.std.specs.Process.{exit_status};
ghost use Rattle.tally_sessions.specs.Days.{IsOffset};

use crate::asked::clock_for;
use crate::checked::Checker;
use crate::checking::{NotChecked, check_all};
use crate::faults::{FAULT, fault, file_fault, not_opened};
use crate::hints::{hint_unread, hinted_not_opened};
use crate::opened::{ROOT, hold_closed_streams};
use std::hash::RandomState;
use std::io;
use std::os::fd::AsRawFd;
use std::process::ExitCode;
use std::random::RandomSource;
use std::rt::{Clock as MachineClock, Files};
use tally_check::CheckFault;
use tally_check_text::print_text;
use tally_cli::RunFault;
use tally_line::Check;
use tally_print::Writing;
use tally_records::Memory;
use tally_terminal::{ErrorsTo, Progress, Shown, Watched};

/// The status where something is doubtful.
const DOUBTFUL: u8 = 3;

/// Prints why a file was not checked.
fn not_checked<R: Files + Eprint>(rt: &R, to: ErrorsTo, found: NotChecked<'_>) -> ExitCode
where
    R::File: Drop,
    ensures { exit_status result ≡ 1 }
{
    match found {
        NotChecked::Memory => fault(rt, FAULT, Memory),
        NotChecked::NotOpened(path) => hinted_not_opened(rt, to, path),
        NotChecked::Fault(path, CheckFault::Read) => {
            let status = file_fault(rt, FAULT, Shown::new(path, to), CheckFault::Read);
            hint_unread(rt, to, path);
            status
        }
        NotChecked::Fault(path, found) => file_fault(rt, FAULT, Shown::new(path, to), found),
    }
}

/// The status of a check whose findings were printed.
fn status_of(is_doubtful: bool) -> ExitCode
    ensures { exit_status result ≡ (if is_doubtful then 3 else 0) }
{
    if is_doubtful {
        ExitCode::from(DOUBTFUL)
    } else {
        ExitCode::SUCCESS
    }
}

/// Prints what was found. Where whoever read the output has gone, nothing is said of it.
fn print_found<R>(rt: &R, progress: Progress<'_, R>, text: &[u8], is_doubtful: bool) -> ExitCode
where
    R: Print + Eprint + MachineClock,
    ensures { exit_status result ≤ 3 }
{
    let mut out = Writing::new(Watched::new(io::writer(rt), progress));
    match print_text(text, &mut out) {
        Ok(()) => status_of(is_doubtful),
        Err(_) if out.writer().is_reader_gone() => ExitCode::from(FAULT),
        Err(_) => fault(rt, FAULT, RunFault::Write),
    }
}

/// Checks the files, and prints what is found once all are read. It stays apart, so that help needs no stack for it.
#[inline(never)]
fn check_files<R>(rt: &R, to: ErrorsTo, asked: &Check) -> ExitCode
where
    R: Files + Input + Print + Eprint + MachineClock + AllocGlobal + RandomSource,
    R::File: Drop,
    R::Reader: Drop,
    requires { IsOffset asked.now.offset }
    ensures { exit_status result ≤ 3 }
{
    let keys = match RandomState::new(rt) {
        Ok(keys) => keys,
        Err(_) => return fault(rt, FAULT, "no random bytes"),
    };
    let clock = match clock_for(rt, to, asked.zone.as_ref()) {
        Ok(clock) => clock,
        Err(status) => return status,
    };
    let progress = Progress::new(rt, to);
    let mut text = Vec::new(rt.alloc());
    let checker = Checker {
        rt,
        progress: &progress,
        keys,
    };
    match check_all(&mut text, &checker, asked, &clock) {
        Ok(is_doubtful) => print_found(rt, progress, text.as_slice(), is_doubtful),
        Err(found) => {
            progress.erase();
            not_checked(rt, to, found)
        }
    }
}

/// Checks with the closed standard streams held, so that no file takes the place of one.
pub(crate) fn hold_and_check<R>(rt: &R, to: ErrorsTo, asked: &Check) -> ExitCode
where
    R: Files + Input + Print + Eprint + MachineClock + AllocGlobal + RandomSource,
    R::File: AsRawFd + Drop,
    R::Reader: Drop,
    requires { IsOffset asked.now.offset }
    ensures { exit_status result ≤ 3 }
{
    match hold_closed_streams(rt) {
        Ok(_held) => check_files(rt, to, asked),
        Err(_) => not_opened(rt, Shown::new(ROOT, to)),
    }
}
