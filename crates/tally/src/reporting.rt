//! The way to a report: its files, its clock and its names, and then the run.
ghost use Rattle.std.specs.Prelude.{◌≤◌};
ghost use Rattle.std.specs.Process.{exit_status};
ghost use Rattle.tally_line.specs.Jobs.{IsRunnable, TakesUntil};

use crate::asked::{Asked, choice_for, clock_for, files_apart, job_for, names_for};
use crate::defaults::default_files;
use crate::faults::{FAULT, database_fault, fault, not_opened};
use crate::hints::hinted_not_opened;
use crate::opened::{Opener, ROOT, hold_closed_streams};
use crate::opening::{OpenFault, open_all};
use crate::room::records_of;
use crate::running::run_over;
use std::hash::RandomState;
use std::os::fd::AsRawFd;
use std::process::ExitCode;
use std::random::RandomSource;
use std::rt::{Clock as MachineClock, Files};
use std::sync::Wait;
use std::thread::Threads;
use tally_cli::{FileArg, Job, UsageWanted};
use tally_clock::Clock;
use tally_records::Memory;
use tally_terminal::{ErrorsTo, Progress, Shown};

/// Opens all files, and then reads them and prints the report in the time of a clock.
fn report_on<'a, R>(
    rt: &'a R,
    to: ErrorsTo,
    job: &Job,
    wanted: UsageWanted<'_>,
    keys: RandomState,
    clock: &Clock,
    files: &'a [FileArg],
) -> ExitCode
where
    R: Files + Input + Print + Eprint + MachineClock + AllocGlobal + Threads + Wait + Sync,
    R::File: Drop + Send,
    R::Reader: Send,
    requires { IsRunnable job.now }
    ensures { exit_status result ≤ 1 }
{
    let progress = Progress::new(rt, to);
    let most = records_of(job);
    let sources = match open_all(&Opener { rt, most }, rt.alloc(), &progress, files) {
        Ok(sources) => sources,
        Err(OpenFault::Memory) => return fault(rt, FAULT, Memory),
        Err(OpenFault::NotOpened(path)) => return hinted_not_opened(rt, to, path),
        Err(OpenFault::Database(path, found)) => {
            return database_fault(rt, Shown::new(path, to), found);
        }
    };
    run_over(rt, to, job, wanted, keys, clock, files, progress, sources)
}

/// Settles the choice of processes on a clock and reads the names of users, and then reports.
fn report_wanted<R>(
    rt: &R,
    to: ErrorsTo,
    asked: Asked<'_>,
    job: &Job,
    keys: RandomState,
    clock: &Clock,
) -> ExitCode
where
    R: Files + Input + Print + Eprint + MachineClock + AllocGlobal + Threads + Wait + Sync,
    R::File: Drop + Send,
    R::Reader: Send,
    requires { IsRunnable job.now }
    ensures { exit_status result ≤ 2 }
{
    let choice = match choice_for(rt, asked, clock) {
        Ok(choice) => choice,
        Err(status) => return status,
    };
    match names_for(rt, to, asked.usage.names.as_ref()) {
        Ok(names) => {
            let wanted = UsageWanted {
                choice,
                names: names.as_ref(),
                apart: files_apart(asked),
            };
            report_on(rt, to, job, wanted, keys, clock, asked.files)
        }
        Err(status) => status,
    }
}

/// Draws the keys, reads the zone and settles the job on its clock, and then reports. It stays apart, so that help needs no stack for it.
#[inline(never)]
fn report<R>(rt: &R, to: ErrorsTo, asked: Asked<'_>) -> ExitCode
where
    R: Files
        + Input
        + Print
        + Eprint
        + MachineClock
        + AllocGlobal
        + RandomSource
        + Threads
        + Wait
        + Sync,
    R::File: Drop + Send,
    R::Reader: Send,
    requires runnable { IsRunnable asked.job.now }
    requires until { TakesUntil asked.job.now.report asked.times.now.until }
    ensures { exit_status result ≤ 2 }
{
    let keys = match RandomState::new(rt) {
        Ok(keys) => keys,
        Err(_) => return fault(rt, FAULT, "no random bytes"),
    };
    let clock = match clock_for(rt, to, asked.zone) {
        Ok(clock) => clock,
        Err(status) => return status,
    };
    match job_for(rt, asked, &clock) {
        Ok(job) => report_wanted(rt, to, asked, &job, keys, &clock),
        Err(status) => status,
    }
}

/// Reports on the files of the command line, and where it names none on the one that the report's peer reads.
fn report_files<R>(rt: &R, to: ErrorsTo, asked: Asked<'_>) -> ExitCode
where
    R: Files
        + Input
        + Print
        + Eprint
        + MachineClock
        + AllocGlobal
        + RandomSource
        + Threads
        + Wait
        + Sync,
    R::File: Drop + Send,
    R::Reader: Send,
    requires runnable { IsRunnable asked.job.now }
    requires until { TakesUntil asked.job.now.report asked.times.now.until }
    ensures { exit_status result ≤ 2 }
{
    if !asked.files.is_empty() {
        return report(rt, to, asked);
    }
    match default_files(rt, &asked.job.report) {
        Ok(files) => {
            let files = files.as_slice();
            report(rt, to, Asked { files, ..asked })
        }
        Err(found) => fault(rt, FAULT, found),
    }
}

/// Reports with the closed standard streams held, so that no file takes the place of one.
pub(crate) fn hold_and_report<R>(rt: &R, to: ErrorsTo, asked: Asked<'_>) -> ExitCode
where
    R: Files
        + Input
        + Print
        + Eprint
        + MachineClock
        + AllocGlobal
        + RandomSource
        + Threads
        + Wait
        + Sync,
    R::File: AsRawFd + Drop + Send,
    R::Reader: Send,
    requires runnable { IsRunnable asked.job.now }
    requires until { TakesUntil asked.job.now.report asked.times.now.until }
    ensures { exit_status result ≤ 2 }
{
    match hold_closed_streams(rt) {
        Ok(_held) => report_files(rt, to, asked),
        Err(_) => not_opened(rt, Shown::new(ROOT, to)),
    }
}
