//! The run of a job over opened files.
ghost use Rattle.std.specs.Prelude.{◌≡◌, ◌≤◌, ℕ, IfErr, if◌then◌else◌, is_ok, length};
ghost use Rattle.std.specs.List.{All};
ghost use Rattle.std.specs.Process.{exit_status};
ghost use Rattle.tally_cli.specs.Runs.{IsNamed, IsReadable};
ghost use Rattle.tally_cli.specs.Usages.{IsNamedFile, IsOfProcs, IsUsage};
ghost use Rattle.tally_line.specs.Jobs.{IsRunnable};

use crate::faults::{run_fault, usage_fault};
use crate::hints::{hint_after, hint_on};
use crate::subject::{run_subject, usage_subject};
use std::hash::RandomState;
use std::io;
use std::process::ExitCode;
use std::rt::{Clock as MachineClock, Files};
use std::sync::Wait;
use std::thread::Threads;
use tally_cli::{
    FileArg, FilesApart, Job, RunFault, Source, UsageFault, UsageWanted, is_usage_run, run,
    run_usage,
};
use tally_clock::Clock;
use tally_desk::{Input, OpenGate};
use tally_print::Writing;
use tally_terminal::{ErrorsTo, Progress, Watched};

/// Says how a count of files ended: nothing, or its fault and a hint on its file.
fn counted<R>(
    rt: &R,
    to: ErrorsTo,
    job: &Job,
    files: &[FileArg],
    done: Result<(), UsageFault>,
    is_reader_gone: bool,
) -> ExitCode
where
    R: Files + Eprint + AllocGlobal,
    R::File: Drop,
    requires { IfErr done (IsNamedFile (length files.now)) }
    ensures { exit_status result ≡ (if is_ok done then 0 else 1) }
{
    match done {
        Ok(()) => ExitCode::SUCCESS,
        Err(found) => {
            let subject = usage_subject(&found);
            let status = usage_fault(rt, to, files, found, is_reader_gone);
            hint_on(rt, to, job, files, subject);
            status
        }
    }
}

/// Says how a run over files ended: a hint where a report on logins read failed ones, or its fault and a hint on its file.
fn read<R>(
    rt: &R,
    to: ErrorsTo,
    job: &Job,
    files: &[FileArg],
    done: Result<(), RunFault>,
    is_reader_gone: bool,
) -> ExitCode
where
    R: Files + Eprint + AllocGlobal,
    R::File: Drop,
    requires { IfErr done (λ found. (callers : ℕ) × IsNamed (length files.now) callers found) }
    ensures { exit_status result ≡ (if is_ok done then 0 else 1) }
{
    match done {
        Ok(()) => {
            hint_after(rt, to, &job.report, files);
            ExitCode::SUCCESS
        }
        Err(found) => {
            let subject = run_subject(&found);
            let status = run_fault(rt, to, files, found, is_reader_gone);
            hint_on(rt, to, job, files, subject);
            status
        }
    }
}

/// Counts the chosen processes of the files, and prints the report on them. It stays apart, so that its stack is not that of
/// other reports.
#[inline(never)]
fn count_files<R, I: Input + Send>(
    rt: &R,
    to: ErrorsTo,
    job: &Job,
    wanted: UsageWanted<'_>,
    keys: RandomState,
    clock: &Clock,
    files: &[FileArg],
    progress: Progress<'_, R>,
    sources: Vec<Source<I>>,
) -> ExitCode
where
    R: Files + Print + Eprint + MachineClock + AllocGlobal + Threads + Sync,
    R::File: Drop,
    requires runnable { IsRunnable job.now }
    requires usage { IsUsage job.now.report }
    requires procs { All IsOfProcs sources.items }
    requires readable { All (IsReadable I.failures) sources.items }
    requires count { length sources.items ≡ length files.now }
    ensures { exit_status result ≤ 1 }
{
    let mut out = Writing::new(Watched::new(io::writer(rt), progress));
    let done = run_usage(rt, rt.alloc(), keys, clock, job, wanted, sources, &mut out);
    out.writer().erase();
    let is_reader_gone = out.writer().is_reader_gone();
    counted(rt, to, job, files, done, is_reader_gone)
}

/// Reads the files into a book, and prints its report. It stays apart, as `count_files` does.
#[inline(never)]
fn read_files<R, I: Input + Send>(
    rt: &R,
    to: ErrorsTo,
    job: &Job,
    apart: FilesApart<'_>,
    keys: RandomState,
    clock: &Clock,
    files: &[FileArg],
    progress: Progress<'_, R>,
    sources: Vec<Source<I>>,
) -> ExitCode
where
    R: Files + Print + Eprint + MachineClock + AllocGlobal + Threads + Wait + Sync,
    R::File: Drop,
    requires runnable { IsRunnable job.now }
    requires readable { All (IsReadable I.failures) sources.items }
    requires count { length sources.items ≡ length files.now }
    ensures { exit_status result ≤ 1 }
{
    let mut out = Writing::new(Watched::new(io::writer(rt), progress));
    let alloc = rt.alloc();
    let done = run(
        rt, alloc, keys, clock, job, apart, sources, &OpenGate, &mut out,
    );
    out.writer().erase();
    let is_reader_gone = out.writer().is_reader_gone();
    read(rt, to, job, files, done, is_reader_gone)
}

/// Runs the job over the files. For a report on processes alone the chosen are counted, and no record is kept.
pub(crate) fn run_over<R, I: Input + Send>(
    rt: &R,
    to: ErrorsTo,
    job: &Job,
    wanted: UsageWanted<'_>,
    keys: RandomState,
    clock: &Clock,
    files: &[FileArg],
    progress: Progress<'_, R>,
    sources: Vec<Source<I>>,
) -> ExitCode
where
    R: Files + Print + Eprint + MachineClock + AllocGlobal + Threads + Wait + Sync,
    R::File: Drop,
    requires runnable { IsRunnable job.now }
    requires readable { All (IsReadable I.failures) sources.items }
    requires count { length sources.items ≡ length files.now }
    ensures { exit_status result ≤ 1 }
{
    if is_usage_run(job, sources.as_slice()) {
        count_files(rt, to, job, wanted, keys, clock, files, progress, sources)
    } else {
        let apart = wanted.apart;
        read_files(rt, to, job, apart, keys, clock, files, progress, sources)
    }
}
