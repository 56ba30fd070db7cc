//! The program over a runtime.
ghost use Rattle.std.specs.Prelude.{◌≤◌};
ghost use Rattle.std.specs.Process.{exit_status};
ghost use Rattle.tally.specs.Statuses.{IsRefusal};
ghost use Rattle.tally_line.specs.Jobs.{IsRunnable, TakesUntil};

use crate::asked::Asked;
use crate::check::hold_and_check;
use crate::faults::{FAULT, REFUSED, fault, file_fault, times_fault, usage};
use crate::now::now_for;
use crate::reporting::hold_and_report;
use crate::words::{WordsFault, words};
use std::io;
use std::os::fd::AsRawFd;
use std::process::ExitCode;
use std::random::RandomSource;
use std::rt::{Clock as MachineClock, Env, Files};
use std::sync::Wait;
use std::thread::Threads;
use tally_cli::{FileArg, FilesAsked, Job, Line, LineFault, RunFault, file_word, job_of};
use tally_line::{Times, UsageAsked, known_fault};
use tally_records::Memory;
use tally_terminal::{ErrorsTo, Shown, printable};

/// Runs the program, and says how it went.
pub(crate) fn tally<R>(rt: &R, to: ErrorsTo) -> ExitCode
where
    R: Env
        + Files
        + Input
        + Print
        + Eprint
        + MachineClock
        + AllocGlobal
        + RandomSource
        + Threads
        + Wait
        + Sync,
    R::File: AsRawFd + Drop + Send,
    R::Reader: Send,
    ensures { exit_status result ≤ 3 }
{
    let words = match words(rt) {
        Ok(words) => words,
        Err(WordsFault::Memory) => return fault(rt, FAULT, Memory),
        Err(WordsFault::NoText) => return fault(rt, REFUSED, "a word is no UTF-8 text"),
    };
    match job_of(rt.alloc(), words.as_slice()) {
        Ok(
            Line::Run {
                job,
                times,
                usage,
                apart,
                zone,
                files,
            },
        ) => report_at(
            rt,
            to,
            &job,
            &times,
            &usage,
            apart,
            zone.as_ref(),
            files.as_slice(),
        ),
        Ok(Line::Check(asked)) => hold_and_check(rt, to, &asked),
        Ok(Line::Help { text }) => help(rt, text.as_str()),
        Err(LineFault::Memory) => fault(rt, FAULT, Memory),
        Err(LineFault::Usage { text }) => refused(rt, to, words.as_slice(), text.as_str()),
        Err(LineFault::Prefix { index }) => no_prefix(rt, to, words.as_slice(), index),
    }
}

fn help<R: Print + Eprint>(rt: &R, text: &str) -> ExitCode
    ensures { exit_status result ≤ 1 }
{
    match rt.print(text) {
        Ok(()) => ExitCode::SUCCESS,
        Err(error) if error.kind() == io::ErrorKind::BrokenPipe => ExitCode::from(FAULT),
        Err(_) => fault(rt, FAULT, RunFault::Write),
    }
}

/// Prints the text of a refused command line. For a terminal it is the text for the words as they are
/// shown, which are refused too.
fn refused<R: Eprint + AllocGlobal>(rt: &R, to: ErrorsTo, words: &[String], text: &str) -> ExitCode
    ensures { IsRefusal result }
{
    let ErrorsTo::Terminal = to else {
        return usage(rt, text);
    };
    let Ok(shown) = printable(rt.alloc(), words) else {
        return fault(rt, FAULT, Memory);
    };
    match job_of(rt.alloc(), shown.as_slice()) {
        Err(LineFault::Usage { text }) => usage(rt, text.as_str()),
        Err(LineFault::Memory) => fault(rt, FAULT, Memory),
        _ => fault(rt, REFUSED, "the command line is refused"),
    }
}

fn no_prefix<R: Eprint + AllocGlobal>(
    rt: &R,
    to: ErrorsTo,
    words: &[String],
    index: usize,
) -> ExitCode
    ensures { IsRefusal result }
{
    match file_word(rt.alloc(), words, index) {
        Ok(word) => {
            let shown = Shown::new(word.as_str(), to);
            file_fault(rt, REFUSED, shown, LineFault::Prefix { index })
        }
        Err(_) => fault(rt, FAULT, Memory),
    }
}

/// Refuses moments that no clock helps, and asks the machine for its time where a moment is now. Then it reports.
fn report_at<R>(
    rt: &R,
    to: ErrorsTo,
    job: &Job,
    times: &Times,
    usage: &UsageAsked,
    apart: FilesAsked,
    zone: Option<&String>,
    files: &[FileArg],
) -> ExitCode
where
    R: Files
        + Input
        + Print
        + Eprint
        + MachineClock
        + AllocGlobal
        + RandomSource
        + Threads
        + Wait
        + Sync,
    R::File: AsRawFd + Drop + Send,
    R::Reader: Send,
    requires runnable { IsRunnable job.now }
    requires until { TakesUntil job.now.report times.now.until }
    ensures { exit_status result ≤ 2 }
{
    if let Some(found) = known_fault(times) {
        return times_fault(rt, found);
    }
    let Some(now) = now_for(rt, times) else {
        return fault(rt, FAULT, "no time on the machine's clock");
    };
    let asked = Asked {
        job,
        times,
        usage,
        apart,
        now,
        zone,
        files,
    };
    hold_and_report(rt, to, asked)
}
