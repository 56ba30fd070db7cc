//! The job's report on the closed book, printed.
ghost use Rattle.std.specs.Prelude.{◌≡◌, ◌<◌, ◌≤◌, [], IfErr, IfOk, OnOk, length, map};
ghost use Rattle.std.specs.List.{All, list_any};
ghost use Rattle.tally_answers.specs.Answers.{HasDays, answer_of};
ghost use Rattle.tally_cli.specs.Apart.{apart_of, apart_text};
ghost use Rattle.tally_cli.specs.Output.{form_text, questions_of, report_text};
ghost use Rattle.tally_cli.specs.Runs.{failed_writes};
ghost use Rattle.tally_cli.specs.Reading.{most_calls};
ghost use Rattle.tally_cli.specs.inside.RunSteps as steps;
ghost use Rattle.tally_cli.specs.inside.RunSteps.{IsPrintFault};
ghost use Rattle.tally_line.specs.Jobs.{IsRunnable};
ghost use Rattle.tally_line.specs.declared.job.Report.TheVariants as reports;
ghost use Rattle.tally_print.specs.Output.{IsWritable, Prints, failed_calls};
ghost use Rattle.tally_sessions.specs.Days.{IsOffset, local};
ghost use Rattle.tally_print.specs.Section.{NamesHostBelow, answer_in};

use crate::fault::RunFault;
use crate::running::apart::FilesApart;
use crate::running::by_file::print_files_of;
use crate::running::forms::{print_answers, print_attempts, print_report};
use crate::running::path_tables::{print_attempt_paths, print_paths_of};
use crate::running::sections::{answers_to, questions_of, sections_for};
use std::alloc::Global;
use std::thread::Threads;
use tally_book::{Answer, Book};
use tally_clock::Clock;
use tally_line::{Job, Report};
use tally_print::{Output, PrintFault, Section};
use tally_records::{Kind, LoginChoice, Memory};
use tally_sessions::{HOST_LIMIT, Sessions};

/// Counts the sessions of a book where a report is about them, so that no question has to wait for that.
fn count_for<R: Threads + Sync>(
    rt: &R,
    alloc: Global,
    job: &Job,
    book: &mut Book,
) -> Result<(), Memory>
    ensures same { book.new ≡ book.old }
{
    match job.report {
        Report::Attempts { .. } | Report::AttemptSums { .. } => Ok(()),
        _ => book.count_sessions(rt, alloc, job.feeders),
    }
}

fn is_login(kind: &Kind) -> bool
    ensures { result ≡ steps.is_login kind.now }
{
    *kind == Kind::Login
}

fn has_logins(kinds: &[Kind]) -> bool
    ensures { result ≡ list_any steps.is_login kinds.now }
{
    kinds.iter().any(|kind| is_login(kind))
}

/// Whether a report of files of these kinds has stays.
fn has_stays(report: &Report, kinds: &[Kind]) -> bool
    ensures { result ≡ steps.has_stays report.now kinds.now }
{
    match report {
        Report::Last { .. } => true,
        Report::All => has_logins(kinds),
        Report::Attempts { .. }
        | Report::AttemptSums { .. }
        | Report::Connect { .. }
        | Report::Commands { .. }
        | Report::Users { .. } => false,
    }
}

/// The answers that the job's report prints, of a book of which each file is a host.
pub(crate) fn answers_in<R: Threads + Sync>(
    rt: &R,
    alloc: Global,
    job: &Job,
    kinds: &[Kind],
    book: &mut Book,
) -> Result<Vec<Answer>, Memory>
    requires runnable { IsRunnable job.now }
    requires hosts { length kinds.now ≤ book.old.callers }
    requires few { book.old.callers ≤ HOST_LIMIT }
    requires some { 0 < book.old.callers }
    requires calls { length book.old.calls ≤ most_calls }
    ensures value { IfOk result (λ answers. answers.items ≡ map (λ q. answer_of book.old.clock q book.old.logins book.old.procs)
        (questions_of job.now.report job.now.offset kinds.now job.now.until)) }
    ensures days { IfOk result (λ answers. All HasDays answers.items) }
{
    count_for(rt, alloc, job, book)?;
    let questions = questions_of(alloc, job, kinds)?;
    answers_to(alloc, book, questions.as_slice())
}

/// The same, and lets the book go.
fn answers_of<R: Threads + Sync>(
    rt: &R,
    alloc: Global,
    job: &Job,
    kinds: &[Kind],
    mut book: Book,
) -> Result<Vec<Answer>, Memory>
    requires runnable { IsRunnable job.now }
    requires hosts { length kinds.now ≤ book.callers }
    requires few { book.callers ≤ HOST_LIMIT }
    requires some { 0 < book.callers }
    requires calls { length book.calls ≤ most_calls }
    ensures value { IfOk result (λ answers. answers.items ≡ map (λ q. answer_of book.clock q book.logins book.procs)
        (questions_of job.now.report job.now.offset kinds.now job.now.until)) }
    ensures days { IfOk result (λ answers. All HasDays answers.items) }
{
    answers_in(rt, alloc, job, kinds, &mut book)
}

/// The sections of the job's report, of a book of which each file is a host.
fn sections_in<R: Threads + Sync>(
    rt: &R,
    alloc: Global,
    job: &Job,
    kinds: &[Kind],
    book: &mut Book,
) -> Result<Vec<Section>, Memory>
    requires runnable { IsRunnable job.now }
    requires hosts { length kinds.now ≤ book.old.callers }
    requires few { book.old.callers ≤ HOST_LIMIT }
    requires some { 0 < book.old.callers }
    requires calls { length book.old.calls ≤ most_calls }
    ensures callers { OnOk result (book.new.callers ≡ book.old.callers) }
    ensures logins { OnOk result (book.new.logins ≡ book.old.logins) }
    ensures value { IfOk result (λ sections. map (answer_in book.old.logins) sections.items
        ≡ map (λ q. answer_of book.old.clock q book.old.logins book.old.procs) (questions_of job.now.report job.now.offset kinds.now job.now.until)) }
    ensures hosts { IfOk result (λ sections. All (NamesHostBelow book.old.callers) sections.items) }
    ensures days { IfOk result (λ sections. All (λ s. HasDays (answer_in book.old.logins s)) sections.items) }
{
    book.count_sessions(rt, alloc, job.feeders)?;
    let questions = questions_of(alloc, job, kinds)?;
    sections_for(alloc, book, questions.as_slice())
}

/// The same, and the sessions that they are of. The rest of the book is let go.
pub(crate) fn sections_of<R: Threads + Sync>(
    rt: &R,
    alloc: Global,
    job: &Job,
    kinds: &[Kind],
    mut book: Book,
) -> Result<(Vec<Section>, Sessions), Memory>
    requires runnable { IsRunnable job.now }
    requires hosts { length kinds.now ≤ book.callers }
    requires few { book.callers ≤ HOST_LIMIT }
    requires some { 0 < book.callers }
    requires calls { length book.calls ≤ most_calls }
    ensures value { IfOk result (λ r. map (answer_in r.1.entries) r.0.items
        ≡ map (λ q. answer_of book.clock q book.logins book.procs) (questions_of job.now.report job.now.offset kinds.now job.now.until)) }
    ensures hosts { IfOk result (λ r. All (NamesHostBelow r.1.hosts) r.0.items) }
    ensures days { IfOk result (λ r. All (λ s. HasDays (answer_in r.1.entries s)) r.0.items) }
{
    let sections = sections_in(rt, alloc, job, kinds, &mut book)?;
    let sessions = book.into_sessions(rt, alloc, job.feeders)?;
    Ok((sections, sessions))
}

/// Prints the sections over the sessions that they are of, and lets both go.
fn print_and_drop<O: Output>(
    alloc: Global,
    clock: &Clock,
    job: &Job,
    sessions: Sessions,
    sections: Vec<Section>,
    out: &mut O,
) -> Result<(), PrintFault>
    requires writable { IsWritable (O.state out.old) }
    requires offset { IsOffset job.now.offset }
    requires hosts { All (NamesHostBelow sessions.hosts) sections.items }
    requires days { All (λ s. HasDays (answer_in sessions.entries s)) sections.items }
    ensures writes { Prints (O.state out.old) (O.state out.new) result (failed_calls result)
        (form_text job.now.form job.now.report (local clock.now job.now.offset) job.now.until (map (answer_in sessions.entries) sections.items)) }
{
    print_report(alloc, clock, job, &sessions, sections.as_slice(), out)
}

/// Prints the latest chosen failed logins of each host of the book up to a limit, and lets the book go.
fn print_attempts_of<O: Output>(
    alloc: Global,
    clock: &Clock,
    job: &Job,
    apart: FilesApart<'_>,
    kinds: &[Kind],
    limit: Option<u32>,
    choice: &LoginChoice,
    book: Book,
    out: &mut O,
) -> Result<(), PrintFault>
    requires runnable { IsRunnable job.now }
    requires report { job.now.report ≡ reports.Attempts limit choice.now }
    requires few { length kinds.now ≤ HOST_LIMIT }
    requires clock { book.clock ≡ clock.now }
    requires writable { IsWritable (O.state out.old) }
    ensures writes { Prints (O.state out.old) (O.state out.new) result (failed_calls result)
        (apart_text clock.now (apart_of apart.entry) job.now kinds.now book.logins book.procs) }
{
    let hosts = kinds.len() as u32;
    if apart.has_paths(job) {
        return print_attempt_paths(
            alloc,
            clock,
            job,
            apart,
            book.logins(),
            hosts,
            limit,
            choice,
            out,
        );
    }
    print_attempts(alloc, clock, job, book.logins(), hosts, limit, choice, out)
}

/// Prints the answers to the job's report of the book, of which each file is a host, in the time of the book's clock. Where it has no
/// stays, the book has been let go before anything is printed.
fn print_answers_of<R: Threads + Sync, O: Output>(
    rt: &R,
    alloc: Global,
    clock: &Clock,
    job: &Job,
    kinds: &[Kind],
    book: Book,
    out: &mut O,
) -> Result<(), RunFault>
    requires runnable { IsRunnable job.now }
    requires hosts { length kinds.now ≤ book.callers }
    requires few { book.callers ≤ HOST_LIMIT }
    requires some { 0 < book.callers }
    requires calls { length book.calls ≤ most_calls }
    requires clock { book.clock ≡ clock.now }
    requires writable { IsWritable (O.state out.old) }
    ensures writes { Prints (O.state out.old) (O.state out.new) result (failed_writes result)
        (report_text clock.now job.now kinds.now book.logins book.procs) }
    ensures cause { IfErr result IsPrintFault }
{
    if has_stays(&job.report, kinds) {
        let (sections, sessions) = sections_of(rt, alloc, job, kinds, book)?;
        print_and_drop(alloc, clock, job, sessions, sections, out)?;
    } else {
        let answers = answers_of(rt, alloc, job, kinds, book)?;
        print_answers(alloc, clock, job, answers.as_slice(), out)?;
    }
    Ok(())
}

/// Prints the job's report of the book, of which each file is a host, in the time of the book's clock, with the files told apart as they
/// are to be. Failed logins are printed from the book, with no answer that lists them.
pub(crate) fn report<R: Threads + Sync, O: Output>(
    rt: &R,
    alloc: Global,
    clock: &Clock,
    job: &Job,
    apart: FilesApart<'_>,
    kinds: &[Kind],
    book: Book,
    out: &mut O,
) -> Result<(), RunFault>
    requires runnable { IsRunnable job.now }
    requires hosts { length kinds.now ≤ book.callers }
    requires few { book.callers ≤ HOST_LIMIT }
    requires some { 0 < book.callers }
    requires calls { length book.calls ≤ most_calls }
    requires clock { book.clock ≡ clock.now }
    requires writable { IsWritable (O.state out.old) }
    ensures writes { Prints (O.state out.old) (O.state out.new) result (failed_writes result)
        (apart_text clock.now (apart_of apart.entry) job.now kinds.now book.logins book.procs) }
    ensures cause { IfErr result IsPrintFault }
{
    if apart.is_by_file(&job.report) {
        print_files_of(rt, alloc, clock, job, apart, kinds, book, out)
    } else if let Report::Attempts { limit, choice } = &job.report {
        print_attempts_of(alloc, clock, job, apart, kinds, *limit, choice, book, out)?;
        Ok(())
    } else if apart.has_paths(job) {
        print_paths_of(rt, alloc, clock, job, apart, kinds, book, out)
    } else {
        print_answers_of(rt, alloc, clock, job, kinds, book, out)
    }
}

/// Sees that what was written arrives.
pub(crate) fn finish<O: Output>(out: &mut O) -> Result<(), RunFault>
    requires { IsWritable (O.state out.old) }
    ensures writes { Prints (O.state out.old) (O.state out.new) result (failed_writes result) [] }
    ensures cause { IfErr result (λ f. f ≡ RunFault.Write) }
{
    match out.finish() {
        Ok(()) => Ok(()),
        Err(_) => Err(RunFault::Write),
    }
}
