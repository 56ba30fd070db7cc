//! A run that reports the connect time of all sessions: files are counted, and no record is kept.
ghost use Rattle.std.specs.Prelude.{◌≡◌, ◌+◌, ◌<◌, ◌≤◌, ◌↔◌, [], ◌∷◌, ℕ, IfErr, IfOk, IsTrue, List, OnOk, length, sum_by, true};
ghost use Rattle.std.specs.List.{All};
ghost use Rattle.tally_answers.specs.Answers.{HasDays};
ghost use Rattle.tally_cli.specs.Apart.{Apart, apart_of};
ghost use Rattle.tally_cli.specs.Output.{form_text, report_text};
ghost use Rattle.tally_cli.specs.Runs.{IsFailedRun, IsReadable, IsWholeRun, failed_writes};
ghost use Rattle.tally_cli.specs.inside.LoginCounts.{IsCountedRun, IsOfAllSessions, IsOfLogins, IsTogether, is_by_day};
ghost use Rattle.tally_cli.specs.inside.RunSteps.{IsPrintFault};
ghost use Rattle.tally_line.specs.Jobs.{IsRunnable};
ghost use Rattle.tally_print.specs.Output.{IsWritable, Prints};
ghost use Rattle.tally_records.specs.declared.batch.Kind.{Kind as AnyKind};
ghost use Rattle.tally_sessions.specs.ConnectSums.{AreCountsOf};
ghost use Rattle.tally_sessions.specs.Days.{IsOffset, local};
ghost use Rattle.tally_sessions.specs.declared.entry.Entry.{Entry};
ghost use Rattle.tally_usage.specs.declared.entry.ProcEntry.{ProcEntry};

use crate::fault::RunFault;
use crate::running::apart::FilesApart;
use crate::running::forms::print_answers;
use crate::running::login_counts::count_sources;
use crate::running::reporting::finish;
use crate::running::room_for;
use crate::running::source::Source;
use std::alloc::Global;
use std::hash::RandomState;
use std::slice;
use std::thread::Threads;
use tally_book::{Answer, connect_of_counts};
use tally_clock::Clock;
use tally_desk::Input;
use tally_line::{Job, Report};
use tally_print::Output;
use tally_records::{Kind, Memory};
use tally_sessions::{ConnectSums, ENTRY_LIMIT, HOST_LIMIT};

/// Whether a report is on the connect time of all sessions.
fn is_of_all_sessions(report: &Report) -> bool
    ensures { IsTrue result ↔ IsOfAllSessions report.now }
{
    match report {
        Report::Connect { choice, .. } => choice.is_every(),
        Report::Last { .. }
        | Report::Attempts { .. }
        | Report::AttemptSums { .. }
        | Report::Commands { .. }
        | Report::Users { .. }
        | Report::All => false,
    }
}

/// Whether a report has rows by day.
fn is_by_day(report: &Report) -> bool
    ensures { result ≡ is_by_day report.now }
{
    match report {
        Report::Connect { by_day, .. } => *by_day,
        Report::Last { .. }
        | Report::Attempts { .. }
        | Report::AttemptSums { .. }
        | Report::Commands { .. }
        | Report::Users { .. }
        | Report::All => false,
    }
}

/// Whether all files are of login records.
fn are_of_logins<I>(sources: &[Source<I>]) -> bool
    ensures { IsTrue result ↔ All IsOfLogins sources.now }
{
    sources.iter().all(|source| source.kind == Kind::Login)
}

/// Whether a run needs no record: it is one on the connect time of all sessions, its files are of login records and are not told apart,
/// and nothing is asked meanwhile.
pub(crate) fn is_counted<I>(job: &Job, apart: FilesApart<'_>, sources: &[Source<I>]) -> bool
    ensures { IsTrue result ↔ (IsCountedRun job.now sources.now × IsTogether (apart_of apart.entry) job.now) }
{
    job.askers == 0
        && is_of_all_sessions(&job.report)
        && !apart.is_by_file(&job.report)
        && !apart.has_paths(job)
        && are_of_logins(sources)
}

/// Prints an answer as a job's report, where there was memory for it.
fn print_answered<O: Output>(
    alloc: Global,
    clock: &Clock,
    job: &Job,
    answer: &Result<Answer, Memory>,
    out: &mut O,
) -> Result<(), RunFault>
    requires offset { IsOffset job.now.offset }
    requires days { IfOk answer.now HasDays }
    requires writable { IsWritable (O.state out.old) }
    ensures writes { (text : List ℕ) → IfOk answer.now (λ a. form_text job.now.form job.now.report (local clock.now job.now.offset) job.now.until (a ∷ []) ≡ text)
        → Prints (O.state out.old) (O.state out.new) result (failed_writes result) text }
    ensures counts { (O.state out.new).failures ≡ (O.state out.old).failures + failed_writes result }
    ensures tells { (O.state out.new).tells ≡ (O.state out.old).tells }
    ensures cause { IfErr result IsPrintFault }
{
    match answer {
        Ok(answer) => {
            print_answers(alloc, clock, job, slice::from_ref(answer), out)?;
            Ok(())
        }
        Err(Memory) => Err(RunFault::Memory),
    }
}

/// Prints the report of a job on the sessions that are counted, each file a host. Where it is by day, the counts keep their sessions.
fn print_counts<O: Output>(
    alloc: Global,
    clock: &Clock,
    job: &Job,
    counts: &[ConnectSums],
    out: &mut O,
) -> Result<(), RunFault>
    requires report { IsOfAllSessions job.now.report }
    requires offset { IsOffset job.now.offset }
    requires few { length counts.now ≤ HOST_LIMIT }
    requires room { sum_by (λ c. c.count) counts.now ≤ ENTRY_LIMIT }
    requires kept { IsTrue (is_by_day job.now.report) → All (λ c. c.keeps_sessions ≡ true) counts.now }
    requires writable { IsWritable (O.state out.old) }
    ensures writes { (kinds : List AnyKind) (logins : List Entry) (procs : List ProcEntry) → AreCountsOf counts.now logins
        → Prints (O.state out.old) (O.state out.new) result (failed_writes result) (report_text clock.now job.now kinds logins procs) }
    ensures counts { (O.state out.new).failures ≡ (O.state out.old).failures + failed_writes result }
    ensures tells { (O.state out.new).tells ≡ (O.state out.old).tells }
    ensures cause { IfErr result IsPrintFault }
{
    let Report::Connect {
        by_day,
        by_user,
        ..
    } = &job.report
    else {
        unreachable!()
    };
    let offset = job.offset;
    let answer = connect_of_counts(alloc, counts, clock, offset, *by_day, *by_user, job.until);
    print_answered(alloc, clock, job, &answer, out)
}

/// Counts each file, several at once, and then prints the job's report on all of them. No record is kept: the memory that is taken goes
/// by the lines and users in them, and with days by 12 bytes for each session too. It is the run of a desk of which the same is asked.
pub(crate) fn run_counted<R: Threads + Sync, I: Input + Send, O: Output>(
    rt: &R,
    alloc: Global,
    keys: RandomState,
    clock: &Clock,
    job: &Job,
    sources: Vec<Source<I>>,
    out: &mut O,
) -> Result<(), RunFault>
    requires runnable { IsRunnable job.now }
    requires counted { IsCountedRun job.now sources.items }
    requires some { 0 < length sources.items + job.now.askers }
    requires few { length sources.items + job.now.askers ≤ HOST_LIMIT }
    requires readable { All (IsReadable I.failures) sources.items }
    requires writable { IsWritable (O.state out.old) }
    ensures whole { OnOk result ((apart : Apart) → IsTogether apart job.now
        → IsWholeRun I.to_come clock.now apart job.now sources.items (O.state out.old) (O.state out.new)) }
    ensures failed { IfErr result (λ f. (apart : Apart) → IsTogether apart job.now
        → IsFailedRun I.to_come I.can_fail clock.now apart job.now sources.items (O.state out.old) (O.state out.new) f) }
    ensures counts { (O.state out.new).failures ≡ (O.state out.old).failures + failed_writes result }
    ensures tells { (O.state out.new).tells ≡ (O.state out.old).tells }
{
    let feeders = job.feeders as usize;
    let room = room_for(job);
    let by_day = is_by_day(&job.report);
    let counts = count_sources(rt, alloc, keys, room, by_day, sources, feeders)?;
    print_counts(alloc, clock, job, counts.as_slice(), out)?;
    finish(out)
}
