//! A run that reports on processes: files are counted, and no record is kept.
ghost use Rattle.std.specs.Prelude.{◌≡◌, ◌+◌, ◌<◌, ◌≤◌, ◌↔◌, ◌∷◌, [], Err, IfErr, IfOk, IsTrue, List, OnErr, OnOk, length, map};
ghost use Rattle.std.specs.List.{All};
ghost use Rattle.tally_answers.specs.Answers.{HasDays};
ghost use Rattle.tally_cli.specs.Output.{answers_of};
ghost use Rattle.tally_cli.specs.Runs.{IsReadable, IsWrongNumber, Told};
ghost use Rattle.tally_cli.specs.Apart.{answers_text, names_given};
ghost use Rattle.tally_cli.specs.UsageOutput.{by_file_output, usage_printed, wanted_of};
ghost use Rattle.tally_cli.specs.Usages.{IsFailedUsage, IsOfProcs, IsUsage, IsWholeUsage, callers_refused, unwritten_calls};
ghost use Rattle.tally_cli.specs.inside.Counts.{AreSummed, IsAnswerOn, IsPrinting};
ghost use Rattle.tally_cli.specs.inside.Parts.{AreAnswered, AreAnsweredWanted, HasPart, report_by_file};
ghost use Rattle.tally_line.specs.Jobs.{IsRunnable};
ghost use Rattle.tally_print.specs.Output.{IsWritable, Prints};
ghost use Rattle.tally_sessions.specs.Days.{IsOffset};
ghost use Rattle.tally_sessions.specs.declared.entry.Entry.{Entry};
ghost use Rattle.tally_usage.specs.Command.{command_rows};
ghost use Rattle.tally_usage.specs.Sums.{AreSumsOf, IsAbout};
ghost use Rattle.tally_usage.specs.Totals.{records_of};
ghost use Rattle.tally_usage.specs.Usage.{usage_of};
ghost use Rattle.tally_usage.specs.User.{user_rows};
ghost use Rattle.tally_usage.specs.declared.entry.ProcEntry.{ProcEntry};

use crate::fault::{RunFault, UsageFault};
use crate::running::callers_of;
use crate::running::counting::{Joined, count_sources};
use crate::running::naming::print_usage;
use crate::running::parts::{file_table, print_parts};
use crate::running::source::Source;
use crate::running::wanted::{UsageWanted, report_by_file};
use std::alloc::Global;
use std::hash::RandomState;
use std::thread::Threads;
use tally_book::Answer;
use tally_clock::Clock;
use tally_desk::Input;
use tally_line::{Form, Job, Report};
use tally_print::{Output, print_file_header};
use tally_records::{Kind, Memory};
use tally_sessions::HOST_LIMIT;
use tally_usage::{Order, Sums, UserNames};

/// Refuses a number of callers, a source or an asker each, as `run` does.
fn refuse_callers(sources: usize, askers: u32) -> Result<(), UsageFault>
    requires { askers ≤ HOST_LIMIT }
    ensures some { OnOk result (0 < sources + askers) }
    ensures few { OnOk result (sources + askers ≤ HOST_LIMIT) }
    ensures fault { IfErr result (λ f. f ≡ callers_refused (sources + askers)) }
    ensures wrong { OnErr result (IsWrongNumber (sources + askers)) }
{
    match callers_of(sources, askers) {
        Ok(_) => Ok(()),
        Err(RunFault::Callers(count)) => Err(UsageFault::Callers(count)),
        Err(_) => unreachable!(),
    }
}

/// The rows by command of what was summed, and the total.
fn commands_of(
    alloc: Global,
    sums: &Sums,
    order: Order,
    reverse: bool,
    all: bool,
) -> Result<Answer, Memory>
    ensures value { IfOk result (IsAbout sums.now (λ rs. Answer.Commands (command_rows order all reverse rs) (usage_of rs))) }
    ensures days { IfOk result HasDays }
{
    Ok(Answer::Commands {
        rows: sums.by_command(alloc, order, all, reverse)?,
        total: sums.total(),
    })
}

/// The rows by user of what was summed, and the total.
fn users_of(alloc: Global, sums: &Sums, order: Order, reverse: bool) -> Result<Answer, Memory>
    ensures value { IfOk result (IsAbout sums.now (λ rs. Answer.Users (user_rows order reverse rs) (usage_of rs))) }
    ensures days { IfOk result HasDays }
{
    Ok(Answer::Users {
        rows: sums.by_user(alloc, order, reverse)?,
        total: sums.total(),
    })
}

/// The answer to the question of a report on processes.
pub(crate) fn answer_of_sums(alloc: Global, report: &Report, sums: &Sums) -> Result<Answer, Memory>
    requires usage { IsUsage report.now }
    ensures value { IfOk result (IsAnswerOn report.now sums.now) }
    ensures days { IfOk result HasDays }
{
    match report {
        Report::Commands {
            order,
            reverse,
            all,
        } => commands_of(alloc, sums, *order, *reverse, *all),
        Report::Users { order, reverse } => users_of(alloc, sums, *order, *reverse),
        _ => unreachable!(),
    }
}

/// Prints the job's report on the processes that the sums are of, with the names of users where they are given.
fn report_sums<O: Output>(
    alloc: Global,
    clock: &Clock,
    job: &Job,
    names: Option<&UserNames>,
    sums: &Sums,
    out: &mut O,
) -> Result<(), UsageFault>
    requires usage { IsUsage job.now.report }
    requires offset { IsOffset job.now.offset }
    requires writable { IsWritable (O.state out.old) }
    ensures writes { (kinds : List Kind) (logins : List Entry) (procs : List ProcEntry) → AreSumsOf sums.now (records_of procs)
        → Prints (O.state out.old) (O.state out.new) result (unwritten_calls result) (answers_text clock.now job.now (names_given names.entry) (answers_of clock.now job.now kinds logins procs)) }
    ensures counts { (O.state out.new).failures ≡ (O.state out.old).failures + unwritten_calls result }
    ensures tells { (O.state out.new).tells ≡ (O.state out.old).tells }
    ensures cause { IfErr result IsPrinting }
{
    let answer = answer_of_sums(alloc, &job.report, sums)?;
    print_usage(alloc, clock, job, names, &answer, out)?;
    Ok(())
}

/// Prints the parts of the files that were counted, and in text the report on all of them.
fn report_files<O: Output>(
    alloc: Global,
    clock: &Clock,
    job: &Job,
    wanted: UsageWanted<'_>,
    joined: &Joined,
    out: &mut O,
) -> Result<(), UsageFault>
    requires usage { IsUsage job.now.report }
    requires offset { IsOffset job.now.offset }
    requires parts { All HasPart joined.now.parts.items }
    requires writable { IsWritable (O.state out.old) }
    ensures writes { (inputs : List Told) → AreSummed wanted.entry.choice inputs joined.now.total → AreAnswered wanted.entry.choice job.now.report inputs joined.now.parts.items
        → Prints (O.state out.old) (O.state out.new) result (unwritten_calls result) (by_file_output clock.now job.now (wanted_of wanted.entry) inputs) }
    ensures counts { (O.state out.new).failures ≡ (O.state out.old).failures + unwritten_calls result }
    ensures tells { (O.state out.new).tells ≡ (O.state out.old).tells }
    ensures cause { IfErr result IsPrinting }
{
    let names = wanted.names;
    let parts = joined.parts.as_slice();
    match job.form {
        Form::Text => {
            print_parts(alloc, clock, job, names, wanted.apart, parts, out)?;
            report_sums(alloc, clock, job, names, &joined.total, out)
        }
        Form::Csv => {
            let table = file_table(&job.report, names);
            print_file_header(table, wanted.apart.asked.paths, out)?;
            print_parts(alloc, clock, job, names, wanted.apart, parts, out)?;
            Ok(())
        }
    }
}

/// Prints the job's report on the files that were counted, as it is wanted.
fn report_joined<O: Output>(
    alloc: Global,
    clock: &Clock,
    job: &Job,
    wanted: UsageWanted<'_>,
    joined: &Joined,
    out: &mut O,
) -> Result<(), UsageFault>
    requires usage { IsUsage job.now.report }
    requires offset { IsOffset job.now.offset }
    requires parts { All HasPart joined.now.parts.items }
    requires writable { IsWritable (O.state out.old) }
    ensures writes { (inputs : List Told) → AreSummed wanted.entry.choice inputs joined.now.total
        → AreAnsweredWanted wanted.entry.choice (report_by_file wanted.entry job.now.report) inputs joined.now.parts.items
        → Prints (O.state out.old) (O.state out.new) result (unwritten_calls result) (usage_printed clock.now job.now (wanted_of wanted.entry) inputs) }
    ensures counts { (O.state out.new).failures ≡ (O.state out.old).failures + unwritten_calls result }
    ensures tells { (O.state out.new).tells ≡ (O.state out.old).tells }
    ensures cause { IfErr result IsPrinting }
{
    if wanted.apart.asked.by_file {
        report_files(alloc, clock, job, wanted, joined, out)
    } else {
        report_sums(alloc, clock, job, wanted.names, &joined.total, out)
    }
}

/// Sees that what was written arrives.
fn arrive<O: Output>(out: &mut O) -> Result<(), UsageFault>
    requires { IsWritable (O.state out.old) }
    ensures writes { Prints (O.state out.old) (O.state out.new) result (unwritten_calls result) [] }
    ensures cause { IfErr result (λ f. f ≡ UsageFault.Write) }
{
    match out.finish() {
        Ok(()) => Ok(()),
        Err(_) => Err(UsageFault::Write),
    }
}

/// Whether all files are of process records.
fn are_of_procs<I>(sources: &[Source<I>]) -> bool
    ensures { IsTrue result ↔ All IsOfProcs sources.now }
{
    sources.iter().all(|source| source.kind == Kind::Proc)
}

/// Whether a job over these files is one of `run_usage`: a report on processes, over files of process records alone.
pub fn is_usage_run<I>(job: &Job, sources: &[Source<I>]) -> bool
    ensures { IsTrue result ↔ (IsUsage job.now.report × All IsOfProcs sources.now) }
{
    match job.report {
        Report::Commands { .. } | Report::Users { .. } => are_of_procs(sources),
        _ => false,
    }
}

/// Counts the chosen records of each file of process records, several at once, and then prints the job's report on them, as it is
/// wanted. Where everything is wanted, it is that of `run`. By file it is in text that of each file alone and then that of all, and as
/// a table the rows of each file alone. No record is kept, so a file may have 268,435,456 records, and as many may be chosen of all
/// files together; the memory that is taken goes by the commands and users in them. Nothing is written before every file is found
/// to be good. A fault is that of the first file at fault.
pub fn run_usage<R: Threads + Sync, I: Input + Send, O: Output>(
    rt: &R,
    alloc: Global,
    keys: RandomState,
    clock: &Clock,
    job: &Job,
    wanted: UsageWanted<'_>,
    sources: Vec<Source<I>>,
    out: &mut O,
) -> Result<(), UsageFault>
    requires runnable { IsRunnable job.now }
    requires usage { IsUsage job.now.report }
    requires procs { All IsOfProcs sources.items }
    requires readable { All (IsReadable I.failures) sources.items }
    requires writable { IsWritable (O.state out.old) }
    ensures whole { OnOk result (IsWholeUsage I.to_come clock.now job.now (wanted_of wanted.entry) sources.items (O.state out.old) (O.state out.new)) }
    ensures failed { IfErr result (IsFailedUsage I.to_come I.can_fail clock.now job.now (wanted_of wanted.entry) sources.items (O.state out.old) (O.state out.new)) }
    ensures callers { IsWrongNumber (length sources.items + job.now.askers)
        → result ≡ Err (callers_refused (length sources.items + job.now.askers)) }
    ensures counts { (O.state out.new).failures ≡ (O.state out.old).failures + unwritten_calls result }
    ensures tells { (O.state out.new).tells ≡ (O.state out.old).tells }
{
    refuse_callers(sources.len(), job.askers)?;
    let report = report_by_file(job, wanted);
    let feeders = job.feeders as usize;
    let joined = count_sources(rt, alloc, keys, &wanted.choice, report, sources, feeders)?;
    report_joined(alloc, clock, job, wanted, &joined, out)?;
    arrive(out)
}
