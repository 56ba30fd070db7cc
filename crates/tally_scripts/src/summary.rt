//! A summary by itself, to which the runs of make are added twice.
ghost use Rattle.std.specs.Prelude.{◌≡◌, ◌≤◌, ◌+◌, OnOk, Some, length};
ghost use Rattle.tally_records.specs.Records.{IsProcs, procs_in, record_count};

use crate::book::make_bytes;
use crate::bytes::procs;
use crate::held::copy_of_entries;
use crate::stopped::{Stopped, both, see, stop};
use crate::window::{grant_growths, refuse_growths};
use std::alloc::Global;
use std::hash::RandomState;
use tally_records::{Batch, List, Memory};
use tally_usage::{CommandRow, Order, ProcEntry, Summary, UidRow, Usage};

/// The most entries of a summary.
const ENTRY_LIMIT: usize = 1_048_576;

/// The stored entries and the answers to all questions.
#[derive(Drop)]
struct Answers {
    entries: Vec<ProcEntry>,
    total: Usage,
    by_cpu: List<CommandRow>,
    by_calls: List<CommandRow>,
    users: List<UidRow>,
}

fn ask_all(alloc: Global, summary: &Summary) -> Result<Answers, Memory> {
    let commands = both(
        summary.by_command(alloc, Order::Cpu, false, false),
        summary.by_command(alloc, Order::Calls, true, true),
    );
    let others = both(
        copy_of_entries(alloc, summary.entries()),
        summary.by_user(alloc, Order::Cpu, false),
    );
    let ((by_cpu, by_calls), (entries, users)) = both(commands, others)?;
    Ok(Answers {
        entries,
        total: summary.total(),
        by_cpu,
        by_calls,
        users,
    })
}

/// The answers, asked again where memory was refused.
fn answers_of(alloc: Global, summary: &Summary) -> Result<Answers, Memory> {
    match ask_all(alloc, summary) {
        Err(_) => ask_all(alloc, summary),
        answered => answered,
    }
}

/// Whether entries and answers are the same.
fn are_same(a: &Answers, b: &Answers) -> bool {
    a.total == b.total
        && a.entries.as_slice() == b.entries.as_slice()
        && a.by_cpu.as_slice() == b.by_cpu.as_slice()
        && a.by_calls.as_slice() == b.by_calls.as_slice()
        && a.users.as_slice() == b.users.as_slice()
}

/// Whether the answers are still these.
fn are_still(alloc: Global, summary: &Summary, before: &Answers) -> Result<bool, Memory> {
    let now = answers_of(alloc, summary)?;
    let are_still = are_same(before, &now);
    drop(now);
    Ok(are_still)
}

/// Sees that a call left the summary as it was, where it was refused.
fn see_answered(
    alloc: Global,
    summary: &Summary,
    before: Answers,
    is_answered: bool,
) -> Result<(), Stopped> {
    let are_kept = if is_answered {
        Ok(true)
    } else {
        are_still(alloc, summary, &before)
    };
    drop(before);
    see(are_kept?, "a summary")
}

/// Makes a summary ready for a batch, and again where memory was refused.
fn prepare(alloc: Global, summary: &mut Summary, host: u32, batch: &Batch) -> Result<(), Stopped>
    requires kind { IsProcs batch.now }
    requires room { length summary.old.entries + record_count batch.now ≤ 1048576 }
    ensures { OnOk result (summary.new.ready ≡ Some (record { host = host; records = procs_in batch.now })) }
{
    let before = answers_of(alloc, summary)?;
    let is_ready = summary.prepare(host, batch).is_ok();
    see_answered(alloc, summary, before, is_ready)?;
    if !is_ready {
        summary.prepare(host, batch)?;
    }
    Ok(())
}

/// Adds a batch, made ready again where memory was refused; to add it takes none.
fn add(alloc: Global, summary: &mut Summary, host: u32, batch: &Batch) -> Result<usize, Stopped>
    requires { IsProcs batch.now }
{
    if summary.entries().len() + batch.len() > ENTRY_LIMIT {
        return Err(Stopped::Refused("batch"));
    }
    prepare(alloc, summary, host, batch)?;
    refuse_growths(alloc);
    summary.add(host, batch);
    let count = summary.total().count;
    let entries = summary.entries().len();
    grant_growths(alloc);
    if count != entries as u64 {
        return Err(Stopped::Changed("a total"));
    }
    Ok(entries)
}

fn print_commands<R: Print>(rt: &R, rows: &[CommandRow]) -> Result<(), Stopped> {
    for row in rows {
        println!(rt; "command {} {}", row.usage.count, row.usage.cpu)?;
    }
    Ok(())
}

fn print_users<R: Print>(rt: &R, rows: &[UidRow]) -> Result<(), Stopped> {
    for row in rows {
        println!(rt; "uid {} {} {}", row.uid, row.usage.count, row.usage.cpu)?;
    }
    Ok(())
}

/// How many entries a summary hands out.
fn count_given(summary: Summary) -> usize {
    let entries = summary.into_entries();
    let count = entries.len();
    drop(entries);
    count
}

/// Prints how many entries the summary hands out after a script, which takes no memory.
fn print_entries<R: Print + AllocGlobal>(
    rt: &R,
    printed: Result<(), Stopped>,
    summary: Summary,
) -> Result<(), Stopped> {
    let alloc = rt.alloc();
    refuse_growths(alloc);
    let count = count_given(summary);
    grant_growths(alloc);
    printed?;
    stop(println!(rt; "summary: {count} entries handed out"))
}

/// Prints the lists among the answers.
fn print_lists<R: Print>(rt: &R, answers: &Answers) -> Result<(), Stopped> {
    print_commands(rt, answers.by_cpu.as_slice())?;
    print_users(rt, answers.users.as_slice())
}

/// Prints what the summary answers.
fn print_answers<R: Print + AllocGlobal>(rt: &R, summary: &Summary) -> Result<(), Stopped> {
    let answers = answers_of(rt.alloc(), summary)?;
    let printed = print_lists(rt, &answers);
    drop(answers);
    printed
}

/// Adds a batch under each of two hosts.
fn print_growth<R: Print + AllocGlobal>(
    rt: &R,
    summary: &mut Summary,
    batch: &Batch,
) -> Result<(), Stopped>
    requires { IsProcs batch.now }
{
    for host in 0..2 {
        let entries = add(rt.alloc(), summary, host, batch)?;
        println!(rt; "summary: {entries} entries")?;
    }
    Ok(())
}

/// Adds both batches, and prints what the summary answers then.
fn print_all<R: Print + AllocGlobal>(rt: &R, summary: &mut Summary) -> Result<(), Stopped> {
    let makes = procs(rt.alloc(), &make_bytes())?;
    let printed = print_growth(rt, summary, &makes);
    drop(makes);
    printed?;
    print_answers(rt, summary)
}

/// Prints what the summary answers once both batches are added, and hands out.
pub(crate) fn script<R: Print + AllocGlobal>(rt: &R, keys: RandomState) -> Result<(), Stopped> {
    let mut summary = Summary::new(rt.alloc(), keys);
    let printed = print_all(rt, &mut summary);
    print_entries(rt, printed, summary)
}
