//! A run: files are read by several threads into one book, and its reports are printed.
ghost use Rattle.std.specs.Prelude.{◌≡◌, ◌+◌, ◌<◌, ◌≤◌, IfErr, IfOk, List, OnErr, OnOk, Err, ℕ, true, length, slice_index_or};
ghost use Rattle.std.specs.List.{All};
ghost use Rattle.tally_book.specs.Books.{IsLegal};
ghost use Rattle.tally_desk.specs.Passes.{HasDone, Stands, first_passes};
ghost use Rattle.tally_desk.specs.declared.fault.FeedFault.TheVariants as feed_fault_of;
ghost use Rattle.tally_print.specs.Output.{IsWritable};
ghost use Rattle.tally_cli.specs.Apart.{apart_of};
ghost use Rattle.tally_cli.specs.Runs.{IsReadable, IsAllowed, IsFailedRun, IsFullList, IsNamed, IsWholeRun, IsWrongNumber, Tell, Told, callers_fault, failed_writes, room_of};
ghost use Rattle.tally_line.specs.Jobs.{IsRunnable};
ghost use Rattle.tally_cli.specs.Reading.{AreRead, IsReadCause, IsUnprinted, most_calls};
ghost use Rattle.tally_cli.specs.inside.RunSteps.{AreWorkedThrough, run_fault};

pub(crate) mod apart;
mod by_file;
pub(crate) mod counting;
mod deal;
mod files;
mod forms;
mod gather;
mod login_counts;
mod naming;
mod parts;
mod path_tables;
mod reporting;
mod sections;
pub(crate) mod source;
mod task;
mod totals;
pub(crate) mod usage;
pub(crate) mod wanted;
mod work;

use crate::fault::RunFault;
use crate::running::apart::FilesApart;
use crate::running::deal::{busy_feeders, deal_out};
use crate::running::gather::{Cause, Failure, take_all};
use crate::running::reporting::{finish, report};
use crate::running::source::{Source, kinds_of};
use crate::running::task::Asking;
use crate::running::totals::{is_counted, run_counted};
use crate::running::work::carry_out_lists;
use std::alloc::{AllocError, Global};
use std::hash::RandomState;
use std::sync::Wait;
use std::thread::Threads;
use tally_book::{Book, Room, entries_are_posts, host_order_is_enough};
use tally_clock::Clock;
use tally_desk::{Desk, Gate, Input, OpenFault, Pass};
use tally_line::Job;
use tally_print::Output;
use tally_sessions::HOST_LIMIT;

/// The closed book, where all passes are handed in.
fn close_all(desk: Desk, passes: Vec<Pass>) -> Book
    requires desk { All (λ p. p.desk ≡ desk.id) passes.items }
    requires all { desk.callers ≤ length passes.items }
    ensures callers { result.callers ≡ desk.callers }
    ensures legal { IsLegal result }
    ensures stand { All (Stands result) passes.items }
    ensures did { All (HasDone result) passes.items }
{
    match desk.close(passes) {
        Ok(book) => book,
        Err(_) => unreachable!(),
    }
}

/// How many callers there are, a source or an asker each, if a desk has passes for them.
fn callers_of(sources: usize, askers: u32) -> Result<u32, RunFault>
    requires { askers ≤ HOST_LIMIT }
    ensures count { IfOk result (λ callers. callers ≡ sources + askers) }
    ensures some { OnOk result (0 < sources + askers) }
    ensures few { OnOk result (sources + askers ≤ HOST_LIMIT) }
    ensures fault { IfErr result (λ f. f ≡ callers_fault (sources + askers)) }
    ensures wrong { OnErr result (IsWrongNumber (sources + askers)) }
{
    let callers = match u32::try_from(sources) {
        Ok(sources) => sources.saturating_add(askers),
        Err(_) => u32::MAX,
    };
    if callers == 0 || callers > HOST_LIMIT {
        return Err(RunFault::Callers(callers));
    }
    Ok(callers)
}

/// The room of a job's book: that of so many millions.
fn room_for(job: &Job) -> Room
    requires { IsRunnable job.now }
    ensures { result ≡ room_of job.now }
{
    match Room::of_millions(job.millions) {
        Some(room) => room,
        None => unreachable!(),
    }
}

/// A desk of so many callers, whose book has an equal clock and the room.
fn open(
    alloc: Global,
    keys: RandomState,
    clock: &Clock,
    room: Room,
    callers: u32,
) -> Result<(Desk, Vec<Pass>), AllocError>
    requires some { 0 < callers }
    requires few { callers ≤ HOST_LIMIT }
    ensures opened { IfOk result (λ r. (r.0.callers ≡ callers)
        × (r.1.items ≡ first_passes r.0.id clock.now room callers)) }
{
    let clock = clock.try_copy(alloc)?;
    match Desk::open_with_room(alloc, keys, clock, room, callers) {
        Ok(opened) => Ok(opened),
        Err(OpenFault::Memory) => Err(AllocError),
        Err(OpenFault::Callers(_)) => unreachable!(),
    }
}

/// What a caller's failure makes of a run.
fn fault_of(failure: Failure) -> RunFault
    ensures value { result ≡ run_fault failure }
    ensures unprinted { IsUnprinted result }
{
    let Failure { caller, cause } = failure;
    match cause {
        Cause::Feed(fault) => RunFault::File {
            host: caller,
            fault,
        },
        Cause::Ask(fault) => RunFault::Asker { caller, fault },
    }
}

/// Does the work of all callers in several threads, and closes the desk.
fn work_through<R: Threads + Wait + Sync, I: Input + Send, G: Gate + Sync>(
    rt: &R,
    alloc: Global,
    desk: Desk,
    passes: Vec<Pass>,
    sources: Vec<Source<I>>,
    feeders: usize,
    asking: Asking,
    gate: &G,
) -> Result<(Book, Option<Failure>), AllocError>
    requires feeders { (0 < feeders) × (feeders ≤ 64) }
    requires callers { (desk.callers ≡ length passes.items) × (desk.callers ≤ HOST_LIMIT) }
    requires desk { All (λ p. p.desk ≡ desk.id) passes.items }
    requires numbers { (k : ℕ) (p : _) → k < length passes.items → (slice_index_or passes.items k p).number ≡ k }
    requires sources { length sources.items ≤ length passes.items }
    requires readable { All (IsReadable I.failures) sources.items }
    ensures callers { IfOk result (λ r. r.0.callers ≡ desk.callers) }
    ensures legal { IfOk result (λ r. IsLegal r.0) }
    ensures worked { IfOk result (λ r. AreWorkedThrough I.to_come I.can_fail asking sources.items passes.items r.0 r.1) }
{
    let mut back = Vec::with_capacity(alloc, passes.len())?;
    let feeders = busy_feeders(feeders, sources.len());
    let lists = deal_out(alloc, &desk, passes, sources, feeders, asking)?;
    let lists = carry_out_lists(rt, alloc, &desk, lists, gate)?;
    let failure = take_all(lists, &mut back);
    Ok((close_all(desk, back), failure))
}

/// Reads each file as one caller of a desk, several at once, and hands out the book: it has the records of the files, those of each under its
/// number, and what was asked of it. Each asker meanwhile asks four reports of it, four times, of what is stored by then. A fault is that
/// of the first file at fault, else that of the first asker.
pub fn read_all<R: Threads + Wait + Sync, I: Input + Send, G: Gate + Sync>(
    rt: &R,
    alloc: Global,
    keys: RandomState,
    clock: &Clock,
    job: &Job,
    sources: Vec<Source<I>>,
    gate: &G,
) -> Result<Book, RunFault>
    requires runnable { IsRunnable job.now }
    requires readable { All (IsReadable I.failures) sources.items }
    ensures whole { IfOk result (λ b. (inputs : List Told) → Tell I.to_come sources.items inputs → AreRead job.now inputs b) }
    ensures legal { IfOk result IsLegal }
    ensures callers { IfOk result (λ b. b.callers ≡ length sources.items + job.now.askers) }
    ensures clock { IfOk result (λ b. b.clock ≡ clock.now) }
    ensures room { IfOk result (λ b. b.room ≡ room_of job.now) }
    ensures calls { IfOk result (λ b. length b.calls ≤ most_calls) }
    ensures refused { IsWrongNumber (length sources.items + job.now.askers)
        → result ≡ Err (callers_fault (length sources.items + job.now.askers)) }
    ensures allowed { IfErr result (IsAllowed (length sources.items + job.now.askers)) }
    ensures named { IfErr result (IsNamed (length sources.items) (length sources.items + job.now.askers)) }
    ensures full { IfErr result (IsFullList (room_of job.now) sources.items) }
    ensures unprinted { IfErr result IsUnprinted }
    ensures read { IfErr result (λ f. (host : ℕ) → f ≡ RunFault.File host feed_fault_of.Read
        → (s : Source _) → I.can_fail (slice_index_or sources.items host s).input ≡ true) }
    ensures cause { IfErr result (λ f. (inputs : List Told) → Tell I.to_come sources.items inputs → IsReadCause (room_of job.now) inputs f) }
{
    let callers = callers_of(sources.len(), job.askers)?;
    let (desk, passes) = open(alloc, keys, clock, room_for(job), callers)?;
    let feeders = job.feeders as usize;
    entries_are_posts();
    let asking = Asking::beside(job);
    let (book, failure) = work_through(rt, alloc, desk, passes, sources, feeders, asking, gate)?;
    match failure {
        None => Ok(book),
        Some(failure) => Err(fault_of(failure)),
    }
}

/// Reads each file as one caller of a desk, several at once, and then prints the job's report on all of them.
fn run_on_desk<R: Threads + Wait + Sync, I: Input + Send, G: Gate + Sync, O: Output>(
    rt: &R,
    alloc: Global,
    keys: RandomState,
    clock: &Clock,
    job: &Job,
    apart: FilesApart<'_>,
    sources: Vec<Source<I>>,
    gate: &G,
    out: &mut O,
) -> Result<(), RunFault>
    requires runnable { IsRunnable job.now }
    requires some { 0 < length sources.items + job.now.askers }
    requires few { length sources.items + job.now.askers ≤ HOST_LIMIT }
    requires readable { All (IsReadable I.failures) sources.items }
    requires writable { IsWritable (O.state out.old) }
    ensures whole { OnOk result (IsWholeRun I.to_come clock.now (apart_of apart.entry) job.now sources.items (O.state out.old) (O.state out.new)) }
    ensures failed { IfErr result (IsFailedRun I.to_come I.can_fail clock.now (apart_of apart.entry) job.now sources.items (O.state out.old) (O.state out.new)) }
    ensures counts { (O.state out.new).failures ≡ (O.state out.old).failures + failed_writes result }
    ensures tells { (O.state out.new).tells ≡ (O.state out.old).tells }
{
    let kinds = kinds_of(alloc, sources.as_slice())?;
    let book = read_all(rt, alloc, keys, clock, job, sources, gate)?;
    host_order_is_enough();
    report(rt, alloc, clock, job, apart, kinds.as_slice(), book, out)?;
    finish(out)
}

/// Reads each file, several at once, and then prints the job's report on
/// all of them, in the time of a clock, with the job's offset on top, and with the files told apart as they are to be. A report of
/// connect time by file is in text that of each file alone and then that of all, and as a table the rows of each file alone. A table of
/// stays or of failed logins has the paths of their files where these are asked for. Nothing is written before every file is found to be
/// good. A fault is that of the first file at fault, else that of the first asker.
///
/// Each file is one caller of a desk. A report of connect time over all sessions, with no asker, needs no record and no desk: then the
/// files are counted one by one, in the memory of their lines and users, and with days of 12 bytes for each session too.
pub fn run<R: Threads + Wait + Sync, I: Input + Send, G: Gate + Sync, O: Output>(
    rt: &R,
    alloc: Global,
    keys: RandomState,
    clock: &Clock,
    job: &Job,
    apart: FilesApart<'_>,
    sources: Vec<Source<I>>,
    gate: &G,
    out: &mut O,
) -> Result<(), RunFault>
    requires runnable { IsRunnable job.now }
    requires readable { All (IsReadable I.failures) sources.items }
    requires writable { IsWritable (O.state out.old) }
    ensures whole { OnOk result (IsWholeRun I.to_come clock.now (apart_of apart.entry) job.now sources.items (O.state out.old) (O.state out.new)) }
    ensures failed { IfErr result (IsFailedRun I.to_come I.can_fail clock.now (apart_of apart.entry) job.now sources.items (O.state out.old) (O.state out.new)) }
    ensures callers { IsWrongNumber (length sources.items + job.now.askers)
        → result ≡ Err (callers_fault (length sources.items + job.now.askers)) }
    ensures counts { (O.state out.new).failures ≡ (O.state out.old).failures + failed_writes result }
    ensures tells { (O.state out.new).tells ≡ (O.state out.old).tells }
{
    let _callers = callers_of(sources.len(), job.askers)?;
    if is_counted(job, apart, sources.as_slice()) {
        run_counted(rt, alloc, keys, clock, job, sources, out)
    } else {
        run_on_desk(rt, alloc, keys, clock, job, apart, sources, gate, out)
    }
}
