//! A run of all reports over two login files in memory, with two feeders and an asker.
ghost use Rattle.std.specs.Prelude.{◌≡◌, IfOk};

use std::alloc::{AllocError, Global};
use std::hash::RandomState;
use std::sync::Wait;
use std::thread::Threads;
use tally_book::AskFault;
use tally_cli::{FilesApart, Form, Job, Report, RunFault, Source, run};
use tally_clock::Clock;
use tally_desk::{Bytes, FeedFault, OpenGate};
use tally_records::Kind;
use tally_scripts::{Stopped, Watched, after, login_record, print_watched, put};

/// All reports, by two feeders and beside an asker.
const JOB: Job = Job {
    report: Report::All,
    form: Form::Text,
    millions: 1,
    feeders: 2,
    askers: 1,
    offset: 0,
    until: None,
};

/// A file of two blocks: a login, 1,023 records that are no event, and the logout at the second.
fn session(alloc: Global, user: &str, end: i32) -> Result<Source<Bytes>, AllocError> {
    let mut bytes = vec![in alloc; 0u8; 393_600]?;
    put(bytes.as_mut_slice(), 0, &login_record(7, "tty1", user, 0));
    put(
        bytes.as_mut_slice(),
        393_216,
        &login_record(8, "tty1", "", end),
    );
    Ok(Source {
        kind: Kind::Login,
        input: Bytes::new(bytes),
    })
}

fn two_files(alloc: Global) -> Result<Vec<Source<Bytes>>, AllocError> {
    let mut files = Vec::new(alloc);
    files.push(session(alloc, "ann", 3600)?)?;
    files.push(session(alloc, "bob", 7200)?)?;
    Ok(files)
}

/// The files, made again where memory was refused.
fn files(alloc: Global) -> Result<Vec<Source<Bytes>>, AllocError> {
    match two_files(alloc) {
        Err(_) => two_files(alloc),
        made => made,
    }
}

/// Runs once over the files.
fn run_once<R: Threads + Wait + Sync>(
    rt: &R,
    alloc: Global,
    keys: RandomState,
    out: &mut Watched,
) -> Result<(), RunFault>
    requires { out.old.kept.failures ≡ 0 }
{
    let files = files(alloc)?;
    let clock = Clock::utc(alloc);
    let apart = FilesApart::together();
    let outcome = run(rt, alloc, keys, &clock, &JOB, apart, files, &OpenGate, out);
    drop(clock);
    outcome
}

/// Whether a run may end so that was refused memory, having written this part of its output.
fn is_refusal(fault: RunFault, out: &Watched, whole: &Watched) -> bool {
    let written = out.kept.bytes();
    match fault {
        RunFault::File {
            fault: FeedFault::Memory,
            ..
        }
        | RunFault::Asker {
            fault: AskFault::Memory,
            ..
        } => written.is_empty() && !out.failed,
        RunFault::Memory => whole.kept.bytes().starts_with(written) && !out.failed,
        RunFault::Write => whole.kept.bytes().starts_with(written) && out.failed,
        _ => false,
    }
}

/// Sees that a run that was refused memory ended as it may, having written a first part of what it wrote when it was
/// begun again.
fn see_refusal(
    again: Result<(), RunFault>,
    fault: RunFault,
    part: &Watched,
    whole: &Watched,
) -> Result<(), Stopped> {
    if again.is_err() {
        return Err(Stopped::Memory);
    }
    if is_refusal(fault, part, whole) {
        Ok(())
    } else {
        Err(Stopped::Refused("run"))
    }
}

/// What a run writes that is begun again, of which this part was written before memory was refused.
fn text_after<R: Threads + Wait + Sync>(
    rt: &R,
    alloc: Global,
    keys: RandomState,
    fault: RunFault,
    part: &Watched,
) -> Result<Watched, Stopped> {
    let mut whole = Watched::new(alloc);
    let again = run_once(rt, alloc, keys, &mut whole);
    let seen = see_refusal(again, fault, part, &whole);
    after(seen, whole)
}

/// What a run writes, begun again where memory was refused.
fn text<R: Threads + Wait + Sync>(
    rt: &R,
    alloc: Global,
    keys: RandomState,
) -> Result<Watched, Stopped> {
    let mut first = Watched::new(alloc);
    match run_once(rt, alloc, keys, &mut first) {
        Ok(()) => Ok(first),
        Err(fault) => {
            let whole = text_after(rt, alloc, keys, fault, &first);
            drop(first);
            whole
        }
    }
}

/// Prints what a run writes.
pub(crate) fn script<R: Print + AllocGlobal + Threads + Wait + Sync>(
    rt: &R,
    keys: RandomState,
) -> Result<(), Stopped> {
    print_watched(rt, text(rt, rt.alloc(), keys)?)
}
