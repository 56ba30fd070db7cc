//! Calls that take no memory, while each growth is refused.

use crate::book::{hour, make_vec, makes};
use crate::stopped::{Stopped, both, stop};
use crate::window::{grant_growths, refuse_growths};
use std::alloc::Global;
use std::sync::Arc;
use tally_desk::{Bytes, Desk, Input, Pass};
use tally_print::{Kept, Output};
use tally_records::{Batch, List, Logins, Memory, PackedProc, comp};

/// Prints what an empty list answers.
pub(crate) fn print_list<R: Print + AllocGlobal>(rt: &R) -> Result<(), Stopped> {
    refuse_growths(rt.alloc());
    let list: List<u64> = List::new(rt.alloc());
    let (count, first, slice) = (list.len(), list.get(0), list.as_slice().len());
    drop(list);
    grant_growths(rt.alloc());
    stop(println!(rt; "list: {count} {slice} {}", first.is_some()))
}

/// Prints what both batches answer, and the number that a word of acct(5) stands for.
fn print_both<R: Print + AllocGlobal>(rt: &R, hour: &Batch, makes: &Batch) -> Result<(), Stopped> {
    refuse_growths(rt.alloc());
    let is_one_kind = hour.kind() == makes.kind();
    let (logins, procs) = (hour.len(), makes.len());
    let records = (hour.login_at(1), makes.proc_at(0));
    let number = comp(0x2001);
    grant_growths(rt.alloc());
    println!(rt; "batches: {logins} {procs} {is_one_kind} {number}")?;
    let (Some(logout), Some(run)) = records else {
        return Err(Stopped::Changed("a batch"));
    };
    stop(println!(rt; "records: {} {}", logout.time, run.user_ticks))
}

/// The process records of a batch, shared again where memory was refused.
fn shared_procs(batch: &Batch) -> Result<Option<Arc<Vec<PackedProc>, Global>>, Memory> {
    match batch.share_procs() {
        Err(_) => batch.share_procs(),
        shared => shared,
    }
}

/// The login records of a batch, shared again where memory was refused.
fn shared_logins(batch: &Batch) -> Result<Option<Arc<Logins, Global>>, Memory> {
    match batch.share_logins() {
        Err(_) => batch.share_logins(),
        shared => shared,
    }
}

/// Whether the texts of each record, written over those of the one before, are those that it has.
fn are_texts(logins: &Logins) -> bool {
    let (mut line, mut user, mut remote) = ([1; 32], [1; 32], [1; 256]);
    for index in 0..logins.len() {
        logins.put_texts(index, &mut line, &mut user, &mut remote);
        let Some(login) = logins.get(index) else {
            return false;
        };
        if login.line != line || login.user != user || login.remote != remote {
            return false;
        }
    }
    true
}

/// Prints how many login records a batch shares, and whether their texts are the same one by one.
fn print_shared_logins<R: Print + AllocGlobal>(rt: &R, batch: &Batch) -> Result<(), Stopped> {
    let Some(logins) = shared_logins(batch)? else {
        return Err(Stopped::Changed("a batch"));
    };
    refuse_growths(rt.alloc());
    let (count, are_texts) = (logins.len(), are_texts(&logins));
    grant_growths(rt.alloc());
    drop(logins);
    stop(println!(rt; "shared: {count} {are_texts}"))
}

/// Prints how many process records a batch shares, and whether they are the same.
fn print_shared_procs<R: Print + AllocGlobal>(rt: &R, batch: &Batch) -> Result<(), Stopped> {
    let Some(procs) = shared_procs(batch)? else {
        return Err(Stopped::Changed("a batch"));
    };
    refuse_growths(rt.alloc());
    let (count, are_same) = (procs.len(), procs.as_slice() == batch.packed_procs());
    grant_growths(rt.alloc());
    drop(procs);
    stop(println!(rt; "shared: {count} {are_same}"))
}

/// Prints what two batches answer and share.
fn print_two<R: Print + AllocGlobal>(rt: &R, hour: &Batch, makes: &Batch) -> Result<(), Stopped> {
    print_both(rt, hour, makes)?;
    print_shared_logins(rt, hour)?;
    print_shared_procs(rt, makes)
}

/// Prints what batches answer and share.
pub(crate) fn print_batches<R: Print + AllocGlobal>(rt: &R) -> Result<(), Stopped> {
    let batches = both(hour(rt.alloc()), makes(rt.alloc()))?;
    let printed = print_two(rt, &batches.0, &batches.1);
    drop(batches);
    printed
}

/// Prints how many bytes an input over memory gives.
pub(crate) fn print_input<R: Print + AllocGlobal>(rt: &R) -> Result<(), Stopped> {
    let bytes = make_vec(rt.alloc())?;
    let mut buffer = [0; 100];
    refuse_growths(rt.alloc());
    let mut input = Bytes::new(bytes);
    let first = input.take(&mut buffer).unwrap_or(0);
    let second = input.take(&mut buffer).unwrap_or(0);
    drop(input);
    grant_growths(rt.alloc());
    stop(println!(rt; "input: {first} {second}"))
}

/// Prints what an output over memory answers to which nothing was written.
pub(crate) fn print_output<R: Print + AllocGlobal>(rt: &R) -> Result<(), Stopped> {
    refuse_growths(rt.alloc());
    let mut kept = Kept::new(rt.alloc());
    let is_finished = kept.finish().is_ok();
    let written = kept.bytes().len();
    drop(kept);
    grant_growths(rt.alloc());
    stop(println!(rt; "output: {written} {is_finished}"))
}

/// Prints the numbers of a desk and its passes.
pub(crate) fn print_desk<R: Print + AllocGlobal>(
    rt: &R,
    desk: &Desk,
    first: &Pass,
    second: &Pass,
) -> Result<(), Stopped> {
    refuse_growths(rt.alloc());
    let (callers, least, greatest) = (desk.callers(), first.number(), second.number());
    grant_growths(rt.alloc());
    stop(println!(rt; "desk: {callers} callers, {least} to {greatest}"))
}
