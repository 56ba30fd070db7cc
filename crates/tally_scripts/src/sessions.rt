//! Sessions of two hosts, to which a batch with three new users and lines is added.
ghost use Rattle.std.specs.Prelude.{◌≡◌, ◌<◌, ◌≤◌, ◌+◌, IfOk, OnOk, Some, length};
ghost use Rattle.tally_records.specs.Records.{IsLogins, logins_in, record_count};

use crate::bytes::{login_record, logins, put, session};
use crate::days;
use crate::session_answers::{Answers, Seen, answers_of, are_same, seen_of};
use crate::stopped::{Stopped, see, stop};
use crate::window::{grant_growths, refuse_growths};
use std::alloc::Global;
use std::hash::RandomState;
use tally_records::{Batch, BatchFault, Memory};
use tally_sessions::{DayTime, DayUserTime, Sessions, Stay, UserTime};

/// The most entries of sessions.
const ENTRY_LIMIT: usize = 1_048_576;

fn new_sessions(alloc: Global, keys: RandomState) -> Result<Sessions, Memory>
    ensures { IfOk result (λ s. s.hosts ≡ 2) }
{
    match Sessions::new(alloc, keys, 2) {
        Err(_) => Sessions::new(alloc, keys, 2),
        made => made,
    }
}

/// Whether the answers are still these.
fn are_still(alloc: Global, sessions: &Sessions, before: &Answers) -> Result<bool, Memory>
    requires { sessions.now.hosts ≡ 2 }
{
    let now = answers_of(alloc, sessions)?;
    let are_still = are_same(before, &now);
    drop(now);
    Ok(are_still)
}

/// Sees that a call left the sessions as they were, where it was refused.
fn see_answered(
    alloc: Global,
    sessions: &Sessions,
    before: Answers,
    is_answered: bool,
) -> Result<(), Stopped>
    requires { sessions.now.hosts ≡ 2 }
{
    let are_kept = if is_answered {
        Ok(true)
    } else {
        are_still(alloc, sessions, &before)
    };
    drop(before);
    see(are_kept?, "sessions")
}

/// Makes sessions ready for a batch, and again where memory was refused.
fn prepare(alloc: Global, sessions: &mut Sessions, host: u32, batch: &Batch) -> Result<(), Stopped>
    requires host { host < sessions.old.hosts }
    requires hosts { sessions.old.hosts ≡ 2 }
    requires kind { IsLogins batch.now }
    requires room { length sessions.old.entries + record_count batch.now ≤ 1048576 }
    ensures ready { OnOk result (sessions.new ≡ record sessions.old { ready = Some (record { host = host; records = logins_in batch.now }) }) }
    ensures hosts { sessions.new.hosts ≡ 2 }
{
    let before = answers_of(alloc, sessions)?;
    let is_ready = sessions.prepare(host, batch).is_ok();
    see_answered(alloc, sessions, before, is_ready)?;
    if !is_ready {
        sessions.prepare(host, batch)?;
    }
    Ok(())
}

/// Adds a batch, which takes no memory once the sessions are ready for it.
fn add(alloc: Global, sessions: &mut Sessions, host: u32, batch: &Batch) -> Result<Seen, Stopped>
    requires hosts { sessions.old.hosts ≡ 2 }
    requires host { host < 2 }
    requires kind { IsLogins batch.now }
    ensures { sessions.new.hosts ≡ 2 }
{
    if sessions.entries().len() + batch.len() > ENTRY_LIMIT {
        return Err(Stopped::Refused("batch"));
    }
    prepare(alloc, sessions, host, batch)?;
    refuse_growths(alloc);
    sessions.add(host, batch);
    let seen = seen_of(sessions);
    grant_growths(alloc);
    Ok(seen)
}

/// A session of one hour.
fn hour(alloc: Global) -> Result<Batch, BatchFault>
    ensures { IfOk result IsLogins }
{
    logins(alloc, &session("dan", 0, 3600))
}

/// Three users, one over midnight and one who never logs out.
fn three(alloc: Global) -> Result<Batch, BatchFault>
    ensures { IfOk result IsLogins }
{
    let mut bytes = [0; 1920];
    put(&mut bytes, 0, &login_record(7, "tty1", "ann", 84_600));
    put(&mut bytes, 384, &login_record(7, "tty2", "bob", 85_000));
    put(&mut bytes, 768, &login_record(8, "tty2", "", 86_400));
    put(&mut bytes, 1152, &login_record(7, "tty3", "cid", 86_400));
    put(&mut bytes, 1536, &login_record(8, "tty1", "", 88_200));
    logins(alloc, &bytes)
}

fn print_stays<R: Print>(rt: &R, stays: &[Stay]) -> Result<(), Stopped> {
    for stay in stays {
        println!(rt; "stay {} {}", stay.user[0] as char, stay.length)?;
    }
    Ok(())
}

fn print_users<R: Print>(rt: &R, times: &[UserTime]) -> Result<(), Stopped> {
    for time in times {
        println!(rt; "user {} {}", time.user[0] as char, time.seconds)?;
    }
    Ok(())
}

fn print_days<R: Print>(rt: &R, times: &[DayTime]) -> Result<(), Stopped> {
    for time in times {
        println!(rt; "day {} {}", time.day, time.seconds)?;
    }
    Ok(())
}

pub(crate) fn print_both<R: Print>(rt: &R, times: &[DayUserTime]) -> Result<(), Stopped> {
    for time in times {
        println!(rt;
            "day {} user {} {}",
            time.day, time.user[0] as char, time.seconds
        )?;
    }
    Ok(())
}

/// Adds a batch that was made.
fn add_made(
    alloc: Global,
    sessions: &mut Sessions,
    host: u32,
    made: Result<Batch, BatchFault>,
) -> Result<Seen, Stopped>
    requires hosts { sessions.old.hosts ≡ 2 }
    requires host { host < 2 }
    requires kind { IfOk made IsLogins }
    ensures { sessions.new.hosts ≡ 2 }
{
    let batch = made?;
    let added = add(alloc, sessions, host, &batch);
    drop(batch);
    added
}

/// Adds a batch under each host.
fn add_both(alloc: Global, sessions: &mut Sessions) -> Result<Seen, Stopped>
    requires { sessions.old.hosts ≡ 2 }
    ensures { sessions.new.hosts ≡ 2 }
{
    add_made(alloc, sessions, 0, hour(alloc))?;
    add_made(alloc, sessions, 1, three(alloc))
}

/// Prints what takes no memory to ask.
fn print_seen<R: Print>(rt: &R, seen: Seen) -> Result<(), Stopped> {
    stop(println!(rt;
        "sessions: {} entries, {} and {} seconds",
        seen.entries, seen.total, seen.of_ann
    ))
}

/// Prints the lists among the answers.
fn print_lists<R: Print>(rt: &R, answers: &Answers) -> Result<(), Stopped> {
    print_stays(rt, answers.of_second_host.as_slice())?;
    print_users(rt, answers.by_user.as_slice())?;
    print_days(rt, answers.by_day.as_slice())?;
    print_both(rt, answers.by_both.as_slice())
}

/// Prints what the sessions answer.
fn print_answers<R: Print + AllocGlobal>(rt: &R, sessions: &Sessions) -> Result<(), Stopped>
    requires { sessions.now.hosts ≡ 2 }
{
    let answers = answers_of(rt.alloc(), sessions)?;
    let printed = print_lists(rt, &answers);
    drop(answers);
    printed
}

/// Adds both batches, and prints what the sessions answer then.
fn print_all<R: Print + AllocGlobal>(rt: &R, sessions: &mut Sessions) -> Result<(), Stopped>
    requires { sessions.old.hosts ≡ 2 }
{
    print_seen(rt, add_both(rt.alloc(), sessions)?)?;
    print_answers(rt, sessions)?;
    days::print_days(rt, sessions)
}

/// Prints what the sessions answer once both batches are added.
pub(crate) fn script<R: Print + AllocGlobal>(rt: &R, keys: RandomState) -> Result<(), Stopped> {
    let mut sessions = new_sessions(rt.alloc(), keys)?;
    let printed = print_all(rt, &mut sessions);
    drop(sessions);
    printed
}
