//! The sessions that a book of running times and a night hands out: their stays one by one, and printed as sections.
ghost use Rattle.std.specs.Prelude.{◌≡◌, ◌<◌, All, IfOk};
ghost use Rattle.tally_answers.specs.Answers.{HasDays};
ghost use Rattle.tally_print.specs.Section.{NamesHostBelow, answer_in};

use crate::book::new_book;
use crate::reports::post_nights;
use crate::stopped::{Stopped, after, stop};
use crate::watched::{Watched, print_watched, see_part};
use crate::window::{grant_growths, refuse_growths};
use std::alloc::Global;
use std::hash::RandomState;
use std::thread::Threads;
use tally_book::{Answer, Book};
use tally_clock::Clock;
use tally_print::{PrintFault, Section, Table, print_all_sections, print_section_table};
use tally_records::{List, LoginChoice, Memory};
use tally_sessions::{Sessions, Stay};

/// A book of both, of which nothing has been asked.
fn book(alloc: Global, keys: RandomState) -> Result<Book, Stopped>
    ensures { IfOk result (λ b. b.callers ≡ 2) }
{
    let mut book = new_book(alloc, keys)?;
    let posted = post_nights(alloc, &mut book);
    after(posted, book)
}

/// Its sessions.
fn sessions_once<R: AllocGlobal + Threads + Sync>(
    rt: &R,
    keys: RandomState,
) -> Result<Sessions, Stopped>
    ensures { IfOk result (λ s. s.hosts ≡ 2) }
{
    stop(book(rt.alloc(), keys)?.into_sessions(rt, rt.alloc(), 2))
}

/// The same, of a book that is made again where memory was refused.
fn sessions<R: AllocGlobal + Threads + Sync>(rt: &R, keys: RandomState) -> Result<Sessions, Stopped>
    ensures { IfOk result (λ s. s.hosts ≡ 2) }
{
    match sessions_once(rt, keys) {
        Err(Stopped::Memory) => sessions_once(rt, keys),
        made => made,
    }
}

/// The stays of a host, asked for again where memory was refused.
fn stays(alloc: Global, sessions: &Sessions, host: u32) -> Result<List<Stay>, Memory>
    requires { host < sessions.now.hosts }
{
    let every = LoginChoice::every();
    match sessions.stays(alloc, host, None, &every, None) {
        Err(_) => sessions.stays(alloc, host, None, &every, None),
        answered => answered,
    }
}

/// Whether the stays one by one are these, also where one is written over another.
fn are_stays(sessions: &Sessions, host: u32, stays: &[Stay]) -> bool
    requires { host < sessions.now.hosts }
{
    let count = sessions.stay_count(host);
    let Some(mut written) = stays.first().copied() else {
        return count == 0;
    };
    for place in 0..count {
        let latest = sessions.latest_stay(host, place, None);
        sessions.put_latest_stay(host, place, None, &mut written);
        if written != latest || stays.get(place) != Some(&latest) {
            return false;
        }
    }
    count == stays.len()
}

/// Prints how many stays a host has, which takes no memory to see, as little as each of them.
fn print_count<R: Print + AllocGlobal>(
    rt: &R,
    sessions: &Sessions,
    host: u32,
) -> Result<(), Stopped>
    requires { host < sessions.now.hosts }
{
    let stays = stays(rt.alloc(), sessions, host)?;
    refuse_growths(rt.alloc());
    let (count, are_same) = (stays.len(), are_stays(sessions, host, stays.as_slice()));
    grant_growths(rt.alloc());
    drop(stays);
    stop(println!(rt; "stays: {count} {are_same}"))
}

/// Writes sections as lines or as one table.
fn put_sections(
    alloc: Global,
    sessions: &Sessions,
    sections: &[Section],
    is_table: bool,
    out: &mut Watched,
) -> Result<(), PrintFault>
    requires failures { out.old.kept.failures ≡ 0 }
    requires hosts { All (NamesHostBelow sessions.now.hosts) sections.now }
    requires days { All (λ s. HasDays (answer_in sessions.now.entries s)) sections.now }
{
    let clock = Clock::utc(alloc);
    let printed = if is_table {
        let table = Table::Stays { within: None };
        print_section_table(alloc, &clock, sessions, table, sections, 0, out)
    } else {
        print_all_sections(alloc, &clock, sessions, sections, 0, out, None)
    };
    drop(clock);
    printed
}

/// Writes the stays of both hosts, of one only the latest, and a total.
fn put(
    alloc: Global,
    sessions: &Sessions,
    is_table: bool,
    out: &mut Watched,
) -> Result<(), PrintFault>
    requires failures { out.old.kept.failures ≡ 0 }
    requires hosts { sessions.now.hosts ≡ 2 }
{
    let sections = [
        Section::Stays {
            host: 1,
            limit: None,
            choice: LoginChoice::every(),
            until: None,
        },
        Section::Stays {
            host: 0,
            limit: Some(2),
            choice: LoginChoice::every(),
            until: None,
        },
        Section::Answered(Answer::Connect {
            rows: List::new(alloc),
            total: 3600,
        }),
    ];
    let printed = put_sections(alloc, sessions, &sections, is_table, out);
    drop(sections);
    printed
}

/// Their text, of which a part was printed before memory was refused.
fn text_after(
    alloc: Global,
    sessions: &Sessions,
    is_table: bool,
    fault: PrintFault,
    part: &Watched,
) -> Result<Watched, Stopped>
    requires { sessions.now.hosts ≡ 2 }
{
    let mut whole = Watched::new(alloc);
    let again = put(alloc, sessions, is_table, &mut whole);
    let seen = see_part(again, fault, part, &whole);
    after(seen, whole)
}

/// Their text, printed again where memory was refused.
fn text(alloc: Global, sessions: &Sessions, is_table: bool) -> Result<Watched, Stopped>
    requires { sessions.now.hosts ≡ 2 }
{
    let mut first = Watched::new(alloc);
    match put(alloc, sessions, is_table, &mut first) {
        Ok(()) => Ok(first),
        Err(fault) => {
            let whole = text_after(alloc, sessions, is_table, fault, &first);
            drop(first);
            whole
        }
    }
}

/// Prints what the sessions have, as sections too.
fn print_all<R: Print + AllocGlobal>(rt: &R, sessions: &Sessions) -> Result<(), Stopped>
    requires { sessions.now.hosts ≡ 2 }
{
    for host in 0..2 {
        print_count(rt, sessions, host)?;
    }
    for is_table in [false, true] {
        print_watched(rt, text(rt.alloc(), sessions, is_table)?)?;
    }
    Ok(())
}

/// Prints what the sessions of a book have.
pub(crate) fn script<R: Print + AllocGlobal + Threads + Sync>(
    rt: &R,
    keys: RandomState,
) -> Result<(), Stopped> {
    let sessions = sessions(rt, keys)?;
    let printed = print_all(rt, &sessions);
    drop(sessions);
    printed
}
