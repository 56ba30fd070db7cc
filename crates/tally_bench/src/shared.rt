//! A book that is asked while it is posted to, as a desk's callers do.
ghost use Rattle.std.specs.Prelude.{◌≡◌, IfOk};
ghost use Rattle.tally_answers.specs.Answers.{IsAskable};

use crate::made::Made;
use crate::runs::{BUSY, Bench};
use crate::stopped::Stopped;
use std::alloc::Global;
use std::hash::RandomState;
use std::sync::Wait;
use tally_book::Question;
use tally_clock::Clock;
use tally_desk::{Desk, Pass};
use tally_print::print_answer;
use tally_records::{Batch, LoginChoice};
use tally_usage::Order;

/// A desk of two callers and their passes.
fn open(alloc: Global, keys: RandomState) -> Result<(Desk, Pass, Pass), Stopped>
    ensures first { IfOk result (λ r. r.1.desk ≡ r.0.id) }
    ensures second { IfOk result (λ r. r.2.desk ≡ r.0.id) }
{
    let (desk, mut passes) = Desk::open(alloc, keys, 2)?;
    let second = passes.pop().ok_or(Stopped::Refused("open"))?;
    let first = passes.pop().ok_or(Stopped::Refused("open"))?;
    Ok((desk, first, second))
}

/// Asks, and adds the answer as it is printed.
fn ask<R: AllocGlobal + Wait>(
    rt: &R,
    bench: &mut Bench,
    desk: &Desk,
    pass: &mut Pass,
    question: &Question,
) -> Result<(), Stopped>
    requires desk { pass.old.desk ≡ desk.now.id }
    requires askable { IsAskable question.now }
    ensures { pass.new.desk ≡ pass.old.desk }
{
    let alloc = rt.alloc();
    let served = desk.ask(rt, alloc, pass, question)?;
    print_answer(
        alloc,
        &Clock::utc(alloc),
        &served.answer,
        0,
        &mut bench.digest,
        None,
    )?;
    Ok(())
}

/// The questions that are asked in turn.
fn question(turn: u32) -> Question
    ensures { IsAskable result }
{
    match turn % 4 {
        0 => Question::Last {
            host: 0,
            limit: Some(20),
            choice: LoginChoice::every(),
            until: None,
        },
        1 => Question::Connect {
            by_day: false,
            by_user: true,
            offset: 0,
            choice: LoginChoice::every(),
            until: None,
        },
        2 => Question::Commands {
            order: Order::Cpu,
            reverse: false,
            all: false,
        },
        _ => Question::Users {
            order: Order::Calls,
            reverse: false,
        },
    }
}

/// The files of two hosts.
#[derive(Drop)]
struct Feed {
    logins: Made,
    processes: Made,
}

impl Feed {
    fn new(alloc: Global, bench: &mut Bench) -> Result<Feed, Stopped> {
        Ok(Feed {
            logins: Made::logins(alloc, bench.numbers.next(), 0, BUSY)?,
            processes: Made::processes(alloc, bench.numbers.next(), 0, false)?,
        })
    }
}

/// Posts a batch of login records.
fn post_logins<R: AllocGlobal + Wait>(
    rt: &R,
    feed: &mut Feed,
    desk: &Desk,
    pass: &mut Pass,
) -> Result<(), Stopped>
    requires { pass.old.desk ≡ desk.now.id }
    ensures { pass.new.desk ≡ pass.old.desk }
{
    let batch = Batch::logins(rt.alloc(), feed.logins.next_part())?;
    desk.post(rt, pass, &batch)?;
    Ok(())
}

/// Posts a batch of process records.
fn post_processes<R: AllocGlobal + Wait>(
    rt: &R,
    feed: &mut Feed,
    desk: &Desk,
    pass: &mut Pass,
) -> Result<(), Stopped>
    requires { pass.old.desk ≡ desk.now.id }
    ensures { pass.new.desk ≡ pass.old.desk }
{
    let batch = Batch::procs(rt.alloc(), feed.processes.next_part())?;
    desk.post(rt, pass, &batch)?;
    Ok(())
}

/// Posts batches of both kinds, and asks a question, which differs from turn to turn.
fn turns<R: AllocGlobal + Wait>(
    rt: &R,
    bench: &mut Bench,
    feed: &mut Feed,
    desk: &Desk,
    first: &mut Pass,
    second: &mut Pass,
    count: u32,
) -> Result<(), Stopped>
    requires first { first.old.desk ≡ desk.now.id }
    requires second { second.old.desk ≡ desk.now.id }
{
    for turn in 0..count {
        post_logins(rt, feed, desk, first)?;
        post_processes(rt, feed, desk, second)?;
        ask(rt, bench, desk, first, &question(turn))?;
    }
    Ok(())
}

/// Books that are posted to and asked by turns.
pub(crate) fn shared<R: AllocGlobal + Wait>(rt: &R, bench: &mut Bench) -> Result<(), Stopped> {
    for _ in 0..4 {
        let (desk, mut first, mut second) = open(rt.alloc(), bench.keys)?;
        let mut feed = Feed::new(rt.alloc(), bench)?;
        let count = bench.parts.min(1000);
        turns(rt, bench, &mut feed, &desk, &mut first, &mut second, count)?;
    }
    Ok(())
}
