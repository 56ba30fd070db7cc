//! The worked script of a desk of two callers: a post of the first, a report of the second, and then the other way round.
ghost use Rattle.std.specs.Prelude.{◌≡◌};
ghost use Rattle.tally_answers.specs.Answers.{IsAskable};

use crate::desk::makers::{hour, makes};
use std::alloc::Global;
use std::process::Abort;
use std::sync::Wait;
use tally_book::{Answer, AskFault, Counts, Question, Receipt};
use tally_desk::{Desk, Pass};
use tally_records::{EVERY_LOGIN, LoginChoice};
use tally_usage::Order;

/// What a report answers: the number of calls with this one, what was stored, and how many rows and which total it has.
pub(super) type Report = (u64, Counts, Option<(usize, u64)>);

pub(super) fn counts(logins: u64, procs: u64) -> Counts {
    Counts { logins, procs }
}

const TOTAL: Question = Question::Connect {
    by_day: false,
    by_user: false,
    offset: 0,
    choice: EVERY_LOGIN,
    until: None,
};

const COMMANDS: Question = Question::Commands {
    order: Order::Cpu,
    reverse: false,
    all: false,
};

/// How many rows a report has, and its total: of seconds, or of runs.
fn rows_of(answer: &Answer) -> Option<(usize, u64)> {
    match answer {
        Answer::Connect { rows, total } => Some((rows.len(), *total)),
        Answer::Commands { rows, total } => Some((rows.len(), total.count)),
        _ => None,
    }
}

/// What a desk answers to a question.
fn report<R: Abort + Wait>(
    rt: &R,
    alloc: Global,
    desk: &Desk,
    pass: &mut Pass,
    question: &Question,
) -> Report
    requires desk { pass.old.desk ≡ desk.now.id }
    requires askable { IsAskable question.now }
    ensures { pass.new.desk ≡ desk.now.id }
{
    let served = desk.ask(rt, alloc, pass, question).expect(rt, "a report");
    let report = (served.call, served.at, rows_of(&served.answer));
    drop(served);
    report
}

/// What the first post and the first report of the script answer.
pub(super) fn begin<R: Abort + Wait>(
    rt: &R,
    alloc: Global,
    desk: &Desk,
    first: &mut Pass,
    second: &mut Pass,
) -> (Receipt, Report)
    requires first { first.old.desk ≡ desk.now.id }
    requires second { second.old.desk ≡ desk.now.id }
    ensures first { first.new.desk ≡ desk.now.id }
    ensures second { second.new.desk ≡ desk.now.id }
{
    let receipt = desk
        .post(rt, first, &hour(rt, alloc))
        .expect(rt, "a receipt");
    (receipt, report(rt, alloc, desk, second, &TOTAL))
}

/// Why a report on a host that is not there is refused after that, and how many calls the desk then has.
pub(super) fn refuse<R: Abort + Wait>(
    rt: &R,
    alloc: Global,
    desk: &Desk,
    first: &mut Pass,
    second: &mut Pass,
) -> (Option<AskFault>, u64)
    requires first { first.old.desk ≡ desk.now.id }
    requires second { second.old.desk ≡ desk.now.id }
{
    let _begun = begin(rt, alloc, desk, first, second);
    let question = Question::Last {
        host: 2,
        limit: None,
        choice: LoginChoice::every(),
        until: None,
    };
    let fault = desk.ask(rt, alloc, second, &question).err();
    (fault, desk.stored(second))
}

/// What the rest of the script answers, and how many calls the desk then has.
pub(super) fn finish<R: Abort + Wait>(
    rt: &R,
    alloc: Global,
    desk: &Desk,
    first: &mut Pass,
    second: &mut Pass,
) -> (Receipt, Report, u64)
    requires first { first.old.desk ≡ desk.now.id }
    requires second { second.old.desk ≡ desk.now.id }
{
    let _begun = begin(rt, alloc, desk, first, second);
    let receipt = desk
        .post(rt, second, &makes(rt, alloc))
        .expect(rt, "a receipt");
    let answered = report(rt, alloc, desk, first, &COMMANDS);
    (receipt, answered, desk.stored(second))
}
