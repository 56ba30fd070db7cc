//! The worked script on a desk of two callers, whose passes one thread uses.
ghost use Rattle.std.specs.Prelude.{◌≡◌, All, IfOk};
ghost use Rattle.tally_answers.specs.Answers.{HasDays, IsAskable};

use crate::book::{COMMANDS, TOTAL, count_parts, hour, makes};
use crate::printing::{print_receipt, print_refusal, print_served};
use crate::stopped::{Stopped, stop};
use crate::window::{grant_growths, refuse_growths};
use crate::{feeds, quiet};
use std::alloc::Global;
use std::hash::RandomState;
use std::sync::Wait;
use tally_book::{AskFault, Book, PostFault, Question, Receipt, Served};
use tally_desk::{Desk, OpenFault, Pass};
use tally_records::{Batch, LoginChoice};

/// The calls of a script on a desk of two callers.
#[derive(Clone, Copy)]
pub(crate) enum Calls {
    /// Posts and reports.
    All,
    /// An input that is fed, and a question that is asked in rounds.
    Feeds,
    /// The numbers of the desk and its passes.
    Numbers,
}

/// What a caller of the worked script does.
#[derive(Clone, Copy)]
enum Deed {
    PostHour,
    PostMakes,
    AskTotal,
    AskCommands,
    AskForNobody,
    SeeStored,
}

/// Whose turn it is, and what that caller does.
#[derive(Clone, Copy)]
enum Turn {
    First(Deed),
    Second(Deed),
}

/// The worked script.
const TURNS: [Turn; 9] = [
    Turn::First(Deed::PostHour),
    Turn::Second(Deed::SeeStored),
    Turn::Second(Deed::AskTotal),
    Turn::Second(Deed::AskForNobody),
    Turn::Second(Deed::PostMakes),
    Turn::First(Deed::SeeStored),
    Turn::First(Deed::AskCommands),
    Turn::First(Deed::SeeStored),
    Turn::Second(Deed::SeeStored),
];

/// A desk of two callers and their passes, opened again where memory was refused.
fn open(alloc: Global, keys: RandomState) -> Result<(Desk, Vec<Pass>), OpenFault>
    ensures { IfOk result (λ r. All (λ p. p.desk ≡ r.0.id) r.1.items) }
{
    match Desk::open(alloc, keys, 2) {
        Err(OpenFault::Memory) => Desk::open(alloc, keys, 2),
        opened => opened,
    }
}

/// The book of a desk, which it takes no memory to close.
fn close(alloc: Global, desk: Desk, passes: Vec<Pass>) -> Result<Book, Stopped>
    requires { All (λ p. p.desk ≡ desk.id) passes.items }
{
    refuse_growths(alloc);
    let closed = desk.close(passes);
    grant_growths(alloc);
    closed.ok().ok_or(Stopped::Refused("close"))
}

/// Posts, and posts again where memory was refused.
fn post_to<R: Wait>(rt: &R, desk: &Desk, pass: &mut Pass, batch: &Batch) -> Result<Receipt, Stopped>
    requires { pass.old.desk ≡ desk.now.id }
    ensures { pass.new.desk ≡ pass.old.desk }
{
    let before = desk.stored(pass);
    match desk.post(rt, pass, batch) {
        Err(PostFault::Memory) => {}
        posted => return stop(posted),
    }
    if desk.stored(pass) != before {
        return Err(Stopped::Changed("the desk"));
    }
    stop(desk.post(rt, pass, batch))
}

/// Posts a batch.
pub(crate) fn post<R: Wait>(
    rt: &R,
    desk: &Desk,
    pass: &mut Pass,
    batch: Result<Batch, Stopped>,
) -> Result<Receipt, Stopped>
    requires { pass.old.desk ≡ desk.now.id }
    ensures { pass.new.desk ≡ pass.old.desk }
{
    let batch = batch?;
    let posted = post_to(rt, desk, pass, &batch);
    drop(batch);
    posted
}

/// Asks, and asks again where memory was refused.
fn ask<R: Wait>(
    rt: &R,
    alloc: Global,
    desk: &Desk,
    pass: &mut Pass,
    question: &Question,
) -> Result<Served, Stopped>
    requires desk { pass.old.desk ≡ desk.now.id }
    requires askable { IsAskable question.now }
    ensures desk { pass.new.desk ≡ pass.old.desk }
    ensures days { IfOk result (λ served. HasDays served.answer) }
{
    let before = desk.stored(pass);
    match desk.ask(rt, alloc, pass, question) {
        Err(AskFault::Memory) => {}
        asked => return stop(asked),
    }
    if desk.stored(pass) != before {
        return Err(Stopped::Changed("the desk"));
    }
    stop(desk.ask(rt, alloc, pass, question))
}

/// A host that no caller has is refused, and is no call.
fn ask_for_nobody<R: Print + AllocGlobal + Wait>(
    rt: &R,
    desk: &Desk,
    pass: &mut Pass,
) -> Result<(), Stopped>
    requires { pass.old.desk ≡ desk.now.id }
    ensures { pass.new.desk ≡ pass.old.desk }
{
    let question = Question::Last {
        host: 2,
        limit: None,
        choice: LoginChoice::every(),
        until: None,
    };
    let asked = desk.ask(rt, rt.alloc(), pass, &question);
    print_refusal(rt, asked, desk.stored(pass))
}

/// Prints how many calls were answered.
pub(crate) fn print_stored<R: Print + AllocGlobal>(
    rt: &R,
    desk: &Desk,
    pass: &mut Pass,
) -> Result<(), Stopped>
    requires { pass.old.desk ≡ desk.now.id }
    ensures { pass.new.desk ≡ pass.old.desk }
{
    refuse_growths(rt.alloc());
    let stored = desk.stored(pass);
    grant_growths(rt.alloc());
    stop(println!(rt; "stored {stored}"))
}

/// Does what a caller does, and prints what it is answered.
fn print_deed<R: Print + AllocGlobal + Wait>(
    rt: &R,
    desk: &Desk,
    pass: &mut Pass,
    deed: Deed,
) -> Result<(), Stopped>
    requires { pass.old.desk ≡ desk.now.id }
    ensures { pass.new.desk ≡ pass.old.desk }
{
    match deed {
        Deed::PostHour => print_receipt(rt, post(rt, desk, pass, hour(rt.alloc()))),
        Deed::PostMakes => print_receipt(rt, post(rt, desk, pass, makes(rt.alloc()))),
        Deed::AskTotal => print_served(rt, ask(rt, rt.alloc(), desk, pass, &TOTAL)),
        Deed::AskCommands => print_served(rt, ask(rt, rt.alloc(), desk, pass, &COMMANDS)),
        Deed::AskForNobody => ask_for_nobody(rt, desk, pass),
        Deed::SeeStored => print_stored(rt, desk, pass),
    }
}

/// Prints what each call answers, and how many calls a pass learns of between them.
fn print_calls<R: Print + AllocGlobal + Wait>(
    rt: &R,
    desk: &Desk,
    first: &mut Pass,
    second: &mut Pass,
) -> Result<(), Stopped>
    requires first { first.old.desk ≡ desk.now.id }
    requires second { second.old.desk ≡ desk.now.id }
    ensures first { first.new.desk ≡ first.old.desk }
    ensures second { second.new.desk ≡ second.old.desk }
{
    for turn in TURNS {
        match turn {
            Turn::First(deed) => print_deed(rt, desk, first, deed)?,
            Turn::Second(deed) => print_deed(rt, desk, second, deed)?,
        }
    }
    Ok(())
}

/// Prints what the calls by both passes answer.
fn print_script<R: Print + AllocGlobal + Wait>(
    rt: &R,
    desk: &Desk,
    first: &mut Pass,
    second: &mut Pass,
    calls: Calls,
) -> Result<(), Stopped>
    requires first { first.old.desk ≡ desk.now.id }
    requires second { second.old.desk ≡ desk.now.id }
    ensures first { first.new.desk ≡ first.old.desk }
    ensures second { second.new.desk ≡ second.old.desk }
{
    match calls {
        Calls::All => print_calls(rt, desk, first, second),
        Calls::Feeds => feeds::print_calls(rt, desk, first, second),
        Calls::Numbers => quiet::print_desk(rt, desk, first, second),
    }
}

/// Prints what they answer, with the passes taken out of their list and put back.
fn print_with<R: Print + AllocGlobal + Wait>(
    rt: &R,
    desk: &Desk,
    passes: &mut Vec<Pass>,
    calls: Calls,
) -> Result<(), Stopped>
    requires { All (λ p. p.desk ≡ desk.now.id) passes.old.items }
    ensures { All (λ p. p.desk ≡ desk.now.id) passes.new.items }
{
    let (Some(mut second), Some(mut first)) = (passes.pop(), passes.pop()) else {
        return Err(Stopped::Refused("open"));
    };
    passes.clear();
    let printed = print_script(rt, desk, &mut first, &mut second, calls);
    passes.push_reserved(first);
    passes.push_reserved(second);
    printed
}

/// The book of a desk that was closed after a script.
fn book_after<R: Print + AllocGlobal + Wait>(
    rt: &R,
    keys: RandomState,
    calls: Calls,
) -> Result<Book, Stopped> {
    let (desk, mut passes) = open(rt.alloc(), keys)?;
    let printed = print_with(rt, &desk, &mut passes, calls);
    let closed = close(rt.alloc(), desk, passes);
    printed.and(closed)
}

/// Prints what a closed book holds.
fn print_book<R: Print>(rt: &R, book: Book) -> Result<(), Stopped> {
    let (logins, procs, calls) = count_parts(book);
    stop(println!(rt; "desk: {logins} {procs} in {calls} calls"))
}

/// Prints what each call of a script answers, and what it was for in the closed book.
pub(crate) fn script<R: Print + AllocGlobal + Wait>(
    rt: &R,
    keys: RandomState,
    calls: Calls,
) -> Result<(), Stopped> {
    let book = book_after(rt, keys, calls)?;
    match calls {
        Calls::All => print_book(rt, book),
        Calls::Feeds => feeds::print_book(rt, book),
        Calls::Numbers => {
            drop(book);
            Ok(())
        }
    }
}
