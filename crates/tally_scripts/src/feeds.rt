//! An input that is fed to a desk, and a question that is asked of it in rounds.
ghost use Rattle.std.specs.Prelude.{◌≡◌};

use crate::book::{TOTAL, hour, make_vec};
use crate::desk::{post, print_stored};
use crate::stopped::{Stopped, stop};
use std::alloc::Global;
use std::sync::Wait;
use tally_book::{Answer, AskFault, Book, Call};
use tally_desk::{Bytes, Desk, Fed, FeedFault, OpenGate, Pass, ask_rounds, feed};
use tally_records::Kind;

/// Feeds the process records of three runs of make.
fn feed_once<R: Wait>(rt: &R, alloc: Global, desk: &Desk, pass: &mut Pass) -> Result<Fed, FeedFault>
    requires { pass.old.desk ≡ desk.now.id }
    ensures { pass.new.desk ≡ pass.old.desk }
{
    let mut input = Bytes::new(make_vec(alloc)?);
    let fed = feed(rt, alloc, desk, pass, Kind::Proc, &mut input, &OpenGate);
    drop(input);
    fed
}

/// Feeds the process records, and feeds them again where memory was refused.
fn feed_makes<R: Wait>(rt: &R, alloc: Global, desk: &Desk, pass: &mut Pass) -> Result<Fed, Stopped>
    requires { pass.old.desk ≡ desk.now.id }
    ensures { pass.new.desk ≡ pass.old.desk }
{
    let before = desk.stored(pass);
    match feed_once(rt, alloc, desk, pass) {
        Err(FeedFault::Memory) => {}
        fed => return stop(fed),
    }
    if desk.stored(pass) != before {
        return Err(Stopped::Changed("the desk"));
    }
    stop(feed_once(rt, alloc, desk, pass))
}

/// Asks for the connect time three times, and three times again where memory was refused.
fn ask_thrice<R: Wait>(rt: &R, alloc: Global, desk: &Desk, pass: &mut Pass) -> Result<u64, Stopped>
    requires { pass.old.desk ≡ desk.now.id }
    ensures { pass.new.desk ≡ pass.old.desk }
{
    match ask_rounds(rt, alloc, desk, pass, &[TOTAL], 3, &OpenGate) {
        Err(AskFault::Memory) => {}
        asked => return stop(asked),
    }
    stop(ask_rounds(rt, alloc, desk, pass, &[TOTAL], 3, &OpenGate))
}

/// Prints the totals of the last three calls, where these are reports on connect time.
fn print_last_totals<R: Print>(rt: &R, book: &Book) -> Result<(), Stopped> {
    for call in book.calls().iter().rev().take(3) {
        match call {
            Call::Asked {
                answer: Answer::Connect { total, .. },
                ..
            } => { println!(rt; "asked: {total} seconds")? }
            _ => return Err(Stopped::Refused("report")),
        }
    }
    Ok(())
}

/// Prints what was fed.
fn print_fed<R: Print + AllocGlobal + Wait>(
    rt: &R,
    desk: &Desk,
    pass: &mut Pass,
) -> Result<(), Stopped>
    requires { pass.old.desk ≡ desk.now.id }
    ensures { pass.new.desk ≡ pass.old.desk }
{
    let Fed { records, batches } = feed_makes(rt, rt.alloc(), desk, pass)?;
    stop(println!(rt; "fed: {records} records in {batches} batches"))
}

/// Prints how many calls there were, and how many questions are answered.
fn print_asked<R: Print + AllocGlobal + Wait>(
    rt: &R,
    desk: &Desk,
    pass: &mut Pass,
) -> Result<(), Stopped>
    requires { pass.old.desk ≡ desk.now.id }
    ensures { pass.new.desk ≡ pass.old.desk }
{
    print_stored(rt, desk, pass)?;
    let asked = ask_thrice(rt, rt.alloc(), desk, pass)?;
    stop(println!(rt; "asked: {asked} answers"))
}

/// Prints what was fed and how many questions were answered after an hour was posted. A refused round
/// leaves those before it, so the number of calls is not printed.
pub(crate) fn print_calls<R: Print + AllocGlobal + Wait>(
    rt: &R,
    desk: &Desk,
    first: &mut Pass,
    second: &mut Pass,
) -> Result<(), Stopped>
    requires first { first.old.desk ≡ desk.now.id }
    requires second { second.old.desk ≡ desk.now.id }
    ensures first { first.new.desk ≡ first.old.desk }
    ensures second { second.new.desk ≡ second.old.desk }
{
    post(rt, desk, first, hour(rt.alloc()))?;
    print_fed(rt, desk, second)?;
    print_asked(rt, desk, first)
}

/// Prints what was answered.
pub(crate) fn print_book<R: Print>(rt: &R, book: Book) -> Result<(), Stopped> {
    let printed = print_last_totals(rt, &book);
    drop(book);
    printed
}
