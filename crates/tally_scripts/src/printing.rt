//! Receipts, and answers that are copied and printed.
ghost use Rattle.std.specs.Prelude.{◌≡◌, IfOk};
ghost use Rattle.tally_answers.specs.Answers.{HasDays};

use crate::stopped::{Stopped, after, stop};
use crate::watched::{Watched, print_watched, see_part};
use std::alloc::Global;
use tally_book::{Answer, AskFault, Receipt, Served};
use tally_clock::Clock;
use tally_print::{PrintFault, print_answer};
use tally_records::Memory;

/// An equal answer, copied again where memory was refused.
fn copy(alloc: Global, answer: &Answer) -> Result<Answer, Memory>
    ensures { IfOk result (λ copied. copied ≡ answer.now) }
{
    match answer.try_copy(alloc) {
        Err(_) => answer.try_copy(alloc),
        copied => copied,
    }
}

/// Writes the text of an answer.
fn put(alloc: Global, answer: &Answer, out: &mut Watched) -> Result<(), PrintFault>
    requires failures { out.old.kept.failures ≡ 0 }
    requires days { HasDays answer.now }
{
    let clock = Clock::utc(alloc);
    let printed = print_answer(alloc, &clock, answer, 0, out, None);
    drop(clock);
    printed
}

/// The text of an answer, of which a part was printed before memory was refused.
fn text_after(
    alloc: Global,
    answer: &Answer,
    fault: PrintFault,
    part: &Watched,
) -> Result<Watched, Stopped>
    requires { HasDays answer.now }
{
    let mut whole = Watched::new(alloc);
    let again = put(alloc, answer, &mut whole);
    let seen = see_part(again, fault, part, &whole);
    after(seen, whole)
}

/// The text of an answer, printed again where memory was refused.
fn text(alloc: Global, answer: &Answer) -> Result<Watched, Stopped>
    requires { HasDays answer.now }
{
    let mut first = Watched::new(alloc);
    match put(alloc, answer, &mut first) {
        Ok(()) => Ok(first),
        Err(fault) => {
            let whole = text_after(alloc, answer, fault, &first);
            drop(first);
            whole
        }
    }
}

/// Prints a copy of the answer.
fn print_copy<R: Print + AllocGlobal>(rt: &R, answer: &Answer) -> Result<(), Stopped>
    requires { HasDays answer.now }
{
    let copied = copy(rt.alloc(), answer)?;
    let text = text(rt.alloc(), &copied);
    drop(copied);
    print_watched(rt, text?)
}

/// Prints what a post answered.
pub(crate) fn print_receipt<R: Print>(
    rt: &R,
    posted: Result<Receipt, Stopped>,
) -> Result<(), Stopped> {
    let Receipt {
        call,
        before,
        after,
    } = posted?;
    stop(println!(rt;
        "post {call}: from {} {} to {} {}",
        before.logins, before.procs, after.logins, after.procs
    ))
}

/// Prints a report with a copy of its answer.
fn print_report<R: Print + AllocGlobal>(rt: &R, served: &Served) -> Result<(), Stopped>
    requires { HasDays served.now.answer }
{
    println!(rt;
        "report {}: at {} {}",
        served.call, served.at.logins, served.at.procs
    )?;
    print_copy(rt, &served.answer)
}

/// Prints what a report answered.
pub(crate) fn print_served<R: Print + AllocGlobal>(
    rt: &R,
    asked: Result<Served, Stopped>,
) -> Result<(), Stopped>
    requires { IfOk asked (λ served. HasDays served.answer) }
{
    let served = asked?;
    let printed = print_report(rt, &served);
    drop(served);
    printed
}

/// The host for which a question was refused.
fn refused_host(asked: &Result<Served, AskFault>) -> Result<u32, Stopped> {
    match asked {
        Err(AskFault::NoSuchHost(host)) => Ok(*host),
        _ => Err(Stopped::Changed("a refusal")),
    }
}

/// Prints for which host a question was refused, which is no call.
pub(crate) fn print_refusal<R: Print>(
    rt: &R,
    asked: Result<Served, AskFault>,
    calls: u64,
) -> Result<(), Stopped> {
    let host = refused_host(&asked);
    drop(asked);
    let host = host?;
    stop(println!(rt; "no host {host}, {calls} calls"))
}
