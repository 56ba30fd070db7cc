//! The worked script of a book of two callers: one session of an hour, and three runs of make.
ghost use Rattle.std.specs.Prelude.{◌≡◌, ◌<◌, IfOk};
ghost use Rattle.tally_answers.specs.Answers.{IsAskable, HasDays};

use crate::bytes::{logins, make_record, procs, put, session};
use crate::held::{Held, held_by, holds};
use crate::printing::{print_receipt, print_refusal, print_served};
use crate::stopped::{Stopped, both, see, stop};
use crate::window::{grant_growths, refuse_growths};
use std::alloc::{AllocError, Global};
use std::hash::RandomState;
use tally_book::{AskFault, Book, PostFault, Question, Receipt, Served};
use tally_records::{Batch, EVERY_LOGIN, LoginChoice, Memory};
use tally_usage::Order;

/// A book of two callers.
pub(crate) fn new_book(alloc: Global, keys: RandomState) -> Result<Book, Memory>
    ensures { IfOk result (λ b. b.callers ≡ 2) }
{
    match Book::new(alloc, keys, 2) {
        Err(_) => Book::new(alloc, keys, 2),
        made => made,
    }
}

/// Posts to a book that holds this, and posts again where memory was refused.
fn post_to(book: &mut Book, before: &Held, caller: u32, batch: &Batch) -> Result<Receipt, Stopped>
    requires { caller < book.old.callers }
    ensures { book.new.callers ≡ book.old.callers }
{
    match book.post(caller, batch) {
        Err(PostFault::Memory) if !holds(book, before) => Err(Stopped::Changed("the book")),
        Err(PostFault::Memory) => stop(book.post(caller, batch)),
        posted => stop(posted),
    }
}

/// Posts, and posts again where memory was refused.
pub(crate) fn post(
    alloc: Global,
    book: &mut Book,
    caller: u32,
    batch: Result<Batch, Stopped>,
) -> Result<Receipt, Stopped>
    requires { caller < book.old.callers }
    ensures { book.new.callers ≡ book.old.callers }
{
    let (batch, before) = both(batch, stop(held_by(alloc, book)))?;
    let posted = post_to(book, &before, caller, &batch);
    drop((batch, before));
    posted
}

/// Posts a batch, and prints what the post answered.
fn print_post<R: Print + AllocGlobal>(
    rt: &R,
    book: &mut Book,
    caller: u32,
    batch: Result<Batch, Stopped>,
) -> Result<(), Stopped>
    requires { caller < book.old.callers }
    ensures { book.new.callers ≡ book.old.callers }
{
    print_receipt(rt, post(rt.alloc(), book, caller, batch))
}

/// Asks a book that holds this, and asks again where memory was refused.
fn ask_of(
    alloc: Global,
    book: &mut Book,
    before: &Held,
    caller: u32,
    question: &Question,
) -> Result<Served, Stopped>
    requires caller { caller < book.old.callers }
    requires askable { IsAskable question.now }
    ensures callers { book.new.callers ≡ book.old.callers }
    ensures days { IfOk result (λ served. HasDays served.answer) }
{
    match book.ask(alloc, caller, question) {
        Err(AskFault::Memory) if !holds(book, before) => Err(Stopped::Changed("the book")),
        Err(AskFault::Memory) => stop(book.ask(alloc, caller, question)),
        asked => stop(asked),
    }
}

/// Asks, and asks again where memory was refused.
fn ask(alloc: Global, book: &mut Book, caller: u32, question: &Question) -> Result<Served, Stopped>
    requires caller { caller < book.old.callers }
    requires askable { IsAskable question.now }
    ensures callers { book.new.callers ≡ book.old.callers }
    ensures days { IfOk result (λ served. HasDays served.answer) }
{
    let before = held_by(alloc, book)?;
    let asked = ask_of(alloc, book, &before, caller, question);
    drop(before);
    asked
}

/// A session of one hour.
pub(crate) fn hour(alloc: Global) -> Result<Batch, Stopped> {
    stop(logins(alloc, &session("ann", 1_000_000, 1_003_600)))
}

/// One run of make that executed, and two that only forked, as bytes.
pub(crate) fn make_bytes() -> [u8; 192] {
    let forked = make_record(1, &[60, 0, 0, 0, 60, 0, 200, 0, 3, 0]);
    let mut bytes = [0; 192];
    put(
        &mut bytes,
        0,
        &make_record(0, &[120, 0, 60, 0, 0x58, 2, 0xf4, 1, 0xe8, 3]),
    );
    put(&mut bytes, 64, &forked);
    put(&mut bytes, 128, &forked);
    bytes
}

/// These bytes in memory, made again where it was refused.
pub(crate) fn make_vec(alloc: Global) -> Result<Vec<u8>, AllocError> {
    let made = match Vec::from_array(alloc, make_bytes()) {
        Err(_) => Vec::from_array(alloc, make_bytes()),
        made => made,
    };
    Ok(made?)
}

/// The batch of these runs.
pub(crate) fn makes(alloc: Global) -> Result<Batch, Stopped> {
    stop(procs(alloc, &make_bytes()))
}

/// Asks, and prints a copy of the answer.
pub(crate) fn report<R: Print + AllocGlobal>(
    rt: &R,
    book: &mut Book,
    caller: u32,
    question: &Question,
) -> Result<(), Stopped>
    requires caller { caller < book.old.callers }
    requires askable { IsAskable question.now }
    ensures { book.new.callers ≡ book.old.callers }
{
    print_served(rt, ask(rt.alloc(), book, caller, question))
}

/// Connect time in all.
pub(crate) const TOTAL: Question = Question::Connect {
    by_day: false,
    by_user: false,
    offset: 0,
    choice: EVERY_LOGIN,
    until: None,
};

/// The command groups, by processor time.
pub(crate) const COMMANDS: Question = Question::Commands {
    order: Order::Cpu,
    reverse: false,
    all: false,
};

/// A host that no caller has is refused, and is no call.
fn ask_of_nobody<R: Print + AllocGlobal>(rt: &R, book: &mut Book) -> Result<(), Stopped>
    requires { book.old.callers ≡ 2 }
    ensures { book.new.callers ≡ 2 }
{
    let question = Question::Last {
        host: 2,
        limit: None,
        choice: LoginChoice::every(),
        until: None,
    };
    let asked = book.ask(rt.alloc(), 1, &question);
    print_refusal(rt, asked, book.calls().len() as u64)
}

/// How many entries of both kinds and how many calls a book hands out.
pub(crate) fn count_parts(book: Book) -> (usize, usize, usize) {
    let parts = book.into_parts();
    let counts = (parts.0.len(), parts.1.len(), parts.2.len());
    drop(parts);
    counts
}

/// Prints what a book holds after a script, which takes no memory to see and to hand out.
fn print_parts<R: Print + AllocGlobal>(
    rt: &R,
    printed: Result<(), Stopped>,
    book: Book,
) -> Result<(), Stopped> {
    refuse_growths(rt.alloc());
    let seen = (
        book.callers(),
        book.logins().len(),
        book.procs().len(),
        book.calls().len(),
    );
    let given = count_parts(book);
    grant_growths(rt.alloc());
    let is_same = seen == (2, given.0, given.1, given.2);
    printed.and(see(is_same, "a closed book"))?;
    stop(println!(rt; "book: {} {} in {} calls", given.0, given.1, given.2))
}

/// Prints what each call answers.
fn print_calls<R: Print + AllocGlobal>(rt: &R, book: &mut Book) -> Result<(), Stopped>
    requires { book.old.callers ≡ 2 }
{
    print_post(rt, book, 0, hour(rt.alloc()))?;
    report(rt, book, 1, &TOTAL)?;
    ask_of_nobody(rt, book)?;
    print_post(rt, book, 1, makes(rt.alloc()))?;
    report(rt, book, 0, &COMMANDS)
}

/// Prints what each call of the script answers, and what the book holds then.
pub(crate) fn script<R: Print + AllocGlobal>(rt: &R, keys: RandomState) -> Result<(), Stopped> {
    let mut book = new_book(rt.alloc(), keys)?;
    let printed = print_calls(rt, &mut book);
    print_parts(rt, printed, book)
}
