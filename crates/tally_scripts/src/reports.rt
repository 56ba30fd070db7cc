//! Every other kind of report on the records of the worked script.
ghost use Rattle.std.specs.Prelude.{◌≡◌};

use crate::book::{hour, makes, new_book, post, report};
use crate::bytes::{login_record, logins, put, session};
use crate::stopped::{Stopped, stop};
use std::alloc::Global;
use std::hash::RandomState;
use tally_book::{Book, Question};
use tally_records::{Batch, EVERY_LOGIN};
use tally_usage::Order;

const LAST: Question = Question::Last {
    host: 0,
    limit: Some(1),
    choice: EVERY_LOGIN,
    until: None,
};

const USERS: Question = Question::Connect {
    by_day: false,
    by_user: true,
    offset: 0,
    choice: EVERY_LOGIN,
    until: None,
};

const DAYS: Question = Question::Connect {
    by_day: true,
    by_user: false,
    offset: 0,
    choice: EVERY_LOGIN,
    until: None,
};

const USERS_BY_DAY: Question = Question::Connect {
    by_day: true,
    by_user: true,
    offset: 0,
    choice: EVERY_LOGIN,
    until: None,
};

const ALL_COMMANDS: Question = Question::Commands {
    order: Order::Calls,
    reverse: false,
    all: true,
};

const UIDS: Question = Question::Users {
    order: Order::Cpu,
    reverse: false,
};

const ALL_STAYS: Question = Question::Last {
    host: 0,
    limit: None,
    choice: EVERY_LOGIN,
    until: None,
};

/// A running time that a shutdown ends, with a session in it, and one that has not ended.
fn reboots(alloc: Global) -> Result<Batch, Stopped> {
    let mut bytes = [0; 1920];
    put(&mut bytes, 0, &login_record(2, "~", "reboot", 100));
    put(&mut bytes, 384, &login_record(7, "tty1", "ann", 200));
    put(&mut bytes, 768, &login_record(1, "~", "runlevel", 300));
    put(&mut bytes, 1152, &login_record(1, "~", "shutdown", 1000));
    put(&mut bytes, 1536, &login_record(2, "~", "reboot", 1100));
    stop(logins(alloc, &bytes))
}

/// A session over midnight.
fn night(alloc: Global) -> Result<Batch, Stopped> {
    stop(logins(alloc, &session("ann", 84_600, 88_200)))
}

/// Posts running times and a night.
pub(crate) fn post_nights(alloc: Global, book: &mut Book) -> Result<(), Stopped>
    requires { book.old.callers ≡ 2 }
    ensures { book.new.callers ≡ 2 }
{
    post(alloc, book, 0, reboots(alloc))?;
    post(alloc, book, 1, night(alloc))?;
    Ok(())
}

/// Posts the records of the worked script.
fn post_work(alloc: Global, book: &mut Book) -> Result<(), Stopped>
    requires { book.old.callers ≡ 2 }
    ensures { book.new.callers ≡ 2 }
{
    post(alloc, book, 0, hour(alloc))?;
    post(alloc, book, 1, makes(alloc))?;
    Ok(())
}

fn print_nights<R: Print + AllocGlobal>(rt: &R, book: &mut Book) -> Result<(), Stopped>
    requires { book.old.callers ≡ 2 }
{
    post_nights(rt.alloc(), book)?;
    report(rt, book, 0, &ALL_STAYS)?;
    report(rt, book, 1, &DAYS)?;
    report(rt, book, 1, &USERS_BY_DAY)
}

fn print_work<R: Print + AllocGlobal>(rt: &R, book: &mut Book) -> Result<(), Stopped>
    requires { book.old.callers ≡ 2 }
{
    post_work(rt.alloc(), book)?;
    report(rt, book, 0, &LAST)?;
    report(rt, book, 0, &USERS)?;
    report(rt, book, 0, &DAYS)?;
    report(rt, book, 0, &USERS_BY_DAY)?;
    report(rt, book, 1, &ALL_COMMANDS)?;
    report(rt, book, 1, &UIDS)
}

/// Prints reports on running times and on a night.
pub(crate) fn nights<R: Print + AllocGlobal>(rt: &R, keys: RandomState) -> Result<(), Stopped> {
    let mut book = new_book(rt.alloc(), keys)?;
    let printed = print_nights(rt, &mut book);
    drop(book);
    printed
}

/// Prints each report.
pub(crate) fn script<R: Print + AllocGlobal>(rt: &R, keys: RandomState) -> Result<(), Stopped> {
    let mut book = new_book(rt.alloc(), keys)?;
    let printed = print_work(rt, &mut book);
    drop(book);
    printed
}
