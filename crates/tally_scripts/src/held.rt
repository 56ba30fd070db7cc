//! What a book holds, copied and compared by content.

use std::alloc::Global;
use tally_book::{Answer, Book, Boxed, Call};
use tally_records::Memory;
use tally_sessions::{Entries, Entry};
use tally_usage::{ProcEntries, ProcEntry};

/// The lists and the history of a book.
#[derive(Drop)]
pub(crate) struct Held {
    logins: Vec<Entry>,
    procs: Vec<ProcEntry>,
    calls: Vec<Call>,
}

fn copy_of_call(alloc: Global, call: &Call) -> Result<Call, Memory> {
    match call {
        Call::Posted {
            caller,
            before,
            after,
        } => Ok(Call::Posted {
            caller: *caller,
            before: *before,
            after: *after,
        }),
        Call::Asked {
            caller,
            at,
            question,
            answer,
        } => Ok(Call::Asked {
            caller: *caller,
            at: *at,
            question: Boxed::new(alloc, *question.get())?,
            answer: answer.try_copy(alloc)?,
        }),
    }
}

fn copy_of_calls(alloc: Global, calls: &[Call]) -> Result<Vec<Call>, Memory> {
    let mut copied = Vec::new(alloc);
    for call in calls {
        copied.push(copy_of_call(alloc, call)?)?;
    }
    Ok(copied)
}

/// Whether the entries are these.
fn are_same(entries: Entries<'_>, list: &[Entry]) -> bool {
    if entries.len() != list.len() {
        return false;
    }
    for (at, entry) in list.iter().enumerate() {
        if entries.get(at) != Some(*entry) {
            return false;
        }
    }
    true
}

/// The entries, copied.
pub(crate) fn copy_of_entries(
    alloc: Global,
    entries: ProcEntries<'_>,
) -> Result<Vec<ProcEntry>, Memory> {
    Ok(entries.iter().collect(alloc)?)
}

/// Whether the entries are these.
fn are_entries(entries: ProcEntries<'_>, others: &[ProcEntry]) -> bool {
    if entries.len() != others.len() {
        return false;
    }
    for (place, other) in others.iter().enumerate() {
        if entries.get(place) != Some(*other) {
            return false;
        }
    }
    true
}

fn copy(alloc: Global, book: &Book) -> Result<Held, Memory> {
    Ok(Held {
        logins: book.logins().iter().collect(alloc)?,
        procs: copy_of_entries(alloc, book.procs())?,
        calls: copy_of_calls(alloc, book.calls())?,
    })
}

/// What the book holds, copied again where memory was refused.
pub(crate) fn held_by(alloc: Global, book: &Book) -> Result<Held, Memory> {
    match copy(alloc, book) {
        Err(_) => copy(alloc, book),
        copied => copied,
    }
}

fn is_same_answer(a: &Answer, b: &Answer) -> bool {
    match (a, b) {
        (
            Answer::Last { rows, first },
            Answer::Last {
                rows: others,
                first: other,
            },
        ) => rows.as_slice() == others.as_slice() && first == other,
        (
            Answer::Connect { rows, total },
            Answer::Connect {
                rows: others,
                total: other,
            },
        ) => rows.as_slice() == others.as_slice() && total == other,
        (
            Answer::Commands { rows, total },
            Answer::Commands {
                rows: others,
                total: other,
            },
        ) => rows.as_slice() == others.as_slice() && total == other,
        (
            Answer::Users { rows, total },
            Answer::Users {
                rows: others,
                total: other,
            },
        ) => rows.as_slice() == others.as_slice() && total == other,
        _ => false,
    }
}

fn is_same_call(a: &Call, b: &Call) -> bool {
    match (a, b) {
        (
            Call::Posted {
                caller,
                before,
                after,
            },
            Call::Posted {
                caller: other,
                before: was,
                after: is,
            },
        ) => caller == other && before == was && after == is,
        (
            Call::Asked {
                caller,
                at,
                question,
                answer,
            },
            Call::Asked {
                caller: other,
                at: was,
                question: asked,
                answer: answered,
            },
        ) => {
            caller == other
                && at == was
                && question.get() == asked.get()
                && is_same_answer(answer, answered)
        }
        _ => false,
    }
}

fn are_same_calls(calls: &[Call], others: &[Call]) -> bool {
    if calls.len() != others.len() {
        return false;
    }
    for (call, other) in calls.iter().zip(others) {
        if !is_same_call(call, other) {
            return false;
        }
    }
    true
}

/// Whether the book holds just this.
pub(crate) fn holds(book: &Book, held: &Held) -> bool {
    are_same(book.logins(), held.logins.as_slice())
        && are_entries(book.procs(), held.procs.as_slice())
        && are_same_calls(book.calls(), held.calls.as_slice())
}
