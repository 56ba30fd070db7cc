//! Scripts over the calls of the crates that memory can be refused to. A refused call leaves things as
//! they were and is begun again once, so that what is printed is the same with and without a refusal.
//! Calls that take no memory are made while each growth is refused.
#![tactic(auto)]

mod book;
mod bytes;
mod days;
mod desk;
mod entries;
mod feeds;
mod held;
mod printing;
mod quiet;
mod reports;
mod sections;
mod session_answers;
mod sessions;
mod stopped;
mod summary;
mod watched;
mod window;
mod words;

use crate::desk::Calls;
pub use bytes::{login_record, put};
use std::hash::RandomState;
use std::sync::Wait;
use std::thread::Threads;
pub use stopped::{Stopped, after};
pub use watched::{Watched, print_watched};
pub use words::print_words;

/// The scripts, each of which prints what its calls answer.
#[derive(Clone, Copy)]
enum Script {
    Sessions,
    Summary,
    Entries,
    Book,
    Work,
    Nights,
    Sections,
    Desk(Calls),
    List,
    Batches,
    Input,
    Output,
}

/// The scripts in their order.
const SCRIPTS: [Script; 14] = [
    Script::Sessions,
    Script::Summary,
    Script::Entries,
    Script::Book,
    Script::Work,
    Script::Nights,
    Script::Sections,
    Script::Desk(Calls::All),
    Script::Desk(Calls::Feeds),
    Script::List,
    Script::Batches,
    Script::Input,
    Script::Output,
    Script::Desk(Calls::Numbers),
];

fn print<R: Print + AllocGlobal + Threads + Wait + Sync>(
    rt: &R,
    keys: RandomState,
    script: Script,
) -> Result<(), Stopped> {
    match script {
        Script::Sessions => sessions::script(rt, keys),
        Script::Summary => summary::script(rt, keys),
        Script::Entries => entries::script(rt, keys),
        Script::Book => book::script(rt, keys),
        Script::Work => reports::script(rt, keys),
        Script::Nights => reports::nights(rt, keys),
        Script::Sections => sections::script(rt, keys),
        Script::Desk(calls) => desk::script(rt, keys, calls),
        Script::List => quiet::print_list(rt),
        Script::Batches => quiet::print_batches(rt),
        Script::Input => quiet::print_input(rt),
        Script::Output => quiet::print_output(rt),
    }
}

/// Prints what the calls on sessions, usage, the book, the desk, reports and outputs answer.
pub fn print_scripts<R: Print + AllocGlobal + Threads + Wait + Sync>(
    rt: &R,
    keys: RandomState,
) -> Result<(), Stopped> {
    for script in SCRIPTS {
        print(rt, keys, script)?;
    }
    Ok(())
}
