//! Desks and their callers at work, with inputs and gates that are made for it.

mod calls;
mod counting;
mod failed;
mod feeding;
mod login_counting;
mod makers;
mod readers;
mod rounds;
mod script;
mod threads;
