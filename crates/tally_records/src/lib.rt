//! Login records of utmp(5) and process records of acct(5): decoders, events, batches, and lists of plain values.
//!
//! `login` has the login record and its events: `logins` keeps many without the zeros after their
//! texts, as a `head` and its `words` each, `decode` reads them, `failed` sees that they are failed logins, `events` and `key` look at the words
//! alone. `process` has the process record: `packed` reads it, with the `name` of its command, and keeps
//! its numbers as they are in a file, `numbered` does so with a number for the name, and `compressed` and
//! `elapsed` work them out. A `batch` is of one kind, a `field` a text, a `list` is shared by its copies,
//! and `guesses` and `hints` are of places in tables. A `choice` is what a report is over, its `period` a part of time.
#![tactic(auto)]

mod batch;
mod choice;
mod fault;
mod field;
mod guesses;
mod hints;
mod laws;
mod list;
mod login;
mod period;
mod process;
mod telling;

pub use crate::batch::{BATCH_LIMIT, Batch, Kind};
pub use crate::choice::{EVERY_LOGIN, LoginChoice, NAMED_LIMIT, Names, is_among, names_nothing};
pub use crate::fault::{BatchFault, Memory, RecordFault};
pub use crate::field::{Comm, Name, Remote, whole_words};
pub use crate::guesses::Guesses;
pub use crate::hints::Hints;
pub use crate::laws::{ordered_items_are_all, ordered_items_ascend};
pub use crate::list::List;
pub use crate::login::key::Key;
pub use crate::login::logins::Logins;
pub use crate::login::{Event, LOGIN_SIZE, LoginRecord, read_login};
pub use crate::period::{ALWAYS, Period};
pub use crate::process::compressed::comp;
pub use crate::process::numbered::NumberedProc;
pub use crate::process::packed::PackedProc;
pub use crate::process::{PROC_SIZE, ProcRecord, read_proc};
pub use crate::telling::event;
