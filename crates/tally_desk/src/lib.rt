//! A book that several threads share, and the inputs and the questions that callers bring to it.
//!
//! `desk` has the shared book and its callers' passes, and `lock` the ticket lock that gives it to
//! one caller at a time: `turns` of its callers, who are `sleepers` until these are near, `rule` of
//! its table, and each caller's `view`. `feeding` takes an input to the desk by blocks: `input` is what gives bytes, `memory` and `reader` are such inputs, `filling` fills a block with
//! its bytes, and `block` reads one block of records. `counting` counts the process records of an input and `login_counting` its login records, and both do without a desk. `asking` brings questions, and `gate` comes before each call.
#![tactic(auto)]

mod asking;
mod desk;
mod fault;
mod feeding;
mod gate;
mod lock;

pub use crate::asking::ask_rounds;
pub use crate::desk::{Desk, Pass};
pub use crate::fault::{CloseFault, CountFault, FeedFault, OpenFault, Uncounted};
pub use crate::feeding::counting::count_input;
pub use crate::feeding::input::{Input, InputFault};
pub use crate::feeding::login_counting::count_logins;
pub use crate::feeding::memory::Bytes;
pub use crate::feeding::reader::Reading;
pub use crate::feeding::{Fed, feed};
pub use crate::gate::{Gate, OpenGate};
