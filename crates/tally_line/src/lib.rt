//! The command line of `tally`, read as a job.
//!
//! `words` makes a `line` of the words: `command` is what the parser knows, `shared` the options that several subcommands have,
//! `args` the arguments, `given` are the words of options, `options` what the options of a report set, `named` the users and
//! lines, `usage_words` what a report on processes is asked, `apart` how a report tells its files apart, `check` what is asked of
//! `check`, `moments` its `times`, `offsets` refuses what only looks like minutes, `zones` a zone beside an offset, `files` the
//! files that the words name, `refused` the answer where the parser gives no matches. A `line` asks for a `job`, for a check, or
//! for help; `settling` makes seconds of the times of a job.
#![tactic(auto)]

mod apart;
mod args;
mod check;
mod command;
mod files;
mod given;
mod job;
mod line;
mod moments;
mod named;
mod offsets;
mod options;
mod refused;
mod settling;
mod shared;
mod times;
mod usage_words;
mod words;
mod zones;

pub use crate::job::{Form, Job, Report};
pub use crate::line::{Check, FileArg, FilesAsked, Line, LineFault, UsageAsked};
pub use crate::settling::{TimesFault, known_fault, settle, settle_choice};
pub use crate::times::Times;
pub use crate::words::{file_word, job_of};
