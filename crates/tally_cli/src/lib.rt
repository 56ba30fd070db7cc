//! The run that a command line asks for.
//!
//! `running` carries a job out: `deal` gives each feeder and asker its tasks, `task` is one of them
//! and `work` a worker's list, `gather` takes back what came of them; then `sections` asks and
//! prints the reports, in the lines or the table of `forms`. A report on processes alone takes no desk:
//! `usage` prints what `counting` has counted, as it is `wanted`: with names of users by `naming`. Files are told
//! `apart` by their paths in `path_tables`, or each by itself in `parts`, where `by_file` asks for connect time. A `source` is a file's bytes. The command line itself is read by `tally_line`.
#![tactic(auto)]

mod fault;
mod running;

pub use crate::fault::{RunFault, UsageFault};
pub use crate::running::apart::FilesApart;
pub use crate::running::counting::FILE_BLOCKS;
pub use crate::running::source::Source;
pub use crate::running::usage::{is_usage_run, run_usage};
pub use crate::running::wanted::UsageWanted;
pub use crate::running::{read_all, run};
pub use tally_line::{
    FileArg, FilesAsked, Form, Job, Line, LineFault, Report, Times, TimesFault, file_word, job_of,
    known_fault, settle,
};
