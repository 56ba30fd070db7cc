//! What a terminal is shown: words of the command line, what is said of files, and how far a run is.
//!
//! `shown` has words and paths as a terminal may print them. `about` says what a file looks like, and what to do with
//! it. `progress` is the line that follows a run, and `output` erases it before the report is printed.
#![tactic(auto)]

mod about;
mod output;
mod progress;
mod shown;

pub use about::{About, FileHint, about_looks};
pub use output::Watched;
pub use progress::{Followed, Progress};
pub use shown::{ErrorsTo, Quoted, Shown, printable};
