//! What a command line asks for, or why it is refused.
ghost use Rattle.std.specs.Prelude.{◌≡◌};
ghost use Rattle.tally_line.specs.declared.line.LineFault.TheVariants.{Memory};

use crate::job::{Form, Job};
use crate::times::Times;
use std::alloc::{AllocError, AllocFailed};
use tally_records::Kind;
use tally_usage::Uids;
use thiserror::Error as ErrorText;

/// A file of the command line.
#[derive(Debug, Drop)]
pub struct FileArg {
    pub kind: Kind,
    pub path: String,
}

/// What a report on processes is asked beside its job. Another report is asked nothing of it.
#[derive(Debug, Drop)]
pub struct UsageAsked {
    /// `--uid`: the numbers of the users whose processes are chosen.
    pub uids: Uids,
    /// `--names`: the word of a file with the names of users, as it was given.
    pub names: Option<String>,
}

/// How a report tells its files apart.
#[derive(Clone, Copy, Debug, PartialEq, Eq)]
pub struct FilesAsked {
    /// `--by-file`: whether each file is reported by itself, too.
    pub by_file: bool,
    /// `--paths`: whether a row of a table that has the number of a file has its path, too.
    pub paths: bool,
}

/// Files to be checked, and how what is found of them is written.
#[derive(Debug, Drop)]
pub struct Check {
    pub form: Form,
    /// `--paths`: whether a row of the table that has the number of a file has its path, too.
    pub paths: bool,
    /// Minutes east of UTC.
    pub offset: i32,
    /// The word that names the zone, as it was given.
    pub zone: Option<String>,
    /// The path of each file.
    pub files: Vec<String>,
}

/// What a command line asks for.
#[derive(Debug, Drop)]
pub enum Line {
    /// A run over files, whose job has to be settled with the times first. The zone is the word that names it, as it was given.
    Run {
        job: Job,
        times: Times,
        usage: UsageAsked,
        apart: FilesAsked,
        zone: Option<String>,
        files: Vec<FileArg>,
    },
    /// A check of files, each of any kind.
    Check(Check),
    /// The text of a request for help.
    Help {
        text: String,
    },
}

/// Why a command line is refused.
#[derive(Debug, Drop, ErrorText)]
pub enum LineFault {
    #[error("out of memory")]
    Memory,
    /// What is wrong with the words, and how the program is used.
    #[error("{text}")]
    Usage { text: String },
    /// The file word with this index is the first that does not begin with `w:` or `p:`.
    #[error("no prefix w: or p:")]
    Prefix { index: usize },
}

impl From<AllocError> for LineFault {
    ghost from_gives = { λ _ fault. fault ≡ Memory };

    fn from(_error: AllocError) -> LineFault {
        LineFault::Memory
    }
}

impl<T: Drop> From<AllocFailed<T>> for LineFault {
    ghost from_gives = { λ _ fault. fault ≡ Memory };

    fn from(_error: AllocFailed<T>) -> LineFault {
        LineFault::Memory
    }
}
