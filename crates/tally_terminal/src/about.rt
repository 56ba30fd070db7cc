//! What is said of a file after its fault line: what it looks like, and what to do with it.
ghost use Rattle.std.specs.Prelude.{◌≡◌, is_some, not};
ghost use Rattle.tally_terminal.specs.About.{is_silent};

use crate::shown::Shown;
use std::fmt::{self, Display, Formatter};
use tally_kinds::Looks;
use tally_line::Report;
use tally_records::Kind;

/// What is said of a file.
#[derive(Clone, Copy)]
pub enum About {
    /// It is packed, and a command unpacks it.
    Packed {
        by: &'static str,
        unpack: &'static str,
        /// The command and the prefix that read what comes of it.
        report: &'static str,
        prefix: &'static str,
    },
    /// It has records that another command reads.
    Other {
        has: &'static str,
        report: &'static str,
    },
    /// This alone.
    Only(&'static str),
}

/// What is said of the file of a path.
#[derive(Clone, Copy)]
pub struct FileHint<'a> {
    path: Shown<'a>,
    about: About,
}

impl<'a> FileHint<'a> {
    pub fn new(path: Shown<'a>, about: About) -> FileHint<'a> {
        FileHint { path, about }
    }
}

impl Display for FileHint<'_> {
    fn fmt<W: fmt::Write>(&self, f: &mut Formatter<W>) -> fmt::Result {
        let path = self.path;
        let quoted = path.quoted();
        match self.about {
            About::Packed {
                by,
                unpack,
                report,
                prefix,
            } => write!(
                f,
                "{path} is packed by {by}: try {unpack} {quoted} | tally {report} {prefix}/dev/stdin"
            ),
            About::Other { has, report } => {
                write!(f, "{path} {has}: try tally {report} {quoted}")
            }
            About::Only(text) => write!(f, "{path} {text}"),
        }
    }
}

/// The command of a report.
fn command_of(report: &Report) -> &'static str {
    match report {
        Report::Last { .. } => "last",
        Report::Attempts { .. } | Report::AttemptSums { .. } => "lastb",
        Report::Connect { .. } => "ac",
        Report::Commands { .. } | Report::Users { .. } => "sa",
        Report::All => "all",
    }
}

/// What stands before the path of a file of a kind among the words of a report.
fn prefix_of(report: &Report, kind: Kind) -> &'static str {
    match (report, kind) {
        (Report::All, Kind::Login) => "w:",
        (Report::All, Kind::Proc) => "p:",
        _ => "",
    }
}

/// What is said of a packed file that a report was to read as one of a kind.
fn packed(report: &Report, kind: Kind, by: &'static str, unpack: &'static str) -> About {
    About::Packed {
        by,
        unpack,
        report: command_of(report),
        prefix: prefix_of(report, kind),
    }
}

/// What is said of a file that a report was to read as one of a kind, by what it looks like.
pub fn about_looks(report: &Report, kind: Kind, looks: Looks) -> Option<About>
    ensures { is_some result ≡ not (is_silent kind looks) }
{
    let about = match looks {
        Looks::Nothing | Looks::Unknown => return None,
        Looks::FailedLogins if kind == Kind::FailedLogin => return None,
        Looks::Logins if kind == Kind::Login => return None,
        Looks::Processes if kind == Kind::Proc => return None,
        Looks::Gzip => packed(report, kind, "gzip", "zcat"),
        Looks::Xz => packed(report, kind, "xz", "xzcat"),
        Looks::Zstd => packed(report, kind, "zstd", "zstdcat"),
        Looks::Bzip2 => packed(report, kind, "bzip2", "bzcat"),
        Looks::Sqlite => About::Other {
            has: "is an SQLite database, as of wtmpdb",
            report: "last",
        },
        Looks::FailedLogins => About::Other {
            has: "may have failed logins",
            report: "lastb",
        },
        Looks::Logins => About::Other {
            has: "has login records",
            report: "last",
        },
        Looks::Processes => About::Other {
            has: "has process records",
            report: "sa",
        },
        _ => About::Only(unread(looks)),
    };
    Some(about)
}

/// What is said of a file of a kind that no report reads.
fn unread(looks: Looks) -> &'static str {
    match looks {
        Looks::Logins400 => {
            "has login records of 400 bytes, as 64-bit ARM and s390x write them, which are not read"
        }
        Looks::BigEndianLogins => "has login records of a big-endian machine, which are not read",
        Looks::BigEndianProcesses => {
            "has process records of a big-endian machine, which are not read"
        }
        Looks::Lastlog => {
            "has the last login of each user, as lastlog(8) shows it, which is not read"
        }
        Looks::Savacct => {
            "has the sums by command of sa(8), as savacct keeps them, which are not read"
        }
        Looks::Usracct => {
            "has the sums by user of sa(8), as usracct keeps them, which are not read"
        }
        _ => "is text, which is not read",
    }
}
