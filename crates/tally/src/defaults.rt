//! The file that a report reads where the command line names none: that which its peer reads.
ghost use Rattle.std.specs.Prelude.{◌≡◌, ◌⊎◌, IfNone, IfOk, IfSome, length};
ghost use Rattle.std.specs.List.{All};
ghost use Rattle.tally.specs.Defaults.{IsDefaultFile, IsDefaultPath, default_count};
ghost use Rattle.tally_line.specs.FileWords.{Reads};
ghost use Rattle.tally_line.specs.declared.job.Report.TheVariants as reports;

use std::fs;
use std::rt::Files;
use tally_cli::{FileArg, Report};
use tally_records::{Kind, Memory};

/// Login records, as last(1) and ac(1) read them.
const LOGINS: &str = "/var/log/wtmp";

/// The database in their place, as wtmpdb(8) keeps it.
const LOGIN_DATABASE: &str = "/var/lib/wtmpdb/wtmp.db";

/// Failed logins, as lastb(8) reads them.
const FAILED_LOGINS: &str = "/var/log/btmp";

/// Process records, as sa(8) reads them on Debian.
const PROCESSES: &str = "/var/log/account/pacct";

/// The same on the systems of Red Hat.
const OTHER_PROCESSES: &str = "/var/account/pacct";

/// The path of the first file, unless only the other is there.
fn path_there<R: Files>(rt: &R, first: &'static str, other: &'static str) -> &'static str
    ensures { (result.now ≡ first.now) ⊎ (result.now ≡ other.now) }
{
    if fs::metadata(rt, first).is_err() && fs::metadata(rt, other).is_ok() {
        other
    } else {
        first
    }
}

/// The kind and the path of the file of a report. A report of all has none.
fn default_file<R: Files>(rt: &R, report: &Report) -> Option<(Kind, &'static str)>
    ensures kind { IfSome result (λ file. Reads report.now file.0) }
    ensures path { IfSome result (λ file. IsDefaultPath report.now file.1.now) }
    ensures none { IfNone result (report.now ≡ reports.All) }
{
    match report {
        Report::Last { .. } | Report::Connect { .. } => {
            Some((Kind::Login, path_there(rt, LOGINS, LOGIN_DATABASE)))
        }
        Report::Attempts { .. } | Report::AttemptSums { .. } => {
            Some((Kind::FailedLogin, FAILED_LOGINS))
        }
        Report::Commands { .. } | Report::Users { .. } => {
            Some((Kind::Proc, path_there(rt, PROCESSES, OTHER_PROCESSES)))
        }
        Report::All => None,
    }
}

/// The files of a report for which the command line names none.
pub(crate) fn default_files<R: Files + AllocGlobal>(
    rt: &R,
    report: &Report,
) -> Result<Vec<FileArg>, Memory>
    ensures each { IfOk result (λ files. All (IsDefaultFile report.now) files.items) }
    ensures count { IfOk result (λ files. length files.items ≡ default_count report.now) }
{
    let mut files = Vec::new(rt.alloc());
    if let Some((kind, path)) = default_file(rt, report) {
        let path = String::from_str(rt.alloc(), path)?;
        files.push(FileArg { kind, path })?;
    }
    Ok(files)
}
