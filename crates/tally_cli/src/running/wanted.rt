//! What a report on processes is to be of, beside its job.
ghost use Rattle.std.specs.Prelude.{◌≡◌, [], None, false};
ghost use Rattle.tally_cli.specs.UsageOutput.{wanted_of};
ghost use Rattle.tally_cli.specs.inside.Parts.{report_by_file, report_lent};
ghost use Rattle.tally_usage.specs.Choice.{every_proc};

use crate::running::apart::FilesApart;
use tally_line::{Job, Report};
use tally_usage::{ProcChoice, UserNames};

/// What a report on processes is to be of, beside its job.
#[derive(Clone, Copy)]
pub struct UsageWanted<'a> {
    /// The processes that are counted.
    pub choice: ProcChoice,
    /// The names that a report by user has, where they are given.
    pub names: Option<&'a UserNames>,
    /// How the files are told apart.
    pub apart: FilesApart<'a>,
}

impl<'a> UsageWanted<'a> {
    /// All processes of all files together, by the numbers of users.
    pub fn every() -> UsageWanted<'a>
        ensures { wanted_of result ≡ record { choice = every_proc; names = None; apart = record { files = []; by_file = false; paths = false } } }
    {
        UsageWanted {
            choice: ProcChoice::every(),
            names: None,
            apart: FilesApart::together(),
        }
    }
}

/// The report that each file has by itself, where that is wanted.
pub(crate) fn report_by_file<'a>(job: &'a Job, wanted: UsageWanted<'_>) -> Option<&'a Report>
    ensures { report_lent result ≡ report_by_file wanted.entry job.entry.now.report }
{
    if wanted.apart.asked.by_file {
        Some(&job.report)
    } else {
        None
    }
}
