//! How a report tells its files apart.
ghost use Rattle.std.specs.Prelude.{◌≡◌, [], false};
ghost use Rattle.tally_cli.specs.Apart.{apart_of, has_paths, is_by_file, is_csv, path_at};

use tally_line::{FileArg, FilesAsked, Form, Job, Report};

/// How a report tells its files apart.
#[derive(Clone, Copy)]
pub struct FilesApart<'a> {
    /// The files, in the order of the sources.
    pub files: &'a [FileArg],
    /// Whether each is reported by itself, too, and whether a table has their paths.
    pub asked: FilesAsked,
}

/// Whether a report is written as a table.
fn is_csv(form: Form) -> bool
    ensures { result ≡ is_csv form }
{
    form == Form::Csv
}

impl<'a> FilesApart<'a> {
    /// All files together, and no path in a table.
    pub fn together() -> FilesApart<'a>
        ensures { apart_of result ≡ record { files = []; by_file = false; paths = false } }
    {
        FilesApart {
            files: &[],
            asked: FilesAsked {
                by_file: false,
                paths: false,
            },
        }
    }

    /// The path of a file, counted from 0.
    pub(crate) fn path(self, file: usize) -> &'a str
        ensures { result.now ≡ path_at (apart_of self.entry) file }
    {
        match self.files.get(file) {
            Some(file) => file.path.as_str(),
            None => "",
        }
    }

    /// Whether the table of a job is to have the paths of its files.
    pub(crate) fn has_paths(self, job: &Job) -> bool
        ensures { result ≡ has_paths (apart_of self.entry) job.now }
    {
        self.asked.paths && is_csv(job.form)
    }

    /// Whether a report is by file beside that on all: it is one of connect time. Reports on processes are made elsewhere.
    pub(crate) fn is_by_file(self, report: &Report) -> bool
        ensures { result ≡ is_by_file (apart_of self.entry) report.now }
    {
        match report {
            Report::Connect { .. } => self.asked.by_file,
            Report::Last { .. }
            | Report::Attempts { .. }
            | Report::AttemptSums { .. }
            | Report::Commands { .. }
            | Report::Users { .. }
            | Report::All => false,
        }
    }
}
