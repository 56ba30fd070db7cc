//! How a report tells its files apart.
ghost use Rattle.std.specs.Prelude.{◌↔◌, IfNone, IfSome, IsTrue};
ghost use Rattle.clap.specs.Words.{found_of, rows_of};
ghost use Rattle.tally_line.specs.Apart.{HasRowsOfFiles, IsFilesAsked, IsTableOfFiles};

use crate::given::{is_given, is_set};
use crate::line::FilesAsked;
use clap::ArgMatches;

const NO_TABLE: &str =
    "error: --paths cannot be used without --csv\n\nFor more information, try '--help'.\n";

const SUMS: &str =
    "error: --paths cannot be used with --sum\n\nFor more information, try '--help'.\n";

/// The same of a report that may be on each file by itself.
const NO_FILES: &str =
    "error: --paths cannot be used without --csv and --by-file\n\nFor more information, try '--help'.\n";

/// What is asked, whether it is sound or not.
pub(crate) fn files_asked(matches: &ArgMatches<'_>) -> FilesAsked
    ensures { IsFilesAsked (rows_of (found_of matches.now)) result }
{
    FilesAsked {
        by_file: is_set(matches, "by-file"),
        paths: is_set(matches, "paths"),
    }
}

/// What is wrong with a flag for paths, where anything is.
pub(crate) fn mistake_in_paths(matches: &ArgMatches<'_>) -> Option<&'static str>
    ensures some { IfSome result (λ text. ¬ HasRowsOfFiles (rows_of (found_of matches.now))) }
    ensures none { IfNone result (HasRowsOfFiles (rows_of (found_of matches.now))) }
{
    if !is_set(matches, "paths") || is_table_of_files(matches) {
        None
    } else if is_given(matches, "by-file") {
        Some(NO_FILES)
    } else if is_set(matches, "csv") {
        Some(SUMS)
    } else {
        Some(NO_TABLE)
    }
}

/// Whether each row of the report is of one file.
fn is_table_of_files(matches: &ArgMatches<'_>) -> bool
    ensures { IsTrue result ↔ IsTableOfFiles (rows_of (found_of matches.now)) }
{
    is_set(matches, "csv")
        && !is_set(matches, "sum")
        && (is_set(matches, "by-file") || !is_given(matches, "by-file"))
}
