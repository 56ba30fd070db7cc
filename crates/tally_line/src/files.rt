//! The files that a command line names.
ghost use Rattle.std.specs.Prelude.{◌≡◌, ◌≢◌, ◌++◌, [], None, IfErr, IfNone, IfOk, IfSome, string_bytes, unwrap_or};
ghost use Rattle.clap.specs.Walk.{texts};
ghost use Rattle.tally_line.specs.FileWords.{HasPrefix, NamesFiles, Reads, prefix_of, word_of};
ghost use Rattle.tally_line.specs.inside.LineSteps.{IsFileFault, IsWordFault};

use crate::job::Report;
use crate::line::{FileArg, LineFault};
use std::alloc::Global;
use tally_records::Kind;

/// The files that the words name to a report.
pub(crate) fn files_of(
    alloc: Global,
    report: Report,
    words: &[&str],
) -> Result<Vec<FileArg>, LineFault>
    ensures ok { IfOk result (λ files. NamesFiles report (texts words.now) files.items) }
    ensures err { IfErr result (IsFileFault report (texts words.now)) }
{
    let mut files = Vec::new(alloc);
    for (index, word) in words.iter().enumerate() {
        let file = file_of(alloc, report, index, word)?;
        files.push(file)?;
    }
    Ok(files)
}

/// The file that the word at an index names to a report.
fn file_of(alloc: Global, report: Report, index: usize, word: &str) -> Result<FileArg, LineFault>
    ensures word { IfOk result (λ file. word.entry.now ≡ word_of report file.kind (string_bytes file.path)) }
    ensures kind { IfOk result (λ file. Reads report file.kind) }
    ensures err { IfErr result (IsWordFault report index word.entry.now) }
{
    let Some((kind, path)) = named_file(report, word) else {
        return Err(LineFault::Prefix { index });
    };
    let path = String::from_str(alloc, path)?;
    Ok(FileArg { kind, path })
}

/// The kind and the path of the file that a word names to a report.
fn named_file<'a>(report: Report, word: &'a str) -> Option<(Kind, &'a str)>
    ensures word { IfSome result (λ f. word.entry.now ≡ word_of report f.0 f.1.now) }
    ensures kind { IfSome result (λ f. Reads report f.0) }
    ensures none { IfNone result ((report ≡ Report.All) × ¬ HasPrefix word.entry.now) }
{
    match report {
        Report::Last { .. } | Report::Connect { .. } => Some((Kind::Login, word)),
        Report::Attempts { .. } | Report::AttemptSums { .. } => Some((Kind::FailedLogin, word)),
        Report::Commands { .. } | Report::Users { .. } => Some((Kind::Proc, word)),
        Report::All => prefixed_file(word),
    }
}

/// The kind that a word's prefix names, and the path after it.
fn prefixed_file<'a>(word: &'a str) -> Option<(Kind, &'a str)>
    ensures some { IfSome result (λ f. word.entry.now ≡ unwrap_or (prefix_of f.0) [] ++ f.1.now) }
    ensures kind { IfSome result (λ f. prefix_of f.0 ≢ None) }
    ensures none { IfNone result (¬ HasPrefix word.entry.now) }
{
    if let Some(path) = word.strip_prefix("w:") {
        return Some((Kind::Login, path));
    }
    let path = word.strip_prefix("p:")?;
    Some((Kind::Proc, path))
}
