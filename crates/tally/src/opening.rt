//! The files of the command line, opened one after another.
ghost use Rattle.std.specs.Prelude.{◌≡◌, ◌<◌, IfErr, IfOk, List, ℕ, length};
ghost use Rattle.std.specs.List.{All};
ghost use Rattle.tally.specs.Opened.{AreSourcesOf, IsFirstRefused, IsRefusedAt, IsSourceAt};
ghost use Rattle.tally.specs.declared.opening.OpenFault.{OpenFault as Fault};
ghost use Rattle.tally.specs.declared.opening.OpenFault.TheVariants.{Memory};
ghost use Rattle.tally_cli.specs.Runs.{IsReadable};
ghost use Rattle.tally_records.specs.declared.batch.Kind.{Kind as RecordKind};

use std::alloc::{AllocFailed, Global};
use std::io::Read;
use std::rt::Clock;
use tally_cli::{FileArg, Source};
use tally_desk::Reading;
use tally_records::Kind;
use tally_terminal::{Followed, Progress};
use tally_wtmpdb::DatabaseFault;

/// Why the files were not all opened.
#[derive(Drop)]
pub(crate) enum OpenFault<'a> {
    Memory,
    /// The file of this path could not be opened.
    NotOpened(&'a str),
    /// The file of this path is a database that gives no login records.
    Database(&'a str, DatabaseFault),
}

impl<'a, T: Drop> From<AllocFailed<T>> for OpenFault<'a> {
    ghost from_gives = { λ _ fault. fault ≡ Memory };

    fn from(_error: AllocFailed<T>) -> OpenFault<'a> {
        OpenFault::Memory
    }
}

/// What opens files by their paths.
pub(crate) trait Opens {
    type File: Read + Drop;

    // Whether this is the file of a path, opened to have records of a kind.
    ghost opens: { Self → RecordKind → List ℕ → Self.File → Type 0 };

    // Whether this is why there is none.
    ghost refuses: { Self → RecordKind → List ℕ → Fault → Type 0 };

    /// Opens the file of a path, which is to have records of a kind.
    fn open_as<'a>(&self, kind: Kind, path: &'a str) -> Result<Self::File, OpenFault<'a>>
        ensures opened { IfOk result (opens self.now kind path.now) }
        ensures refused { IfErr result (refuses self.now kind path.now) };
}

/// What is read of a file.
type FileSource<'a, R, F> = Source<Reading<Followed<'a, R, F>>>;

/// What is read of the files.
pub(crate) type Sources<'a, R, F> = Vec<FileSource<'a, R, F>>;

/// What is read of the file at a place.
fn source_at<'a, O: Opens, R: Clock + Eprint>(
    opener: &O,
    progress: &Progress<'a, R>,
    files: &'a [FileArg],
    at: usize,
) -> Result<FileSource<'a, R, O::File>, OpenFault<'a>>
    requires { at < length files.now }
    ensures opened { IfOk result (IsSourceAt (O.opens opener.now) files.now at) }
    ensures unfailed { IfOk result (λ source. source.input.failures ≡ 0) }
    ensures refused { IfErr result (IsRefusedAt (O.refuses opener.now) files.now at) }
{
    let file = &files[at];
    let path = file.path.as_str();
    let opened = opener.open_as(file.kind, path)?;
    let followed = Followed::new(opened, progress, Some(file.kind), path);
    Ok(Source {
        kind: file.kind,
        input: Reading::new(followed),
    })
}

/// Opens the files in order, up to the first that is refused. It stays apart, so that a run needs no stack for it.
#[inline(never)]
pub(crate) fn open_all<'a, O: Opens, R: Clock + Eprint>(
    opener: &O,
    alloc: Global,
    progress: &Progress<'a, R>,
    files: &'a [FileArg],
) -> Result<Sources<'a, R, O::File>, OpenFault<'a>>
    ensures opened { IfOk result (λ sources. AreSourcesOf (O.opens opener.now) files.now sources.items) }
    ensures readable { IfOk result (λ sources. All (IsReadable (λ input. input.failures)) sources.items) }
    ensures refused { IfErr result (IsFirstRefused R (O.opens opener.now) (O.refuses opener.now) files.now) }
{
    let mut sources = Vec::new(alloc);
    for at in 0..files.len() {
        let source = source_at(opener, progress, files, at)?;
        sources.push(source)?;
    }
    Ok(sources)
}
