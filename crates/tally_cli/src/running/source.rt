//! The inputs of a run.
ghost use Rattle.std.specs.Prelude.{◌≡◌, IfOk, map};

use std::alloc::{AllocError, Global};
use tally_records::Kind;

/// A file to be read.
#[derive(Drop)]
pub struct Source<I> {
    pub kind: Kind,
    pub input: I,
}

/// The kinds of the files.
pub(crate) fn kinds_of<I>(alloc: Global, sources: &[Source<I>]) -> Result<Vec<Kind>, AllocError>
    ensures { IfOk result (λ v. v.items ≡ map (λ s. s.kind) sources.now) }
{
    sources.iter().map(|source| source.kind).collect(alloc)
}
