//! Files that are dealt to feeders by turns, and what the count of each came to.
ghost use Rattle.std.specs.Prelude.{◌≡◌, ◌≢◌, ◌<◌, ◌≤◌, ◌/◌, ◌%◌, ℕ, IfOk, length, map};
ghost use Rattle.std.specs.List.{All};
ghost use Rattle.tally_cli.specs.Runs.{IsReadable};
ghost use Rattle.tally_cli.specs.inside.Files.{AreDealt, IsPlaced, IsUncounted, count_in};

use crate::running::deal::empty_lists;
use crate::running::source::Source;
use std::alloc::{AllocError, Global};
use std::mem;
use tally_desk::Input;

/// What the count of a file came to.
#[derive(Drop)]
pub(crate) enum Count<S, F> {
    Untried,
    Sums(S),
    Fault(F),
}

/// A file, and what its count came to.
#[derive(Drop)]
pub(crate) struct FileCount<I, S, F> {
    pub(crate) source: Source<I>,
    pub(crate) count: Count<S, F>,
}

/// The feeder of the file with a number.
fn feeder_of(host: usize, feeders: usize) -> usize
    requires { 0 < feeders }
    ensures { result ≡ host % feeders }
{
    host % feeders
}

/// The place of the file with a number among those of its feeder.
fn place_of(host: usize, feeders: usize) -> usize
    requires { 0 < feeders }
    ensures { result ≡ host / feeders }
{
    host / feeders
}

/// Deals the files to so many feeders by turns, in their order.
pub(crate) fn deal<I: Input, S: Drop, F: Drop>(
    alloc: Global,
    sources: Vec<Source<I>>,
    feeders: usize,
) -> Result<Vec<Vec<FileCount<I, S, F>>>, AllocError>
    requires feeders { (0 < feeders) × (feeders ≤ 64) }
    requires readable { All (IsReadable I.failures) sources.items }
    ensures count { IfOk result (λ lists. length lists.items ≡ feeders) }
    ensures dealt { IfOk result (λ lists. AreDealt feeders sources.items (map (λ v. v.items) lists.items)) }
    ensures uncounted { IfOk result (λ lists. All (λ v. All (IsUncounted I.failures) v.items) lists.items) }
{
    let mut lists = empty_lists(alloc, feeders)?;
    let files = sources.len();
    let mut sources = sources;
    for host in 0..files {
        let file = FileCount {
            source: sources.remove(0),
            count: Count::Untried,
        };
        lists[feeder_of(host, feeders)].push(file)?;
    }
    Ok(lists)
}

/// Takes the count of the file with this number out of the lists of so many feeders.
pub(crate) fn take_count<I: Drop, S: Drop, F: Drop>(
    lists: &mut Vec<Vec<FileCount<I, S, F>>>,
    feeders: usize,
    host: usize,
) -> Count<S, F>
    requires some { 0 < feeders }
    requires all { length lists.old.items ≡ feeders }
    requires placed { IsPlaced feeders (map (λ v. v.items) lists.old.items) host }
    ensures value { result ≡ count_in feeders (map (λ v. v.items) lists.old.items) host }
    ensures others { (k : ℕ) → k ≢ host → count_in feeders (map (λ v. v.items) lists.new.items) k ≡ count_in feeders (map (λ v. v.items) lists.old.items) k }
    ensures placed { (k : ℕ) → IsPlaced feeders (map (λ v. v.items) lists.old.items) k → IsPlaced feeders (map (λ v. v.items) lists.new.items) k }
    ensures all { length lists.new.items ≡ feeders }
{
    let files = &mut lists[feeder_of(host, feeders)];
    let file = &mut files[place_of(host, feeders)];
    mem::replace(&mut file.count, Count::Untried)
}
