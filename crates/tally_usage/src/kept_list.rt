//! Kept entries in blocks, so that none of them is moved when more come.
ghost use Rattle.std.specs.Prelude.{◌≡◌, ◌≤◌, ◌<◌, ◌+◌, ◌++◌, [], ◌∷◌, OnOk, length, slice_get};

use crate::entry::{CompactProc, ENTRY_LIMIT};
use std::alloc::{AllocError, Global};
use std::marker::Model;
use std::mem;

/// How many entries a block has.
const BLOCK: usize = 4096;

/// Entries in the order in which they came.
#[derive(Drop)]
pub(crate) struct KeptList {
    alloc: Global,
    /// The blocks that are full.
    full: Vec<Vec<CompactProc>>,
    /// The entries after these, a block or less.
    last: Vec<CompactProc>,
    /// An empty block for the entries after those.
    next: Option<Vec<CompactProc>>,
    /// How many entries there are.
    count: usize,
}

impl Model for KeptList {
    ghost use Rattle.tally_usage.specs.Kept.{Kept};

    ghost Value = { Kept };

    ghost use Rattle.tally_usage.specs.inside.Blocks.{AreBlocks, kept_of};

    ghost view = { kept_of };

    ghost invariant = { AreBlocks };
}

/// The entry at a place of a block.
fn entry_at(block: &[CompactProc], place: usize) -> Option<CompactProc>
    ensures { result ≡ slice_get block.now place }
{
    block.get(place).copied()
}

impl KeptList {
    /// No entries, which take no memory.
    pub(crate) fn new(alloc: Global) -> KeptList
        ensures { result.entries ≡ [] }
    {
        KeptList {
            alloc,
            full: Vec::new(alloc),
            last: Vec::new(alloc),
            next: None,
            count: 0,
        }
    }

    /// How many there are.
    pub(crate) fn len(&self) -> usize
        ensures { result ≡ length self.now.entries }
    {
        self.count
    }

    /// The entry at a place, counted from 0.
    pub(crate) fn get(&self, index: usize) -> Option<CompactProc>
        ensures { result ≡ slice_get self.now.entries index }
    {
        let block = index / BLOCK;
        if block < self.full.len() {
            return entry_at(self.full[block].as_slice(), index % BLOCK);
        }
        entry_at(self.last.as_slice(), index - self.full.len() * BLOCK)
    }

    /// Makes room for as many entries more, no more than a block. The first block grows by doubling up to its half.
    pub(crate) fn reserve(&mut self, count: usize) -> Result<(), AllocError>
        requires { count ≤ 4096 }
        ensures entries { self.new.entries ≡ self.old.entries }
        ensures room { OnOk result (count ≤ self.new.spare) }
    {
        let left = BLOCK - self.last.len();
        if left < BLOCK / 2 + count {
            self.last.reserve_exact(left)?;
        } else {
            self.last.reserve(count)?;
        }
        if left < count && self.next.is_none() {
            self.full.reserve(1)?;
            self.next = Some(Vec::with_capacity(self.alloc, BLOCK)?);
        }
        Ok(())
    }

    /// Adds an entry, in the room that there is.
    pub(crate) fn push(&mut self, entry: CompactProc)
        requires few { length self.old.entries < ENTRY_LIMIT }
        requires room { 0 < self.old.spare }
        ensures entries { self.new.entries ≡ self.old.entries ++ entry ∷ [] }
        ensures room { self.old.spare ≤ self.new.spare + 1 }
    {
        if self.last.len() == BLOCK {
            if let Some(next) = self.next.take() {
                let last = mem::replace(&mut self.last, next);
                self.full.push_reserved(last);
            }
        }
        self.last.push_reserved(entry);
        self.count += 1;
    }
}
