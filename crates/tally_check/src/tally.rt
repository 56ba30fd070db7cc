//! What is counted of a file, as records of the kinds that it may have.
ghost use Rattle.std.specs.Prelude.{◌≡◌, ◌≤◌, ◌+◌, ◌%◌, ◌^◌, ◌++◌, List, ℕ, OnOk, length};
ghost use Rattle.tally_check.specs.Kinds as Kind;
ghost use Rattle.tally_check.specs.inside.Notes as Notes;
ghost use Rattle.tally_check.specs.inside.Tallies as Inside;
ghost use Rattle.tally_kinds.specs.Records.{records};

use crate::kind::Guess;
use crate::notes::{LoginNotes, ProcNotes, no_logins, no_procs, note_logins, note_procs};
use crate::posted::post_records;
use std::alloc::Global;
use tally_records::{LOGIN_SIZE, Memory, PROC_SIZE};
use tally_sessions::{ENTRY_LIMIT, Sessions};

/// The bytes of a full block: those of a batch of login records.
pub(crate) const BLOCK_SIZE: usize = 393_216;

/// What is counted of a file, beside the sessions of its login records.
#[derive(Clone, Copy)]
pub(crate) struct Tally {
    /// What the file may be.
    pub guess: Guess,
    /// How many bytes were counted.
    pub size: u64,
    pub logins: LoginNotes,
    pub procs: ProcNotes,
}

/// That of a file of which no byte was counted.
pub(crate) fn no_tally(guess: Guess) -> Tally
    ensures { result ≡ Inside.no_tally guess }
{
    Tally {
        guess,
        size: 0,
        logins: no_logins(),
        procs: no_procs(),
    }
}

/// Counts a block of login records too.
fn add_logins(
    alloc: Global,
    notes: &mut LoginNotes,
    sessions: &mut Sessions,
    block: &[u8],
) -> Result<(), Memory>
    requires before { (before : List (List ℕ)) × Inside.AreLoginsOf before notes.old sessions.old × (length before + length (records 384 block.now) ≤ ENTRY_LIMIT) }
    requires block { length block.now ≤ BLOCK_SIZE }
    ensures { OnOk result ((before : List (List ℕ)) → Inside.AreLoginsOf before notes.old sessions.old
        → Inside.AreLoginsOf (before ++ records 384 block.now) notes.new sessions.new) }
{
    let (records, _) = block.as_chunks::<LOGIN_SIZE>();
    note_logins(notes, records);
    post_records(alloc, sessions, records)
}

/// Counts a block of process records too.
fn add_procs(notes: &mut ProcNotes, block: &[u8])
    requires before { (before : List (List ℕ)) × (notes.old ≡ Notes.proc_notes before) × (length before ≤ 2 ^ 40) }
    requires block { length block.now ≤ BLOCK_SIZE }
    ensures { (before : List (List ℕ)) → notes.old ≡ Notes.proc_notes before → notes.new ≡ Notes.proc_notes (before ++ records 64 block.now) }
{
    let (records, _) = block.as_chunks::<PROC_SIZE>();
    note_procs(notes, records);
}

/// Counts a block as process records too, where they may be.
fn count_procs(tally: &mut Tally, block: &[u8])
    requires before { (before : List ℕ) × (tally.old.size ≡ length before) × Inside.AreProcsIn before tally.old × (length before ≤ Kind.most_bytes tally.old.guess) }
    requires full { tally.old.size % BLOCK_SIZE ≡ 0 }
    requires block { length block.now ≤ BLOCK_SIZE }
    ensures same { tally.new ≡ record tally.old { procs = tally.new.procs } }
    ensures counted { (before : List ℕ) → tally.old.size ≡ length before → Inside.AreProcsIn before tally.old → Inside.AreProcsIn (before ++ block.now) tally.new }
{
    if tally.guess.has_procs() {
        add_procs(&mut tally.procs, block);
    }
}

/// Counts a block as login records too, where they may be.
fn count_logins(
    alloc: Global,
    tally: &mut Tally,
    sessions: &mut Sessions,
    block: &[u8],
) -> Result<(), Memory>
    requires before { (before : List ℕ) × (tally.old.size ≡ length before) × Inside.AreLoginsIn before tally.old sessions.old × (length before + length block.now ≤ Kind.most_bytes tally.old.guess) }
    requires kept { Inside.IsKept sessions.old }
    requires full { tally.old.size % BLOCK_SIZE ≡ 0 }
    requires block { length block.now ≤ BLOCK_SIZE }
    ensures same { tally.new ≡ record tally.old { logins = tally.new.logins } }
    ensures kept { OnOk result (Inside.IsKept sessions.new) }
    ensures counted { OnOk result ((before : List ℕ) → tally.old.size ≡ length before → Inside.AreLoginsIn before tally.old sessions.old → Inside.AreLoginsIn (before ++ block.now) tally.new sessions.new) }
{
    if !tally.guess.has_logins() {
        return Ok(());
    }
    add_logins(alloc, &mut tally.logins, sessions, block)
}

/// Counts a block too, before which all blocks were full.
pub(crate) fn add(
    alloc: Global,
    tally: &mut Tally,
    sessions: &mut Sessions,
    block: &[u8],
) -> Result<(), Memory>
    requires before { (before : List ℕ) × Inside.IsTallyOf before tally.old sessions.old × (length before + length block.now ≤ Kind.most_bytes tally.old.guess) }
    requires full { tally.old.size % BLOCK_SIZE ≡ 0 }
    requires block { length block.now ≤ BLOCK_SIZE }
    ensures guess { tally.new.guess ≡ tally.old.guess }
    ensures size { OnOk result (tally.new.size ≡ tally.old.size + length block.now) }
    ensures counted { OnOk result ((before : List ℕ) → Inside.IsTallyOf before tally.old sessions.old → Inside.IsTallyOf (before ++ block.now) tally.new sessions.new) }
{
    count_procs(tally, block);
    count_logins(alloc, tally, sessions, block)?;
    tally.size += block.len() as u64;
    Ok(())
}
