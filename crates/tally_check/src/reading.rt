//! A file that is read by blocks.
ghost use Rattle.std.specs.Prelude.{◌≡◌, ◌≤◌, ◌<◌, ◌%◌, [], List, ℕ, IfErr, IfOk, IfSome, OnOk, length, take};
ghost use Rattle.std.specs.Io.KnownBytes.{Consumes, IsAtEnd, ReadConsumes};
ghost use Rattle.std.specs.Io.{ReadsAtMost};
ghost use Rattle.tally_check.specs.Kinds.{most_bytes};
ghost use Rattle.tally_check.specs.inside.Reading as Inside;
ghost use Rattle.tally_check.specs.inside.Tallies as Tallies;

use crate::fault::CheckFault;
use crate::tally::{BLOCK_SIZE, Tally, add};
use std::alloc::{AllocError, Global};
use std::io::{ErrorKind, Read};
use tally_sessions::Sessions;

/// How often a read is begun that an interrupt breaks off, before it counts as failed.
const MOST_TRIES: u32 = 1000;

/// Reads once, and again where an interrupt broke the read off.
fn read_through<R: Read>(reader: &mut R, buf: &mut [u8]) -> Result<usize, CheckFault>
    ensures bound { ReadsAtMost result buf.new }
    ensures bytes { ReadConsumes (R.remaining reader.old) (R.remaining reader.new) result buf.new }
    ensures fault { IfErr result Inside.IsReadFault }
{
    for _ in 0..MOST_TRIES {
        match reader.read(buf) {
            Ok(count) => return Ok(count),
            Err(error) if error.kind() == ErrorKind::Interrupted => {}
            Err(_) => break,
        }
    }
    Err(CheckFault::Read)
}

/// Fills the block up to its end or to the end of the file, and says how far.
pub(crate) fn fill<R: Read>(reader: &mut R, block: &mut [u8]) -> Result<usize, CheckFault>
    ensures bound { IfOk result (λ n. n ≤ length block.new) }
    ensures bytes { IfOk result (λ n. Consumes (R.remaining reader.old) (R.remaining reader.new) (take n block.new)) }
    ensures end { IfOk result (λ n. n < length block.new → IsAtEnd (R.remaining reader.new)) }
    ensures fault { IfErr result Inside.IsReadFault }
{
    let mut filled = 0;
    while filled < block.len() {
        let count = read_through(reader, &mut block[filled..])?;
        if count == 0 {
            return Ok(filled);
        }
        filled += count;
    }
    Ok(filled)
}

/// Room for a block.
fn new_block(alloc: Global) -> Result<Vec<u8>, AllocError>
    ensures { IfOk result (λ block. length block.items ≡ BLOCK_SIZE) }
{
    let mut block = Vec::new(alloc);
    block.resize(BLOCK_SIZE, 0)?;
    Ok(block)
}

/// Reads a block, and counts it too: whether it is the last. More bytes than the file may have are not counted.
fn count_block<R: Read>(
    alloc: Global,
    reader: &mut R,
    block: &mut Vec<u8>,
    tally: &mut Tally,
    sessions: &mut Sessions,
) -> Result<bool, CheckFault>
    requires room { length block.old.items ≡ BLOCK_SIZE }
    requires full { tally.old.size % BLOCK_SIZE ≡ 0 }
    requires before { (before : List ℕ) × Tallies.IsTallyOf before tally.old sessions.old × (length before ≤ most_bytes tally.old.guess) }
    ensures room { length block.new.items ≡ BLOCK_SIZE }
    ensures guess { tally.new.guess ≡ tally.old.guess }
    ensures counted { IfOk result (Inside.IsCounted (R.remaining reader.old) (R.remaining reader.new) tally.old sessions.old tally.new sessions.new) }
    ensures fault { IfErr result (Inside.IsStopAfter tally.old.guess tally.old.size (R.remaining reader.old)) }
{
    let filled = fill(reader, block.as_mut_slice())?;
    if filled as u64 > tally.guess.most_bytes() - tally.size {
        return Err(tally.guess.too_many());
    }
    add(alloc, tally, sessions, &block[..filled])?;
    Ok(filled < BLOCK_SIZE)
}

/// Counts a file of which no byte was counted up to its end.
pub(crate) fn count_all<R: Read>(
    alloc: Global,
    reader: &mut R,
    tally: &mut Tally,
    sessions: &mut Sessions,
) -> Result<(), CheckFault>
    requires new { Tallies.IsTallyOf [] tally.old sessions.old }
    ensures guess { tally.new.guess ≡ tally.old.guess }
    ensures counted { OnOk result (Inside.IsWhole (R.remaining reader.old) tally.new sessions.new) }
    ensures fault { IfErr result (Inside.IsStop tally.old.guess (R.remaining reader.old)) }
{
    let mut block = new_block(alloc)?;
    let mut is_last = false;
    while !is_last {
        is_last = count_block(alloc, reader, &mut block, tally, sessions)?;
    }
    Ok(())
}
