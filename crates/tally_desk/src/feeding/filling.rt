//! How a block is filled with the bytes of an input.
ghost use Rattle.std.specs.Prelude.{◌≡◌, ◌+◌, ◌-◌, ◌^◌, ◌<◌, ◌≤◌, IfOk, OnErr, OnOk, length, slice_range, take, true, vec_capacity, vec_len};
ghost use Rattle.std.specs.Io.KnownBytes.{Consumes, IsAtEnd};
ghost use Rattle.tally_desk.specs.Blocks.{block_size};
ghost use Rattle.tally_desk.specs.Takings.{TakesAtMost};

use crate::feeding::block::block_size;
use crate::feeding::input::{Input, InputFault};
use std::alloc::{AllocError, Global};
use tally_records::Kind;

/// How many bytes of a block are ready at first: a small file takes no more.
const FIRST_PART: usize = 16_384;

/// Fills the block up to its end or to the end of the input, and says how far.
fn fill<I: Input>(input: &mut I, block: &mut [u8]) -> Result<usize, InputFault>
    requires { I.failures input.old < 2 ^ 64 - 1 }
    ensures bound { IfOk result (λ n. n ≤ length block.new) }
    ensures bytes { IfOk result (λ n.
        Consumes (I.to_come input.old) (I.to_come input.new) (take n block.new)) }
    ensures end { IfOk result (λ n. n < length block.new → IsAtEnd (I.to_come input.new)) }
    ensures few { TakesAtMost (length block.new) (I.to_come input.old) (I.to_come input.new) }
    ensures nature { I.can_fail input.new ≡ I.can_fail input.old }
    ensures ok { OnOk result (I.failures input.new ≡ I.failures input.old) }
    ensures err { OnErr result (I.failures input.new ≡ I.failures input.old + 1) }
    ensures cause { OnErr result (I.can_fail input.old ≡ true) }
{
    let mut filled = 0;
    while filled < block.len() {
        let count = input.take(&mut block[filled..])?;
        if count == 0 {
            return Ok(filled);
        }
        filled += count;
    }
    Ok(filled)
}

/// Fills the block from a place on, and says how far.
fn fill_rest<I: Input>(input: &mut I, block: &mut [u8], from: usize) -> Result<usize, InputFault>
    requires countable { I.failures input.old < 2 ^ 64 - 1 }
    requires from_in { from ≤ length block.old }
    ensures kept { take from block.new ≡ take from block.old }
    ensures first { IfOk result (λ n. from ≤ n) }
    ensures bound { IfOk result (λ n. n ≤ length block.new) }
    ensures bytes { IfOk result (λ n.
        Consumes (I.to_come input.old) (I.to_come input.new) (slice_range block.new from n)) }
    ensures end { IfOk result (λ n. n < length block.new → IsAtEnd (I.to_come input.new)) }
    ensures few { TakesAtMost (length block.new - from) (I.to_come input.old) (I.to_come input.new) }
    ensures nature { I.can_fail input.new ≡ I.can_fail input.old }
    ensures ok { OnOk result (I.failures input.new ≡ I.failures input.old) }
    ensures err { OnErr result (I.failures input.new ≡ I.failures input.old + 1) }
    ensures cause { OnErr result (I.can_fail input.old ≡ true) }
{
    let more = fill(input, &mut block[from..])?;
    Ok(from + more)
}

/// Room for a block of this size, of which a first part is ready to be filled.
pub(crate) fn new_block(alloc: Global, size: usize) -> Result<Vec<u8>, AllocError>
    requires { FIRST_PART ≤ size }
    ensures room { IfOk result (λ block. size ≤ vec_capacity block) }
    ensures ready { IfOk result (λ block. vec_len block ≤ size) }
{
    let mut block = Vec::with_capacity(alloc, size)?;
    block.resize(FIRST_PART, 0)?;
    Ok(block)
}

/// Makes the block ready up to this size. What is filled stays.
fn make_ready(block: &mut Vec<u8>, filled: usize, size: usize)
    requires filled { filled ≤ vec_len block.old }
    requires ready { vec_len block.old ≤ size }
    requires room { size ≤ vec_capacity block.old }
    ensures kept { take filled block.new.items ≡ take filled block.old.items }
    ensures ready { vec_len block.new ≡ size }
    ensures room { size ≤ vec_capacity block.new }
{
    block.resize(size, 0).unwrap();
}

/// Fills the block up to this size or to the end of the input, and says how far. What is not ready to be filled
/// is made so once the rest is full.
fn fill_block<I: Input>(
    input: &mut I,
    block: &mut Vec<u8>,
    size: usize,
) -> Result<usize, InputFault>
    requires countable { I.failures input.old < 2 ^ 64 - 1 }
    requires room { size ≤ vec_capacity block.old }
    requires ready { vec_len block.old ≤ size }
    ensures room { size ≤ vec_capacity block.new }
    ensures ready { vec_len block.new ≤ size }
    ensures bound { IfOk result (λ n. n ≤ vec_len block.new) }
    ensures bytes { IfOk result (λ n.
        Consumes (I.to_come input.old) (I.to_come input.new) (take n block.new.items)) }
    ensures end { IfOk result (λ n. n < size → IsAtEnd (I.to_come input.new)) }
    ensures few { TakesAtMost size (I.to_come input.old) (I.to_come input.new) }
    ensures nature { I.can_fail input.new ≡ I.can_fail input.old }
    ensures ok { OnOk result (I.failures input.new ≡ I.failures input.old) }
    ensures err { OnErr result (I.failures input.new ≡ I.failures input.old + 1) }
    ensures cause { OnErr result (I.can_fail input.old ≡ true) }
{
    let filled = fill(input, block.as_mut_slice())?;
    if filled < block.len() {
        return Ok(filled);
    }
    make_ready(block, filled, size);
    fill_rest(input, block.as_mut_slice(), filled)
}

/// Fills the block with the next bytes of an input of this kind, up to a full block or to the end of the input, and says how far.
pub(crate) fn read_block<I: Input>(
    input: &mut I,
    kind: Kind,
    block: &mut Vec<u8>,
) -> Result<usize, InputFault>
    requires countable { I.failures input.old < 2 ^ 64 - 1 }
    requires room { block_size kind ≤ vec_capacity block.old }
    requires ready { vec_len block.old ≤ block_size kind }
    ensures room { block_size kind ≤ vec_capacity block.new }
    ensures ready { vec_len block.new ≤ block_size kind }
    ensures bound { IfOk result (λ n. n ≤ vec_len block.new) }
    ensures bytes { IfOk result (λ n.
        Consumes (I.to_come input.old) (I.to_come input.new) (take n block.new.items)) }
    ensures end { IfOk result (λ n. n < block_size kind → IsAtEnd (I.to_come input.new)) }
    ensures few { TakesAtMost (block_size kind) (I.to_come input.old) (I.to_come input.new) }
    ensures nature { I.can_fail input.new ≡ I.can_fail input.old }
    ensures ok { OnOk result (I.failures input.new ≡ I.failures input.old) }
    ensures err { OnErr result (I.failures input.new ≡ I.failures input.old + 1) }
    ensures cause { OnErr result (I.can_fail input.old ≡ true) }
{
    fill_block(input, block, block_size(kind))
}
