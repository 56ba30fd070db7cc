//! An input whose process records are counted block by block, and not kept.
ghost use Rattle.std.specs.Prelude.{◌≡◌, ◌≢◌, ◌+◌, ◌-◌, ◌^◌, ◌<◌, ◌≤◌, ◌*◌, IfOk, OnOk, List, [], ℕ, IfErr, Some, length, true};
ghost use Rattle.std.specs.Io.KnownBytes.{IsAtEnd};
ghost use Rattle.tally_records.specs.Records.{IsProcs, procs_in, record_count};
ghost use Rattle.tally_records.specs.declared.process.ProcRecord.{ProcRecord};
ghost use Rattle.tally_usage.specs.Choice.{chosen};
ghost use Rattle.tally_usage.specs.Sums.{AreSumsOf, CountsMore};
ghost use Rattle.tally_usage.specs.declared.usage.TheConstants.{SUMS_LIMIT};
ghost use Rattle.tally_desk.specs.Blocks.{block_size};
ghost use Rattle.tally_desk.specs.Counting.{AreSumsOfAtMost, IsCounted, IsCountFault, IsStoppedCount};
ghost use Rattle.tally_desk.specs.Takings.{TakesAtMost};
ghost use Rattle.tally_desk.specs.inside.CountStops.{IsFirstFault, IsGivenFor, IsStoppedAfter};
ghost use Rattle.tally_desk.specs.inside.Turns.{IsReadFault};
ghost use Rattle.tally_desk.specs.declared.fault.CountFault.TheVariants as given;
ghost use Rattle.tally_desk.specs.declared.fault.FeedFault.TheVariants as fault;

use crate::fault::{CountFault, FeedFault};
use crate::feeding::block::{block_size, is_last, next_batch};
use crate::feeding::expect_end;
use crate::feeding::filling::new_block;
use crate::feeding::input::Input;
use std::alloc::Global;
use std::hash::RandomState;
use tally_records::{Batch, Kind};
use tally_usage::{ProcChoice, Sums, SumsFault};

/// Counts the chosen records of a batch too, for which there is room below the limit.
fn count_batch(sums: &mut Sums, batch: &Batch, choice: &ProcChoice) -> Result<(), FeedFault>
    requires kind { IsProcs batch.now }
    requires room { (rs : List ProcRecord) × AreSumsOf sums.old rs × (length rs + record_count batch.now ≤ SUMS_LIMIT) }
    ensures counted { OnOk result (CountsMore sums.old sums.new (chosen choice.now (procs_in batch.now))) }
    ensures memory { IfErr result (λ f. f ≡ fault.Memory) }
{
    match sums.add_chosen(batch, choice) {
        Ok(()) => Ok(()),
        Err(SumsFault::Memory) => Err(FeedFault::Memory),
        Err(SumsFault::Full) => unreachable!(),
    }
}

/// Counts the chosen records of the input's blocks of 1,024 in order, up to its end or to its first block that is refused. More than
/// `most` blocks are too many.
fn count_blocks<I: Input>(
    alloc: Global,
    input: &mut I,
    sums: &mut Sums,
    choice: &ProcChoice,
    most: u32,
) -> Result<(), FeedFault>
    requires empty { AreSumsOf sums.old [] }
    requires few { most ≤ 262144 }
    requires countable { I.failures input.old < 2 ^ 64 - 1 }
    ensures few { TakesAtMost (most * block_size Kind.Proc + 1) (I.to_come input.old) (I.to_come input.new) }
    ensures end { OnOk result (IsAtEnd (I.to_come input.new)) }
    ensures nature { I.can_fail input.new ≡ I.can_fail input.old }
    ensures some { OnOk result (AreSumsOfAtMost (most * 1024) sums.new) }
    ensures whole { OnOk result ((bytes : List ℕ) → I.to_come input.old ≡ Some bytes
        → IsCounted choice.now most bytes sums.new) }
    ensures stops { IfErr result (λ f. (bytes : List ℕ) → I.to_come input.old ≡ Some bytes
        → IsFirstFault most bytes f) }
    ensures place { IfErr result (IsStoppedAfter most) }
    ensures reading { IfErr result IsReadFault }
    ensures failures { OnOk result (I.failures input.new ≡ I.failures input.old) }
    ensures unfailed { IfErr result (λ f. f ≢ fault.Read
        → I.failures input.new ≡ I.failures input.old) }
    ensures read { IfErr result (λ f. f ≡ fault.Read
        → (I.failures input.new ≡ I.failures input.old + 1) × (I.can_fail input.old ≡ true)) }
{
    let mut block = new_block(alloc, block_size(Kind::Proc))?;
    for turn in 0..most {
        let Some(batch) = next_batch(alloc, Kind::Proc, input, &mut block, turn, most)? else {
            return Ok(());
        };
        count_batch(sums, &batch, choice)?;
        if is_last(&batch) {
            return Ok(());
        }
    }
    expect_end(input, most)?;
    Ok(())
}

/// What the caller of a count is told of a fault.
fn fault_of_count(fault: FeedFault) -> CountFault
    requires reading { IsReadFault fault }
    ensures value { IsGivenFor fault result }
    ensures place { (most : ℕ) → IsStoppedAfter most fault → IsStoppedCount most result }
{
    match fault {
        FeedFault::Memory => CountFault::Memory,
        FeedFault::Read => CountFault::Read,
        FeedFault::Torn { records, rest } => CountFault::Torn { records, rest },
        FeedFault::TooLong { limit } => CountFault::TooLong { limit },
        FeedFault::Bad { at, fault } => CountFault::Bad { at, fault },
        FeedFault::LoginsFull { stored: _ } => unreachable!(),
        FeedFault::ProcsFull { stored: _ } => unreachable!(),
        FeedFault::CallsFull => unreachable!(),
    }
}

/// The sums of the chosen of an input's process records. They are read by blocks of 1,024, and none is kept.
///
/// At most `most` blocks are read, up to 262,144 of them. The first fault of the input is named, which is that of `feed` to a book
/// with room for `most` blocks: `Torn` where the input ends inside a record, `Bad` where a record has no meaning, and `TooLong` where a byte
/// follows `most` full blocks. `Memory` and `Read` come where memory runs out or the input fails before. It takes memory
/// for one block and its batch, about 100 KiB, and for the groups of the sums, whose tables are hashed by the keys.
pub fn count_input<I: Input>(
    alloc: Global,
    keys: RandomState,
    input: &mut I,
    choice: &ProcChoice,
    most: u32,
) -> Result<Sums, CountFault>
    requires few { most ≤ 262144 }
    requires countable { I.failures input.old < 2 ^ 64 - 1 }
    ensures few { TakesAtMost (most * block_size Kind.Proc + 1) (I.to_come input.old) (I.to_come input.new) }
    ensures end { OnOk result (IsAtEnd (I.to_come input.new)) }
    ensures nature { I.can_fail input.new ≡ I.can_fail input.old }
    ensures some { IfOk result (AreSumsOfAtMost (most * 1024)) }
    ensures whole { IfOk result (λ sums. (bytes : List ℕ) → I.to_come input.old ≡ Some bytes
        → IsCounted choice.now most bytes sums) }
    ensures stops { IfErr result (λ f. (bytes : List ℕ) → I.to_come input.old ≡ Some bytes
        → IsCountFault most bytes f) }
    ensures place { IfErr result (IsStoppedCount most) }
    ensures failures { OnOk result (I.failures input.new ≡ I.failures input.old) }
    ensures unfailed { IfErr result (λ f. f ≢ given.Read
        → I.failures input.new ≡ I.failures input.old) }
    ensures read { IfErr result (λ f. f ≡ given.Read
        → (I.failures input.new ≡ I.failures input.old + 1) × (I.can_fail input.old ≡ true)) }
{
    let mut sums = Sums::new(alloc, keys);
    match count_blocks(alloc, input, &mut sums, choice, most) {
        Ok(()) => Ok(sums),
        Err(fault) => Err(fault_of_count(fault)),
    }
}
