//! One block of an input.
ghost use Rattle.std.specs.Prelude.{◌≡◌, ◌≢◌, ◌+◌, ◌-◌, ◌*◌, ◌^◌, ◌<◌, ◌≤◌, ◌/◌, ◌%◌, IfErr, IfNone, IfOk, IfSome, MatchBool, OnOk, Ok, None, Some, List, ℕ, length, true, vec_capacity, vec_len};
ghost use Rattle.std.specs.Io.KnownBytes.{IsAtEnd};
ghost use Rattle.tally_desk.specs.Batches.{batch_of, record_size, records_in};
ghost use Rattle.tally_desk.specs.Blocks.{block_fault, block_size, fault_before_end, torn_fault};
ghost use Rattle.tally_desk.specs.Takings.{TakesAtMost};
ghost use Rattle.tally_desk.specs.inside.Turns.{Gives, IsLast, IsBatch, IsBatchRefusal, IsBlockRefusal, IsInBlock, IsReadFault, Takes, TurnStops};
ghost use Rattle.tally_desk.specs.declared.fault.FeedFault.TheVariants as fault;
ghost use Rattle.tally_records.specs.Records.{IsAnswer, NamesRecordBelow, record_count};

use crate::fault::FeedFault;
use crate::feeding::filling::read_block;
use crate::feeding::input::Input;
use std::alloc::Global;
use tally_records::{BATCH_LIMIT, Batch, BatchFault, Kind, LOGIN_SIZE, PROC_SIZE};

/// The bytes of a record.
pub(crate) fn record_size(kind: Kind) -> usize
    ensures { result ≡ record_size kind }
{
    match kind {
        Kind::Login | Kind::FailedLogin => LOGIN_SIZE,
        Kind::Proc => PROC_SIZE,
    }
}

/// The bytes of a full block.
pub(crate) fn block_size(kind: Kind) -> usize
    ensures { result ≡ block_size kind }
{
    BATCH_LIMIT * record_size(kind)
}

/// The batch of the bytes.
fn read_batch(alloc: Global, kind: Kind, bytes: &[u8]) -> Result<Batch, BatchFault>
    ensures exact { IsAnswer result (batch_of kind bytes.now) }
    ensures place { IfErr result (NamesRecordBelow (length bytes.now / record_size kind)) }
{
    match kind {
        Kind::Login => Batch::logins(alloc, bytes),
        Kind::FailedLogin => Batch::failed_logins(alloc, bytes),
        Kind::Proc => Batch::procs(alloc, bytes),
    }
}

/// The batch of a block of whole records.
fn block_batch(alloc: Global, kind: Kind, bytes: &[u8], turn: u32) -> Result<Batch, FeedFault>
    requires room { length bytes.now ≤ block_size kind }
    requires whole { length bytes.now % record_size kind ≡ 0 }
    ensures value { IfOk result (λ batch. batch ≡ records_in kind bytes.now) }
    ensures good { OnOk result (batch_of kind bytes.now ≡ Ok (records_in kind bytes.now)) }
    ensures count { IfOk result (λ batch.
        record_count batch ≡ length bytes.now / record_size kind) }
    ensures err { IfErr result (IsBatchRefusal kind turn bytes.now) }
    ensures place { IfErr result (IsInBlock kind turn) }
{
    match read_batch(alloc, kind, bytes) {
        Ok(batch) => Ok(batch),
        Err(BatchFault::Memory) => Err(FeedFault::Memory),
        Err(BatchFault::Bad { index, fault }) => Err(FeedFault::Bad {
            at: u64::from(turn) * 1024 + index as u64,
            fault,
        }),
        Err(BatchFault::Length(_)) => unreachable!(),
        Err(BatchFault::TooMany(_)) => unreachable!(),
    }
}

/// The bad record of a block that is named in the place of its torn end: of failed logins the first one before it, since of them
/// the fault that stands first is named.
#[tactic(auto, using(crate::proofs::TornLemmas::whole_length))]
fn fault_before_end(alloc: Global, kind: Kind, bytes: &[u8], turn: u32) -> Option<FeedFault>
    requires room { length bytes.now ≤ block_size kind }
    ensures some { IfSome result (Gives (fault_before_end kind (turn, bytes.now))) }
    ensures place { IfSome result (IsInBlock kind turn) }
    ensures none { IfNone result (fault_before_end kind (turn, bytes.now) ≡ None) }
{
    let size = record_size(kind);
    let whole = &bytes[..bytes.len() / size * size];
    match kind {
        Kind::FailedLogin => block_batch(alloc, kind, whole, turn).err(),
        Kind::Login | Kind::Proc => None,
    }
}

/// Why a block that ends inside a record is refused.
#[tactic(auto, using(crate::proofs::TornLemmas::before_gives, crate::proofs::TornLemmas::torn_here))]
fn torn_fault(alloc: Global, kind: Kind, bytes: &[u8], turn: u32) -> FeedFault
    requires room { length bytes.now ≤ block_size kind }
    requires torn { length bytes.now % record_size kind ≢ 0 }
    ensures fault { Gives (Some (torn_fault kind (turn * block_size kind + length bytes.now) (turn, bytes.now))) result }
    ensures place { IsInBlock kind turn result }
{
    if let Some(fault) = fault_before_end(alloc, kind, bytes, turn) {
        return fault;
    }
    let size = record_size(kind);
    FeedFault::Torn {
        records: u64::from(turn) * 1024 + (bytes.len() / size) as u64,
        rest: (bytes.len() % size) as u64,
    }
}

/// The batch of the bytes of a block.
#[tactic(auto, using(crate::proofs::TornLemmas::torn_refusal))]
fn whole_batch(
    alloc: Global,
    kind: Kind,
    bytes: &[u8],
    turn: u32,
    most: u32,
) -> Result<Batch, FeedFault>
    requires room { length bytes.now ≤ block_size kind }
    requires early { turn < most }
    ensures whole { OnOk result (length bytes.now % record_size kind ≡ 0) }
    ensures good { OnOk result
        (block_fault most kind (turn * block_size kind + length bytes.now) (turn, bytes.now) ≡ None) }
    ensures value { IfOk result (λ batch. batch ≡ records_in kind bytes.now) }
    ensures count { IfOk result (λ batch.
        record_count batch ≡ length bytes.now / record_size kind) }
    ensures err { IfErr result (IsBlockRefusal most kind turn bytes.now) }
    ensures place { IfErr result (IsInBlock kind turn) }
{
    if bytes.len() % record_size(kind) != 0 {
        return Err(torn_fault(alloc, kind, bytes, turn));
    }
    block_batch(alloc, kind, bytes, turn)
}

/// The batch of the input's next block, or none at the end of the input.
#[tactic(auto, using(crate::proofs::TurnLemmas::stops_here))]
pub(crate) fn next_batch<I: Input>(
    alloc: Global,
    kind: Kind,
    input: &mut I,
    block: &mut Vec<u8>,
    turn: u32,
    most: u32,
) -> Result<Option<Batch>, FeedFault>
    requires countable { I.failures input.old < 2 ^ 64 - 1 }
    requires room { block_size kind ≤ vec_capacity block.old }
    requires ready { vec_len block.old ≤ block_size kind }
    requires early { turn < most }
    ensures room { block_size kind ≤ vec_capacity block.new }
    ensures ready { vec_len block.new ≤ block_size kind }
    ensures few { TakesAtMost (block_size kind) (I.to_come input.old) (I.to_come input.new) }
    ensures end { IfOk result (λ next. IsLast next → IsAtEnd (I.to_come input.new)) }
    ensures failures { OnOk result (I.failures input.new ≡ I.failures input.old) }
    ensures nature { I.can_fail input.new ≡ I.can_fail input.old }
    ensures read { IfErr result (λ f. f ≡ fault.Read
        → (I.failures input.new ≡ I.failures input.old + 1) × (I.can_fail input.old ≡ true)) }
    ensures unfailed { IfErr result (λ f. f ≢ fault.Read
        → I.failures input.new ≡ I.failures input.old) }
    ensures reading { IfErr result IsReadFault }
    ensures place { IfErr result (IsInBlock kind turn) }
    ensures batch { IfOk result (λ next. IfSome next (IsBatch kind)) }
    ensures takes { IfOk result (λ next. (rest : List ℕ) → I.to_come input.old ≡ Some rest
        → Takes most kind turn rest (I.to_come input.new) next) }
    ensures stops { IfErr result (λ f. (rest : List ℕ) → I.to_come input.old ≡ Some rest
        → TurnStops most kind turn rest f) }
{
    let filled = read_block(input, kind, block)?;
    if filled == 0 {
        return Ok(None);
    }
    let batch = whole_batch(alloc, kind, &block[..filled], turn, most)?;
    Ok(Some(batch))
}

/// Whether no batch comes after this one: it is not full.
pub(crate) fn is_last(batch: &Batch) -> bool
    ensures { MatchBool result (record_count batch.now < 1024) (1024 ≤ record_count batch.now) }
{
    batch.len() < BATCH_LIMIT
}
