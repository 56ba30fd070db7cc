//! An input whose login records are counted block by block, and not kept.
ghost use Rattle.std.specs.Prelude.{◌≡◌, ◌≢◌, ◌+◌, ◌-◌, ◌^◌, ◌<◌, ◌≤◌, ◌*◌, IfErr, IfOk, IfSome, List, OnErr, OnOk, Some, [], true, vec_capacity, vec_len, ℕ};
ghost use Rattle.std.specs.Io.KnownBytes.{IsAtEnd};
ghost use Rattle.tally_records.specs.Records.{IsLogins, logins_in, record_count};
ghost use Rattle.tally_sessions.specs.ConnectSums.{CountsMore, IsCountOf};
ghost use Rattle.tally_desk.specs.Blocks.{block_size};
ghost use Rattle.tally_desk.specs.LoginCounting.{IsCountOfAtMost, IsLoginCount, IsLoginStop, IsStoppedLoginCount};
ghost use Rattle.tally_desk.specs.Takings.{TakesAtMost};
ghost use Rattle.tally_desk.specs.inside.LoginStops.{stopped_with};
ghost use Rattle.tally_desk.specs.inside.Turns.{IsBatch, IsInBlock, IsLast, IsReadFault, Takes, TurnStops};
ghost use Rattle.tally_desk.specs.declared.fault.FeedFault.TheVariants as fault;

use crate::fault::{FeedFault, Uncounted};
use crate::feeding::block::{block_size, is_last, next_batch};
use crate::feeding::expect_end;
use crate::feeding::filling::new_block;
use crate::feeding::input::Input;
use std::alloc::Global;
use std::hash::RandomState;
use tally_records::{Batch, Kind};
use tally_sessions::{ConnectSums, ENTRY_LIMIT};

/// Counts the records of a batch too, or none of them. There is room for them below the limit.
fn count_batch(sums: &mut ConnectSums, batch: &Batch) -> Result<(), FeedFault>
    requires kind { IsLogins batch.now }
    requires room { sums.old.count + record_count batch.now ≤ ENTRY_LIMIT }
    ensures added { OnOk result (CountsMore sums.old sums.new (logins_in batch.now)) }
    ensures keeps { sums.new.keeps_sessions ≡ sums.old.keeps_sessions }
    ensures refused { OnErr result (sums.new ≡ sums.old) }
    ensures memory { IfErr result (λ f. f ≡ fault.Memory) }
{
    sums.add(batch)?;
    Ok(())
}

/// The batch of the login records of the input's next block, or none at the end of the input.
fn next_logins<I: Input>(
    alloc: Global,
    input: &mut I,
    block: &mut Vec<u8>,
    turn: u32,
    most: u32,
) -> Result<Option<Batch>, FeedFault>
    requires countable { I.failures input.old < 2 ^ 64 - 1 }
    requires room { block_size Kind.Login ≤ vec_capacity block.old }
    requires ready { vec_len block.old ≤ block_size Kind.Login }
    requires early { turn < most }
    ensures room { block_size Kind.Login ≤ vec_capacity block.new }
    ensures ready { vec_len block.new ≤ block_size Kind.Login }
    ensures few { TakesAtMost (block_size Kind.Login) (I.to_come input.old) (I.to_come input.new) }
    ensures end { IfOk result (λ next. IsLast next → IsAtEnd (I.to_come input.new)) }
    ensures failures { OnOk result (I.failures input.new ≡ I.failures input.old) }
    ensures nature { I.can_fail input.new ≡ I.can_fail input.old }
    ensures read { IfErr result (λ f. f ≡ fault.Read
        → (I.failures input.new ≡ I.failures input.old + 1) × (I.can_fail input.old ≡ true)) }
    ensures unfailed { IfErr result (λ f. f ≢ fault.Read
        → I.failures input.new ≡ I.failures input.old) }
    ensures reading { IfErr result IsReadFault }
    ensures place { IfErr result (IsInBlock Kind.Login turn) }
    ensures batch { IfOk result (λ next. IfSome next (IsBatch Kind.Login)) }
    ensures takes { IfOk result (λ next. (rest : List ℕ) → I.to_come input.old ≡ Some rest
        → Takes most Kind.Login turn rest (I.to_come input.new) next) }
    ensures stops { IfErr result (λ f. (rest : List ℕ) → I.to_come input.old ≡ Some rest
        → TurnStops most Kind.Login turn rest f) }
{
    next_batch(alloc, Kind::Login, input, block, turn, most)
}

/// Counts the records of the input's blocks of 1,024 in order, up to its end or to its first block that is refused. More than `most`
/// blocks are too many.
fn count_login_blocks<I: Input>(
    alloc: Global,
    input: &mut I,
    sums: &mut ConnectSums,
    most: u32,
) -> Result<(), FeedFault>
    requires empty { IsCountOf sums.old [] }
    requires few { most ≤ 16384 }
    requires countable { I.failures input.old < 2 ^ 64 - 1 }
    ensures few { TakesAtMost (most * block_size Kind.Login + 1) (I.to_come input.old) (I.to_come input.new) }
    ensures end { OnOk result (IsAtEnd (I.to_come input.new)) }
    ensures nature { I.can_fail input.new ≡ I.can_fail input.old }
    ensures some { OnOk result (IsCountOfAtMost (most * 1024) sums.new) }
    ensures whole { OnOk result ((bytes : List ℕ) → I.to_come input.old ≡ Some bytes
        → IsLoginCount most bytes sums.new) }
    ensures keeps { sums.new.keeps_sessions ≡ sums.old.keeps_sessions }
    ensures stops { IfErr result (λ f. (bytes : List ℕ) → I.to_come input.old ≡ Some bytes
        → IsLoginStop most bytes (stopped_with sums.new.count f)) }
    ensures place { IfErr result (λ f. IsStoppedLoginCount most (stopped_with sums.new.count f)) }
    ensures failures { OnOk result (I.failures input.new ≡ I.failures input.old) }
    ensures unfailed { IfErr result (λ f. f ≢ fault.Read
        → I.failures input.new ≡ I.failures input.old) }
    ensures read { IfErr result (λ f. f ≡ fault.Read
        → (I.failures input.new ≡ I.failures input.old + 1) × (I.can_fail input.old ≡ true)) }
{
    let mut block = new_block(alloc, block_size(Kind::Login))?;
    for turn in 0..most {
        let Some(batch) = next_logins(alloc, input, &mut block, turn, most)? else {
            return Ok(());
        };
        count_batch(sums, &batch)?;
        if is_last(&batch) {
            return Ok(());
        }
    }
    expect_end(input, most)?;
    Ok(())
}

/// The count of no records, which keeps its sessions or not. Its tables are hashed by the keys.
fn count_of_none(alloc: Global, keys: RandomState, keeps_sessions: bool) -> ConnectSums
    ensures counted { IsCountOf result [] }
    ensures keeps { result.keeps_sessions ≡ keeps_sessions }
{
    if keeps_sessions {
        ConnectSums::with_sessions(alloc, keys)
    } else {
        ConnectSums::new(alloc, keys)
    }
}

/// The connect time of an input's login records. They are read by blocks of 1,024, and none is kept. `keeps_sessions` says whether the
/// count keeps its sessions, for reports by day.
///
/// At most `most` blocks are read, up to 16,384 of them. The first fault of the input is named, which is that of `feed` to a book
/// with room for `most` blocks, and with it how many records were counted, those of the full blocks before it. `Memory` and
/// `Read` come where memory runs out or the input fails before. It takes memory for one block of 384 KiB and its batch, and for
/// the lines and the users of logins, whose tables are hashed by the keys, and 12 bytes for each session that has ended, where these
/// are kept.
pub fn count_logins<I: Input>(
    alloc: Global,
    keys: RandomState,
    input: &mut I,
    most: u32,
    keeps_sessions: bool,
) -> Result<ConnectSums, Uncounted>
    requires few { most ≤ 16384 }
    requires countable { I.failures input.old < 2 ^ 64 - 1 }
    ensures few { TakesAtMost (most * block_size Kind.Login + 1) (I.to_come input.old) (I.to_come input.new) }
    ensures end { OnOk result (IsAtEnd (I.to_come input.new)) }
    ensures nature { I.can_fail input.new ≡ I.can_fail input.old }
    ensures some { IfOk result (IsCountOfAtMost (most * 1024)) }
    ensures whole { IfOk result (λ sums. (bytes : List ℕ) → I.to_come input.old ≡ Some bytes
        → IsLoginCount most bytes sums) }
    ensures keeps { IfOk result (λ sums. sums.keeps_sessions ≡ keeps_sessions) }
    ensures stops { IfErr result (λ u. (bytes : List ℕ) → I.to_come input.old ≡ Some bytes
        → IsLoginStop most bytes u) }
    ensures place { IfErr result (IsStoppedLoginCount most) }
    ensures failures { OnOk result (I.failures input.new ≡ I.failures input.old) }
    ensures unfailed { IfErr result (λ u. u.fault ≢ fault.Read
        → I.failures input.new ≡ I.failures input.old) }
    ensures read { IfErr result (λ u. u.fault ≡ fault.Read
        → (I.failures input.new ≡ I.failures input.old + 1) × (I.can_fail input.old ≡ true)) }
{
    let mut sums = count_of_none(alloc, keys, keeps_sessions);
    match count_login_blocks(alloc, input, &mut sums, most) {
        Ok(()) => Ok(sums),
        Err(fault) => Err(Uncounted {
            counted: sums.len() as u64,
            fault,
        }),
    }
}
