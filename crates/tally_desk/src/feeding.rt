//! An input that is fed to a desk, block by block.
ghost use Rattle.std.specs.Prelude.{◌≡◌, ◌≢◌, ◌+◌, ◌-◌, ◌^◌, ◌<◌, ◌⊎◌, ◌≤◌, ◌*◌, ◌==◌, if◌then◌else◌, IfOk, OnOk, List, ℕ, IfErr, Some, length, true};
ghost use Rattle.std.specs.Io.KnownBytes.{IsAtEnd};
ghost use Rattle.tally_book.specs.Rooms.{batches_in};
ghost use Rattle.tally_desk.specs.Blocks.{block_size};
ghost use Rattle.tally_desk.specs.Takings.{TakesAtMost};
ghost use Rattle.tally_desk.specs.Feeds.{Counts, IsFeedRefusal, IsStopped, IsWhole, Posts, Stops};
ghost use Rattle.tally_desk.specs.declared.fault.FeedFault.TheVariants as fault;
ghost use Rattle.tally_records.specs.Records.{Records};
ghost use Rattle.tally_desk.specs.Passes.{IsCurrent, Keeps};

mod block;
pub(crate) mod counting;
mod filling;
pub(crate) mod input;
pub(crate) mod login_counting;
pub(crate) mod memory;
pub(crate) mod reader;

use crate::desk::{Desk, Pass};
use crate::fault::FeedFault;
use crate::feeding::block::{block_size, is_last, next_batch};
use crate::feeding::filling::new_block;
use crate::feeding::input::Input;
use crate::gate::Gate;
use std::alloc::Global;
use std::sync::Wait;
use tally_records::Kind;

/// What was fed.
#[derive(Clone, Copy, Debug, PartialEq, Eq)]
pub struct Fed {
    pub records: u64,
    pub batches: u64,
}

/// What was fed by so many full batches and one of so many records more.
fn fed_by(full: u32, records: usize) -> Fed
    requires small { records ≤ 1024 }
    ensures records { result.records ≡ full * 1024 + records }
    ensures batches { result.batches ≡ full + (if records == 0 then 0 else 1) }
{
    let more = u64::from(records > 0);
    Fed {
        records: u64::from(full) * 1024 + records as u64,
        batches: u64::from(full) + more,
    }
}

/// The end of an input that has given as many blocks as it may, so many.
fn expect_end<I: Input>(input: &mut I, most: u32) -> Result<(), FeedFault>
    requires { I.failures input.old < 2 ^ 64 - 1 }
    ensures ok { OnOk result (IsAtEnd (I.to_come input.old)) }
    ensures end { OnOk result (IsAtEnd (I.to_come input.new)) }
    ensures few { TakesAtMost 1 (I.to_come input.old) (I.to_come input.new) }
    ensures nature { I.can_fail input.new ≡ I.can_fail input.old }
    ensures err { IfErr result (λ f. (f ≡ fault.Read) ⊎ (f ≡ fault.TooLong (1024 * most))) }
    ensures long { IfErr result (λ f. f ≡ fault.TooLong (1024 * most) → (bytes : List ℕ)
        → I.to_come input.old ≡ Some bytes → 0 < length bytes) }
    ensures failures { OnOk result (I.failures input.new ≡ I.failures input.old) }
    ensures unfailed { IfErr result (λ f. f ≢ fault.Read
        → I.failures input.new ≡ I.failures input.old) }
    ensures read { IfErr result (λ f. f ≡ fault.Read
        → (I.failures input.new ≡ I.failures input.old + 1) × (I.can_fail input.old ≡ true)) }
{
    let mut byte = [0u8; 1];
    if input.take(&mut byte)? == 0 {
        return Ok(());
    }
    Err(FeedFault::TooLong {
        limit: u64::from(most) * 1024,
    })
}

/// Posts the input's blocks of 1,024 records in order, of which it may have so many.
fn feed_blocks<R: Wait, I: Input, G: Gate>(
    rt: &R,
    alloc: Global,
    desk: &Desk,
    pass: &mut Pass,
    kind: Kind,
    input: &mut I,
    gate: &G,
    most: u32,
) -> Result<Fed, FeedFault>
    requires desk { pass.old.desk ≡ desk.now.id }
    requires countable { I.failures input.old < 2 ^ 64 - 1 }
    ensures few { TakesAtMost (most * block_size kind + 1) (I.to_come input.old) (I.to_come input.new) }
    ensures end { OnOk result (IsAtEnd (I.to_come input.new)) }
    ensures nature { I.can_fail input.new ≡ I.can_fail input.old }
    ensures keeps { Keeps pass.old pass.new }
    ensures current { (pass.new ≡ pass.old) ⊎ IsCurrent pass.new }
    ensures counted { IfOk result (λ fed. (batches : List Records)
        × Posts pass.old pass.new batches × Counts kind batches fed) }
    ensures whole { IfOk result (λ _. (bytes : List ℕ) → I.to_come input.old ≡ Some bytes
        → IsWhole most kind bytes (Posts pass.old pass.new)) }
    ensures stops { IfErr result (λ f. (bytes : List ℕ) → I.to_come input.old ≡ Some bytes
        → Stops most kind bytes (Posts pass.old pass.new) pass.new.seen f) }
    ensures posts { IfErr result (IsStopped most kind (Posts pass.old pass.new)) }
    ensures full { IfErr result (IsFeedRefusal kind pass.new.seen) }
    ensures failures { OnOk result (I.failures input.new ≡ I.failures input.old) }
    ensures unfailed { IfErr result (λ f. f ≢ fault.Read
        → I.failures input.new ≡ I.failures input.old) }
    ensures read { IfErr result (λ f. f ≡ fault.Read
        → (I.failures input.new ≡ I.failures input.old + 1) × (I.can_fail input.old ≡ true)) }
{
    let mut block = new_block(alloc, block_size(kind))?;
    for turn in 0..most {
        let Some(batch) = next_batch(alloc, kind, input, &mut block, turn, most)? else {
            return Ok(fed_by(turn, 0));
        };
        gate.before(pass.number(), turn);
        desk.post(rt, pass, &batch)?;
        if is_last(&batch) {
            return Ok(fed_by(turn, batch.len()));
        }
    }
    expect_end(input, most)?;
    Ok(fed_by(most, 0))
}

/// Posts the input's blocks of 1,024 records in order, up to its end or to its first block that is
/// refused. It may have as many records as the book has room for. Failed logins are stored as login records. The gate comes before
/// each post, with the number of those before. It waits for the caller's turns.
pub fn feed<R: Wait, I: Input, G: Gate>(
    rt: &R,
    alloc: Global,
    desk: &Desk,
    pass: &mut Pass,
    kind: Kind,
    input: &mut I,
    gate: &G,
) -> Result<Fed, FeedFault>
    requires desk { pass.old.desk ≡ desk.now.id }
    requires countable { I.failures input.old < 2 ^ 64 - 1 }
    ensures few { TakesAtMost (batches_in pass.old.seen.room * block_size kind + 1) (I.to_come input.old) (I.to_come input.new) }
    ensures end { OnOk result (IsAtEnd (I.to_come input.new)) }
    ensures nature { I.can_fail input.new ≡ I.can_fail input.old }
    ensures keeps { Keeps pass.old pass.new }
    ensures current { (pass.new ≡ pass.old) ⊎ IsCurrent pass.new }
    ensures counted { IfOk result (λ fed. (batches : List Records)
        × Posts pass.old pass.new batches × Counts kind batches fed) }
    ensures whole { IfOk result (λ _. (bytes : List ℕ) → I.to_come input.old ≡ Some bytes
        → IsWhole (batches_in pass.old.seen.room) kind bytes (Posts pass.old pass.new)) }
    ensures stops { IfErr result (λ f. (bytes : List ℕ) → I.to_come input.old ≡ Some bytes
        → Stops (batches_in pass.old.seen.room) kind bytes (Posts pass.old pass.new) pass.new.seen f) }
    ensures posts { IfErr result (IsStopped (batches_in pass.old.seen.room) kind (Posts pass.old pass.new)) }
    ensures full { IfErr result (IsFeedRefusal kind pass.new.seen) }
    ensures failures { OnOk result (I.failures input.new ≡ I.failures input.old) }
    ensures unfailed { IfErr result (λ f. f ≢ fault.Read
        → I.failures input.new ≡ I.failures input.old) }
    ensures read { IfErr result (λ f. f ≡ fault.Read
        → (I.failures input.new ≡ I.failures input.old + 1) × (I.can_fail input.old ≡ true)) }
{
    let most = pass.room().batches();
    feed_blocks(rt, alloc, desk, pass, kind, input, gate, most)
}
