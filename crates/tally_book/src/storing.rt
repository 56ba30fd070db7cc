//! The steps in which a batch is stored.
ghost use Rattle.std.specs.Prelude.{◌≡◌, ◌≢◌, ◌+◌, ◌++◌, is_ok, if◌then◌else◌, ◌<◌, ◌≤◌, length, IfErr, MatchBool, OnOk};
ghost use Rattle.tally_book.specs.Refusals.{HasRoom, IsPostRefusal};
ghost use Rattle.tally_sessions.specs.Hosts.{posted_by};
ghost use Rattle.tally_usage.specs.Summary.{entries_of};
ghost use Rattle.tally_records.specs.Records.{logins_in, procs_in, record_count};

use crate::book::CALL_LIMIT;
use crate::fault::PostFault;
use crate::history::Counts;
use crate::logins::LoginStore;
use crate::room::Room;
use tally_records::{BATCH_LIMIT, Batch, Kind, Memory};
use tally_sessions::ENTRY_LIMIT as LOGIN_LIMIT;
use tally_usage::{ENTRY_LIMIT as PROC_LIMIT, Summary};

/// How many records are stored.
pub(crate) fn counts(logins: &LoginStore, summary: &Summary) -> Counts
    ensures logins { result.logins ≡ length logins.now.entries }
    ensures procs { result.procs ≡ length summary.now.entries }
{
    Counts {
        logins: logins.entries().len() as u64,
        procs: summary.entries().len() as u64,
    }
}

/// Whether a history of so many calls has room for no other.
pub(crate) fn is_full(calls: usize) -> bool
    ensures { MatchBool result (CALL_LIMIT ≤ calls) (calls < CALL_LIMIT) }
{
    calls >= CALL_LIMIT
}

/// Sees that the batch and the call fit.
pub(crate) fn check_room(
    room: Room,
    stored: Counts,
    calls: usize,
    batch: &Batch,
) -> Result<(), PostFault>
    requires few_logins { stored.logins ≤ room }
    requires few_procs { stored.procs ≤ room }
    requires few_calls { calls ≤ CALL_LIMIT }
    ensures room { OnOk result (HasRoom room stored batch.now) }
    ensures calls { OnOk result (calls < CALL_LIMIT) }
    ensures few { OnOk result (record_count batch.now ≤ BATCH_LIMIT) }
    ensures cause { IfErr result (IsPostRefusal room stored calls batch.now) }
    ensures told { IfErr result (λ f. f ≢ PostFault.Memory) }
{
    let count = batch.len() as u64;
    let most = u64::from(room.records());
    match batch.kind() {
        Kind::Login | Kind::FailedLogin if stored.logins + count > most => {
            return Err(PostFault::LoginsFull {
                stored: stored.logins,
            });
        }
        Kind::Proc if stored.procs + count > most => {
            return Err(PostFault::ProcsFull {
                stored: stored.procs,
            });
        }
        Kind::Login | Kind::FailedLogin | Kind::Proc => {}
    }
    if is_full(calls) {
        return Err(PostFault::CallsFull);
    }
    Ok(())
}

/// Stores a batch as the host's, or nothing of it.
pub(crate) fn store(
    logins: &mut LoginStore,
    summary: &mut Summary,
    host: u32,
    batch: &Batch,
) -> Result<(), Memory>
    requires host { host < logins.old.hosts }
    requires logins { length logins.old.entries + length (logins_in batch.now) ≤ LOGIN_LIMIT }
    requires procs { length summary.old.entries + length (procs_in batch.now) ≤ PROC_LIMIT }
    ensures hosts { logins.new.hosts ≡ logins.old.hosts }
    ensures logins { logins.new.entries ≡ (if is_ok result then logins.old.entries ++ posted_by host (logins_in batch.now) else logins.old.entries) }
    ensures procs { summary.new.entries ≡ (if is_ok result then summary.old.entries ++ entries_of host (procs_in batch.now) else summary.old.entries) }
{
    match batch.kind() {
        Kind::Login | Kind::FailedLogin => logins.store(host, batch)?,
        Kind::Proc => {
            summary.prepare(host, batch)?;
            summary.add(host, batch);
        }
    }
    Ok(())
}
