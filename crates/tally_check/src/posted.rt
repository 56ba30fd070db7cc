//! Login records posted to sessions, where those that say nothing are passed over.
ghost use Rattle.std.specs.Prelude.{◌≡◌, ◌≤◌, ◌+◌, ◌++◌, None, true, IfOk, OnOk, length};
ghost use Rattle.std.specs.List.{list_all};
ghost use Rattle.tally_check.specs.Logins.{is_good, logins_in};
ghost use Rattle.tally_records.specs.Records.{Logins};
ghost use Rattle.tally_sessions.specs.Hosts.{posted_by};

use crate::logins::{are_good, good_records};
use std::alloc::Global;
use tally_records::{BATCH_LIMIT, Batch, LOGIN_SIZE, Memory};
use tally_sessions::{ENTRY_LIMIT, Sessions};

/// The batch of records that all are good.
fn batch_of(alloc: Global, records: &[[u8; LOGIN_SIZE]]) -> Result<Batch, Memory>
    requires good { list_all is_good records.now ≡ true }
    requires few { length records.now ≤ BATCH_LIMIT }
    ensures { IfOk result (λ batch. batch ≡ Logins (logins_in records.now)) }
{
    match Batch::logins(alloc, records.as_flattened()) {
        Ok(batch) => Ok(batch),
        Err(_) => Err(Memory),
    }
}

/// Posts records that all are good.
fn post_good(
    alloc: Global,
    sessions: &mut Sessions,
    records: &[[u8; LOGIN_SIZE]],
) -> Result<(), Memory>
    requires host { sessions.old.hosts ≡ 1 }
    requires good { list_all is_good records.now ≡ true }
    requires few { length records.now ≤ BATCH_LIMIT }
    requires room { length sessions.old.entries + length records.now ≤ ENTRY_LIMIT }
    ensures { OnOk result (sessions.new ≡ record sessions.old { entries = sessions.old.entries ++ posted_by 0 (logins_in records.now); ready = None }) }
{
    let batch = batch_of(alloc, records)?;
    sessions.prepare(0, &batch)?;
    sessions.add(0, &batch);
    Ok(())
}

/// Posts those of some records that are good.
fn post_those_good(
    alloc: Global,
    sessions: &mut Sessions,
    records: &[[u8; LOGIN_SIZE]],
) -> Result<(), Memory>
    requires host { sessions.old.hosts ≡ 1 }
    requires few { length records.now ≤ BATCH_LIMIT }
    requires room { length sessions.old.entries + length records.now ≤ ENTRY_LIMIT }
    ensures { OnOk result (sessions.new ≡ record sessions.old { entries = sessions.old.entries ++ posted_by 0 (logins_in records.now); ready = None }) }
{
    let good = good_records(alloc, records)?;
    post_good(alloc, sessions, good.as_slice())
}

/// Posts some records, and passes over those that say nothing. Where all are good, none is copied.
pub(crate) fn post_records(
    alloc: Global,
    sessions: &mut Sessions,
    records: &[[u8; LOGIN_SIZE]],
) -> Result<(), Memory>
    requires host { sessions.old.hosts ≡ 1 }
    requires few { length records.now ≤ BATCH_LIMIT }
    requires room { length sessions.old.entries + length records.now ≤ ENTRY_LIMIT }
    ensures { OnOk result (sessions.new ≡ record sessions.old { entries = sessions.old.entries ++ posted_by 0 (logins_in records.now); ready = None }) }
{
    if are_good(records) {
        post_good(alloc, sessions, records)
    } else {
        post_those_good(alloc, sessions, records)
    }
}
