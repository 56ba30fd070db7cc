//! Login records, where those that say nothing are passed over.
ghost use Rattle.std.specs.Prelude.{◌≡◌, IfOk, filter};
ghost use Rattle.std.specs.List.{list_all};
ghost use Rattle.tally_check.specs.Logins as Spec;

use crate::seen::are_zeros;
use std::alloc::{AllocError, Global};
use tally_records::{LOGIN_SIZE, LoginRecord, read_login};

/// The record of the bytes, where they have a type and are not zeros alone.
pub(crate) fn good_login(bytes: &[u8; LOGIN_SIZE]) -> Option<LoginRecord>
    ensures { result ≡ Spec.good_login bytes.now }
{
    if are_zeros(bytes) {
        return None;
    }
    read_login(bytes).ok()
}

fn is_good(bytes: &[u8; LOGIN_SIZE]) -> bool
    ensures { result ≡ Spec.is_good bytes.now }
{
    good_login(bytes).is_some()
}

/// Whether all bytes have such a record.
pub(crate) fn are_good(records: &[[u8; LOGIN_SIZE]]) -> bool
    ensures { result ≡ list_all Spec.is_good records.now }
{
    records.iter().all(|bytes| is_good(bytes))
}

/// Those that have such a record.
pub(crate) fn good_records(
    alloc: Global,
    records: &[[u8; LOGIN_SIZE]],
) -> Result<Vec<[u8; LOGIN_SIZE]>, AllocError>
    ensures { IfOk result (λ good. good.items ≡ filter Spec.is_good records.now) }
{
    records
        .iter()
        .copied()
        .filter(|bytes| is_good(bytes))
        .collect(alloc)
}
