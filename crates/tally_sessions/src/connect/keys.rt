//! Keys of tables with a sum for each user, and sums that may go below 0.
ghost use Rattle.std.specs.Prelude.{◌≡◌, ◌≤◌, ◌+◌, ◌^◌, ℕ, ℤ, pos, neg_ℤ, ◌+ℤ◌, ◌≤ℤ◌, false, OnOk, sum_by, unwrap_or, if◌then◌else◌};
ghost use Rattle.std.specs.BTreeMap.{get};
ghost use Rattle.std.specs.Ordering.{is_eq};
ghost use Rattle.tally_sessions.specs.inside.Sums.{change_of};

use crate::connect::name_key::NameKey;
use std::collections::BTreeMap;
use tally_records::Memory;

/// A user on a day.
#[derive(Clone, Copy, PartialEq, Eq, PartialOrd, Ord)]
pub(crate) struct DayUser {
    pub(crate) day: i32,
    pub(crate) user: NameKey,
}

/// A user from a row of a clock on.
#[derive(Clone, Copy, PartialEq, Eq, PartialOrd, Ord)]
pub(crate) struct RowUser {
    pub(crate) user: NameKey,
    pub(crate) row: usize,
}

/// A key's sum after a change, where one without a sum had 0.
fn sum_after(so_far: Option<i64>, more: i64) -> i64
    requires low { neg_ℤ (pos (2 ^ 61)) ≤ℤ unwrap_or so_far (pos 0) }
    requires high { unwrap_or so_far (pos 0) ≤ℤ pos (2 ^ 61) }
    requires more_low { neg_ℤ (pos (2 ^ 61)) ≤ℤ more }
    requires more_high { more ≤ℤ pos (2 ^ 61) }
    ensures { result ≡ unwrap_or so_far (pos 0) +ℤ more }
{
    so_far.unwrap_or(0) + more
}

/// Adds to the sum of a key.
pub(crate) fn add_change<K: Ord + Copy + Drop>(
    changes: &mut BTreeMap<K, i64>,
    at: K,
    more: i64,
) -> Result<(), Memory>
    requires low { neg_ℤ (pos (2 ^ 61)) ≤ℤ change_of K.cmp changes.old.entries at }
    requires high { change_of K.cmp changes.old.entries at ≤ℤ pos (2 ^ 61) }
    requires more_low { neg_ℤ (pos (2 ^ 61)) ≤ℤ more }
    requires more_high { more ≤ℤ pos (2 ^ 61) }
    ensures value { OnOk result ((k : K) → change_of K.cmp changes.new.entries k
        ≡ change_of K.cmp changes.old.entries k +ℤ (if is_eq (K.cmp at k) then more else pos 0)) }
    ensures others { OnOk result ((k : K) → is_eq (K.cmp at k) ≡ false
        → get K.cmp changes.new k ≡ get K.cmp changes.old k) }
    ensures ahead { OnOk result ((weight : K → ℕ) → sum_by (λ e. weight e.0) changes.new.entries ≤ sum_by (λ e. weight e.0) changes.old.entries + weight at) }
{
    match changes.get_mut(&at) {
        Some(sum) => {
            *sum = sum_after(Some(*sum), more);
            Ok(())
        }
        None => {
            changes.insert(at, sum_after(None, more))?;
            Ok(())
        }
    }
}
