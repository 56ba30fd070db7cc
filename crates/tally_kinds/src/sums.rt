//! The files that sa(8) of GNU acct keeps its sums in, told by their layouts.
ghost use Rattle.std.specs.Prelude.{◌≡◌, ◌≤◌, length};
ghost use Rattle.std.specs.List.{list_all};
ghost use Rattle.tally_kinds.specs.Records as Records;
ghost use Rattle.tally_kinds.specs.Sums as Spec;

use crate::records::{has_text, is_whole};
use crate::texts::are_zeros;

/// The size of an entry of savacct.
const SAVACCT_SIZE: usize = 96;

/// The size of an entry of usracct.
const USRACCT_SIZE: usize = 104;

/// The size of a count of calls and of a sum.
const NUMBER_SIZE: usize = 8;

/// Whether 8 bytes are a count of calls.
fn is_count(bytes: &[u8]) -> bool
    requires { 8 ≤ length bytes.now }
    ensures { result ≡ Spec.is_count bytes.now }
{
    !are_zeros(&bytes[0..4]) && are_zeros(&bytes[4..8])
}

fn is_sum(bytes: &[u8; NUMBER_SIZE]) -> bool
    ensures { result ≡ Spec.is_sum bytes.now }
{
    are_zeros(bytes) || (0x3e..=0x44).contains(&bytes[7])
}

fn are_sums(numbers: &[[u8; NUMBER_SIZE]]) -> bool
    ensures { result ≡ list_all Spec.is_sum numbers.now }
{
    numbers.iter().all(|number| is_sum(number))
}

/// Whether bytes begin with a count of calls and eight sums.
fn has_sums(bytes: &[u8]) -> bool
    requires { 72 ≤ length bytes.now }
    ensures { result ≡ Spec.has_sums bytes.now }
{
    let (numbers, _) = bytes[8..72].as_chunks::<NUMBER_SIZE>();
    is_count(&bytes[0..8]) && are_sums(numbers)
}

fn is_command_sum(bytes: &[u8; SAVACCT_SIZE]) -> bool
    ensures { result ≡ Spec.is_command_sum bytes.now }
{
    has_text(bytes, 0, 16) && bytes[16] <= 1 && has_sums(&bytes[24..96])
}

fn is_user_sum(bytes: &[u8; USRACCT_SIZE]) -> bool
    ensures { result ≡ Spec.is_user_sum bytes.now }
{
    has_text(bytes, 0, 32) && bytes[0] != 0 && has_sums(&bytes[32..104])
}

fn are_command_sums(entries: &[[u8; SAVACCT_SIZE]]) -> bool
    ensures { result ≡ list_all Spec.is_command_sum entries.now }
{
    entries.iter().all(|entry| is_command_sum(entry))
}

/// Whether a file has entries of savacct alone.
pub(crate) fn has_command_sums(front: &[u8], size: u64) -> bool
    ensures { result ≡ Records.has_all 96 Spec.is_command_sum front.now size }
{
    let (entries, _) = front.as_chunks::<SAVACCT_SIZE>();
    is_whole(SAVACCT_SIZE as u64, front, size) && are_command_sums(entries)
}

fn are_user_sums(entries: &[[u8; USRACCT_SIZE]]) -> bool
    ensures { result ≡ list_all Spec.is_user_sum entries.now }
{
    entries.iter().all(|entry| is_user_sum(entry))
}

/// Whether a file has entries of usracct alone.
pub(crate) fn has_user_sums(front: &[u8], size: u64) -> bool
    ensures { result ≡ Records.has_all 104 Spec.is_user_sum front.now size }
{
    let (entries, _) = front.as_chunks::<USRACCT_SIZE>();
    is_whole(USRACCT_SIZE as u64, front, size) && are_user_sums(entries)
}
