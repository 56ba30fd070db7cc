//! Records of logins and processes, told by their layouts.
ghost use Rattle.std.specs.Prelude.{◌≡◌, ◌+◌, ◌≤◌, ◌&&◌, ◌<◌, length, slice_index};
ghost use Rattle.std.specs.List.{list_all, list_any};
ghost use Rattle.tally_kinds.specs.Records as Spec;

use crate::texts::{are_zeros, is_padded};

/// The size of a login record, utmp(5) on x86-64 and other machines.
const LOGIN_SIZE: usize = 384;

/// The size of a login record where its times take 64 bits, as on 64-bit ARM.
const LONG_LOGIN_SIZE: usize = 400;

/// The size of a process record, acct(5).
const PROC_SIZE: usize = 64;

/// The size of an entry of lastlog.
const LASTLOG_SIZE: usize = 292;

/// Whether a file has whole records of a size, one at least, and not zeros alone.
pub(crate) fn is_whole(record_size: u64, front: &[u8], size: u64) -> bool
    requires { 0 < record_size }
    ensures { result ≡ Spec.is_whole record_size front.now size }
{
    size % record_size == 0 && record_size <= front.len() as u64 && !are_zeros(front)
}

/// Whether the field of so many bytes at an offset holds a text.
pub(crate) fn has_text(bytes: &[u8], offset: usize, count: usize) -> bool
    requires { offset + count ≤ length bytes.now }
    ensures { result ≡ Spec.has_text offset count bytes.now }
{
    is_padded(&bytes[offset..offset + count])
}

fn is_type(low: u8, high: u8) -> bool
    ensures { result ≡ Spec.is_type low high }
{
    low <= 9 && high == 0
}

fn has_login_texts(bytes: &[u8]) -> bool
    requires { 384 ≤ length bytes.now }
    ensures { result ≡ Spec.has_login_texts bytes.now }
{
    has_text(bytes, 8, 32) && has_text(bytes, 44, 32) && has_text(bytes, 76, 256)
}

fn is_login(bytes: &[u8]) -> bool
    requires { 384 ≤ length bytes.now }
    ensures { result ≡ Spec.is_login bytes.now }
{
    is_type(bytes[0], bytes[1]) && has_login_texts(bytes)
}

fn is_big_endian_login(bytes: &[u8]) -> bool
    requires { 384 ≤ length bytes.now }
    ensures { result ≡ Spec.is_big_endian_login bytes.now }
{
    is_type(bytes[1], bytes[0]) && has_login_texts(bytes)
}

fn is_failed_login(bytes: &[u8]) -> bool
    requires { 384 ≤ length bytes.now }
    ensures { result ≡ Spec.is_failed_login bytes.now }
{
    is_login(bytes) && (bytes[0] == 0 || bytes[0] == 6 || bytes[0] == 7)
}

fn has_type(bytes: &[u8; LOGIN_SIZE]) -> bool
    ensures { result ≡ Spec.has_type bytes.now }
{
    bytes[0] != 0
}

fn is_proc(two: u8, three: u8, bytes: &[u8; PROC_SIZE]) -> bool
    ensures { result ≡ Spec.is_proc two three bytes.now }
{
    bytes[1] == two && has_text(bytes, 36, 17) || bytes[1] == three && has_text(bytes, 48, 16)
}

fn is_last_login(bytes: &[u8; LASTLOG_SIZE]) -> bool
    ensures { result ≡ Spec.is_last_login bytes.now }
{
    has_text(bytes, 4, 32) && bytes[35] == 0 && has_text(bytes, 36, 256) && bytes[291] == 0
}

fn are_logins(entries: &[[u8; LOGIN_SIZE]]) -> bool
    ensures { result ≡ list_all Spec.is_login entries.now }
{
    entries.iter().all(|entry| is_login(entry))
}

/// Whether a file has login records alone.
pub(crate) fn has_logins(front: &[u8], size: u64) -> bool
    ensures { result ≡ Spec.has_all 384 Spec.is_login front.now size }
{
    let (entries, _) = front.as_chunks::<LOGIN_SIZE>();
    is_whole(LOGIN_SIZE as u64, front, size) && are_logins(entries)
}

fn are_failed_logins(entries: &[[u8; LOGIN_SIZE]]) -> bool
    ensures { result ≡ list_all Spec.is_failed_login entries.now }
{
    entries.iter().all(|entry| is_failed_login(entry))
}

fn any_has_type(entries: &[[u8; LOGIN_SIZE]]) -> bool
    ensures { result ≡ list_any Spec.has_type entries.now }
{
    entries.iter().any(|entry| has_type(entry))
}

/// Whether a file has records of failed logins alone.
pub(crate) fn has_failed_logins(front: &[u8], size: u64) -> bool
    ensures { result ≡ Spec.has_failed_logins front.now size }
{
    let (entries, _) = front.as_chunks::<LOGIN_SIZE>();
    is_whole(LOGIN_SIZE as u64, front, size) && are_failed_logins(entries) && any_has_type(entries)
}

fn are_big_endian_logins(entries: &[[u8; LOGIN_SIZE]]) -> bool
    ensures { result ≡ list_all Spec.is_big_endian_login entries.now }
{
    entries.iter().all(|entry| is_big_endian_login(entry))
}

/// Whether a file has login records of a big-endian machine alone.
pub(crate) fn has_big_endian_logins(front: &[u8], size: u64) -> bool
    ensures { result ≡ Spec.has_all 384 Spec.is_big_endian_login front.now size }
{
    let (entries, _) = front.as_chunks::<LOGIN_SIZE>();
    is_whole(LOGIN_SIZE as u64, front, size) && are_big_endian_logins(entries)
}

fn are_long_logins(entries: &[[u8; LONG_LOGIN_SIZE]]) -> bool
    ensures { result ≡ list_all Spec.is_login entries.now }
{
    entries.iter().all(|entry| is_login(entry))
}

fn are_big_endian_long_logins(entries: &[[u8; LONG_LOGIN_SIZE]]) -> bool
    ensures { result ≡ list_all Spec.is_big_endian_login entries.now }
{
    entries.iter().all(|entry| is_big_endian_login(entry))
}

/// Whether a file has login records of 400 bytes alone, all of one byte order.
pub(crate) fn has_long_logins(front: &[u8], size: u64) -> bool
    ensures { result ≡ Spec.has_long_logins front.now size }
{
    let (entries, _) = front.as_chunks::<LONG_LOGIN_SIZE>();
    is_whole(LONG_LOGIN_SIZE as u64, front, size)
        && (are_long_logins(entries) || are_big_endian_long_logins(entries))
}

fn are_procs(two: u8, three: u8, entries: &[[u8; PROC_SIZE]]) -> bool
    ensures { result ≡ list_all (Spec.is_proc two three) entries.now }
{
    entries.iter().all(|entry| is_proc(two, three, entry))
}

/// Whether a file has process records alone, with these bytes as versions 2 and 3.
pub(crate) fn has_procs(two: u8, three: u8, front: &[u8], size: u64) -> bool
    ensures { result ≡ Spec.has_all 64 (Spec.is_proc two three) front.now size }
{
    let (entries, _) = front.as_chunks::<PROC_SIZE>();
    is_whole(PROC_SIZE as u64, front, size) && are_procs(two, three, entries)
}

fn are_last_logins(entries: &[[u8; LASTLOG_SIZE]]) -> bool
    ensures { result ≡ list_all Spec.is_last_login entries.now }
{
    entries.iter().all(|entry| is_last_login(entry))
}

/// Whether a file has entries of lastlog alone.
pub(crate) fn has_last_logins(front: &[u8], size: u64) -> bool
    ensures { result ≡ Spec.has_all 292 Spec.is_last_login front.now size }
{
    let (entries, _) = front.as_chunks::<LASTLOG_SIZE>();
    is_whole(LASTLOG_SIZE as u64, front, size) && are_last_logins(entries)
}
